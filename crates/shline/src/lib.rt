//! How one line of a script is read: its bytes, its tokens, its words and its commands, into a tree.
//!
//! Start with [`line_at`], which what reads scripts (the crates `shread` and `shpass`) calls for each
//! top-level line. `Cursor` is a place in a text; what reads a row of the grammar is a method of it, named as
//! the row is, and the rows of one construct stand in one file. What is read is told by the definitions of
//! the crate `shgrammar`; `specs/Clauses` says in their words what a function here answers.
#![tactic(auto)]

mod and_or;
mod between;
mod bytes;
mod case;
mod command;
mod comment;
mod compound;
mod cursor;
mod documents;
mod for_loop;
mod function;
mod join;
mod line;
mod list;
mod offsets;
mod parsed_line;
mod piece;
mod pipeline;
mod plain;
mod redirect;
mod reserved;
mod search;
mod sets;
mod standing;
mod stop;
mod stretch;
mod substitution;
mod token;
mod word;

pub use cursor::{NO_TREE, ReadOptions, WITH_TREE};
pub use parsed_line::{Begin, ParsedLine, line_at};
pub use stop::Stop;
