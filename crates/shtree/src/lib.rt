//! The tree of a script of the POSIX shell, and what is asked of it: what an editor asks for, and a test.
//!
//! Its types are those of `shast`, which come with it: [`List`] is the row of commands that a script is.
//! [`outline_of`] and [`nodes_at`] tell what stands where, [`append_at`] puts a list after another;
//! [`is_normal`] tells whether a list is in normal form, as each is that was read.
#![tactic(auto)]

mod append;
pub mod laws;
mod nodes;
mod normal;
mod visit;

pub use append::append_at;
pub use nodes::{nodes_at, outline_of};
pub use normal::is_normal;
pub use shast::{
    AndOr, AndOrOperator, AndOrPart, Branch, CaseItem, Command, Comment, Compound, Content, Entry,
    Form, Function, HereDocument, Item, ItemContent, Join, List, NodeKind, NodeLine, Pipeline,
    PipelinePart, RedirectOperator, Redirection, Span, Subst, Word,
};
pub use shmake::{commands_end, make, put_bodies, put_bodies_in};
