//! The printer: one layout for every script, and the line that tells a fault.
//!
//! Start with [`print`], which prints the tree of a script by a [`Layout`]; [`Printer`] prints some of its
//! entries on a [`Page`]; [`message`] is the line that tells a fault, and [`add_bare`] copies a name or a
//! number. No reader is needed here: the crate `shpieces` prints scripts while they are read. What is printed
//! for a tree is `printed` in `specs/Printed`, by cases, one for each rule of the layout. A function of
//! `commands`, `items` or `comments` prints what the definition of its name there, or in `specs/Written`,
//! says; but `print_function` what `print_command` says of a function, and `print_redirection` what
//! `print_item` says of a redirection. The words of their clauses stand in `specs/Written`.
#![tactic(auto)]

mod bare;
mod commands;
mod comments;
mod items;
pub mod laws;
mod layout;
mod messages;
mod page;
mod printer;
mod stretch;

pub use bare::add_bare;
pub use layout::{Layout, LayoutError};
pub use messages::message;
pub use page::Page;
pub use printer::{Printer, print};
