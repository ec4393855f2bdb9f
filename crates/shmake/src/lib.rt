//! What a reader does with the nodes of a tree, of which `shast` has the types and the definitions.
//!
//! [`make`] has a maker for each kind of node; [`put_bodies`] puts the bodies of a level's here-documents
//! into its list; [`pipeline_span`] and its like tell where a node stands that has no span of its own;
//! [`Spare`] keeps the room of trees that are done with for those that are still to be read.
#![tactic(auto)]

mod bodies;
pub mod make;
mod spans;
mod spare;

pub use bodies::{put_bodies, put_bodies_in};
pub use spans::{
    and_or_span, commands_end, compound_span, function_span, items_span, pipeline_span,
    redirection_span,
};
pub use spare::Spare;
