//! The types of the tree of a script of the POSIX shell: what a reader reads and a printer prints.
//!
//! Start with [`List`], the row of commands that a script is, and the types below it. A tree holds places and
//! no text: a [`Span`] is a piece of the source. What a tree is in the definitions is in `specs/Tree` and
//! `specs/View`, its normal form in `specs/Normal`, its nodes in `specs/Nodes`, its text without places in
//! `specs/Shape`. `shmake` makes trees, and what is asked of one, `shtree` answers.
#![tactic(auto)]

mod node;
mod tree;

pub use node::{NodeKind, NodeLine};
pub use tree::{
    AndOr, AndOrOperator, AndOrPart, Branch, CaseItem, Command, Comment, Compound, Content, Entry,
    Form, Function, HereDocument, Item, ItemContent, Join, List, Pipeline, PipelinePart,
    RedirectOperator, Redirection, Span, Subst, Word,
};
