//! Laws of the grammar of shform: what follows from its definitions alone, and no code stands on. A reader of
//! the definitions sees by them what these come to, said in other words.
//!
//! The definitions are those of the crates `shgrammar` and `shast`. A law is a function without a body, whose
//! clauses speak of all texts, and each file has one topic: [`blank`] says when an entry is blank, [`bodies`]
//! where the body of a here-document ends, [`kept`] what is kept of a line without the trees in its command
//! substitutions, [`order`] in which order nodes are told, [`quotes`] that quotes are read in one way, and
//! [`repetitions`] that each turn of a repetition leads on.
#![tactic(auto)]

pub mod blank;
pub mod bodies;
pub mod kept;
pub mod order;
pub mod quotes;
pub mod repetitions;
