//! The tests of texts and of trees, over their public calls. They stand in a crate of their own, as all tests
//! of the libraries do, since the gate proves a crate that has tests twice; and beside those of the reader
//! (`shtests`), since they need not wait for its proof.
//!
//! Start with the module of what is tested: `texts` is the tests of `shtext`, `tree_documents`, `tree_moved`
//! and `tree_normal` are those of `shtree`, `tree_bodies` and `tree_spare` those of the bodies and the room
//! that `shmake` has; `text_refused` refuses each growth of memory in turn. The others help, here and
//! in the other crates of tests: [`both`] edits a buffer and a vector alike, by [`spliced`], the model of an
//! edit, [`devices`] has readers and writers that fail, [`dice`] throws numbers, [`growths`] asks for
//! refusals, [`in_pieces`] cuts a text, [`table`] reads tables of rows, whose cells [`cell`] joins,
//! [`shown`](shown::shown) writes a tree as text; `tree_built` builds trees by hand.
#![tactic(auto)]

pub mod both;
pub mod cell;
pub mod devices;
pub mod dice;
pub mod growths;
pub mod in_pieces;
pub mod shown;
pub mod spliced;
pub mod table;
#[cfg(test)]
mod text_refused;
#[cfg(test)]
mod texts;
#[cfg(test)]
mod tree_bodies;
#[cfg(test)]
mod tree_built;
#[cfg(test)]
mod tree_documents;
#[cfg(test)]
mod tree_moved;
#[cfg(test)]
mod tree_normal;
#[cfg(test)]
mod tree_spare;
