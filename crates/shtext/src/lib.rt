//! The bytes that shform works on: texts, which tell one list of bytes, and the ends
//! that bytes come from and go to.
//!
//! Start with [`Source`], a text that is read by the byte or by stretches; [`Flat`] is one whose bytes lie in
//! a slice, [`line_col_of`] tells the line and the column of an offset, and [`newlines_in`] counts the
//! newlines of a stretch. [`Buffer`] is a text that is edited, in chunks of at most [`CHUNK`] bytes: it
//! prepares a [`Change`] for one [`Splice`] or several, previews the [`Edited`] text, and commits the change;
//! a [`Tally`] tells which splices a text allows. [`Input`] and [`Output`] are a reader and a writer that
//! remember how their devices fared. [`replace_items`] puts items of a vector in the place of others. The
//! definitions that the contracts cite are in `specs/`.
#![tactic(auto)]

mod buffer;
mod buffer_lines;
mod change;
mod chunk;
mod copy;
mod count;
mod cut;
mod device;
mod edit;
mod edited;
mod error;
mod fill;
mod filling;
mod items;
pub mod laws;
mod line_col;
mod make_place;
mod splice;
mod sums;
mod tally;

pub use buffer::Buffer;
pub use change::Change;
pub use chunk::CHUNK;
pub use count::newlines_in;
pub use device::{Failed, Input, Output};
pub use edited::Edited;
pub use error::TextError;
pub use items::replace_items;
pub use line_col::line_col_of;
pub use shsource::{Flat, Source};
pub use splice::Splice;
pub use tally::{LIMIT, Tally};
