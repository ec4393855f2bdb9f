//! The grammar of shform: the Shell Command Language of POSIX as definitions, and what follows from them.
//!
//! Start with `specs/`: `Words`, `Commands`, `Lists`, `Compounds`, `Substitutions` and `Lines` are the
//! grammar's rows, and `Form` says what a row means. `proofs/` has what holds of every text by these
//! definitions alone. The types here are those that rows are told by: [`Token`], [`Mode`] and their kin,
//! [`Fault`], and [`Keep`]. No reader stands here: `shline` reads lines, `shpass` and `shread` read scripts.
#![tactic(auto)]

mod byte_kinds;
mod class;
mod delimiter;
mod edition;
mod fault;
mod keep;
mod mode;
mod script;
mod token;

pub use byte_kinds::{begins_a_word, ends_words};
pub use class::Class;
pub use delimiter::{Delimiter, delimiter_in, delimiter_of, plain_part};
pub use edition::Edition;
pub use fault::{Fault, FaultKind};
pub use keep::Keep;
pub use mode::{Escaping, Mode, Piece};
pub use script::Script;
pub use token::{Closing, Next, Opener, Position, Reserved, Separator, Token};
