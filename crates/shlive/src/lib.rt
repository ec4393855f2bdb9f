//! A script that stays open while it is edited.
//!
//! Start with [`Session`]: it holds the bytes of a script and what was read of them, takes edits, and answers
//! for the edited bytes as if they had just been read. [`run`] answers requests from a reader on a writer.
//! The definitions that the contracts cite are in `specs/`: `Answers` says what the answers for bytes are,
//! `Requests` and `Replies` what an input asks for and what is replied, `Runs` what a run is.
#![tactic(auto)]

mod answers;
mod error;
mod incoming;
pub mod laws;
mod lines;
mod parts;
mod payload;
mod replies;
mod reply;
mod request_kind;
mod serve;
mod session;
mod text_from;
mod texts;
mod top_lines;

pub use error::LiveError;
pub use serve::run;
pub use session::Session;
