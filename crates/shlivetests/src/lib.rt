//! The tests of sessions, over the public calls of `shlive`, but for those that refuse growths of memory
//! (`shrefusedtests`). The devices and the tables that they use are those of the crate `shtreetests`.
//!
//! Start with the module of what is tested, `session_..`. The others help, here and in `shrefusedtests`:
//! [`sessions`] opens, edits and compares sessions, [`windows`] is the model by which is judged what an edit
//! reads, [`window_begin`](window_begin::window_begin) the part of it that a contract states.
#![tactic(auto)]

#[cfg(test)]
mod session_blocks;
#[cfg(test)]
mod session_cut;
#[cfg(test)]
mod session_editions;
#[cfg(test)]
mod session_runs;
#[cfg(test)]
mod session_windows;
pub mod sessions;
pub mod window_begin;
pub mod windows;
