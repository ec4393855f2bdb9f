//! The tests of the printer, over its public calls. They stand beside those of sessions (`shlivetests`),
//! since they need not wait for the proof of the open script. The refused growths and the tables that they
//! use are those of the crate `shtreetests`.
//!
//! Both modules are tests of `shprint` and of `shpieces`: `printer_texts` has the texts of scripts and of
//! messages, and what a layout refuses; `printer_refused` refuses each growth of memory in turn.
#![tactic(auto)]

#[cfg(test)]
mod printer_refused;
#[cfg(test)]
mod printer_texts;
pub mod rest;
