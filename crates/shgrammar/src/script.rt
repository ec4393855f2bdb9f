//! A script, as it was read.
use crate::fault::Fault;
use shast::List;

/// A whole script.
#[derive(Debug, Drop)]
pub struct Script {
    /// The entries of all lines; with a fault, of those that ended before the faulty
    /// one. Spans count from the script's first byte.
    pub list: List,
    /// The first fault from left to right.
    pub fault: Option<Fault>,
}
