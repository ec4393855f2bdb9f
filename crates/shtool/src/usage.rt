//! Why words of the command line ask for no run.

use shprint::LayoutError;
use thiserror::Error;

/// What stands in place of settings.
#[derive(Debug, Drop, Error)]
pub enum Usage {
    /// What `clap` answers: a wrong word, a request for help or the version, or want of memory.
    #[error("{0}")]
    Words(clap::Error),
    /// An indent above 16 that `clap` let pass.
    #[error("shform: {0}")]
    Indent(LayoutError),
}
