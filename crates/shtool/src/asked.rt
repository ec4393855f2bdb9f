//! What the words of the command line ask for.
ghost use Rattle.std.specs.Prelude.{◌≡◌};
ghost use Rattle.shtool.specs.Report.{name_of};

use shprint::Layout;
use shread::Edition;

/// What is done with a script.
#[derive(Clone, Copy, Debug, PartialEq, Eq)]
pub enum Tool {
    /// Its first fault is told.
    Check,
    /// It is printed, or its first fault told.
    Print,
    /// It stays open, and requests are answered.
    Session,
}

/// A run of the program.
#[derive(Clone, Copy, Debug, PartialEq, Eq)]
pub struct Settings<'a> {
    pub tool: Tool,
    /// By which the script is read.
    pub edition: Edition,
    /// The layout to print in; that of the defaults for a check.
    pub layout: Layout,
    /// The script, or `None` for standard input; for a session, where it begins, or
    /// `None` for an empty script.
    pub file: Option<&'a str>,
}

impl<'a> Settings<'a> {
    /// What the script is called in what is told: FILE, or `-`.
    pub fn name(&self) -> &'a str
        ensures { result.now ≡ name_of self.now.file }
    {
        match self.file {
            Some(name) => name,
            None => "-",
        }
    }
}
