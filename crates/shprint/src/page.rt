//! What is printed so far.
#![tactic(auto, using(crate::proofs::Writing::written_append, crate::proofs::Writing::written_cons, crate::proofs::Writing::written_text, crate::proofs::Writing::written_line, crate::proofs::Writing::written_document))]

ghost use Rattle.std.specs.Prelude.{◌≡◌, [], ◌∷◌, OnOk};
ghost use Rattle.shprint.specs.Marks.{deeper, line_end, one};
ghost use Rattle.shprint.specs.Written.{Prints, SetsMargin};

use crate::layout::Layout;
use std::alloc::{AllocError, Global};

/// What is printed so far, what waits for the end of the line (the bodies of its
/// here-documents), and the bytes with which a line begins.
#[derive(Drop)]
pub struct Page {
    pub margin: Vec<u8>,
    pub text: Vec<u8>,
    pub held: Vec<u8>,
}

impl Page {
    /// An empty page, whose lines begin with nothing.
    pub fn new(alloc: Global) -> Page
        ensures { (result.margin.items ≡ []) × (result.text.items ≡ []) × (result.held.items ≡ []) }
    {
        Page {
            margin: Vec::new(alloc),
            text: Vec::new(alloc),
            held: Vec::new(alloc),
        }
    }

    /// Prints these bytes.
    #[inline(always)]
    pub(crate) fn put(&mut self, bytes: &[u8]) -> Result<(), AllocError>
        ensures { OnOk result (Prints self.old self.new (one bytes.now)) }
    {
        self.text.extend_from_slice(bytes)
    }

    /// Ends a line. What waited for this stands after it.
    pub(crate) fn end_line(&mut self) -> Result<(), AllocError>
        ensures { OnOk result (Prints self.old self.new (line_end ∷ [])) }
    {
        self.text.push(b'\n')?;
        // Most often nothing waits.
        if !self.held.is_empty() {
            self.text.extend_from_slice(&self.held)?;
            self.held.clear();
        }
        Ok(())
    }

    /// Begins a line.
    pub(crate) fn begin_line(&mut self) -> Result<(), AllocError>
        ensures { OnOk result (Prints self.old self.new (one self.old.margin.items)) }
    {
        // Most lines have no margin: they are spared the call that appends nothing.
        if self.margin.is_empty() {
            return Ok(());
        }
        self.text.extend_from_slice(&self.margin)
    }

    /// Ends a line and begins the next one.
    pub(crate) fn next_line(&mut self) -> Result<(), AllocError>
        ensures { OnOk result (Prints self.old self.new (line_end ∷ one self.old.margin.items)) }
    {
        self.end_line()?;
        self.begin_line()
    }

    /// From here on lines begin one level deeper, until the margin is cut to its old length.
    pub(crate) fn deepen(&mut self, layout: Layout) -> Result<(), AllocError>
        ensures { OnOk result (SetsMargin self.old self.new (deeper layout self.old.margin.items)) }
    {
        if layout.indent == 0 {
            self.margin.push(b'\t')?;
            return Ok(());
        }
        let width = self.margin.len() + layout.indent as usize;
        self.margin.resize(width, b' ')
    }
}
