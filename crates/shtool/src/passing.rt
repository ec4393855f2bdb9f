//! A script while it is read. Lines that are whole and without a fault are passed, and need not be held; so
//! the check of a script of short lines takes as much memory as a piece of it, however long it is.
ghost use Rattle.std.specs.Prelude.{◌≡◌, ◌+◌, ◌++◌, ◌≤◌, ℕ, List, [], IfOk, length};
ghost use Rattle.shtool.specs.PartialScript.{EndsLine, Held, Holds, IsLocated, IsLocatedAt, bytes_read};
ghost use Rattle.shgrammar.specs.declared.edition.Edition.{Edition as AnEdition};
ghost use Rattle.shgrammar.specs.Moved.{moved_fault};
ghost use Rattle.shtext.specs.Edit.{limit};

use crate::drop_front::drop_front;
use crate::partial_script::{LocatedFault, PartialScript};
use crate::sink::Sink;
use shpass::faultless_front;
use shread::{Edition, Fault, ReadError, Reader};
use shtext::{Flat, line_col_of, newlines_in};
use std::alloc::{AllocError, Global};

/// How many bytes are held before lines are looked for among them.
const ENOUGH: usize = 65_536;

impl PartialScript {
    /// Nothing was read.
    pub fn new(alloc: Global, edition: Edition) -> PartialScript
        ensures { Holds edition [] result }
    {
        PartialScript {
            edition,
            text: Vec::new(alloc),
            passed: 0,
            newlines: 0,
            long: false,
        }
    }

    /// Some more bytes were read. Where memory runs out, all is as before.
    pub(crate) fn add(&mut self, bytes: &[u8]) -> Result<(), AllocError>
        requires { bytes_read self.old + length bytes.now ≤ limit }
        ensures held { IfOk result
            (λ done. (read : List ℕ) → Held read self.old → Held (read ++ bytes.now) self.new) }
        ensures passed { IfOk result (λ done. self.new.passed ≡ self.old.passed) }
        ensures edition { IfOk result (λ done. self.new.edition ≡ self.old.edition) }
    {
        self.text.extend_from_slice(bytes)?;
        Ok(())
    }

    /// Whether enough is held to look for lines in it.
    pub(crate) fn is_due(&self) -> bool {
        !self.long && self.text.len() >= ENOUGH
    }

    /// Passes so many bytes. Where they are few among those held, the lines are long.
    pub(crate) fn pass(&mut self, count: usize)
        requires { EndsLine self.old count }
        ensures held { (read : List ℕ) → Held read self.old → Held read self.new }
        ensures passed { self.new.passed ≡ self.old.passed + count }
        ensures edition { self.new.edition ≡ self.old.edition }
    {
        let len = self.text.len();
        self.newlines += newlines_in(&self.text[..count]);
        drop_front(&mut self.text, count);
        self.passed += count;
        self.long = len - count > len / 8;
    }

    /// Passes what lines there are, where enough is held to look for them.
    fn pass_lines(&mut self) -> Result<(), AllocError>
        ensures { IfOk result (λ done. (edition : AnEdition) (read : List ℕ) →
            Holds edition read self.old → Holds edition read self.new) }
    {
        if !self.is_due() {
            return Ok(());
        }
        let alloc = *self.text.allocator();
        let count = faultless_front(alloc, self.edition, &Flat::new(&self.text))?;
        self.pass(count);
        Ok(())
    }

    /// A fault of what is held, in the script.
    pub(crate) fn locate(&self, fault: Fault) -> LocatedFault
        requires { fault.at ≤ length self.now.text.items }
        ensures { (read : List ℕ) → Held read self.now →
            IsLocatedAt read (moved_fault self.now.passed fault) result }
    {
        let (line, col) = line_col_of(&Flat::new(&self.text), fault.at);
        LocatedFault {
            fault: Fault {
                kind: fault.kind,
                at: self.passed + fault.at,
            },
            line: self.newlines + line,
            col,
        }
    }

    /// The first fault of the script, where all of it was read.
    pub fn first_fault(&self, alloc: Global) -> Result<Option<LocatedFault>, ReadError>
        ensures { IfOk result (λ found. (edition : AnEdition) (read : List ℕ) →
            Holds edition read self.now → IsLocated edition read found) }
    {
        match Reader::for_edition(alloc, self.edition).first_fault(&Flat::new(&self.text))? {
            None => Ok(None),
            Some(fault) => Ok(Some(self.locate(fault))),
        }
    }
}

impl Sink for PartialScript {
    ghost Setup = { AnEdition };

    ghost holds = { Holds };

    fn take(&mut self, bytes: &[u8]) -> Result<(), AllocError> {
        self.add(bytes)?;
        self.pass_lines()?;
        Ok(())
    }
}
