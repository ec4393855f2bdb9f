//! A script that is printed while it is read. Lines that are whole and without a fault are printed, and need
//! not be held; so only its text and a piece of the script are, however long that is.
ghost use Rattle.std.specs.Prelude.{ℕ, List, [], IfErr, IfOk};
ghost use Rattle.shtool.specs.PartialScript.{HoldsPrinted, IsUnprinted};
ghost use Rattle.shgrammar.specs.declared.edition.Edition.{Edition as AnEdition};
ghost use Rattle.shprint.specs.declared.layout.Layout.{Layout as ALayout};
ghost use Rattle.shprint.specs.ReadBack.{IsTextOf};

use crate::partial_script::{LocatedFault, PartialScript};
use crate::sink::Sink;
use shpieces::{PrintError, Printing};
use shprint::Layout;
use shread::Edition;
use shtext::Flat;
use std::alloc::{AllocError, Global};

/// What was read of a script, and what is printed of it.
#[derive(Drop)]
pub struct PrintedPart {
    part: PartialScript,
    printing: Printing,
}

/// Why a script has no printed text.
#[derive(Clone, Copy, Debug)]
pub enum Unprinted {
    /// This is its first fault.
    Faulty(LocatedFault),
    /// Memory ran out.
    Memory,
}

impl PrintedPart {
    /// Nothing was read.
    pub fn new(alloc: Global, edition: Edition, layout: &Layout) -> PrintedPart
        ensures { HoldsPrinted edition layout.now [] result }
    {
        PrintedPart {
            part: PartialScript::new(alloc, edition),
            printing: Printing::new(alloc, edition, layout),
        }
    }

    /// Prints what lines there are, where enough is held to look for them.
    fn print_lines(&mut self) -> Result<(), AllocError>
        ensures { IfOk result (λ done. (e : AnEdition) (y : ALayout) (read : List ℕ) →
            HoldsPrinted e y read self.old →
            HoldsPrinted e y read self.new) }
    {
        if !self.part.is_due() {
            return Ok(());
        }
        let count = self.printing.print_front(&Flat::new(&self.part.text))?;
        self.part.pass(count);
        Ok(())
    }

    /// The printed text of the script, where all of it was read.
    pub fn text(self) -> Result<Vec<u8>, Unprinted>
        ensures printed { IfOk result
            (λ text. (e : AnEdition) (y : ALayout) (read : List ℕ) → HoldsPrinted e y read self →
            IsTextOf e y read text.items) }
        ensures err { IfErr result
            (λ error. (e : AnEdition) (y : ALayout) (read : List ℕ) → HoldsPrinted e y read self →
            IsUnprinted e read error) }
    {
        let PrintedPart { part, printing } = self;
        match printing.print_rest(&Flat::new(&part.text)) {
            Ok(text) => Ok(text),
            Err(PrintError::Faulty(fault)) => Err(Unprinted::Faulty(part.locate(fault))),
            Err(PrintError::Memory) => Err(Unprinted::Memory),
        }
    }
}

impl Sink for PrintedPart {
    ghost Setup = { AnEdition × ALayout };

    ghost holds = { λ how. HoldsPrinted how.0 how.1 };

    fn take(&mut self, bytes: &[u8]) -> Result<(), AllocError> {
        self.part.add(bytes)?;
        self.print_lines()?;
        Ok(())
    }
}
