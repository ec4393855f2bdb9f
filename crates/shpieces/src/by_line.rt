//! Printing a script that is read a line at a time, and in pieces.
ghost use Rattle.std.specs.Prelude.{◌≡◌, ◌-◌, ◌<◌, ◌≤◌, ◌++◌, ℕ, [], IfErr, IfOk, List as Row, Some, length, slice_get, take};
ghost use Rattle.shgrammar.specs.Characters.{newline_char};
ghost use Rattle.shgrammar.specs.Search.{StopsAt};
ghost use Rattle.shpieces.specs.Printing.{IsErrorWithin, IsNoText, IsPrinted, edition_of, error_of, moved_error};
ghost use Rattle.shpieces.specs.declared.by_line.PrintError.TheVariants.{Memory};
ghost use Rattle.shprint.specs.ReadBack.{IsTextOf};

use shast::Entry;
use shgrammar::{Edition, Fault};
use shline::Stop;
use shmake::Spare;
use shpass::{LinesBefore, ScriptLines};
use shprint::{Layout, Page, Printer};
use shsource::Source;
use std::alloc::{AllocError, Global};
use thiserror::Error;

/// Why a script has no printed text.
#[derive(Clone, Copy, Debug, PartialEq, Eq, Error)]
pub enum PrintError {
    /// This is its first fault.
    #[error("a fault at offset {}", .0.at)]
    Faulty(Fault),
    /// Memory ran out.
    #[error("out of memory")]
    Memory,
}

impl From<Stop> for PrintError {
    ghost from_gives = { λ stop e. e ≡ error_of stop };

    fn from(stop: Stop) -> PrintError {
        match stop {
            Stop::Wrong(fault) => PrintError::Faulty(fault),
            Stop::Memory => PrintError::Memory,
        }
    }
}

impl From<AllocError> for PrintError {
    ghost from_gives = { λ _ e. e ≡ Memory };

    fn from(_e: AllocError) -> PrintError {
        PrintError::Memory
    }
}

/// Drops a line that was printed, and keeps its room if another one follows: after the last line nothing
/// wants it.
fn give_back_if(follows: bool, entries: Vec<Entry>, spare: &mut Spare) {
    if follows {
        spare.give_back(entries);
    }
}

/// What is printed so far of a script. Who prints one need hold of it only what is not printed yet.
#[derive(Drop)]
pub struct Printing {
    alloc: Global,
    edition: Edition,
    layout: Layout,
    page: Page,
    before: LinesBefore,
    /// The room of the trees that were printed, which the pieces that follow want again.
    spare: Spare,
}

impl Printing {
    /// Nothing is printed, and will be by the layout's rules, of a script that is read by an edition.
    pub fn new(alloc: Global, edition: Edition, layout: &Layout) -> Printing
        ensures { IsPrinted edition layout.now [] result }
    {
        Printing {
            alloc,
            edition,
            layout: *layout,
            page: Page::new(alloc),
            before: LinesBefore::none(),
            spare: Spare::new(alloc),
        }
    }

    /// Prints the lines at the front of what follows that have no fault, each ended by a
    /// newline that is its last byte, and answers how many bytes they are. What stands after
    /// these may be no more than the front of what follows them.
    ///
    /// # Errors
    ///
    /// [`AllocError`], where memory runs out. Then nothing more may be printed.
    pub fn print_front<S: Source>(&mut self, source: &S) -> Result<usize, AllocError>
        ensures printed { IfOk result
            (λ n. (e : Edition) (y : Layout) (front : Row ℕ) → IsPrinted e y front self.old →
            IsPrinted e y (front ++ take n (S.bytes source.now)) self.new) }
        ensures within { IfOk result (λ n. n ≤ length (S.bytes source.now)) }
        ensures newline { IfOk result
            (λ n. 0 < n → slice_get (S.bytes source.now) (n - 1) ≡ Some newline_char) }
        // They are all: no such line follows.
        ensures all { IfOk result (StopsAt (edition_of self.old) (S.bytes source.now)) }
    {
        let printer = Printer {
            alloc: self.alloc,
            layout: self.layout,
            source,
        };
        let mut lines = ScriptLines::following(self.alloc, self.edition, source, self.before);
        'lines: loop {
            let Some(entries) = lines.read_whole(Some(&mut self.spare))? else {
                self.before = lines.before();
                return Ok(lines.at());
            };
            printer.print_entries(&entries, &mut self.page)?;
            self.spare.give_back(entries);
        }
    }

    /// Prints what follows, up to the end of the script, and answers the text of the whole. A line at a time
    /// is read, so that no tree is held but that of a line.
    ///
    /// # Errors
    ///
    /// [`PrintError`]: the first fault, whose offset counts from where `source` begins, or want of memory.
    pub fn print_rest<S: Source>(mut self, source: &S) -> Result<Vec<u8>, PrintError>
        ensures printed { IfOk result
            (λ text. (e : Edition) (y : Layout) (front : Row ℕ) → IsPrinted e y front self →
            IsTextOf e y (front ++ S.bytes source.now) text.items) }
        ensures err { IfErr result
            (λ error. (e : Edition) (y : Layout) (front : Row ℕ) → IsPrinted e y front self →
            IsNoText e (front ++ S.bytes source.now) (moved_error (length front) error)) }
        ensures within { IfErr result (IsErrorWithin (length (S.bytes source.now))) }
    {
        let printer = Printer {
            alloc: self.alloc,
            layout: self.layout,
            source,
        };
        // The text is about as long as the script. Where there is no room for all of it at once, it grows.
        let _ = self.page.text.reserve_exact(source.len());
        let mut lines = ScriptLines::following(self.alloc, self.edition, source, self.before);
        'lines: loop {
            let told = lines.read_outer(Some(&mut self.spare))?;
            printer.print_entries(&told.entries, &mut self.page)?;
            if !told.newline {
                return Ok(self.page.text);
            }
            give_back_if(lines.at() < source.len(), told.entries, &mut self.spare);
        }
    }
}

/// Reads a script by an edition and prints it by the layout's rules.
///
/// # Errors
///
/// [`PrintError`]: a fault of the script, or want of memory.
pub fn print_source<S: Source>(
    alloc: Global,
    edition: Edition,
    layout: &Layout,
    source: &S,
) -> Result<Vec<u8>, PrintError>
    ensures printed { IfOk result
        (λ text. IsTextOf edition layout.now (S.bytes source.now) text.items) }
    ensures err { IfErr result (IsNoText edition (S.bytes source.now)) }
{
    Printing::new(alloc, edition, layout).print_rest(source)
}
