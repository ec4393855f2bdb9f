//! The lines of a script, read one after the other, so that who needs no tree of the
//! whole holds that of one line.
ghost use Rattle.std.specs.Prelude.{◌≡◌, ◌+◌, ◌^◌, ◌<◌, ◌≤◌, IfOk, drop, length};
ghost use Rattle.shgrammar.specs.Scripts.{line_from};
ghost use Rattle.shline.specs.Clauses.{Gives, view_told};
ghost use Rattle.shline.specs.Limits.{limits};
ghost use Rattle.shpass.specs.LineByLine.{AtStart, GoesPast, LineReads, LineWithin, MovesOn, OuterReads, PassesWhole, ReadsLine};
ghost use Rattle.shpass.specs.LineByLine.{before_of, bytes_of, edition_of, is_blank_after, no_lines, place_of};

use crate::newline::ends_in_newline;
use shast::Entry;
use shgrammar::{Edition, Keep};
use shline::{Begin, ParsedLine, ReadOptions, Stop, WITH_TREE, line_at};
use shmake::Spare;
use shsource::Source;
use std::alloc::{AllocError, Global};

/// What some lines of a script leave for the next one to know: whether an empty line
/// stands before its first entry.
#[derive(Clone, Copy, Debug, PartialEq, Eq)]
pub struct LinesBefore {
    /// A line without entries follows the last entry.
    gap: bool,
    /// There was an entry.
    begun: bool,
}

impl LinesBefore {
    /// No line yet.
    pub fn none() -> LinesBefore
        ensures { result ≡ no_lines }
    {
        LinesBefore {
            gap: false,
            begun: false,
        }
    }
}

/// The lines of a script by one edition, from some line on.
#[derive(Drop)]
pub struct ScriptLines<'a, S: Source> {
    alloc: Global,
    edition: Edition,
    source: &'a S,
    /// Where the next line begins.
    at: usize,
    before: LinesBefore,
}

impl<'a, S: Source> ScriptLines<'a, S> {
    /// All lines of the script that the source is.
    pub fn new(alloc: Global, edition: Edition, source: &'a S) -> ScriptLines<'a, S>
        ensures source { bytes_of S.bytes result ≡ S.bytes source.entry.now }
        ensures edition { edition_of result ≡ edition }
        ensures start { AtStart result }
    {
        ScriptLines::following(alloc, edition, source, LinesBefore::none())
    }

    /// The lines of the source, which is what follows some lines of a script.
    pub fn following(
        alloc: Global,
        edition: Edition,
        source: &'a S,
        before: LinesBefore,
    ) -> ScriptLines<'a, S>
        ensures source { bytes_of S.bytes result ≡ S.bytes source.entry.now }
        ensures edition { edition_of result ≡ edition }
        ensures start { (place_of result ≡ 0) × (before_of result ≡ before) }
    {
        ScriptLines {
            alloc,
            edition,
            source,
            at: 0,
            before,
        }
    }

    /// Where the next line begins.
    pub fn at(&self) -> usize
        ensures { result ≡ place_of self.now }
    {
        self.at
    }

    /// What the lines so far leave for the next one to know.
    pub fn before(&self) -> LinesBefore
        ensures { result ≡ before_of self.now }
    {
        self.before
    }

    /// Moves to just past a line that was told.
    fn pass(&mut self, told: &ParsedLine)
        requires { place_of self.old + told.now.len < 2 ^ 64 }
        ensures { GoesPast self.old told.now self.new }
    {
        self.before.gap = told.entries.is_empty();
        if !self.before.gap {
            self.before.begun = true;
        }
        self.at += told.len;
    }

    /// Reads one more line, of whose tree this is kept.
    fn read(&mut self, keep: Keep, spare: Option<&mut Spare>) -> Result<ParsedLine, Stop>
        requires { place_of self.old ≤ length (bytes_of S.bytes self.old) }
        ensures value { let bytes = bytes_of S.bytes self.old in
            let place = place_of self.old in
            let blank = is_blank_after (before_of self.old) in
            Gives (limits WITH_TREE place (drop place bytes)) view_told result
            (line_from (edition_of self.old) bytes keep blank place) }
        ensures moves { MovesOn S.bytes self.old result self.new }
        ensures within { LineWithin (length (bytes_of S.bytes self.old)) result }
        ensures fits { IfOk result (λ told. place_of self.old + told.len < 2 ^ 64) }
    {
        let begin = Begin {
            at: self.at,
            origin: self.at,
            blank: self.before.gap && self.before.begun,
        };
        let how = ReadOptions {
            keep,
            edition: self.edition,
        };
        let told = line_at::<S, WITH_TREE>(self.alloc, self.source, begin, how, spare)?;
        self.pass(&told);
        Ok(told)
    }

    /// Reads one more line. Its vectors are taken from spare ones, as far as there are any.
    ///
    /// Spans, and the offset of a fault, count from the script's first byte. Where a newline ended the line,
    /// another line follows.
    ///
    /// # Errors
    ///
    /// [`Stop`]: the script's first fault, or want of memory. Nothing moves then; the line may be read again.
    pub fn read_next(&mut self, spare: Option<&mut Spare>) -> Result<ParsedLine, Stop>
        requires { place_of self.old ≤ length (bytes_of S.bytes self.old) }
        ensures { ReadsLine LineReads S.bytes self.old result self.new }
    {
        self.read(Keep::Whole, spare)
    }

    /// Reads one more line as [`ScriptLines::read_next`] does, but without the trees in the command
    /// substitutions of its words, which cost memory and time. A fault is the same.
    ///
    /// # Errors
    ///
    /// [`Stop`], as there.
    pub fn read_outer(&mut self, spare: Option<&mut Spare>) -> Result<ParsedLine, Stop>
        requires { place_of self.old ≤ length (bytes_of S.bytes self.old) }
        ensures { ReadsLine OuterReads S.bytes self.old result self.new }
    {
        self.read(Keep::Outer, spare)
    }

    /// Reads one more line as [`ScriptLines::read_outer`] does, if it has no fault and a newline ended it
    /// that is its last byte: then nothing that follows it in the script has a part in how it is read. If
    /// there is no such line, nothing moves.
    ///
    /// # Errors
    ///
    /// [`AllocError`], where memory ran out. Nothing moves then; the line may be read again.
    pub fn read_whole(
        &mut self,
        spare: Option<&mut Spare>,
    ) -> Result<Option<Vec<Entry>>, AllocError>
        requires { place_of self.old ≤ length (bytes_of S.bytes self.old) }
        ensures { PassesWhole S.bytes self.old result self.new }
    {
        let at = self.at;
        let before = self.before;
        match self.read(Keep::Outer, spare) {
            Ok(told) => {
                if told.newline && ends_in_newline(self.source, at, told.len) {
                    return Ok(Some(told.entries));
                }
                self.at = at;
                self.before = before;
                Ok(None)
            }
            Err(Stop::Wrong(_)) => Ok(None),
            Err(Stop::Memory) => Err(AllocError),
        }
    }
}
