//! The reader: one line, or a whole script.
ghost use Rattle.std.specs.Prelude.{◌≡◌, ◌-◌, ◌<◌, ◌≤◌, ℕ, drop, false, length, true, List as Row, None, IfOk, IfErr, IfSome, IsOk};
ghost use Rattle.shread.specs.Answers.{edition_of, meter_of, view_kind, view_line};
ghost use Rattle.shline.specs.Limits.{wants_memory};
ghost use Rattle.shsource.specs.Meter.{raised};
ghost use Rattle.shgrammar.specs.Scripts.{view_script};
ghost use Rattle.shgrammar.specs.Form.{Spelled};
ghost use Rattle.shgrammar.specs.Lines.{ALine, EntryNodesWithin, EntrySpansWithin, FaultWithin, IsLine, NoFurther, SameBytes};
ghost use Rattle.shgrammar.specs.Scripts.{AScript, FirstFault, Outcome, Passes};
ghost use Rattle.shgrammar.specs.declared.edition.Edition.TheVariants.{Y2017};
ghost use Rattle.shast.specs.Nodes.{NodesWithin};
ghost use Rattle.shast.specs.Normal.{is_normal};
ghost use Rattle.shast.specs.Shape.{shape_of};
ghost use Rattle.shast.specs.Spelling.{spelling};

use crate::all_lines::script_from;
use crate::error::ReadError;
use crate::first_fault::first_fault_of;
use crate::one_line::line_from;
use shast::List;
use shgrammar::{Edition, Fault, Script};
use shline::NO_TREE;
use shsource::Source;
use std::alloc::Global;

/// What a top-level line is.
#[derive(Debug, Drop)]
pub enum LineKind {
    /// No entry, and a newline token that ends the line.
    Blank,
    /// Commands, or a comment.
    Entries(List),
    /// The rest of the input: no entry and no newline token.
    End,
    /// The first fault. Its offset counts from where the line begins.
    Faulty(Fault),
}

/// A top-level line, read as if a script began there (XCU 2.10.2).
#[derive(Debug, Drop)]
pub struct Line {
    /// Its entries have spans that count from where the line begins.
    pub kind: LineKind,
    /// The offset just past the line, in the source; of `End` and `Faulty` the length of the source.
    pub next: usize,
    /// A newline token ended the line, and its last byte is a newline. Another line may begin at `next`.
    pub ended: bool,
}

/// Reads scripts by one edition, and counts the bytes that it has read.
#[derive(Drop)]
pub struct Reader {
    alloc: Global,
    edition: Edition,
    meter: u64,
}

impl Reader {
    /// A reader by POSIX.1-2017 that has read nothing.
    pub fn new(alloc: Global) -> Reader
        ensures { (edition_of result ≡ Y2017) × (meter_of result ≡ 0) }
    {
        Reader::for_edition(alloc, Edition::Y2017)
    }

    /// A reader by this edition that has read nothing.
    pub fn for_edition(alloc: Global, edition: Edition) -> Reader
        ensures { (edition_of result ≡ edition) × (meter_of result ≡ 0) }
    {
        Reader {
            alloc,
            edition,
            meter: 0,
        }
    }

    /// The edition by which it reads.
    pub fn edition(&self) -> Edition
        ensures { result ≡ edition_of self.now }
    {
        self.edition
    }

    /// Reads the top-level line that begins at an offset, as if a script began there.
    /// The offset is at most the length.
    ///
    /// A fault is part of the answer. Want of memory is the only error: the meter is then as before, and the
    /// reader can be used again. At the length of the source no memory is wanted.
    #[tactic(auto, using(shgrammar::proofs::Answered::line_answered))]
    pub fn read_line<S: Source>(&mut self, source: &S, at: usize) -> Result<Line, ReadError>
        requires { at ≤ length (S.bytes source.now) }
        // The answer is the line that the grammar has for the bytes from `at` on, and it has no other.
        ensures line { IfOk result
            (λ line. IsLine (edition_of self.old) (drop at (S.bytes source.now))
            (view_line at line)) }
        ensures only { IfOk result
            (λ line. (a : ALine) → IsLine (edition_of self.old) (drop at (S.bytes source.now)) a →
            a ≡ view_line at line) }
        // The same bytes have the same line wherever they stand, and a line that a
        // newline ended looks no further.
        ensures same_bytes { IfOk result
            (λ line. SameBytes (edition_of self.old) (drop at (S.bytes source.now))
            (view_line at line)) }
        ensures no_further { IfOk result (λ line. line.ended ≡ true →
            NoFurther (edition_of self.old) (drop at (S.bytes source.now)) (view_line at line)) }
        // It stands in the text, and leads on where a newline ended it; else it is the last.
        ensures next { IfOk result
            (λ line. (at ≤ line.next) × (line.next ≤ length (S.bytes source.now))) }
        ensures onward { IfOk result (λ line. line.ended ≡ true → at < line.next) }
        ensures whole { IfOk result
            (λ line. line.ended ≡ false → line.next ≡ length (S.bytes source.now)) }
        // No node of its entries names an offset above the line's length.
        ensures within { IfOk result
            (λ line. EntryNodesWithin (line.next - at) (view_kind line.kind)) }
        // Nor does any span of theirs, and each simple command has an item.
        ensures everywhere { IfOk result
            (λ line. (limit : ℕ) → line.next - at ≤ limit →
            EntrySpansWithin limit (view_kind line.kind)) }
        // Its fault lies within it.
        ensures fault { IfOk result (λ line. FaultWithin (line.next - at) (view_kind line.kind)) }
        ensures edition { edition_of self.new ≡ edition_of self.old }
        // The meter counts its bytes, and none where memory ran out.
        ensures meter { IfOk result
            (λ line. meter_of self.new ≡ raised (meter_of self.old) (line.next - at)) }
        ensures err { IfErr result (λ e. meter_of self.new ≡ meter_of self.old) }
        // At the end of the text no memory is wanted.
        ensures end { at ≡ length (S.bytes source.now) → IsOk result }
    {
        let line = line_from(self.alloc, self.edition, source, at)?;
        self.count(line.next - at);
        Ok(line)
    }

    /// Reads a whole script.
    ///
    /// A fault is part of the answer. Want of memory is the only error: the meter is then as before, and the
    /// reader can be used again. A script without a byte wants no memory.
    #[tactic(auto, using(shgrammar::proofs::Answered::script_answered, shgrammar::proofs::SpelledLists::script_spelled))]
    pub fn read_script<S: Source>(&mut self, source: &S) -> Result<Script, ReadError>
        // The answer is what the grammar has for the bytes, and it has nothing else.
        ensures outcome { IfOk result
            (λ script. Outcome (edition_of self.old) (S.bytes source.now) (view_script script)) }
        ensures only { IfOk result
            (λ script. (a : AScript) → Outcome (edition_of self.old) (S.bytes source.now) a →
            a ≡ view_script script) }
        ensures normal { IfOk result (λ script. is_normal (view_script script).entries ≡ true) }
        // The tokens passed in a script without a fault are those that the shape of its tree spells.
        ensures spelling { IfOk result (λ script. script.fault ≡ None → (k : Row Spelled) →
            Passes (edition_of self.old) (S.bytes source.now) (view_script script) k →
            k ≡ spelling (shape_of (S.bytes source.now) (view_script script).entries)) }
        // No node of the list names an offset above the length.
        ensures within { IfOk result
            (λ script. NodesWithin (length (S.bytes source.now)) (view_script script).entries) }
        ensures fault { IfOk result
            (λ script. IfSome script.fault (λ f. f.at ≤ length (S.bytes source.now))) }
        ensures edition { edition_of self.new ≡ edition_of self.old }
        ensures meter { IfOk result
            (λ script. meter_of self.new
            ≡ raised (meter_of self.old) (length (S.bytes source.now))) }
        ensures err { IfErr result (λ e. meter_of self.new ≡ meter_of self.old) }
        ensures empty { length (S.bytes source.now) ≡ 0 → IsOk result }
    {
        let script = script_from(self.alloc, self.edition, source)?;
        self.count(source.len());
        Ok(script)
    }

    /// Finds the first fault of a whole script, a line at a time and without its tree.
    ///
    /// So the memory that it takes does not grow with the script. Want of memory is the only
    /// error: the meter is then as before, and the reader can be used again. A script
    /// without a byte wants no memory, nor does one without a `<`.
    #[tactic(auto, using(shgrammar::proofs::Answered::fault_answered))]
    pub fn first_fault<S: Source>(&mut self, source: &S) -> Result<Option<Fault>, ReadError>
        // The answer is the first fault in what the grammar gives for the bytes, and it gives no other.
        ensures fault { IfOk result
            (λ fault. FirstFault (edition_of self.old) (S.bytes source.now) fault) }
        ensures only { IfOk result
            (λ fault. (a : AScript) → Outcome (edition_of self.old) (S.bytes source.now) a →
            a.fault ≡ fault) }
        ensures within { IfOk result
            (λ fault. IfSome fault (λ f. f.at ≤ length (S.bytes source.now))) }
        ensures edition { edition_of self.new ≡ edition_of self.old }
        ensures meter { IfOk result
            (λ fault. meter_of self.new
            ≡ raised (meter_of self.old) (length (S.bytes source.now))) }
        ensures err { IfErr result (λ e. meter_of self.new ≡ meter_of self.old) }
        ensures empty { length (S.bytes source.now) ≡ 0 → IsOk result }
        // Where no `<` stands, it succeeds, whatever memory is left.
        ensures memory { IfErr result (λ e. wants_memory NO_TREE (S.bytes source.now) ≡ true) }
    {
        let fault = first_fault_of(self.alloc, self.edition, source)?;
        self.count(source.len());
        Ok(fault)
    }

    /// Counts bytes that were read.
    fn count(&mut self, bytes: usize)
        ensures { (edition_of self.new ≡ edition_of self.old)
            × (meter_of self.new ≡ raised (meter_of self.old) bytes) }
    {
        self.meter = self.meter.saturating_add(bytes as u64);
    }

    /// How many bytes were read so far; it stays at its greatest number.
    pub fn meter(&self) -> u64
        ensures { result ≡ meter_of self.now }
    {
        self.meter
    }
}
