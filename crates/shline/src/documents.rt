//! Here-documents: those that wait, and their bodies (XCU 2.7.4).
ghost use Rattle.std.specs.Prelude.{◌≡◌, ◌+◌, ◌<◌, ◌≤◌, ◌==◌, ◌&&◌, All, bytes_eq, fold, nat_lt, not, [], IfOk, IfSome, List as Row, ◌∷◌, length, option_map, ◌-◌, true, false};
ghost use Rattle.shgrammar.specs.Characters.{backslash};
ghost use Rattle.shline.specs.Clauses.{at_place, at_token, Between, BodyRead, bytes_between, end_of, given_of, here_of, Inside, Keeps, limits_of, line_bytes_from, on, PlaceToPlace, Reaches, seen, Stays, text_of, TokenToToken, view_waiting};
ghost use Rattle.shline.specs.Limits.{Waits};
ghost use Rattle.shgrammar.specs.States.{Waiting as Awaited};
ghost use Rattle.shgrammar.specs.Commands.{a_document, is_strip, nothing_waits, takes_here};
ghost use Rattle.shgrammar.specs.Form.{change, raw};
ghost use Rattle.shgrammar.specs.HereDocuments.{bodies_from, bodies_here, delimiter_from, delimiter_in, first_waiting, is_delimiter, own_level, past_line, takes_newline};
ghost use Rattle.shgrammar.specs.Standing.{at_end, next_newline, raw_stands};
ghost use Rattle.shgrammar.specs.Unquoting.{view_delimiter};
ghost use Rattle.shast.specs.View.{view_here};

use crate::cursor::Cursor;
use crate::search::Sought;
use crate::stop::Stop;
use shast::{HereDocument, RedirectOperator, Span};
use shgrammar::{Class, Delimiter, Fault, FaultKind, delimiter_in};
use shsource::Source;
use std::alloc::{AllocError, Global};
use std::mem;

/// A here-document that waits for the next newline token.
#[derive(Drop)]
pub(crate) struct Waiting {
    /// The offset of its operator.
    pub(crate) operator_at: usize,
    pub(crate) delimiter: Vec<u8>,
    /// A part of its delimiter is quoted: nothing is expanded in it.
    pub(crate) literal: bool,
    /// Leading tabs are taken off its lines.
    pub(crate) strip: bool,
}

/// The here-documents of a script level: those that wait, and the bodies that were
/// read so far, in the order of the operators.
#[derive(Drop)]
pub(crate) struct Documents {
    pub(crate) waiting: Vec<Waiting>,
    pub(crate) bodies: Vec<Span>,
}

impl Documents {
    /// None yet.
    pub(crate) fn new(alloc: Global) -> Documents
        ensures { (result.waiting.items ≡ []) × (result.bodies.items ≡ []) }
    {
        Documents {
            waiting: Vec::new(alloc),
            bodies: Vec::new(alloc),
        }
    }
}

/// Whether a here-document belongs to it.
fn takes_here(operator: RedirectOperator) -> bool
    ensures { result ≡ takes_here operator }
{
    matches!(
        operator,
        RedirectOperator::Here | RedirectOperator::HereStripped
    )
}

/// Whether it takes tabs off the lines of its here-document.
pub(crate) fn is_strip(operator: RedirectOperator) -> bool
    ensures { result ≡ is_strip operator }
{
    matches!(operator, RedirectOperator::HereStripped)
}

impl<'a, S: Source, const TREE: u8> Cursor<'a, S, TREE> {
    /// The operator of the first here-document that waits.
    #[inline(always)]
    pub(crate) fn first_waiting(&self) -> Option<usize>
        ensures value { result ≡ first_waiting (at_token self.now) }
        ensures within { IfSome result (λ operator. operator ≤ end_of self.now) }
    {
        if self.documents.waiting.is_empty() {
            return None;
        }
        Some(self.documents.waiting[0].operator_at)
    }

    /// Refuses that a level ends here where a here-document waits.
    #[inline(always)]
    #[tactic(auto, unfolding(shgrammar::specs::Commands::nothing_waits))]
    pub(crate) fn nothing_waits(&self) -> Result<(), Stop>
        ensures { TokenToToken self.now nothing_waits result (λ _. tt) self.now }
    {
        match self.first_waiting() {
            Some(operator) => Err(Stop::Wrong(Fault {
                kind: FaultKind::UnclosedHere,
                at: operator,
            })),
            None => Ok(()),
        }
    }

    /// Begins a level of its own, and answers the documents of the one around it.
    pub(crate) fn open_level(&mut self) -> Documents
        ensures level { at_place self.new ≡ own_level (at_place self.old) }
        ensures outer { result ≡ self.old.documents }
        ensures same { Keeps self.old self.new }
    {
        mem::replace(&mut self.documents, Documents::new(self.alloc))
    }

    /// Ends it, and answers the bodies that were read in it.
    pub(crate) fn close_level(&mut self, outer: Documents) -> Vec<Span>
        requires { All (Waits (limits_of self.old)) outer.waiting.items }
        ensures bodies { result.items ≡ self.old.documents.bodies.items }
        ensures place { here_of self.new ≡ here_of self.old }
        ensures outer { self.new.documents ≡ outer }
        ensures same { Keeps self.old self.new }
    {
        mem::replace(&mut self.documents, outer).bodies
    }

    /// The bytes from a place up to this one.
    #[cold]
    #[tactic(auto, using(crate::proofs::Awaited::raw_some, shgrammar::proofs::Stretches::raw_nothing))]
    fn bytes_from(&self, from: usize) -> Result<Vec<u8>, AllocError>
        requires { from ≤ self.now.at }
        ensures { IfOk result (λ bytes. bytes.items ≡ bytes_between self.now from self.now.at) }
    {
        let mut bytes = Vec::with_capacity(self.alloc, self.at - from)?;
        let mut at = from;
        'bytes: while at < self.at {
            if let Some(byte) = self.raw_byte(at) {
                bytes.push(byte)?;
            }
            at += 1;
        }
        Ok(bytes)
    }

    /// The delimiter that the word from a place up to this one is. Most often the word
    /// lies in one stretch, and is read there.
    #[tactic(auto, using(crate::proofs::Awaited::run_word))]
    fn delimiter(&self, from: usize) -> Result<Option<Delimiter>, AllocError>
        requires { from ≤ self.now.at }
        ensures { IfOk result (λ found. option_map view_delimiter found ≡ delimiter_in
            self.now.how.edition (bytes_between self.now from self.now.at)) }
    {
        let run = self.run_at(from);
        let length = self.at - from;
        if length <= run.len() {
            return delimiter_in(self.alloc, self.how.edition, &run[..length]);
        }
        let word = self.bytes_from(from)?;
        delimiter_in(self.alloc, self.how.edition, &word)
    }

    /// The here-document of an operator that stands at an offset, if it takes one. Its
    /// word stands from a place of the text up to this one.
    #[tactic(auto, unfolding(shgrammar::specs::Commands::a_document))]
    pub(crate) fn document(
        &mut self,
        operator: RedirectOperator,
        operator_at: usize,
        start: usize,
    ) -> Result<Option<HereDocument>, Stop>
        requires places { (start ≤ here_of self.old) × (operator_at ≤ end_of self.old) }
        requires memory { takes_here operator ≡ true → (limits_of self.old).memory ≡ true }
        ensures value { PlaceToPlace self.old
            (a_document operator operator_at (self.old.origin + start) (raw
            (text_of self.old) start (here_of self.old))) result (option_map view_here) self.new }
        ensures place { here_of self.new ≡ here_of self.old }
    {
        if !takes_here(operator) {
            return Ok(None);
        }
        // The stretch may have gone on within the word.
        if start < self.begin {
            self.stretch_anew(start);
        }
        let at = start - self.begin;
        let Some(delimiter) = self.delimiter(at)? else {
            return Err(self.wrong_at(FaultKind::BadHereWord, start));
        };
        let literal = delimiter.literal;
        let strip = is_strip(operator);
        self.documents.waiting.push(Waiting {
            operator_at,
            delimiter: delimiter.text,
            literal,
            strip,
        })?;
        Ok(Some(HereDocument {
            literal,
            strip,
            body: Span { start: 0, end: 0 },
        }))
    }

    /// Whether these bytes stand from one place up to another.
    #[tactic(auto, using(crate::proofs::Awaited::bytes_more_on, crate::proofs::Awaited::bytes_other_on, crate::proofs::Awaited::bytes_end, crate::proofs::Awaited::bytes_short, crate::proofs::Awaited::bytes_long))]
    fn are_bytes(&self, from: usize, end: usize, bytes: &[u8]) -> bool
        requires { Between self.now from end }
        ensures { result ≡ bytes_eq (bytes_between self.now from end) bytes.now }
    {
        if end - from != bytes.len() {
            return false;
        }
        'bytes: for (index, byte) in bytes.iter().enumerate() {
            if !self.raw_stands(from + index, *byte) {
                return false;
            }
        }
        true
    }

    /// Whether the line from a place up to its end is the delimiter's.
    #[tactic(auto, using(crate::proofs::Awaited::stripped_line, crate::proofs::Awaited::tabs_before))]
    fn is_delimiter(&self, document: &Waiting, from: usize, end: usize) -> bool
        requires { Reaches self.now next_newline from end }
        ensures { result ≡ is_delimiter (view_waiting document.now)
            (line_bytes_from self.now from) }
    {
        if document.strip {
            return self.are_bytes(self.raw_past(from, Class::Tab), end, &document.delimiter);
        }
        self.are_bytes(from, end, &document.delimiter)
    }

    /// Whether this line ends a document; one that the line before takes in does not.
    fn ends_here(&self, document: &Waiting, taken: bool, from: usize, end: usize) -> bool
        requires { Reaches self.now next_newline from end }
        ensures { result ≡ (not taken && is_delimiter (view_waiting document.now) (line_bytes_from
            self.now from)) }
    {
        !taken && self.is_delimiter(document, from, end)
    }

    /// Whether a backslash stands before a place, and not before that other one.
    fn is_backslash_before(&self, from: usize, at: usize) -> bool
        requires { Inside self.now at }
        ensures value { result ≡ (nat_lt from at && seen self.now raw_stands (at - 1) backslash) }
        ensures some { result ≡ true → from < at }
    {
        from < at && self.raw_stands(at - 1, b'\\')
    }

    /// Whether the bytes from one place up to another end in an odd number of backslashes.
    #[tactic(auto, using(crate::proofs::Awaited::odd_more_on))]
    fn ends_odd(&self, from: usize, end: usize) -> bool
        requires { Between self.now from end }
        ensures { result ≡ fold (λ o b. b == backslash && not o) false
            (bytes_between self.now from end) }
    {
        let mut at = end;
        let mut odd = false;
        'backslashes: while self.is_backslash_before(from, at) {
            at -= 1;
            odd = !odd;
        }
        odd
    }

    /// Whether a line takes in the one after it.
    fn takes_newline(&self, document: &Waiting, from: usize, end: usize) -> bool
        requires { Reaches self.now next_newline from end }
        ensures { result ≡ takes_newline (view_waiting document.now)
            (line_bytes_from self.now from) }
    {
        !document.literal && self.ends_odd(from, end)
    }

    /// The end of the line at a place, and the place after it.
    #[tactic(auto, using(shgrammar::proofs::Places::not_end_low, shgrammar::proofs::Places::end_high))]
    fn line_end(&self, from: usize) -> (usize, usize)
        requires { Inside self.now from }
        ensures end { on self.now result.0 ≡ seen self.now next_newline from }
        ensures next { on self.now result.1 ≡ seen self.now past_line from }
        ensures inside { (from ≤ result.0) × Between self.now result.0 result.1 }
    {
        let end = self.find(Sought::Byte(b'\n'), from);
        if self.at_end(end) {
            return (end, end);
        }
        (end, end + 1)
    }

    /// Whether the text ends here.
    fn is_at_end(&self) -> bool
        ensures { result ≡ at_end (text_of self.now) (here_of self.now) }
    {
        self.at_end(self.at)
    }

    /// To the place after the delimiter's line of a document whose body begins here; answers where in the
    /// text that line begins. The stretch goes on with the lines.
    #[tactic(auto, using(shgrammar::proofs::Delimiters::none_at_end, shgrammar::proofs::Delimiters::found_here, shgrammar::proofs::Delimiters::on_to_next, shgrammar::proofs::Delimiters::past_line_low))]
    fn delimiter_line(&mut self, document: &Waiting) -> Option<usize>
        ensures value { result ≡ delimiter_from (text_of self.old) (view_waiting document.now)
            (here_of self.old) }
        ensures within { IfSome result (λ line. line < length (text_of self.old)) }
        ensures past { IfSome result
            (λ line. here_of self.new ≡ past_line (text_of self.old) line) }
        ensures onward { here_of self.old ≤ here_of self.new }
        ensures same { Stays self.old self.new }
    {
        let mut taken = false;
        'lines: while !self.is_at_end() {
            let (at, line) = (self.at, self.here());
            let (end, next) = self.line_end(at);
            let ends = self.ends_here(document, taken, at, end);
            taken = self.takes_newline(document, at, end);
            self.at = next;
            if ends {
                return Some(line);
            }
            if next >= self.front.len() {
                self.go_on();
            }
        }
        None
    }

    /// The body of a document that waited, which begins here.
    #[tactic(auto, using(crate::proofs::Awaited::body_missing, crate::proofs::Awaited::body_more))]
    fn one_body(&mut self, document: &Waiting) -> Result<(), Stop>
        requires { Waits (limits_of self.old) document.now }
        ensures read { (rest : Row Awaited) → BodyRead (limits_of self.old) result (bodies_from
            (given_of self.old) (view_waiting document.now ∷ rest) self.old.documents.bodies.items
            (here_of self.old)) (bodies_from (given_of self.old) rest
            self.new.documents.bodies.items (here_of self.new)) }
        ensures onward { here_of self.old ≤ here_of self.new }
        ensures same { Keeps self.old self.new }
    {
        let start = self.here();
        let Some(line) = self.delimiter_line(document) else {
            return Err(Stop::Wrong(Fault {
                kind: FaultKind::UnclosedHere,
                at: document.operator_at,
            }));
        };
        self.documents.bodies.push(Span {
            start: self.origin + start,
            end: self.origin + line,
        })?;
        Ok(())
    }

    /// The bodies of the documents that wait, which begin here. None waits any more.
    #[inline(never)]
    #[tactic(auto, using(crate::proofs::Awaited::bodies_read, crate::proofs::Awaited::bodies_stop))]
    pub(crate) fn bodies(&mut self) -> Result<(), Stop>
        ensures { PlaceToPlace self.old (change bodies_here) result (λ _. tt) self.new }
    {
        let mut waiting = mem::replace(&mut self.documents.waiting, Vec::new(self.alloc));
        'documents: for document in &waiting {
            self.one_body(document)?;
        }
        waiting.clear();
        self.documents.waiting = waiting;
        Ok(())
    }

    /// The same; most often none waits.
    #[inline(always)]
    #[tactic(auto, using(crate::proofs::Awaited::none_awaited))]
    pub(crate) fn bodies_here(&mut self) -> Result<(), Stop>
        ensures { PlaceToPlace self.old (change bodies_here) result (λ _. tt) self.new }
    {
        if self.documents.waiting.is_empty() {
            return Ok(());
        }
        self.bodies()?;
        Ok(())
    }
}
