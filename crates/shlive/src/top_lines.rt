//! The top-level lines of a script: how they are read, and what is held of each.
ghost use Rattle.std.specs.Prelude.{◌≡◌, ◌+◌, ◌-◌, ◌<◌, ◌≤◌, ◌^◌, IfOk, IsOk, OnErr, drop, false, length, option_map};
ghost use Rattle.shast.specs.View.{view_list};
ghost use Rattle.shgrammar.specs.Lines.{AKind};
ghost use Rattle.shread.specs.Answers.{meter_of, view_kind};
ghost use Rattle.shsource.specs.Meter.{raised};
ghost use Rattle.shlive.specs.HeldLines.{IsHeldLine, entries_in, fault_in};

use shread::{Fault, LineKind, Reader};
use shtext::Source;
use shtree::List;
use shwindow::{HeldLine, LineReader};
use std::alloc::AllocError;
use std::marker::Model;

/// What a top-level line is, with its tree or its fault. Their offsets count from the line's first byte.
#[derive(Drop)]
pub(crate) struct TopLine {
    kind: LineKind,
}

impl Model for TopLine {
    ghost use Rattle.shgrammar.specs.Lines.{AKind};
    ghost use Rattle.shheld.proofs.Codes.{kind_code};
    ghost use Rattle.shread.specs.Answers.{view_kind};

    ghost Value = { AKind };

    ghost coded = { kind_code };

    ghost view = { λ line. view_kind line.kind };
}

impl TopLine {
    /// It is held for long, so the room of its list that no entry takes is given back.
    fn new(mut kind: LineKind) -> TopLine
        ensures { result ≡ view_kind kind }
    {
        if let LineKind::Entries(list) = &mut kind {
            list.entries.shrink_to_fit();
        }
        TopLine { kind }
    }

    /// Its entries, where it has some.
    pub(crate) fn list(&self) -> Option<&List>
        ensures { option_map (λ list. view_list list.now) result ≡ entries_in self.now }
    {
        match &self.kind {
            LineKind::Entries(list) => Some(list),
            _ => None,
        }
    }

    /// Its fault, where it has one.
    pub(crate) fn fault(&self) -> Option<Fault>
        ensures { result ≡ fault_in self.now }
    {
        match self.kind {
            LineKind::Faulty(fault) => Some(fault),
            _ => None,
        }
    }
}

/// Reads top-level lines.
#[derive(Drop)]
pub(crate) struct TopLines {
    pub(crate) reader: Reader,
}

impl LineReader<TopLine> for TopLines {
    ghost use Rattle.shgrammar.specs.declared.edition.Edition.{Edition};
    ghost use Rattle.shread.specs.Answers.{edition_of};
    ghost use Rattle.shlive.specs.HeldLines.{IsHeldLine, count_of};
    ghost use Rattle.shheld.proofs.TopLines.{top_lines};

    ghost Setting = { Edition };

    ghost setting = { λ lines. edition_of lines.reader };

    ghost is_line = { IsHeldLine };

    ghost meter = { λ lines. count_of lines.reader };

    fn read_line<S: Source>(
        &mut self,
        source: &S,
        at: usize,
    ) -> Result<HeldLine<TopLine>, AllocError> {
        match self.reader.read_line(source, at) {
            Ok(line) => Ok(HeldLine {
                kind: TopLine::new(line.kind),
                len: line.next - at,
                ended: line.ended,
            }),
            Err(_) => Err(AllocError),
        }
    }

    // Held lines keep to the laws of lines since top-level lines do.
    ghost reads = { λ edition. record {
      only = λ T l m one two. (top_lines edition).only T l m one.0 two.0;
      onward = λ T l is ended. (top_lines edition).onward T l is.0 ended;
      within = λ T l is ended. (top_lines edition).within T l is.0 ended;
      alone = λ T U l is ended same. ((top_lines edition).alone T U l is.0 ended same, is.1);
    } };
}
