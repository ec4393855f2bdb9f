//! What prints a tree, and the texts that it copies from the source.
#![tactic(auto, using(crate::proofs::Writing::written_text, crate::proofs::Writing::written_first))]

ghost use Rattle.std.specs.Prelude.{◌≡◌, ◌++◌, IfOk, None, OnOk};
ghost use Rattle.shgrammar.specs.Scripts.{view_script};
ghost use Rattle.shgrammar.specs.declared.edition.Edition.{Edition};
ghost use Rattle.shgrammar.specs.Scripts.{Outcome};
ghost use Rattle.shast.specs.Shape.{bare_at, shape_of, text_at};
ghost use Rattle.shprint.specs.Marks.{one};
ghost use Rattle.shprint.specs.Printed.{printed};
ghost use Rattle.shprint.specs.ReadBack.{IsOutcome, ReadsBack};
ghost use Rattle.shprint.specs.Written.{Puts};

use crate::bare::add_bare;
use crate::layout::Layout;
use crate::page::Page;
use shast::Span;
use shgrammar::Script;
use shsource::Source;
use std::alloc::{AllocError, Global};

/// How many bytes of a text are copied at once. Most texts have fewer.
const ROW: usize = 64;

/// By what a tree is printed: an allocator, a layout, and the source that the tree's spans tell of.
#[derive(Drop)]
pub struct Printer<'a, S: Source> {
    pub alloc: Global,
    pub layout: Layout,
    pub source: &'a S,
}

impl<'a, S: Source> Printer<'a, S> {
    /// Copies the bytes of a span, by the stretches in which the source tells them. It stands apart, so that
    /// what prints a short text in place stays small.
    #[inline(never)]
    pub(crate) fn copy(&self, span: Span, text: &mut Vec<u8>) -> Result<(), AllocError>
        ensures { OnOk result (text.new.items ≡ text.old.items
            ++ text_at (S.bytes self.now.source.now) span) }
    {
        let mut at = span.start;
        'runs: while at < span.end {
            let run = self.source.run(at);
            let wanted = span.end - at;
            if wanted <= run.len() {
                return text.extend_from_slice(&run[..wanted]);
            }
            if run.is_empty() {
                return Ok(());
            }
            text.extend_from_slice(run)?;
            at += run.len();
        }
        Ok(())
    }

    /// Prints the bytes of a span as they stand.
    ///
    /// Where they are few, those after them are copied too and cut off again: a copy of as many bytes as are
    /// known beforehand is some moves in place, and no call that asks for their number.
    #[inline(always)]
    pub(crate) fn print_text(&self, span: Span, page: &mut Page) -> Result<(), AllocError>
        ensures { OnOk result (Puts S.bytes self.now page.old page.new one text_at span) }
    {
        let wanted = span.end.saturating_sub(span.start);
        match self.source.run(span.start).first_chunk::<ROW>() {
            Some(row) if wanted <= ROW && ROW <= page.text.capacity() - page.text.len() => {
                let end = page.text.len() + wanted;
                page.text.extend_from_slice(row)?;
                page.text.truncate(end);
                Ok(())
            }
            _ => self.copy(span, &mut page.text),
        }
    }

    /// Prints the bytes of a span without its continuations.
    pub(crate) fn print_bare_text(&self, span: Span, page: &mut Page) -> Result<(), AllocError>
        ensures { OnOk result (Puts S.bytes self.now page.old page.new one bare_at span) }
    {
        add_bare(&mut page.text, self.source, span)
    }
}

/// The printed text of a script, by the layout's rules. The script is what a reader of some edition read of
/// the source, and has no fault.
///
/// # Errors
///
/// [`AllocError`], where memory runs out.
pub fn print<S: Source>(
    alloc: Global,
    layout: &Layout,
    script: &Script,
    source: &S,
) -> Result<Vec<u8>, AllocError>
    requires outcome { IsOutcome (S.bytes source.now) (view_script script.now) }
    requires faultless { script.now.fault ≡ None }
    ensures printed { IfOk result (λ text. text.items ≡
        printed layout.now (shape_of (S.bytes source.now) (view_script script.now).entries)) }
    // Under each edition by which the script was read, the text is one without a fault, of the same shape,
    // and no other.
    ensures reads_back { IfOk result (λ text. (edition : Edition) →
        Outcome edition (S.bytes source.now) (view_script script.now) →
        ReadsBack edition text.items
        (shape_of (S.bytes source.now) (view_script script.now).entries)) }
{
    let printer = Printer {
        alloc,
        layout: *layout,
        source,
    };
    let mut page = Page::new(alloc);
    printer.print_entries(&script.list.entries, &mut page)?;
    Ok(page.text)
}
