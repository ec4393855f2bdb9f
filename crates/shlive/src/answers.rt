//! What the lines of a script answer, each where it stands.
ghost use Rattle.std.specs.Prelude.{◌≡◌, ◌+◌, ◌<◌, ◌≤◌, ◌++◌, ◌&&◌, ℕ, [], IfOk, List as Row, OnOk, length, nat_lt};
ghost use Rattle.shast.specs.Shape.{shape_of};
ghost use Rattle.shgrammar.specs.declared.edition.Edition.{Edition};
ghost use Rattle.shheld.specs.TopLines.{script_of};
ghost use Rattle.shheld.specs.Walk.{line_nodes_at, line_outline};
ghost use Rattle.shlive.specs.Answers.{HasNodesAt, HasOutline};
ghost use Rattle.shlive.specs.HeldLines.{AreHeld, FitsAt, IsHeldLine};
ghost use Rattle.shlive.specs.Printing.{PrintsLine};
ghost use Rattle.shprint.specs.Printed.{print_blank, printed};
ghost use Rattle.shprint.specs.Written.{Prints};
ghost use Rattle.shtext.specs.Buffer.{buffer_bytes};
ghost use Rattle.shtext.specs.Edit.{limit};
ghost use Rattle.shwindow.specs.Lines.{IsRow};

use crate::text_from::TextFrom;
use crate::top_lines::TopLine;
use shprint::{Layout, Page, Printer};
use shtext::Buffer;
use shtree::{NodeLine, nodes_at, outline_of};
use shwindow::{HeldLine, HeldLines};
use std::alloc::{AllocError, Global};

/// The outline of all lines.
pub(crate) fn outline_of_lines(
    alloc: Global,
    lines: &HeldLines<TopLine>,
) -> Result<Vec<NodeLine>, AllocError>
    requires { (edition : Edition) × AreHeld edition lines.now }
    ensures { IfOk result (λ nodes. (edition : Edition) (bytes : Row ℕ) →
        IsRow (IsHeldLine edition) bytes lines.now →
        HasOutline edition bytes nodes.items) }
{
    let mut nodes = Vec::new(alloc);
    let mut begin = 0;
    let mut rest = lines.lines();
    'lines: while let Some(line) = rest.next() {
        add_outline(alloc, line, begin, &mut nodes)?;
        begin += line.len;
    }
    Ok(nodes)
}

/// Adds the outline of a line that begins at an offset.
fn add_outline(
    alloc: Global,
    line: &HeldLine<TopLine>,
    begin: usize,
    nodes: &mut Vec<NodeLine>,
) -> Result<(), AllocError>
    requires { FitsAt begin line.now.kind }
    ensures { OnOk result (nodes.new.items ≡ nodes.old.items ++ line_outline begin line.now.kind) }
{
    match line.kind.list() {
        Some(list) => outline_of(alloc, list, begin, nodes),
        None => Ok(()),
    }
}

/// The nodes that hold the byte at an offset: those of the line that holds it.
pub(crate) fn nodes_of_lines(
    alloc: Global,
    lines: &HeldLines<TopLine>,
    at: usize,
) -> Result<Vec<NodeLine>, AllocError>
    requires { (edition : Edition) × AreHeld edition lines.now }
    ensures { IfOk result (λ nodes. (edition : Edition) (bytes : Row ℕ) →
        IsRow (IsHeldLine edition) bytes lines.now →
        at < length bytes → HasNodesAt edition bytes at nodes.items) }
{
    let mut nodes = Vec::new(alloc);
    let (line, begin) = lines.line_at(at);
    add_nodes_at(alloc, line, begin, at, &mut nodes)?;
    Ok(nodes)
}

/// Adds the nodes of a line that begins at an offset, where they hold the byte at another one.
fn add_nodes_at(
    alloc: Global,
    line: &HeldLine<TopLine>,
    begin: usize,
    at: usize,
    nodes: &mut Vec<NodeLine>,
) -> Result<(), AllocError>
    requires { FitsAt begin line.now.kind }
    ensures { OnOk result (nodes.new.items ≡ nodes.old.items
        ++ line_nodes_at begin at line.now.kind) }
{
    match line.kind.list() {
        Some(list) => nodes_at(alloc, list, begin, at, nodes),
        None => Ok(()),
    }
}

/// The printed text of all lines, whose bytes the source has.
pub(crate) fn text_of_lines(
    alloc: Global,
    layout: &Layout,
    source: &Buffer,
    lines: &HeldLines<TopLine>,
) -> Result<Vec<u8>, AllocError>
    requires small { length (buffer_bytes source.now) ≤ limit }
    requires row { (edition : Edition)
        × IsRow (IsHeldLine edition) (buffer_bytes source.now) lines.now }
    ensures { IfOk result (λ text. text.items
        ≡ printed layout.now (shape_of (buffer_bytes source.now) (script_of lines.now).entries)) }
{
    let printer = Printer {
        alloc,
        layout: *layout,
        source,
    };
    let mut page = Page::new(alloc);
    let mut gap = false;
    let mut begin = 0;
    let mut rest = lines.lines();
    'lines: while let Some(line) = rest.next() {
        gap = print_line(&printer, line, begin, gap, &mut page)?;
        begin += line.len;
    }
    Ok(page.text)
}

/// Prints a line that begins at an offset, where there is a gap before it or none.
/// Answers whether there is one after it.
fn print_line(
    printer: &Printer<Buffer>,
    line: &HeldLine<TopLine>,
    begin: usize,
    gap: bool,
    page: &mut Page,
) -> Result<bool, AllocError>
    ensures { IfOk result (λ gap_after. (edition : Edition) →
        PrintsLine edition printer.now.layout
        (buffer_bytes printer.now.source.now) begin line.now gap gap_after page.old page.new) }
{
    let Some(list) = line.kind.list() else {
        return Ok(true);
    };
    print_gap(gap, page)?;
    let rest = TextFrom::new(printer.source, begin);
    let printer = Printer {
        alloc: printer.alloc,
        layout: printer.layout,
        source: &rest,
    };
    printer.print_entries(&list.entries, page)?;
    Ok(false)
}

/// An empty line for a gap between entries. Before the first entry there is none.
fn print_gap(gap: bool, page: &mut Page) -> Result<(), AllocError>
    ensures { IfOk result (λ _. page.old.held.items ≡ [] →
        Prints page.old page.new (print_blank (gap && nat_lt 0 (length page.old.text.items)))) }
{
    if gap && !page.text.is_empty() {
        // The line before has ended, and the bodies of its here-documents wait no more.
        page.text.push(b'\n')?;
    }
    Ok(())
}
