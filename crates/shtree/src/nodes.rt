//! The nodes of a script's tree, as an editor asks for them: what stands where in the text.
ghost use Rattle.std.specs.Prelude.{◌≡◌, ◌-◌, ◌++◌, All, filter, map, OnErr, OnOk};
ghost use Rattle.shast.specs.declared.node.NodeLine.{NodeLine};
ghost use Rattle.shast.specs.Nodes.{by_place, entries_nodes, holds, in_order, in_outline, IsWithin, nodes_at, NodesWithin, outline, placed};
ghost use Rattle.shast.specs.View.{view_list};

use crate::visit::{Wanted, visit_list};
use shast::{List, NodeLine};
use std::alloc::{AllocError, Global};
use std::cmp::Ordering;

/// Adds the nodes of a list that an outline shows to `lines`: all but words,
/// assignments, redirections and comments.
///
/// The list stands in the text from the offset `base` on. The nodes come by their starts, at equal
/// starts the longer first, and a parent before its child.
///
/// # Errors
///
/// [`AllocError`], where memory runs out. `lines` then holds what it held before.
pub fn outline_of(
    alloc: Global,
    list: &List,
    base: usize,
    lines: &mut Vec<NodeLine>,
) -> Result<(), AllocError>
    requires { NodesWithin (usize.MAX - base) (view_list list.now) }
    ensures ok { OnOk result
        (lines.new.items ≡ lines.old.items ++ outline base (view_list list.now)) }
    ensures err { OnErr result (lines.new.items ≡ lines.old.items) }
{
    add_nodes(alloc, list, base, Outlined, lines)
}

/// Adds the nodes of a list that hold the byte at the offset `at` to `lines`, of every kind.
///
/// The list stands in the text from the offset `base` on. The nodes come as those of
/// [`outline_of`] do: the outer before the inner.
///
/// # Errors
///
/// [`AllocError`], where memory runs out. `lines` then holds what it held before.
pub fn nodes_at(
    alloc: Global,
    list: &List,
    base: usize,
    at: usize,
    lines: &mut Vec<NodeLine>,
) -> Result<(), AllocError>
    requires { NodesWithin (usize.MAX - base) (view_list list.now) }
    ensures ok { OnOk result
        (lines.new.items ≡ lines.old.items ++ nodes_at base at (view_list list.now)) }
    ensures err { OnErr result (lines.new.items ≡ lines.old.items) }
{
    // nothing of the list stands before its base
    if at < base {
        return Ok(());
    }
    add_nodes(alloc, list, base, Holding(at - base), lines)
}

/// The nodes that an outline shows.
#[derive(Clone, Copy)]
struct Outlined;

impl Wanted for Outlined {
    ghost is_wanted = { λ _. in_outline };

    fn wants(self, line: &NodeLine) -> bool {
        line.kind.is_outlined()
    }
}

/// The nodes that hold the byte at this offset from the list's base.
#[derive(Clone, Copy)]
struct Holding(usize);

impl Wanted for Holding {
    ghost is_wanted = { λ at. holds at.0 };

    fn wants(self, line: &NodeLine) -> bool {
        line.start <= self.0 && self.0 < line.end
    }
}

/// Adds the nodes that are wanted of a list that stands from `base` on to `lines`, in
/// order. They are gathered there, so that a short list asks for no memory but theirs.
/// Where memory runs out, `lines` then holds what it held before.
fn add_nodes<W: Wanted>(
    alloc: Global,
    list: &List,
    base: usize,
    wanted: W,
    lines: &mut Vec<NodeLine>,
) -> Result<(), AllocError>
    requires { NodesWithin (usize.MAX - base) (view_list list.now) }
    ensures ok { OnOk result
        (lines.new.items ≡ lines.old.items
        ++ map (placed base) (in_order
        (filter (W.is_wanted wanted) (entries_nodes (view_list list.now))))) }
    ensures err { OnErr result (lines.new.items ≡ lines.old.items) }
{
    let held = lines.len();
    if visit_list(list, wanted, lines).is_ok() {
        let settled = settle(alloc, lines.slice_mut(held..), base);
        if settled.is_ok() {
            return settled;
        }
    }
    lines.truncate(held);
    Err(AllocError)
}

/// Puts nodes of a list that stands from `base` on in order, and at their places in
/// the text. Nodes that are in order need no memory.
fn settle(alloc: Global, found: &mut [NodeLine], base: usize) -> Result<(), AllocError>
    requires { All (IsWithin (usize.MAX - base)) found.old }
    ensures { OnOk result (found.new ≡ map (placed base) (in_order found.old)) }
{
    found.sort_by(alloc, by_place)?;
    place(found, base);
    Ok(())
}

/// By their starts, at equal starts the longer first.
fn by_place(a: &NodeLine, b: &NodeLine) -> Ordering
    ensures { result ≡ by_place a.now b.now }
{
    a.start.cmp(&b.start).then(b.end.cmp(&a.end))
}

/// Puts nodes of a list that stands from `base` on at their places in the text.
#[tactic(auto, using(crate::proofs::Placed::placed_end, crate::proofs::Placed::placed_all))]
fn place(found: &mut [NodeLine], base: usize)
    requires { All (IsWithin (usize.MAX - base)) found.old }
    ensures { found.new ≡ map (placed base) found.old }
{
    if base == 0 {
        return;
    }
    for line in found.iter_mut() {
        *line = line.placed(base);
    }
}
