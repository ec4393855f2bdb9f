//! The order of a script's nodes.
ghost use Rattle.std.specs.Prelude.{◌≡◌, ℕ, List as Row, IsPermutation};
ghost use Rattle.shast.specs.declared.node.NodeLine.{NodeLine};
ghost use Rattle.shast.specs.Nodes.{in_order, nodes_at, outline};
ghost use Rattle.shast.specs.Tree.{Entries};
ghost use Rattle.shlaws.specs.Order.{AreInOrder, HaveTheSameAtEachPlace};

/// The definition inserts one node after another. What comes of it has the nodes that were put in order, by
/// their starts and at equal starts the longer first; those at one place stay as they were. No other row is
/// like that.
pub fn nodes_in_order()
    ensures sorted { (ns : Row NodeLine) → AreInOrder (in_order ns) }
    ensures stable { (ns : Row NodeLine) → HaveTheSameAtEachPlace (in_order ns) ns }
    ensures members { (ns : Row NodeLine) → IsPermutation ns (in_order ns) }
    ensures only { (ms ns : Row NodeLine) →
        AreInOrder ms → HaveTheSameAtEachPlace ms ns → ms ≡ in_order ns }
{}

/// So what an editor is told of a list is in order too.
pub fn answers_in_order()
    ensures outline { (base : ℕ) (list : Entries) → AreInOrder (outline base list) }
    ensures nodes_at { (base at : ℕ) (list : Entries) → AreInOrder (nodes_at base at list) }
{}
