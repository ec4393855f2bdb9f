//! Laws of the definitions alone, which no code stands behind.
ghost use Rattle.std.specs.Prelude.{◌≡◌, ◌+◌, ◌<◌, ◌≤◌, [], ◌∷◌, ◌++◌, ℕ, List, List as Row, length};
ghost use Rattle.shast.specs.Nodes.{NodesWithin, nodes_at, outline};
ghost use Rattle.shgrammar.specs.declared.edition.Edition.{Edition};
ghost use Rattle.shgrammar.specs.Lines.{AKind};
ghost use Rattle.shgrammar.specs.Scripts.{FirstFault, Outcome};
ghost use Rattle.shtext.specs.Edit.{ASplice, AreInRange, Rise, edited, first_begin};
ghost use Rattle.shwindow.specs.Lines.{IsRow, Reads, extent};
ghost use Rattle.shwindow.specs.declared.line.HeldLine.{HeldLine};
ghost use Rattle.shheld.specs.TopLines.{HasWindow, IsTopLine, script_of};
ghost use Rattle.shheld.specs.Walk.{fault_at, line_nodes_at, no_line, outlines, with_lines};

/// The top-level lines of scripts, read under an edition, keep to the laws of held lines.
#[tactic(auto, using(crate::proofs::TopLines::top_lines))]
pub fn top_lines()
    ensures { (edition : Edition) → Reads (IsTopLine edition) }
{}

/// Each edit of any bytes has a window, and only one. If its splices lie in the bytes and rise, the window
/// begins at or before the first of them, and ends within the edited bytes, at its start or after that.
pub fn windows()
    ensures some { (edition : Edition) (bytes : List ℕ) (ss : Row ASplice) →
        (w t : ℕ) × HasWindow edition bytes ss w t }
    ensures only { (edition : Edition) (bytes : List ℕ) (ss : Row ASplice) (w v t u : ℕ) →
        HasWindow edition bytes ss w t → HasWindow edition bytes ss v u → (w ≡ v) × (t ≡ u) }
    ensures order { (edition : Edition) (bytes : List ℕ) (ss : Row ASplice) (w t : ℕ) →
        AreInRange (length bytes) ss → Rise ss → HasWindow edition bytes ss w t →
        (w ≤ first_begin ss) × (w ≤ t) × (t ≤ length (edited bytes ss)) }
{}

/// Bytes have a row of lines under each edition. What is read of them is the script of that row, whose
/// entries a walk over the row gathers. Its first fault is that of the last line.
#[tactic(auto, using(crate::proofs::Rows::row_outcome, crate::proofs::Rows::row_entries, crate::proofs::Rows::row_fault))]
pub fn script_of_lines()
    ensures row { (edition : Edition) (bytes : List ℕ) →
        (row : Row (HeldLine AKind)) × IsRow (IsTopLine edition) bytes row }
    ensures outcome { (edition : Edition) (bytes : List ℕ) (row : Row (HeldLine AKind)) →
        IsRow (IsTopLine edition) bytes row → Outcome edition bytes (script_of row) }
    ensures entries { (edition : Edition) (bytes : List ℕ) (row : Row (HeldLine AKind)) →
        IsRow (IsTopLine edition) bytes row →
        (script_of row).entries ≡ (with_lines no_line row).entries }
    ensures fault { (edition : Edition) (bytes : List ℕ)
        (before : Row (HeldLine AKind)) (last : HeldLine AKind) →
        IsRow (IsTopLine edition) bytes (before ++ last ∷ []) →
        FirstFault edition bytes (fault_at (extent before) last.kind) }
    ensures within { (edition : Edition) (bytes : List ℕ) (row : Row (HeldLine AKind)) →
        IsRow (IsTopLine edition) bytes row → NodesWithin (length bytes) (script_of row).entries }
{}

/// The nodes that hold a byte are those of the line that holds it, and the outline of
/// a script is those of its lines, in order.
#[tactic(auto, using(crate::proofs::NodesAt::row_nodes_at, crate::proofs::NodesAt::row_nodes_past, crate::proofs::Outlines::row_outline))]
pub fn nodes_of_lines()
    ensures at { (edition : Edition) (bytes : List ℕ)
        (before : Row (HeldLine AKind)) (line : HeldLine AKind) (rest : Row (HeldLine AKind))
        (at : ℕ) →
        IsRow (IsTopLine edition) bytes (before ++ line ∷ rest) →
        extent before ≤ at → at < extent before + line.len →
        nodes_at 0 at (script_of (before ++ line ∷ rest)).entries
        ≡ line_nodes_at (extent before) at line.kind }
    ensures past { (edition : Edition) (bytes : List ℕ) (row : Row (HeldLine AKind)) (at : ℕ) →
        IsRow (IsTopLine edition) bytes row → length bytes ≤ at →
        nodes_at 0 at (script_of row).entries ≡ [] }
    ensures outline { (edition : Edition) (bytes : List ℕ) (row : Row (HeldLine AKind)) →
        IsRow (IsTopLine edition) bytes row → outline 0 (script_of row).entries ≡ outlines 0 row }
{}
