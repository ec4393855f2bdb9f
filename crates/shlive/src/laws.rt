//! Laws of the definitions alone, which no code stands behind.
ghost use Rattle.std.specs.Prelude.{◌≡◌, ◌<◌, ◌≤◌, ◌^◌, ℕ, List, List as Row, Option};
ghost use Rattle.shast.specs.declared.node.NodeLine.{NodeLine};
ghost use Rattle.shgrammar.specs.Scripts.{FirstFault};
ghost use Rattle.shgrammar.specs.declared.edition.Edition.{Edition};
ghost use Rattle.shgrammar.specs.declared.fault.Fault.{Fault};
ghost use Rattle.shsource.specs.Meter.{raised};
ghost use Rattle.shlive.specs.Answers.{HasNodesAt, HasOutline, HasStatus, HasText};
ghost use Rattle.shlive.specs.Edits.{AreRead, IsAfter, Tried, bytes_after};
ghost use Rattle.shlive.specs.Held.{Held};
ghost use Rattle.shlive.specs.Requests.{Ending, Request, Requests};

/// An input spells one list of requests, and ends in one way.
pub fn one_list()
    ensures some { (input : List ℕ) → (requests : List Request)
        × ((ending : Ending) × Requests input requests ending) }
    ensures only { (input : List ℕ) (a b : List Request) (d e : Ending) → Requests input a d →
        Requests input b e → (a ≡ b) × (d ≡ e) }
{}

/// After any list of edits, some of them made and some refused, a session holds the bytes that the made ones
/// leave of those that it held before. Each answer, which is said of its bytes, is the one for those bytes
/// read from scratch, by the edition and in the layout of before: there is no other. Its meter has risen by
/// the windows of the made ones, and by no more than those of the ones that ran out of memory beside.
pub fn after_any_edits()
    ensures bytes { (before after : Held) (edits : Row Tried) → IsAfter before edits after →
        after.bytes ≡ bytes_after before.bytes edits }
    ensures how { (before after : Held) (edits : Row Tried) → IsAfter before edits after →
        after.how ≡ before.how }
    ensures meter { (before after : Held) (edits : Row Tried) (least most : ℕ) →
        before.meter < 2 ^ 64 →
        IsAfter before edits after → AreRead before.how.edition before.bytes edits least most →
        (raised before.meter least ≤ after.meter) × (after.meter ≤ raised before.meter most) }
    ensures sums { (edition : Edition) (bytes : List ℕ) (edits : Row Tried) →
        (least most : ℕ) × AreRead edition bytes edits least most }
    ensures status { (before after : Held) (edits : Row Tried) → IsAfter before edits after →
        (x y : ℕ) → HasStatus after.how.edition after.bytes x →
        HasStatus before.how.edition (bytes_after before.bytes edits) y → x ≡ y }
    ensures fault { (before after : Held) (edits : Row Tried) → IsAfter before edits after →
        (x y : Option Fault) → FirstFault after.how.edition after.bytes x →
        FirstFault before.how.edition (bytes_after before.bytes edits) y → x ≡ y }
    ensures outline { (before after : Held) (edits : Row Tried) → IsAfter before edits after →
        (x y : List NodeLine) → HasOutline after.how.edition after.bytes x →
        HasOutline before.how.edition (bytes_after before.bytes edits) y → x ≡ y }
    ensures nodes { (before after : Held) (edits : Row Tried) → IsAfter before edits after →
        (at : ℕ) (x y : List NodeLine) → HasNodesAt after.how.edition after.bytes at x →
        HasNodesAt before.how.edition (bytes_after before.bytes edits) at y → x ≡ y }
    ensures text { (before after : Held) (edits : Row Tried) → IsAfter before edits after →
        (x y : Option (List ℕ)) → HasText after.how after.bytes x →
        HasText before.how (bytes_after before.bytes edits) y → x ≡ y }
{}
