//! Laws of the definitions alone, which no code stands behind.
ghost use Rattle.std.specs.Prelude.{◌≡◌, ◌∷◌, ◌++◌, ◌+◌, ◌≤◌, ℕ, Bool, List as Row, Option, Some, false, length, map, true};
ghost use Rattle.shast.specs.declared.tree.Span.{Span};
ghost use Rattle.shast.specs.Everywhere.{HaveItems};
ghost use Rattle.shast.specs.Moved.{moved};
ghost use Rattle.shast.specs.Nodes.{NodesWithin, commands_end, entries_nodes, nodes_at, outline};
ghost use Rattle.shast.specs.Normal.{alone, is_normal, joined, of_command};
ghost use Rattle.shast.specs.Shape.{Shape, Text, shape_of, text_at};
ghost use Rattle.shast.specs.Spelling.{spelling};
ghost use Rattle.shast.specs.Bodies.{filled, filled_row};
ghost use Rattle.shast.specs.Opened.{bodies_of, opened};
ghost use Rattle.shast.specs.Tree.{ACommand, AContent, AnEntry, AnItemContent, Entries, EntriesOf, Items, brace, compound, entries_of, entry, formed, item, more_items, no_entry, no_item, remark, simple};

/// The normal form of a list refuses each of these, in a list of one entry.
pub fn normal_form()
    ensures blank_first { (what : AContent) (background : Bool) (comment : Option Span) →
        is_normal (alone (entry what background true comment)) ≡ false }
    ensures comment_in_background { (c : Span) (comment : Option Span) →
        is_normal {M = Span} (alone (entry (remark c) true false comment)) ≡ false }
    ensures comment_with_comment { (c d : Span) (background : Bool) →
        is_normal {M = Span} (alone (entry (remark c) background false (Some d))) ≡ false }
    ensures broken_first_item { (what : AnItemContent) (items : Items) →
        is_normal (alone (of_command (simple (more_items (item true what) items)))) ≡ false }
    ensures unbroken_join { (c : Span) (cs : Row Span) (one two : ACommand) →
        is_normal (alone (joined (record { broken = false; comments = c ∷ cs }) one two)) ≡ false }
    ensures empty_group { (span : Span) →
        is_normal {T = Span} (alone (of_command (compound (formed (brace no_entry) span no_item))))
        ≡ false }
    ensures group_of_a_comment { (c span : Span) (comment : Option Span) →
        is_normal (alone (of_command
        (compound (formed (brace (alone (entry (remark c) false false comment))) span no_item))))
        ≡ false }
{}

/// A list that names no offset above a limit names none above a greater one: so what a reader tells of its
/// lists is what [`outline_of`](crate::outline_of) and [`nodes_at`](crate::nodes_at) ask for.
#[tactic(auto, using(shast::proofs::Reach::within_more))]
pub fn greater_limit()
    ensures { (limit more : ℕ) (list : Entries) → limit ≤ more → NodesWithin limit list →
        NodesWithin more list }
{}

/// A list and its shape over any bytes are alike in normal form: this looks at no text and at no mark.
#[tactic(auto, using(shast::proofs::SameForm::same_form))]
pub fn same_form()
    ensures { (bytes : Row ℕ) (list : Entries) → is_normal (shape_of bytes list) ≡ is_normal list }
{}

/// A list is its open list, filled with its bodies, whatever an open document has in
/// the place of its body; so is a shape.
#[tactic(auto, using(shast::proofs::FilledBack::filled_back))]
pub fn filled_back()
    ensures spans { (nothing : Span) (list : Entries) →
        filled (bodies_of list) (opened nothing list) ≡ list }
    ensures texts { (nothing : Text) (list : Shape EntriesOf) →
        filled (bodies_of list) (opened nothing list) ≡ list }
{}

/// Filling a list, or a shape, changes nothing but bodies.
#[tactic(auto, using(shast::proofs::FilledBlind::filled_blind))]
pub fn filled_blind()
    ensures spans { (nothing : Span) (bodies : Row Span) (list : Entries) →
        opened nothing (filled bodies list) ≡ opened nothing list }
    ensures texts { (nothing : Text) (bodies : Row Text) (list : Shape EntriesOf) →
        opened nothing (filled bodies list) ≡ opened nothing list }
{}

/// Neither the nodes of a list, nor its normal form, nor the spelling of a shape look at bodies; so all
/// offsets that a list names stay within what they were within.
#[tactic(auto, using(shast::proofs::OpenSame::nodes_open, shast::proofs::OpenSame::filled_nodes, shast::proofs::OpenSame::filled_within, shast::proofs::OpenSame::filled_ends, shast::proofs::OpenSame::normal_open, shast::proofs::OpenSame::filled_normal, shast::proofs::OpenSame::spelling_open, shast::proofs::OpenSame::filled_spelling))]
pub fn bodies_unseen()
    ensures open_nodes { (nothing : Span) (list : Entries) →
        entries_nodes (opened nothing list) ≡ entries_nodes list }
    ensures nodes { (bodies : Row Span) (list : Entries) →
        entries_nodes (filled bodies list) ≡ entries_nodes list }
    ensures within { (limit : ℕ) (bodies : Row Span) (list : Entries) → NodesWithin limit list →
        NodesWithin limit (filled bodies list) }
    ensures ends { (bodies : Row Span) (list : Entries) (before : ℕ) →
        commands_end before (filled bodies list) ≡ commands_end before list }
    ensures open_normal { (nothing : Span) (list : Entries) →
        is_normal (opened nothing list) ≡ is_normal list }
    ensures normal { (bodies : Row Span) (list : Entries) →
        is_normal (filled bodies list) ≡ is_normal list }
    ensures open_spelling { (nothing : Text) (list : Shape EntriesOf) →
        spelling (opened nothing list) ≡ spelling list }
    ensures spelling { (bodies : Row Text) (list : Shape EntriesOf) →
        spelling (filled bodies list) ≡ spelling list }
{}

/// The shape of a list, over any bytes, holds the texts of its bodies: it is filled as
/// the list is, and opened as the list is.
#[tactic(auto, using(shast::proofs::FilledShape::shape_filled, shast::proofs::FilledShape::entries_open, shast::proofs::FilledShape::shape_bodies))]
pub fn shape_of_bodies()
    ensures filled { (bytes : Row ℕ) (bodies : Row Span) (list : Entries) →
        shape_of bytes (filled bodies list)
        ≡ filled (map (text_at bytes) bodies) (shape_of bytes list) }
    ensures opened { (bytes : Row ℕ) (nothing : Span) (list : Entries) →
        shape_of bytes (opened nothing list)
        ≡ opened (text_at bytes nothing) (shape_of bytes list) }
    ensures bodies { (bytes : Row ℕ) (list : Entries) →
        bodies_of (shape_of bytes list) ≡ map (text_at bytes) (bodies_of list) }
{}

/// A list filled with as many bodies as it has documents holds these bodies, in the order of the operators.
#[tactic(auto, using(shast::proofs::FilledBodies::filled_bodies, shast::proofs::FilledBodies::as_many))]
pub fn filled_bodies()
    ensures bodies { (bodies : Row Span) (list : Entries) → length bodies ≡ length (bodies_of list)
        → bodies_of (filled bodies list) ≡ bodies }
    ensures as_many { (bodies : Row Span) (list : Entries) →
        length (bodies_of (filled bodies list)) ≡ length (bodies_of list) }
{}

/// The bodies of one row of entries and another are those of the one, and then those of the other.
#[tactic(auto, using(shast::proofs::BodiesInOrder::bodies_append))]
pub fn bodies_in_order()
    ensures { (one other : Row AnEntry) →
        bodies_of (entries_of (one ++ other)) ≡ bodies_of (entries_of one)
        ++ bodies_of (entries_of other) }
{}

/// A list is filled as the row of its entries is.
#[tactic(auto, using(shast::proofs::Going::row_filled))]
pub fn filled_row()
    ensures { (bodies : Row Span) (entries : Row AnEntry) →
        entries_of (filled_row bodies entries) ≡ filled bodies (entries_of entries) }
{}

/// Moving a list by nothing leaves it as it is, and moving it twice moves it by both.
#[tactic(auto, using(shast::proofs::MovedOver::by_nothing, shast::proofs::MovedOver::by_both))]
pub fn moving()
    ensures nothing { (list : Entries) → moved 0 list ≡ list }
    ensures twice { (one other : ℕ) (list : Entries) →
        moved other (moved one list) ≡ moved (one + other) list }
{}

/// The nodes of a moved list, each simple command of which has an item, are those of the list at the
/// greater base; so a limit of what it names moves as well.
#[tactic(auto, using(shast::proofs::NodesMoved::outline_moved, shast::proofs::NodesMoved::nodes_at_moved, shast::proofs::NodesMoved::within_moved))]
pub fn nodes_moved()
    ensures outline { (base more : ℕ) (list : Entries) → HaveItems list →
        outline more (moved base list) ≡ outline (base + more) list }
    ensures nodes_at { (base more at : ℕ) (list : Entries) → HaveItems list →
        nodes_at more at (moved base list) ≡ nodes_at (base + more) at list }
    ensures within { (limit base : ℕ) (list : Entries) → HaveItems list → NodesWithin limit list →
        NodesWithin (base + limit) (moved base list) }
{}

/// A list is in normal form wherever it stands.
#[tactic(auto, using(shast::proofs::FormMoved::form_moved))]
pub fn form_moved()
    ensures { (base : ℕ) (list : Entries) → is_normal (moved base list) ≡ is_normal list }
{}
