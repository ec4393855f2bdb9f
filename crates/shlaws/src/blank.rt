//! Blank entries: those before which blank lines stand.
ghost use Rattle.std.specs.Prelude.{◌≡◌, ◌↔◌, ◌+◌, ◌≤◌, ◌∷◌, ◌++◌, ℕ, Bool, false, true};
ghost use Rattle.std.specs.Prelude.{List as Row, Option, [], Ok};
ghost use Rattle.shast.specs.Tree.{AnEntry};
ghost use Rattle.shgrammar.specs.Form.{Spelled, again, may};
ghost use Rattle.shgrammar.specs.Levels.{level};
ghost use Rattle.shgrammar.specs.Lists.{ListSoFar, Listed, is_blank_next, list_turn, next_line, none_listed};
ghost use Rattle.shgrammar.specs.Lists.{on_line, with_command, with_remark};
ghost use Rattle.shgrammar.specs.Scripts.{LinesSoFar, is_blank_line, nothing_yet, with_line};
ghost use Rattle.shgrammar.specs.States.{Given, State};
ghost use Rattle.shlaws.specs.Blank.{HasMore, past_empty_lines, past_newlines};

/// The next entry of a list is blank exactly where an entry stands before it and at least two newline tokens
/// are between the two.
pub fn blank_entries()
    ensures after_command { (l : Listed) (es : Row AnEntry) (e : AnEntry) (parted : Option ℕ)
        (n : ℕ) →
        (is_blank_next (past_newlines n (with_command l (es ++ e ∷ []) parted)) ≡ true) ↔ (2 ≤ n) }
    ensures after_remark { (l : Listed) (es : Row AnEntry) (e : AnEntry) (n : ℕ) →
        (is_blank_next (past_newlines n (with_remark l (es ++ e ∷ []))) ≡ true) ↔ (2 ≤ n) }
    ensures first { (n : ℕ) → is_blank_next (past_newlines n (none_listed false)) ≡ false }
{}

/// So it is in a script, which is read line by line: between the last entry of one line and the first of
/// another are one newline token more than lines without entries.
pub fn blank_lines()
    ensures after_line { (so : LinesSoFar) (es : Row AnEntry) (e : AnEntry) (n : ℕ) →
        (is_blank_line (past_empty_lines n (with_line so (es ++ e ∷ []))) ≡ true) ↔ (2 ≤ n + 1) }
    ensures first { (n : ℕ) → is_blank_line (past_empty_lines n nothing_yet) ≡ false }
    ensures told { (blank : Bool) → is_blank_next (none_listed blank) ≡ blank }
{}

/// What a list reads on one line are entries of which the first has the flag that is told before the line,
/// and no other is blank. After the newline token that ends it the flag of the next line is told.
pub fn flags_of_a_line()
    ensures entries { (room : ℕ) (l m : ListSoFar) (g : Given) (s t : State) (told : Row Spelled) →
        may (on_line (level room) l) g s (Ok (m, t)) told → HasMore l.list m.list }
    ensures newline { (room : ℕ) (l m : ListSoFar) (g : Given) (s t : State) (told : Row Spelled) →
        may (list_turn (level room) l) g s (Ok (again m, t)) told →
        (line : Listed) × HasMore l.list line × (m.list ≡ next_line line) }
{}
