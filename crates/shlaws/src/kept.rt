//! What is kept of a line that is read without the trees in its command substitutions.
ghost use Rattle.std.specs.Prelude.{◌≡◌, ℕ, Bool, Err, List, List as Row, Ok, drop, false, map};
ghost use Rattle.shast.specs.Moved.{blanked_row, outer_entry};
ghost use Rattle.shast.specs.Tree.{AnEntry};
ghost use Rattle.shgrammar.specs.declared.edition.Edition.{Edition};
ghost use Rattle.shgrammar.specs.declared.fault.Fault.{Fault};
ghost use Rattle.shgrammar.specs.declared.keep.Keep.{Keep};
ghost use Rattle.shgrammar.specs.Form.{Spelled, may};
ghost use Rattle.shgrammar.specs.Moved.{moved_fault};
ghost use Rattle.shgrammar.specs.Scripts.{line_from, the_line};
ghost use Rattle.shgrammar.specs.Sights.{State, given, standing};

/// What is computed of a line that stands at `p` without the trees in its command substitutions is what the
/// grammar has for its bytes, read as a script of their own: moved to where the line stands, its first entry
/// blank where that was asked for, and the lists in its substitutions left out. It has the same fault there.
pub fn outer_lines()
    ensures line { (e : Edition) (bytes : List ℕ) (p : ℕ) (blank newline : Bool) (es : Row AnEntry)
        (t : State) →
        line_from e bytes Keep.Outer blank p ≡ Ok ((es, newline), t) →
        (whole : Row AnEntry) × (u : State) × (told : Row Spelled) ×
        may (the_line false) (given e (drop p bytes) 0) (standing 0) (Ok ((whole, newline), u)) told
        ×
        (es ≡ blanked_row blank (map (outer_entry p) whole)) × (t.at ≡ u.at) }
    ensures fault { (e : Edition) (bytes : List ℕ) (p : ℕ) (blank : Bool) (f : Fault) →
        line_from e bytes Keep.Outer blank p ≡ Err f →
        (there : Fault) × (told : Row Spelled) ×
        may (the_line false) (given e (drop p bytes) 0) (standing 0) (Err there) told ×
        (f ≡ moved_fault p there) }
{}
