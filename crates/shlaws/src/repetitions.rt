//! What repeats in the grammar leads on.
ghost use Rattle.std.specs.Prelude.{ℕ, [], List, List as Row, Ok};
ghost use Rattle.shast.specs.Tree.{AWord};
ghost use Rattle.shgrammar.specs.declared.edition.Edition.{Edition};
ghost use Rattle.shgrammar.specs.Form.{Read, Spelled, may};
ghost use Rattle.shgrammar.specs.Levels.{level};
ghost use Rattle.shgrammar.specs.Scripts.{AScript, Passes};
ghost use Rattle.shgrammar.specs.Sights.{Given, State};
ghost use Rattle.shgrammar.specs.Words.{a_word};
ghost use Rattle.shlaws.specs.Onward.{PassesOnward, idle, may_onward};

/// No repetition of the grammar rests. By each edition and for all bytes, the outcomes of a script, with the
/// tokens passed, are those where a turn that says to go on, and leaves no less of the text, is no turn at
/// all; and so are those of a word by itself, from any state on. So no row that they come by forgot to move.
/// One that did could be read all the same, as `idle` is, which never moves; here `idle` has no outcome.
pub fn turns_lead_on()
    ensures script { (e : Edition) (bytes : List ℕ) (a : AScript) (told : Row Spelled) →
        Passes e bytes a told → PassesOnward e bytes a told }
    ensures back { (e : Edition) (bytes : List ℕ) (a : AScript) (told : Row Spelled) →
        PassesOnward e bytes a told → Passes e bytes a told }
    ensures word { (room : ℕ) (g : Given) (s : State) (w : Read AWord) (told : Row Spelled) →
        may (a_word (level room)) g s w told → may_onward (a_word (level room)) g s w told }
    ensures word_back { (room : ℕ) (g : Given) (s : State) (w : Read AWord) (told : Row Spelled) →
        may_onward (a_word (level room)) g s w told → may (a_word (level room)) g s w told }
    ensures rests { (g : Given) (s : State) → may idle g s (Ok (tt, s)) [] }
    ensures idle { (g : Given) (s : State) (x : Read (Unit {0})) (told : Row Spelled) →
        may_onward idle g s x told → ⊥ }
{}
