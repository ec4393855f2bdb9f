//! Laws of the definitions alone, which no code stands behind.
ghost use Rattle.std.specs.Prelude.{◌≡◌, ◌+◌, ◌-◌, ◌<◌, [], ◌∷◌, ℕ, List, List as Row, Ok, false, drop, take, true};
ghost use Rattle.shgrammar.specs.declared.edition.Edition.{Edition};
ghost use Rattle.shgrammar.specs.Lines.{ALine, IsLine};
ghost use Rattle.shgrammar.specs.Scripts.{AScript, Outcome};
ghost use Rattle.shgrammar.specs.Bytes.{ends_word, stands};
ghost use Rattle.shgrammar.specs.Characters.{left_parenthesis};
ghost use Rattle.shgrammar.specs.Form.{Spelled, may, raw};
ghost use Rattle.shgrammar.specs.Sights.{Given, State, seen, standing, the_delimiter, the_piece, the_token};
ghost use Rattle.shgrammar.specs.By2017.{next_2017, piece_2017};
ghost use Rattle.shread.specs.Outcome2017.{Outcome_2017};
ghost use Rattle.shgrammar.specs.Commands.{falls_through};
ghost use Rattle.shgrammar.specs.HereDocuments.{delimiter_of};
ghost use Rattle.shgrammar.specs.declared.mode.Mode.{Mode};
ghost use Rattle.shgrammar.specs.declared.token.Position.{Position};
ghost use Rattle.shast.specs.Shape.{shape_of_word};
ghost use Rattle.shast.specs.Tree.{AWord};
ghost use Rattle.shgrammar.specs.Words.{a_word};
ghost use Rattle.shgrammar.specs.Levels.{ReadsWord, level};

/// By each edition, each byte list has one outcome as a script, and one line with which it begins.
pub fn one_outcome()
    ensures script { (e : Edition) (bytes : List ℕ) (a b : AScript) → Outcome e bytes a →
        Outcome e bytes b → a ≡ b }
    ensures some_script { (e : Edition) (bytes : List ℕ) → (a : AScript) × Outcome e bytes a }
    ensures line { (e : Edition) (bytes : List ℕ) (a b : ALine) → IsLine e bytes a →
        IsLine e bytes b → a ≡ b }
    ensures some_line { (e : Edition) (bytes : List ℕ) → (a : ALine) × IsLine e bytes a }
{}

/// What the row of a word reads, which is a word where neither a byte that ends words nor the
/// `#` of a comment stands, is read by the same edition wherever its bytes stand, before a byte
/// that ends words and is no `(`, and no other number of bytes is. Before a `(` it may not be:
/// `a$` is a word, and in `a$(` a substitution begins. The word that is read there has the same
/// shape: the same bytes, and substitutions of the same shapes.
pub fn word_anywhere()
    ensures read { (room p : ℕ) (g : Given) (w : AWord) (t : State) (told : Row Spelled) →
        may (a_word (level room)) g (standing p) (Ok (w, t)) told → ReadsWord room g p (t.at - p) }
    ensures some { (room p n : ℕ) (g : Given) → ReadsWord room g p n →
        ends_word g.text p ≡ false → 0 < n }
    ensures word { (room p q n : ℕ) (g h : Given) → h.edition ≡ g.edition → ReadsWord room g p n →
        take n (drop q h.text) ≡ take n (drop p g.text) →
        ends_word h.text (q + n) ≡ true → stands h.text (q + n) left_parenthesis ≡ false →
        ReadsWord room h q n }
    ensures shape { (room p q n : ℕ) (g h : Given) (w : AWord) (told : Row Spelled) (B C : List ℕ) →
        h.edition ≡ g.edition →
        may (a_word (level room)) g (standing p) (Ok (w, standing (p + n))) told →
        take n (drop q h.text) ≡ take n (drop p g.text) →
        ends_word h.text (q + n) ≡ true → stands h.text (q + n) left_parenthesis ≡ false →
        g.text ≡ drop g.offset B → h.text ≡ drop h.offset C →
        (v : AWord) × (may (a_word (level room)) h (standing q) (Ok (v, standing (q + n)))
        (raw h.text q (q + n) ∷ []) ×
        (shape_of_word C v ≡ shape_of_word B w)) }
    ensures only { (room p m n : ℕ) (g : Given) → ReadsWord room g p m → ReadsWord room g p n →
        m ≡ n }
{}

/// The outcome of a script by POSIX.1-2017 is, for all bytes, the one where the rows of the grammar see what
/// definitions say that know of no later edition: the tokens, the pieces of words and the delimiters. The
/// rows are the same, also those for what a later edition has. No token that they see ends an item of a
/// `case` that falls through.
pub fn by_2017()
    ensures outcome { (bytes : List ℕ) (a : AScript) →
        Outcome Edition.Y2017 bytes a → Outcome_2017 bytes a }
    ensures back { (bytes : List ℕ) (a : AScript) →
        Outcome_2017 bytes a → Outcome Edition.Y2017 bytes a }
    ensures token { (position : Position) (g : Given) (s : State) → g.edition ≡ Edition.Y2017 →
        seen (the_token position) g s ≡ next_2017 position g.text s.at }
    ensures piece { (mode : Mode) (nested : ℕ) (g : Given) (s : State) → g.edition ≡ Edition.Y2017 →
        seen (the_piece mode nested) g s ≡ piece_2017 g.text mode nested s.at }
    ensures delimiter { (word : List ℕ) (g : Given) (s : State) → g.edition ≡ Edition.Y2017 →
        seen (the_delimiter word) g s ≡ delimiter_of word }
    ensures falls { (position : Position) (g : Given) (s : State) → g.edition ≡ Edition.Y2017 →
        falls_through (seen (the_token position) g s).token ≡ false }
{}
