//! Laws of how values and texts are written.

ghost use Rattle.std.specs.Prelude.{◌≡◌, List, ◌∷◌, ◌++◌, ℕ, true};
ghost use Rattle.std.specs.Str.{is_utf8};
ghost use Rattle.rhd_value.specs.Tree.{Tree};
ghost use Rattle.rhd_syntax.specs.Bytes.{is_blank, is_bracket};
ghost use Rattle.rhd_syntax.specs.Spans.{◌▸◌, byte, letters, letters_to, run, IsValue};

/// Bytes are one value at most.
pub fn values_say_one_thing()
    ensures { (bytes : List ℕ) (t u : Tree) → IsValue t bytes → IsValue u bytes → t ≡ u }
{}

/// In a line in UTF-8 every text is UTF-8, between quotation marks or after a blank or a bracket,
/// and so is every character: no line is bad for one that is not.
pub fn texts_of_lines_are_utf8()
    ensures quoted { (line front bytes rest s : List ℕ) → is_utf8 line ≡ true → line ≡ front ++ bytes → (byte 34 ▸ letters s) bytes rest → is_utf8 s ≡ true }
    ensures character { (line front bytes rest s : List ℕ) → is_utf8 line ≡ true → line ≡ front ++ bytes → (byte 39 ▸ letters_to 39 s) bytes rest → is_utf8 s ≡ true }
    ensures unquoted { (line front bytes rest w : List ℕ) (b : ℕ) → is_utf8 line ≡ true → is_blank b ≡ true → line ≡ front ++ b ∷ bytes → run w bytes rest → is_utf8 w ≡ true }
    ensures bracketed { (line front bytes rest w : List ℕ) (b : ℕ) → is_utf8 line ≡ true → is_bracket b ≡ true → line ≡ front ++ b ∷ bytes → run w bytes rest → is_utf8 w ≡ true }
{}
