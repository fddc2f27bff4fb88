//! What is read is what is written.

ghost use Rattle.std.specs.Prelude.{◌≡◌, ◌≤◌, ◌↔◌, ◌⊎◌, Option, List, ◌++◌, ℕ, Some, true, codes};
ghost use Rattle.std.specs.List.{flat_map};
ghost use Rattle.rhd_func.specs.Natives.{NativeInfo};
ghost use Rattle.rhd_plan.specs.declared.part.Part.{Part};
ghost use Rattle.rhd_plan.specs.declared.session.SessionText.{SessionText};
ghost use Rattle.rhd_syntax.specs.Bytes.{may_end};
ghost use Rattle.rhd_syntax.specs.Spans.{value, IsValue};
ghost use Rattle.rhd_text.specs.Proper.{IsProper, depth};
ghost use Rattle.rhd_engine.specs.Paths.{path_of};
ghost use Rattle.rhd_print.specs.PrintedValues.{spelled};
ghost use Rattle.rhd_print.specs.PrintedKeys.{path_name};
ghost use Rattle.rhd_value.specs.Tree.{Tree};
ghost use Rattle.rhd_text.specs.Grammar.{IsLine};
ghost use Rattle.rhd_text.specs.Session.{IsSession, IsFirstBad};
ghost use Rattle.rhd_text.specs.ReadRows.{line_of};

/// A line is read as exactly what it is a way of writing.
pub fn lines_are_read_as_they_are_written()
    ensures { (n : ℕ) (line : Option Part) (bytes : List ℕ) → (line_of n bytes ≡ Some line) ↔ IsLine n line bytes }
{}

/// A text says one thing at most, and a text has no bad line.
pub fn texts_say_one_thing()
    ensures one { (natives : List NativeInfo) (lines : List (List ℕ)) (t u : SessionText) → IsSession natives lines t → IsSession natives lines u → t ≡ u }
    ensures not_bad { (natives : List NativeInfo) (lines : List (List ℕ)) (t : SessionText) (n : ℕ) → IsSession natives lines t → IsFirstBad natives n lines → ⊥ }
{}

/// Lines are a session text or have a first bad line, whose number is the only one.
pub fn every_text_is_read_or_has_a_first_bad_line()
    ensures either { (natives : List NativeInfo) (lines : List (List ℕ)) → ((u : SessionText) × IsSession natives lines u) ⊎ ((n : ℕ) × IsFirstBad natives n lines) }
    ensures one { (natives : List NativeInfo) (lines : List (List ℕ)) (m n : ℕ) → IsFirstBad natives m lines → IsFirstBad natives n lines → m ≡ n }
{}

/// What can be written as a value is what a value may be, and at most 64 deep: its numbers,
/// characters and texts are those of their types, and the names of a map ascend.
pub fn values_are_what_can_be_written()
    ensures { (t : Tree) → (IsProper t.kind × (depth t ≤ 64)) ↔ ((bytes : List ℕ) × IsValue t bytes) }
{}

/// A value that is at most 64 deep is written as it is printed, by itself and before other
/// operands, so that it is read again as it was.
pub fn printed_values_are_read_again()
    ensures whole { (t : Tree) → IsProper t.kind → depth t ≤ 64 → IsValue t (spelled t) }
    ensures inside { (t : Tree) (rest : List ℕ) → IsProper t.kind → depth t ≤ 64 → may_end rest ≡ true → value t (spelled t ++ rest) rest }
{}

/// The names of a path are printed, each with `::` behind it, as the path is written.
pub fn paths_are_printed_as_they_are_written()
    ensures { (path : List ℕ) → flat_map path_name (path_of path) ≡ path ++ codes "::" }
{}
