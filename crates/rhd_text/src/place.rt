//! Where a line stands.

ghost use Rattle.std.specs.Prelude.{◌≡◌};
ghost use Rattle.rhd_text.specs.Rows.{position};

use rhd_value::Position;

/// What a line's meaning depends on beside its bytes.
#[derive(Clone, Copy)]
pub struct Place {
    /// The number of the line, counted from 1.
    pub line: u32,
}

impl Place {
    /// The beginning of the line.
    pub fn position(self) -> Position
        ensures { result ≡ position self }
    {
        Position {
            line: self.line,
            column: 1,
        }
    }
}
