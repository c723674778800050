// Why a call is refused: the table of docs/RULES.md, 9, and its numbers.
// A refused call has no other effect than to answer why: every lent slice stays as it was.
#![tactic(auto)]

ghost use Rattle.std.specs.Prelude.{◌≡◌};
ghost use Rattle.refusal.specs.Refusal.{number_of};

// In the order of the table, each with its number there.
#[derive(Clone, Copy, Debug, PartialEq, Eq)]
pub enum Refusal {
    // The level is above its bound.
    Level = 1,
    // The latitude is outside its range.
    Latitude = 2,
    // The longitude is outside its range.
    Longitude = 3,
    // The cell number is not below 8 × 4^level, or no cell of the level has that place.
    Cell = 4,
    // A slice is not of its exact length; for borders it is too short, or there are no cells.
    Length = 5,
    // The rings are above 64, or the days above 30.
    Count = 6,
    // There is no such step: the code is above 7 or absent there, or no code joins the two cells.
    Step = 7,
    // The outside cell is marked.
    Outside = 8,
    // There are more than 4,096 codes.
    Codes = 9,
    // The bytes end early.
    Short = 10,
    // A stored number is not in its form.
    Form = 11,
    // Pad bits are not zero, or bytes are left over.
    Rest = 12,
}

impl Refusal {
    // The number of the table.
    pub fn number(self) -> u8
        ensures { result ≡ number_of self }
    {
        self as u8
    }
}
