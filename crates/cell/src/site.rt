// Cells that a level has: from number to place and back.
ghost use Rattle.std.specs.Prelude.{◌≡◌, [], ◌∷◌};
ghost use Rattle.refusal.specs.Answer.{in_order};
ghost use Rattle.refusal.specs.Refusal.{said_as};
ghost use Rattle.cell.specs.Cell.{place, number, Occurs, place_of, bad_cell, bad_place, cell_tests, span};

use crate::{CellLevel, CellNumber, Kind, Level, Place, bits};
use refusal::Refusal;

// A cell of a level, by its place.
#[derive(Clone, Copy, Debug, PartialEq, Eq)]
pub struct Site {
    pub level: CellLevel,
    pub place: Place,
    ghost occurs: { Occurs level.k (place_of place) },
}

// The place that a cell's digits lead to. On the way a cell is down where an odd number of the digits to it are 0.
fn descend(level: CellLevel, cell: CellNumber) -> Place
    ensures { place_of result ≡ place level.k cell }
{
    let octant = cell >> (2 * level.k);
    let side = 1 << level.k;
    let all = side - 1;
    let halves = bits::split(cell);
    let high = halves.high % side;
    let low = halves.low % side;
    let downs = bits::odd_from(all ^ (high | low));
    let row = all ^ high ^ downs;
    let col = all ^ low ^ (high | downs);
    let kind = if downs % 2 == 0 { Kind::Up } else { Kind::Down };
    Place {
        octant,
        kind,
        row,
        col,
    }
}

// The least N at which the place's triangle occurs.
fn span_of(place: Place) -> u64
    ensures { result ≡ span (place_of place).1 }
{
    let sum = place.row as u64 + place.col as u64;
    match place.kind {
        Kind::Up => sum + 1,
        Kind::Down => sum + 2,
    }
}

impl Site {
    ghost use Rattle.cell.specs.Site.{site};

    // The cell of a number: refused 4.
    pub fn of_number(level: CellLevel, cell: CellNumber) -> Result<Self, Refusal>
        ensures { said_as site result ≡ in_order (bad_cell level.k cell ∷ []) (level.k, place level.k cell) }
    {
        if !crate::is_cell(level.k, cell) {
            return Err(Refusal::Cell);
        }
        let place = descend(level, cell);
        Ok(Site { level, place })
    }

    // The cell of a number at a level: refused 1, 4.
    pub fn at(level: u32, cell: CellNumber) -> Result<Self, Refusal>
        ensures { said_as site result ≡ in_order (cell_tests level cell) (level, place level cell) }
    {
        Site::of_number(Level::new(level)?, cell)
    }

    // The cell of a place: refused 4.
    pub fn of_place(level: CellLevel, place: Place) -> Result<Self, Refusal>
        ensures { said_as site result ≡ in_order (bad_place level.k (place_of place) ∷ []) (level.k, place_of place) }
    {
        if 8 <= place.octant {
            return Err(Refusal::Cell);
        }
        if (1 << level.k) < span_of(place) {
            return Err(Refusal::Cell);
        }
        Ok(Site { level, place })
    }

    // Its number. A carry into bit i of row + column + kind tells that the cell i levels up is down.
    pub fn number(self) -> CellNumber
        ensures { result ≡ number self.level.k (place_of self.place) }
    {
        let level = self.level.k;
        let octant = self.place.octant;
        let row = self.place.row as u64;
        let col = self.place.col as u64;
        let all = (1 << level) - 1;
        let crossed = (span_of(self.place) - 1) ^ col;
        let high = all ^ crossed;
        let low = col ^ (row & crossed);
        (octant << (2 * level)) | bits::join(high, low)
    }
}
