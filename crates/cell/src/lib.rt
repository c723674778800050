// Cells and their numbers: docs/RULES.md, 1.
#![tactic(auto)]

mod bits;
mod level;
mod site;

ghost use Rattle.std.specs.Prelude.{◌≡◌, ltb};
ghost use Rattle.refusal.specs.Refusal.{said, said_as};
ghost use Rattle.cell.specs.Cell.{cells, place_of, place_call, number_call};

pub use level::{CellLevel, Level};
use refusal::Refusal;
pub use site::Site;

// A cell's number at its level: octant × 4^level plus the level's digits in base 4, first digit highest.
pub type CellNumber = u32;

// The highest level of cells.
pub const MAX_LEVEL: u32 = 14;

// What stands where there is no cell, in lists and in C: no level has that number.
pub const NO_CELL: CellNumber = 4294967295;

// Whether a cell's triangle points to its pole or to the equator.
#[derive(Clone, Copy, Debug, PartialEq, Eq)]
pub enum Kind {
    Up,
    Down,
}

// Where a cell lies: its octant, and there its row, counted from the equator to the pole, and its column, counted from the west edge.
#[derive(Clone, Copy, Debug, PartialEq, Eq)]
pub struct Place {
    pub octant: u32,
    pub kind: Kind,
    pub row: u32,
    pub col: u32,
}

// Whether a number is that of a cell of the level. Above level 14 every number of 32 bits is below 8 × 4^level.
pub fn is_cell(level: u32, cell: CellNumber) -> bool
    ensures { result ≡ ltb cell (cells level) }
{
    if MAX_LEVEL < level {
        return true;
    }
    cell >> (2 * level) < 8
}

// The place of a cell's number.
pub fn place_of(level: u32, cell: CellNumber) -> Result<Place, Refusal>
    ensures { said_as place_of result ≡ place_call level cell }
{
    Ok(Site::at(level, cell)?.place)
}

// The number of a place, where the level has a cell there.
pub fn number_of(level: u32, place: Place) -> Result<CellNumber, Refusal>
    ensures { said result ≡ number_call level (place_of place) }
{
    let level = Level::new(level)?;
    Ok(Site::of_place(level, place)?.number())
}
