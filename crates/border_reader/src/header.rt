// What a stored border begins with.
ghost use Rattle.std.specs.Prelude.{◌<◌, ◌≤◌};
ghost use Rattle.cell.specs.Cell.{cells};
ghost use Rattle.border.specs.Border.{max_codes};

use cell::{CellLevel, CellNumber};

// Level, start cell and number of codes, each within its bound, and the place after them.
#[derive(Clone, Copy, Debug)]
pub(crate) struct Header {
    pub(crate) level: CellLevel,
    pub(crate) start: CellNumber,
    pub(crate) count: u32,
    pub(crate) next: usize,
    ghost start_bound: { start < cells level.k },
    ghost count_bound: { count ≤ max_codes },
}
