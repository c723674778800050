// Cells a block at a time: the 64 cells that a cell three levels above has.
ghost use Rattle.std.specs.Prelude.{◌≡◌, ℕ, ◌+◌, ◌*◌, ◌-◌, ◌%◌, ◌≤◌, ◌<◌};
ghost use Rattle.bitset.specs.Bits.{bit};
ghost use Rattle.cell.specs.Cell.{Triangle, place, place_of, cells};
ghost use Rattle.rows.specs.Rows.{octant_rows};
ghost use Rattle.raster.specs.Raster.{cell_lit};
ghost use Rattle.raster.specs.inside.Pieces.{piece, Added};

use crate::cells;
use crate::words::{self, Slot};
use cell::{CellNumber, Kind, Place};
use mask::{MaskCell, MaskLevel};
use rows::CellRows;

// A block of a level, by the number of the cell three levels above.
#[derive(Clone, Copy)]
pub(crate) struct Block {
    pub(crate) level: MaskLevel,
    pub(crate) number: CellNumber,
    ghost deep: { 3 ≤ level.k },
    ghost below: { number < cells (level.k - 3) },
}

// The slot of a block's square. Octant, row and column are those of a `Place` three levels above, and bounded as that is.
fn slot_of(octant: u32, row: u32, col: u32) -> Slot
    requires { (octant < 8) × (row < 32) × (col < 32) }
    ensures { result.byte ≡ (octant_rows * octant + 8 * row + 2) * 40 + col }
{
    Slot {
        byte: (rows::OCTANT_ROWS * octant + 8 * row + 2) * 40 + col,
    }
}

impl Block {
    // The place of the cell three levels above, and the slot of the block's squares.
    #[tactic(auto, using(crate::proofs::Located::block_fits))]
    fn locate(self) -> (Place, Slot)
        ensures place { place_of result.0 ≡ place (self.level.k - 3) self.number }
        ensures slot { result.1.byte ≡ (octant_rows * result.0.octant + 8 * result.0.row + 2) * 40 + result.0.col }
    {
        let above = MaskLevel {
            k: self.level.k - 3,
        };
        let place = cells::place_at(MaskCell {
            level: above,
            number: self.number,
        });
        (place, slot_of(place.octant, place.row, place.col))
    }
}

// Sets the spots of a block's cells that a word has, each in the rows of its kind.
#[tactic(auto)]
pub(crate) fn put_block(block: Block, word: u64, rows: &mut CellRows)
    ensures ups { Added Triangle.up block.level.k (piece 64 block.number (λ c. bit word (c % 64))) rows.old.up rows.new.up }
    ensures downs { Added Triangle.down block.level.k (piece 64 block.number (λ c. bit word (c % 64))) rows.old.down rows.new.down }
{
    let (place, slot) = block.locate();
    let squares = square::scatter(word);
    let (ups, downs) = match place.kind {
        Kind::Up => (squares.up_in_up, squares.down_in_up),
        Kind::Down => (squares.up_in_down, squares.down_in_down),
    };
    words::join_square(&mut rows.up, slot, square::in_rows(ups));
    words::join_square(&mut rows.down, slot, square::in_rows(downs));
}

// The word of a block's cells whose spots are set.
#[tactic(auto)]
pub(crate) fn block_at(block: Block, rows: &CellRows) -> u64
    ensures { (j : ℕ) → j < 64 → bit result j ≡ cell_lit block.level.k rows.now.up rows.now.down (64 * block.number + j) }
{
    let (place, slot) = block.locate();
    let ups = words::square_at(&rows.up, slot);
    let downs = words::square_at(&rows.down, slot);
    let is_empty = (ups | downs) == 0;
    if is_empty {
        return 0;
    }
    let u = square::in_quarters(ups);
    let d = square::in_quarters(downs);
    match place.kind {
        Kind::Up => square::gather(u, d, 0, 0),
        Kind::Down => square::gather(0, 0, u, d),
    }
}
