// Cells one at a time, by their numbers, as in the mask.
ghost use Rattle.std.specs.Prelude.{◌≡◌, ◌^◌, eqb, length};
ghost use Rattle.bitset.specs.Bits.{marked};
ghost use Rattle.cell.specs.Cell.{Triangle, place, place_of};
ghost use Rattle.raster.specs.Raster.{cell_lit};
ghost use Rattle.raster.specs.inside.Pieces.{piece, Added, Marked};

use cell::{Kind, Place};
use mask::MaskCell;
use rows::CellRows;

// Where a cell of the level lies.
pub(crate) fn place_at(cell: MaskCell) -> Place
    ensures { place_of result ≡ place cell.level.k cell.number }
{
    cell::place_of(cell.level.k, cell.number).unwrap()
}

// Sets a cell's spot, in the rows of its kind. This writes and the next reads, so a function that picked the rows would be two.
fn put_cell(cell: MaskCell, rows: &mut CellRows)
    ensures ups { Added Triangle.up cell.level.k (eqb cell.number) rows.old.up rows.new.up }
    ensures downs { Added Triangle.down cell.level.k (eqb cell.number) rows.old.down rows.new.down }
{
    let place = place_at(cell);
    let spot = rows::spot_of(place.octant, place.row, place.col);
    match place.kind {
        Kind::Up => rows::set_bit(&mut rows.up, spot),
        Kind::Down => rows::set_bit(&mut rows.down, spot),
    }
}

// Whether a cell's spot is set, in the rows of its kind.
fn is_cell_set(cell: MaskCell, rows: &CellRows) -> bool
    ensures { result ≡ cell_lit cell.level.k rows.now.up rows.now.down cell.number }
{
    let place = place_at(cell);
    let spot = rows::spot_of(place.octant, place.row, place.col);
    match place.kind {
        Kind::Up => rows::is_set(&rows.up, spot),
        Kind::Down => rows::is_set(&rows.down, spot),
    }
}

// Sets a cell's spot where the cell is marked.
#[tactic(auto, using(crate::proofs::Pieces::one_cell, crate::proofs::Pieces::added_same, crate::proofs::Pieces::no_spot))]
pub(crate) fn put_marked(cell: MaskCell, mask: &[u8], rows: &mut CellRows)
    ensures ups { Added Triangle.up cell.level.k (piece 1 cell.number (marked mask.now)) rows.old.up rows.new.up }
    ensures downs { Added Triangle.down cell.level.k (piece 1 cell.number (marked mask.now)) rows.old.down rows.new.down }
{
    if bitset::is_marked(mask, cell.number) {
        put_cell(cell, rows);
    }
}

// Marks a cell where its spot is set. The mask is a slice here: a `MaskMut` would have a level beside the cell's, and the contract that the two are one.
#[tactic(auto, using(crate::proofs::Pieces::one_cell, crate::proofs::Pieces::no_cell, bitset::proofs::Laws::marked_marking))]
pub(crate) fn take_cell(cell: MaskCell, rows: &CellRows, mask: &mut [u8])
    requires { length mask.old ≡ 4 ^ cell.level.k }
    ensures { Marked (piece 1 cell.number (cell_lit cell.level.k rows.now.up rows.now.down)) mask.old mask.new }
{
    if is_cell_set(cell, rows) {
        bitset::mark(mask, cell.number);
    }
}
