// The search from the outside cell, in rows of bits. The mask to write is a slice with its length in the contracts: a `MaskMut` would have a level beside
// that of the outside cell or the border, and each contract that the two are one.
ghost use Rattle.std.specs.Prelude.{◌≡◌, ℕ, ◌^◌, eqb, length};
ghost use Rattle.bitset.specs.Bits.{marked, bytes_of, outside};
ghost use Rattle.cell.specs.declared.Kind.{Kind};
ghost use Rattle.cell.specs.Cell.{triangle_of};
ghost use Rattle.raster.specs.Raster.{cell_at};
ghost use Rattle.flood.specs.Flood.{lit_of};
ghost use Rattle.fill.specs.Fill.{reachable};

use mask::{Mask, MaskCell};
use rows::CellRows;

// Writes the cells that the border does not mark into rows, by way of `out`.
fn open_cells(border: Mask<'_>, out: &mut [u8], rows: &mut CellRows)
    requires { length out.old ≡ 4 ^ border.level.k }
    ensures { (t : Kind) (i : ℕ) →
        lit_of rows.new.up rows.new.down t i ≡ cell_at (triangle_of t) border.entry.level.k (outside (marked border.entry.bytes.now)) i }
{
    out.copy_from_slice(border.bytes);
    bitset::complement(out);
    raster::to_rows(border.level.k, out, rows);
}

// Writes one cell alone into rows, by way of `out`.
fn one_cell(cell: MaskCell, out: &mut [u8], rows: &mut CellRows)
    requires { length out.old ≡ 4 ^ cell.level.k }
    ensures { (t : Kind) (i : ℕ) →
        lit_of rows.new.up rows.new.down t i ≡ cell_at (triangle_of t) cell.level.k (eqb cell.number) i }
{
    bitset::clear(out);
    bitset::mark(out, cell.number);
    raster::to_rows(cell.level.k, out, rows);
}

// Marks exactly the cells that the outside cell reaches.
pub(crate) fn reach_all(outside: MaskCell, border: &[u8], out: &mut [u8])
    requires { (length border.now ≡ 4 ^ outside.level.k) × (length out.old ≡ 4 ^ outside.level.k) }
    ensures { out.new ≡ bytes_of (4 ^ outside.level.k) (reachable outside.level.k (marked border.now) outside.number) }
{
    let level = outside.level;
    let border = Mask {
        level,
        bytes: border,
    };
    let mut opened = CellRows {
        up: [0; rows::WORDS],
        down: [0; rows::WORDS],
    };
    open_cells(border, out, &mut opened);
    let mut reached = CellRows {
        up: [0; rows::WORDS],
        down: [0; rows::WORDS],
    };
    one_cell(outside, out, &mut reached);
    flood::flood(level.k, &opened, &mut reached);
    raster::from_rows(level.k, &reached, out);
}
