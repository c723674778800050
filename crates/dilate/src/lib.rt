// Growing by points. Two cells touch exactly where they share a point, so a ring goes from points to the points that share a cell with them: shifts and
// ORs of whole rows. The cells are turned into points before the first ring, and after the last the points into the cells that have them.
#![tactic(auto)]

ghost use Rattle.std.specs.Prelude.{◌≡◌, Bool, false, ℕ, ◌^◌};
ghost use Rattle.bitset.specs.Bits.{marked, bytes_of};
ghost use Rattle.rows.specs.Rows.{lit, inside};
ghost use Rattle.stencil.specs.Stencil.{in_rows};
ghost use Rattle.spread.specs.Spread.{Points};
ghost use Rattle.dilate.specs.Dilate.{grown_cells, dilated};

use mask::{MaskLevel, MaskMut};
use rows::{CellRows, Rows};

// One ring: the points that share a cell with a point. `within` has the level's points.
fn ring(level: MaskLevel, points: &Rows, within: &Rows, next: &mut Rows)
    requires { ((i : ℕ) → lit within.now i ≡ inside level.k i) × ((i : ℕ) → in_rows i ≡ false → lit next.old i ≡ false) }
    ensures spreads { (A : ℕ → Bool) → Points level.k (lit points.now) A → Points level.k (lit next.new) (grown_cells level.k 1 A) }
    ensures clear { (i : ℕ) → in_rows i ≡ false → lit next.new i ≡ false }
{
    stencil::near(points, within, next);
    seam::join_seams(level.k, next);
}

// As many rings: two at a time, to the other array and back. `within` and `next` are lent for working, so that no more than three arrays are on the
// stack.
fn more_rings(level: MaskLevel, rings: u32, points: &mut Rows, within: &mut Rows, next: &mut Rows)
    requires { ((i : ℕ) → in_rows i ≡ false → lit points.old i ≡ false) × ((i : ℕ) → in_rows i ≡ false → lit next.old i ≡ false) }
    ensures { (A : ℕ → Bool) → Points level.k (lit points.old) A → Points level.k (lit points.new) (grown_cells level.k rings A) }
{
    stencil::mark_inside(level.k, within);
    for _pair in 0..rings / 2 {
        ring(level, points, within, next);
        ring(level, next, within, points);
    }
    if rings % 2 == 1 {
        ring(level, points, within, next);
        *points = *next;
    }
}

// Grows a mask of a level in place.
fn dilate_mask(mask: MaskMut<'_>, rings: u32)
    ensures { mask.exit.0.now ≡ bytes_of (4 ^ mask.entry.level.k) (grown_cells mask.entry.level.k rings (marked mask.entry.bytes.now)) }
{
    if rings == 0 {
        return;
    }
    // Taken apart past the return: the borrow checker does not cover it before one.
    let MaskMut { bytes, level } = mask;
    let mut cells = CellRows {
        up: [0; rows::WORDS],
        down: [0; rows::WORDS],
    };
    let mut points = [0; rows::WORDS];
    raster::to_rows(level.k, bytes, &mut cells);
    stencil::points_of(&cells, &mut points);
    seam::join_seams(level.k, &mut points);
    more_rings(
        level,
        rings - 1,
        &mut points,
        &mut cells.up,
        &mut cells.down,
    );
    stencil::cells_of(&points, &mut cells);
    raster::from_rows(level.k, &cells, bytes);
}

// Grows a mask of the level in place: marks the cells at most `rings` touching steps from a marked one. A slice that is no mask of the level stays.
pub fn dilate(level: u32, rings: u32, mask: &mut [u8])
    ensures { mask.new ≡ dilated level rings mask.old }
{
    if mask::is_mask(level, mask).is_ok() {
        let level = MaskLevel { k: level };
        dilate_mask(MaskMut { bytes: mask, level }, rings);
    }
}
