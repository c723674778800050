// Shifts and unions of whole rows of bits: the points of cells, the cells of points, and the points near points, word by word. The loops are as short as
// calls of one function that took the word as a closure would be.
#![tactic(auto)]

ghost use Rattle.std.specs.Prelude.{◌≡◌, ◌&&◌, cond, ℕ, leb};
ghost use Rattle.rows.specs.Rows.{lit, inside};
ghost use Rattle.stencil.specs.Stencil.{points_of, up_of, down_of, near_of, in_rows, in_cell_rows};

use rows::{CellRows, CellWord, Rows};

mod words;

// The word after the last in which a point is written.
const POINTS_END: usize = 10325;

// The highest level whose points fit in the rows. It is that of masks, but this crate knows of no masks.
const MAX_LEVEL: u32 = 8;

// Writes the points of cells: those that are corners of one.
pub fn points_of(cells: &CellRows, points: &mut Rows)
    ensures { (i : ℕ) →
        lit points.new i
        ≡ cond (in_rows i) (points_of (lit cells.now.up) (lit cells.now.down) i) (lit points.old i) }
{
    for w in rows::FIRST..POINTS_END {
        points[w] = words::points_word(cells, w);
    }
}

// Writes the cells of points: those with a corner among them.
pub fn cells_of(points: &Rows, cells: &mut CellRows)
    ensures ups { (i : ℕ) →
        lit cells.new.up i ≡ cond (in_cell_rows i) (up_of (lit points.now) i) (lit cells.old.up i) }
    ensures downs { (i : ℕ) →
        lit cells.new.down i ≡ cond (in_cell_rows i) (down_of (lit points.now) i) (lit cells.old.down i) }
{
    for w in rows::FIRST..rows::CELLS_END {
        let word = CellWord { at: w };
        cells.up[w] = rows::with_next(points, word);
        cells.down[w] = words::down_word(points, word);
    }
}

// Writes the points of `within` that are among `points` or share a cell with one of them.
pub fn near(points: &Rows, within: &Rows, out: &mut Rows)
    ensures { (i : ℕ) →
        lit out.new i
        ≡ cond (in_rows i) (lit within.now i && near_of (lit points.now) i) (lit out.old i) }
{
    for w in rows::FIRST..POINTS_END {
        out[w] = within[w] & words::near_word(points, w);
    }
}

// Writes all points of a level to 8, and for a level above 8 nothing.
#[tactic(auto, using(crate::proofs::Level::all_written))]
pub fn mark_inside(level: u32, out: &mut Rows)
    ensures { (i : ℕ) → lit out.new i ≡ cond (leb level 8) (inside level i) (lit out.old i) }
{
    if MAX_LEVEL < level {
        return;
    }
    for w in 0..rows::WORDS {
        out[w] = words::inside_word(level, w);
    }
}
