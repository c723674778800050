// One word of each set that is written: its 64 bits from words of the sets that are read.
ghost use Rattle.std.specs.Prelude.{◌≡◌, ℕ, ◌≤◌, ◌<◌, ltb};
ghost use Rattle.bitset.specs.Bits.{bit};
ghost use Rattle.rows.specs.Rows.{lit, word_count, first_word, inside};
ghost use Rattle.rows.specs.Words.{WordOf};
ghost use Rattle.stencil.specs.Stencil.{points_end, points_of, down_of, near_of};

use rows::{CellRows, CellWord, Rows};

// The points of cells in one word.
pub(crate) fn points_word(cells: &CellRows, w: usize) -> u64
    requires { (first_word ≤ w) × (w < points_end) }
    ensures { WordOf result (points_of (lit cells.now.up) (lit cells.now.down)) w }
{
    let up_here = rows::word(&cells.up, w);
    let up_last = rows::word(&cells.up, w - 5);
    let up_on = rows::one_on(up_here, rows::word(&cells.up, w - 1));
    let down_last = rows::word(&cells.down, w - 5);
    let down_on = rows::one_on(rows::word(&cells.down, w), rows::word(&cells.down, w - 1));
    let both = rows::one_on(down_last, rows::word(&cells.down, w - 6));
    up_here | (up_last | (up_on | (down_last | (down_on | both))))
}

// The down cells of points in one word.
pub(crate) fn down_word(points: &Rows, cells: CellWord) -> u64
    ensures { WordOf result (down_of (lit points.now)) cells.at }
{
    let w = cells.at;
    let next = rows::word(points, w + 5);
    let back = rows::one_back(rows::word(points, w), rows::word(points, w + 1));
    let both = rows::one_back(next, rows::word(points, w + 6));
    next | (back | both)
}

// The points near points in one word: a row with the next, here and one place on, and with the last, here and one place back.
pub(crate) fn near_word(points: &Rows, w: usize) -> u64
    requires { (first_word ≤ w) × (w < points_end) }
    ensures { WordOf result (near_of (lit points.now)) w }
{
    let here = rows::word(points, w);
    let next = here | rows::word(points, w + 5);
    let on = rows::one_on(next, rows::word(points, w - 1) | rows::word(points, w + 4));
    let last = here | rows::word(points, w - 5);
    let back = rows::one_back(last, rows::word(points, w + 1) | rows::word(points, w - 4));
    (next | on) | (last | back)
}

// The word whose lowest `count` bits are ones, at most all 64.
#[tactic(auto, using(crate::proofs::Level::ones_all, crate::proofs::Level::ones_some))]
fn low_ones(count: u32) -> u64
    ensures { (j : ℕ) → j < 64 → bit result j ≡ ltb j count }
{
    if 64 <= count {
        return u64::MAX;
    }
    (1 << count) - 1
}

// The points of a level in one word.
#[tactic(auto, using(crate::proofs::Level::before_rows, crate::proofs::Level::past_sum, crate::proofs::Level::in_sum, rows::proofs::Spots::size_shifted))]
pub(crate) fn inside_word(level: u32, w: usize) -> u64
    requires { (level ≤ 8) × (w < word_count) }
    ensures { WordOf result (inside level) w }
{
    if w < rows::FIRST {
        return 0;
    }
    let at = w as u32;
    let first = (at / 5 - 2) % rows::OCTANT_ROWS + at % 5 * 64;
    let size = 1 << level;
    if size < first {
        return 0;
    }
    low_ones(size - first + 1)
}
