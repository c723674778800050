// Masks as rows of bits, and back: up cells in one set of rows, down cells in another.
#![tactic(auto)]

ghost use Rattle.std.specs.Prelude.{◌≡◌, false, cond, ℕ, ◌/◌, ◌^◌, ◌<◌};
ghost use Rattle.bitset.specs.Bits.{marked, bytes_of};
ghost use Rattle.cell.specs.Cell.{Triangle};
ghost use Rattle.rows.specs.Rows.{lit};
ghost use Rattle.raster.specs.Raster.{is_mask, cell_at, cell_lit};
ghost use Rattle.raster.specs.inside.Pieces.{piece_size, piece_count, piece, Added, Marked};

use blocks::Block;
use mask::{Mask, MaskCell, MaskLevel, MaskMut};
use rows::CellRows;

mod blocks;
mod cells;
mod masks;
mod words;

// How many pieces a level's cells are taken in.
#[tactic(auto, using(crate::proofs::Pieces::count_small, crate::proofs::Pieces::count_blocks))]
fn piece_count(level: MaskLevel) -> u32
    ensures { result ≡ piece_count level.k }
{
    if level.k < 3 {
        8 << (2 * level.k)
    } else {
        8 << (2 * (level.k - 3))
    }
}

// Sets the spots of the marked cells of one piece.
#[tactic(auto, using(crate::proofs::Pieces::small_size, crate::proofs::Pieces::small_count, crate::proofs::Pieces::block_count, crate::proofs::Pieces::block_size, crate::proofs::Pieces::sixty_four, crate::proofs::Pieces::no_word_spots))]
fn put_piece(mask: Mask<'_>, n: u32, rows: &mut CellRows)
    requires { n < piece_count mask.level.k }
    ensures ups { Added Triangle.up mask.entry.level.k (piece (piece_size mask.entry.level.k) n (marked mask.entry.bytes.now)) rows.old.up rows.new.up }
    ensures downs { Added Triangle.down mask.entry.level.k (piece (piece_size mask.entry.level.k) n (marked mask.entry.bytes.now)) rows.old.down rows.new.down }
{
    let Mask { level, bytes } = mask;
    if level.k < 3 {
        cells::put_marked(MaskCell { level, number: n }, bytes, rows);
    } else {
        let word = masks::word_at(bytes, n);
        let has_marks = word != 0;
        if has_marks {
            blocks::put_block(Block { level, number: n }, word, rows);
        }
    }
}

// Sets the spots of all marked cells.
fn put_pieces(mask: Mask<'_>, rows: &mut CellRows)
    ensures ups { Added Triangle.up mask.entry.level.k (marked mask.entry.bytes.now) rows.old.up rows.new.up }
    ensures downs { Added Triangle.down mask.entry.level.k (marked mask.entry.bytes.now) rows.old.down rows.new.down }
{
    for n in 0..piece_count(mask.level) {
        put_piece(mask, n, rows);
    }
}

// The cells that a mask of the level marks, each at its spot in the rows of its kind. Where the slice is no mask of the level, nothing is written.
#[tactic(auto, using(crate::proofs::Answers::ok_is))]
pub fn to_rows(level: u32, mask: &[u8], rows: &mut CellRows)
    ensures ups { (i : ℕ) → lit rows.new.up i
        ≡ cond (is_mask level mask.now) (cell_at Triangle.up level (marked mask.now) i) (lit rows.old.up i) }
    ensures downs { (i : ℕ) → lit rows.new.down i
        ≡ cond (is_mask level mask.now) (cell_at Triangle.down level (marked mask.now) i) (lit rows.old.down i) }
{
    if mask::is_mask(level, mask).is_ok() {
        rows.up = [0; rows::WORDS];
        rows.down = [0; rows::WORDS];
        let level = MaskLevel { k: level };
        put_pieces(Mask { level, bytes: mask }, rows);
    }
}

// Marks the cells of one piece whose spots are set.
#[tactic(auto, using(crate::proofs::Pieces::small_size, crate::proofs::Pieces::small_count, crate::proofs::Pieces::block_count, crate::proofs::Pieces::sixty_four))]
fn take_piece(mask: MaskMut<'_>, n: u32, rows: &CellRows)
    requires in_mask { n < piece_count mask.level.k }
    requires by_index { (c : ℕ) → c / piece_size mask.level.k ≡ n → marked mask.bytes.now c ≡ false }
    ensures { Marked (piece (piece_size mask.entry.level.k) n (cell_lit mask.entry.level.k rows.now.up rows.now.down)) mask.entry.bytes.now mask.exit.0.now }
{
    let MaskMut { bytes, level } = mask;
    if level.k < 3 {
        cells::take_cell(MaskCell { level, number: n }, rows, bytes);
    } else {
        masks::store_word(bytes, n, blocks::block_at(Block { level, number: n }, rows));
    }
}

// Marks exactly the cells whose spots are set.
fn take_pieces(mask: MaskMut<'_>, rows: &CellRows)
    ensures { mask.exit.0.now ≡ bytes_of (4 ^ mask.entry.level.k) (cell_lit mask.entry.level.k rows.now.up rows.now.down) }
{
    let MaskMut { bytes, level } = mask;
    bitset::clear(bytes);
    for n in 0..piece_count(level) {
        take_piece(MaskMut { bytes, level }, n, rows);
    }
}

// The mask of the level that marks the cells whose spots are set. Where the slice is no mask of the level, nothing is written.
#[tactic(auto, using(crate::proofs::Answers::ok_is))]
pub fn from_rows(level: u32, rows: &CellRows, mask: &mut [u8])
    ensures { mask.new
        ≡ cond (is_mask level mask.old) (bytes_of (4 ^ level) (cell_lit level rows.now.up rows.now.down)) mask.old }
{
    if mask::is_mask(level, mask).is_ok() {
        let level = MaskLevel { k: level };
        take_pieces(MaskMut { bytes: mask, level }, rows);
    }
}
