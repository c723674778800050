// Rows of bits, in which the cells and the points of a level are grown and filled: how they lie in words, and one bit, one word at a time.
#![tactic(auto)]

ghost use Rattle.std.specs.Prelude.{◌≡◌, ◌<◌, ◌≤◌, ◌&&◌, ◌||◌, ℕ, ltb, eqb, get_or};
ghost use Rattle.rows.specs.Rows.{lit, spot_count, spot_in, first_word, cells_end};
ghost use Rattle.rows.specs.Words.{WordOf, with_next, OneOn, OneBack};

// Whoever joins octants by their rows finds the next one here too.
pub use code::east;

// The words of one set of rows: 2,066 rows of five words.
pub const WORDS: usize = 10330;

// One set of rows.
pub type Rows = [u64; WORDS];

// Cells in rows: up cells in one set of rows, down cells in another. Made by a literal where it is needed, since a function that returned it could copy
// 165 kB on the stack.
#[derive(Drop)]
pub struct CellRows {
    pub up: Rows,
    pub down: Rows,
}

// The bits of one set of rows.
const SPOTS: u32 = 661120;

// The rows of an octant.
pub const OCTANT_ROWS: u32 = 258;

// The bits of a row.
const ROW_SPOTS: u32 = 320;

// The first word of the first row of octant 0.
pub const FIRST: usize = 10;

// The word after the last in which a cell lies.
pub const CELLS_END: usize = 10320;

// A word in which cells lie, by its place.
#[derive(Clone, Copy)]
pub struct CellWord {
    pub at: usize,
    ghost first: { first_word ≤ at },
    ghost last: { at < cells_end },
}

// The number of octants.
pub const OCTANTS: u32 = 8;

// The spot of an octant's row and column. Where there is no such row or column, that is the first past all bits. An Option would be no plainer: a
// spot past all bits is one that `is_set` finds clear and `set_bit` leaves, so that no caller has to ask.
pub fn spot_of(octant: u32, row: u32, col: u32) -> u32
    ensures { result ≡ spot_in octant row col }
{
    if OCTANTS <= octant || OCTANT_ROWS <= row || ROW_SPOTS <= col {
        return SPOTS;
    }
    (OCTANT_ROWS * octant + row + 2) * ROW_SPOTS + col
}

// Whether a bit is set. Past the end none is.
pub fn is_set(rows: &Rows, spot: u32) -> bool
    ensures { result ≡ lit rows.now spot }
{
    match rows.get((spot / 64) as usize) {
        Some(word) => (word >> (spot % 64)) % 2 == 1,
        None => false,
    }
}

// Sets a bit. Past the end there is none to set.
pub fn set_bit(rows: &mut Rows, spot: u32)
    ensures { (i : ℕ) → lit rows.new i ≡ (lit rows.old i || (eqb i spot && ltb i spot_count)) }
{
    let at = (spot / 64) as usize;
    if at < WORDS {
        rows[at] |= 1 << (spot % 64);
    }
}

// One word. Past the end it is 0.
pub fn word(rows: &Rows, at: usize) -> u64
    ensures { result ≡ get_or rows.now at 0 }
{
    rows.get(at).copied().unwrap_or(0)
}

// A word with each bit one place on; the first place takes the last bit of the word before. One function for this and the next, by a direction, would be
// longer than both.
pub fn one_on(word: u64, before: u64) -> u64
    ensures { OneOn word before result }
{
    word << 1 | before >> 63
}

// A word with each bit one place back; the last place takes the first bit of the word after.
pub fn one_back(word: u64, after: u64) -> u64
    ensures { OneBack word after result }
{
    word >> 1 | after << 63
}

// One word of a set with the one a row on and the one a place on: the up cells that have these points for corners, and the down cells that have these up
// cells for neighbours.
pub fn with_next(rows: &Rows, word: CellWord) -> u64
    ensures { WordOf result (with_next (lit rows.now)) word.at }
{
    let at = word.at;
    let here = rows[at];
    let next = rows[at + 5];
    let back = one_back(here, rows[at + 1]);
    here | (next | back)
}
