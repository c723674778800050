// Bits of rows: eight of a row, and squares of eight rows of eight.
ghost use Rattle.std.specs.Prelude.{◌≡◌, ◌&&◌, ◌||◌, ℕ, ◌+◌, ◌*◌, ◌/◌, ◌%◌, ◌<◌, eqb};
ghost use Rattle.bitset.specs.Bits.{bit};
ghost use Rattle.rows.specs.Rows.{lit};
ghost use Rattle.raster.specs.inside.Squares.{byte_count, in_square};

use rows::Rows;

// Where a square lies in rows: the byte of them all at which its first row stands, and seven bytes 40 apart follow.
#[derive(Clone, Copy)]
pub(crate) struct Slot {
    pub(crate) byte: u32,
    ghost inside: { byte + 280 < byte_count },
}

// Joins the bits of one byte of a row: byte `slot` of all.
#[tactic(auto, using(crate::proofs::Joined::lit_byte))]
fn join_byte(words: &mut Rows, slot: u32, byte: u64)
    requires { (slot < byte_count) × (byte < 256) }
    ensures { (i : ℕ) →
        lit words.new i ≡ (lit words.old i || (eqb (i / 8) slot && bit byte (i % 8))) }
{
    let at = (slot / 8) as usize;
    words[at] |= byte << (8 * (slot % 8));
}

// Joins a square.
#[tactic(auto, using(crate::proofs::Joined::square_none, crate::proofs::Joined::square_more))]
pub(crate) fn join_square(words: &mut Rows, slot: Slot, square: u64)
    ensures { (i : ℕ) → lit words.new i ≡ (lit words.old i || in_square 8 slot.byte square i) }
{
    for x in 0..8 {
        join_byte(words, slot.byte + 40 * x, (square >> (8 * x)) % 256);
    }
}

// One byte of a row.
#[tactic(auto, using(crate::proofs::Joined::byte_read))]
fn byte_at(words: &Rows, slot: u32) -> u64
    requires { slot < byte_count }
    ensures small { result < 256 }
    ensures bits { (j : ℕ) → j < 8 → bit result j ≡ lit words.now (8 * slot + j) }
{
    let at = (slot / 8) as usize;
    (words[at] >> (8 * (slot % 8))) % 256
}

// A square.
pub(crate) fn square_at(words: &Rows, slot: Slot) -> u64
    ensures { (p : ℕ) → p < 64 → bit result p ≡ lit words.now (8 * (slot.byte + 40 * (p / 8)) + p % 8) }
{
    let mut square = 0;
    for x in 0..8 {
        square |= byte_at(words, slot.byte + 40 * x) << (8 * x);
    }
    square
}
