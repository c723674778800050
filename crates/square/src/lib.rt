// Blocks of 64 cells as squares of eight rows of eight bits, and back. Between the two a square stands in quarters: its quarters follow one another,
// and so do the quarters of each of them.
#![tactic(auto)]

ghost use Rattle.std.specs.Prelude.{◌≡◌, ℕ, ◌<◌};
ghost use Rattle.bitset.specs.Bits.{bit};
ghost use Rattle.square.specs.Square.{quarter_of, squares, Scattered, Gathered};
ghost use Rattle.square.specs.inside.Words.{value, one, two, input, exchanged, block_up, block_down, up_four, down_four};

// The squares of a block's cells, in quarters: up cells and down cells, as the block is an up one, and as it is a down one.
#[derive(Drop)]
pub struct Squares {
    pub up_in_up: u64,
    pub down_in_up: u64,
    pub up_in_down: u64,
    pub down_in_down: u64,
}

// Exchanges bits `shift` apart: those of `low` with those above them.
#[tactic(auto, unfolding(crate::specs::inside::Words::value))]
fn exchange(square: u64, shift: u32, low: u64) -> u64
    requires { shift < 64 }
    ensures { result ≡ value (one square) (exchanged shift low (input 0)) }
{
    let high = low << shift;
    (square & !(low | high)) | ((square >> shift) & low) | ((square << shift) & high)
}

// A square in quarters, in rows.
#[tactic(auto, using(crate::proofs::Seats::rows_bits), unfolding(crate::specs::inside::Words::value))]
pub fn in_rows(square: u64) -> u64
    ensures { (p : ℕ) → p < 64 → bit result p ≡ bit square (quarter_of p) }
{
    let x = exchange(square, 8, 0x0000FF000000FF00);
    let y = exchange(x, 2, 0x0C0C0C0C0C0C0C0C);
    exchange(y, 4, 0x00F000F000F000F0)
}

// A square in rows, in quarters.
#[tactic(auto, using(crate::proofs::Seats::quarters_bits), unfolding(crate::specs::inside::Words::value))]
pub fn in_quarters(square: u64) -> u64
    ensures { (p : ℕ) → p < 64 → bit result (quarter_of p) ≡ bit square p }
{
    let y = exchange(square, 4, 0x00F000F000F000F0);
    let x = exchange(y, 2, 0x0C0C0C0C0C0C0C0C);
    exchange(x, 8, 0x0000FF000000FF00)
}

// The places of the cells of one kind in an up block and in a down block, from those in fours that are up cells and in fours that are down cells:
// by sixteens, and all.
#[tactic(auto, unfolding(crate::specs::inside::Words::value))]
fn scatter_fours(up: u64, down: u64) -> (u64, u64)
    ensures in_up { result.0 ≡ value (two up down) (block_up (input 0) (input 1)) }
    ensures in_down { result.1 ≡ value (two up down) (block_down (input 0) (input 1)) }
{
    let x = ((up >> 8) & 0x00FF00FF00FF00FF)
        | ((up << 4) & 0x0F000F000F000F00)
        | (down & 0x000F000F000F000F);
    let y = ((up << 12) & 0xF000F000F000F000) | (down & 0xFFF0FFF0FFF0FFF0);
    let in_up = ((x >> 32) & 0x00000000FFFFFFFF)
        | ((x << 16) & 0x0000FFFF00000000)
        | (y & 0x000000000000FFFF);
    let in_down = ((x << 48) & 0xFFFF000000000000) | (y & 0xFFFFFFFFFFFF0000);
    (in_up, in_down)
}

// The cells of a block, each at its place in a square: by fours, and from these all.
#[tactic(auto, using(crate::proofs::Seats::scatter_bits), unfolding(crate::specs::inside::Words::value))]
pub fn scatter(word: u64) -> Squares
    ensures { Scattered word (squares result.up_in_up result.down_in_up result.up_in_down result.down_in_down) }
{
    let ups = ((word >> 2) & 0x3333333333333333) | ((word << 1) & 0x4444444444444444);
    let (up_in_up, up_in_down) = scatter_fours(ups, (word << 3) & 0x8888888888888888);
    let downs = word & 0x1111111111111111;
    let (down_in_up, down_in_down) = scatter_fours(downs, word & 0xEEEEEEEEEEEEEEEE);
    Squares {
        up_in_up,
        down_in_up,
        up_in_down,
        down_in_down,
    }
}

// The places of the cells of one kind in fours that are up cells and in fours that are down cells, from those in an up block and in a down block.
#[tactic(auto, unfolding(crate::specs::inside::Words::value))]
fn gather_fours(in_up: u64, in_down: u64) -> (u64, u64)
    ensures up { result.0 ≡ value (two in_up in_down) (up_four (input 0) (input 1)) }
    ensures down { result.1 ≡ value (two in_up in_down) (down_four (input 0) (input 1)) }
{
    let x = ((in_up << 32) & 0xFFFFFFFF00000000)
        | ((in_up >> 16) & 0x00000000FFFF0000)
        | ((in_down >> 48) & 0x000000000000FFFF);
    let y = (in_up & 0x000000000000FFFF) | (in_down & 0xFFFFFFFFFFFF0000);
    let up = ((x << 8) & 0xFF00FF00FF00FF00)
        | ((x >> 4) & 0x00F000F000F000F0)
        | ((y >> 12) & 0x000F000F000F000F);
    let down = (x & 0x000F000F000F000F) | (y & 0xFFF0FFF0FFF0FFF0);
    (up, down)
}

// The cells of a block from their places in squares in quarters: two of an up block, or two of a down block. Four words and no `Squares`: two of them are 0,
// and the call shows which.
#[tactic(auto, using(crate::proofs::Seats::gather_bits), unfolding(crate::specs::inside::Words::value))]
pub fn gather(up_in_up: u64, down_in_up: u64, up_in_down: u64, down_in_down: u64) -> u64
    ensures { Gathered (squares up_in_up down_in_up up_in_down down_in_down) result }
{
    let (a, c) = gather_fours(up_in_up, up_in_down);
    let (b, d) = gather_fours(down_in_up, down_in_down);
    let ups = ((a << 2) & 0xCCCCCCCCCCCCCCCC)
        | ((a >> 1) & 0x2222222222222222)
        | ((c >> 3) & 0x1111111111111111);
    let downs = (b & 0x1111111111111111) | (d & 0xEEEEEEEEEEEEEEEE);
    ups | downs
}
