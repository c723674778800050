// The high and low bits of a cell's digits: put together into digits, taken apart, and counted from above.
ghost use Rattle.std.specs.Prelude.{◌≡◌, ℕ, ◌+◌, ◌*◌, ◌/◌, ◌%◌, ◌^◌, ◌<◌, ◌≤◌};
ghost use Rattle.cell.specs.inside.Bits.{spread, evens, odd_from};

// The upper 32 bits of 64.
fn upper(x: u64) -> u32
    ensures { result ≡ x / 2 ^ 32 }
{
    (x / 0x1_0000_0000) as u32
}

// The lower 32 bits.
fn lower(x: u64) -> u32
    ensures { result ≡ x % 2 ^ 32 }
{
    (x % 0x1_0000_0000) as u32
}

// Digits, 2 × high + low each. Both halves go through one pass: each step cuts the runs of bits in two and puts them apart.
pub(crate) fn join(high: u64, low: u64) -> u32
    requires { (high < 2 ^ 16) × (low < 2 ^ 16) }
    ensures { result ≡ 2 * spread 16 high + spread 16 low }
{
    let runs16 = high * 0x1_0000_0000 + low;
    let runs8 = (runs16 | (runs16 << 8)) & 0x00ff_00ff_00ff_00ff;
    let runs4 = (runs8 | (runs8 << 4)) & 0x0f0f_0f0f_0f0f_0f0f;
    let runs2 = (runs4 | (runs4 << 2)) & 0x3333_3333_3333_3333;
    let runs1 = (runs2 | (runs2 << 1)) & 0x5555_5555_5555_5555;
    lower(runs1 | (runs1 >> 31))
}

// The high bits of some digits, and their low bits.
#[derive(Drop)]
pub(crate) struct Halves {
    pub(crate) high: u32,
    pub(crate) low: u32,
}

// The halves of 16 digits, by the same pass backwards. Moved up by 31, their high bits are at the even places of the upper half.
pub(crate) fn split(digits: u32) -> Halves
    ensures { (result.high ≡ evens 16 (digits / 2)) × (result.low ≡ evens 16 digits) }
{
    let wide = digits as u64;
    let runs1 = (wide | (wide << 31)) & 0x5555_5555_5555_5555;
    let runs2 = (runs1 | (runs1 >> 1)) & 0x3333_3333_3333_3333;
    let runs4 = (runs2 | (runs2 >> 2)) & 0x0f0f_0f0f_0f0f_0f0f;
    let runs8 = (runs4 | (runs4 >> 4)) & 0x00ff_00ff_00ff_00ff;
    let runs16 = (runs8 | (runs8 >> 8)) & 0x0000_ffff_0000_ffff;
    let high = upper(runs16);
    let low = lower(runs16);
    Halves { high, low }
}

// Bit i tells whether an odd number of the bits from i on are set, of at most 16 bits.
pub(crate) fn odd_from(x: u32) -> u32
    ensures { (k : ℕ) → k ≤ 16 → x < 2 ^ k → result ≡ odd_from k x }
{
    let by2 = x ^ (x >> 1);
    let by4 = by2 ^ (by2 >> 2);
    let by8 = by4 ^ (by4 >> 4);
    by8 ^ (by8 >> 8)
}
