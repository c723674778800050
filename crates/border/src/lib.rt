// The stored form of borders: docs/RULES.md, 8. Its definitions stand in specs/, what follows from them in proofs/; the reader and the
// writer are crates of their own.
#![tactic(auto)]

ghost use Rattle.std.specs.Prelude.{◌≡◌, get_or};

// The most codes of a border.
pub const MAX_CODES: u32 = 4096;

// The most cells: one more, since a code stands between two.
pub const MAX_CELLS: usize = MAX_CODES as usize + 1;

// A digit of a number, low digit first: 0 past the end. Codes are digits in base 8, bytes digits in base 256.
pub fn digit(digits: &[u8], i: usize) -> u32
    ensures { result ≡ get_or digits.now i 0 }
{
    u32::from(digits.get(i).copied().unwrap_or(0))
}
