// Codes of three bits each, low bits first: the digits in base 8 of the number whose digits in base 256 are the bytes.
ghost use Rattle.std.specs.Prelude.{◌≡◌, ◌^◌, ◌/◌, ◌%◌, ◌≤◌, ltb, length};
ghost use Rattle.border.specs.Stored.{value_of, code_bytes};
ghost use Rattle.border.specs.Border.{max_codes};

use border::digit;

// Code i: eight codes take three bytes, and one code lies in one byte or in two. The writer's `Codes::byte` goes the other way, and says why they are two.
#[tactic(auto, using(crate::proofs::Bits::code_in))]
pub(crate) fn code_at(bytes: &[u8], i: usize) -> u8
    requires { i ≤ 8192 }
    ensures { result ≡ value_of 256 bytes.now / 8 ^ i % 8 }
{
    let bit = 3 * i;
    let both = digit(bytes, bit / 8) + 256 * digit(bytes, bit / 8 + 1);
    ((both >> (bit % 8)) % 8) as u8
}

// Whether the bits after some codes are zeros, where the bytes are as many as the codes take: at most seven bits are left.
#[tactic(auto, using(crate::proofs::Bits::not_padded))]
pub(crate) fn is_padded(bytes: &[u8], count: usize) -> bool
    requires { (count ≤ max_codes) × (length bytes.now ≡ code_bytes count) }
    ensures { result ≡ ltb (value_of 256 bytes.now) (8 ^ count) }
{
    code_at(bytes, count) == 0 && code_at(bytes, count + 1) == 0 && code_at(bytes, count + 2) == 0
}
