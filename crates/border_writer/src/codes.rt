// Codes of three bits each, low bits first: the digits in base 8 of the number whose digits in base 256 are the bytes.
ghost use Rattle.std.specs.Prelude.{◌≡◌, ℕ, ◌^◌, ◌/◌, ◌%◌, ◌<◌, ◌≤◌, length, get_or};
ghost use Rattle.border.specs.Border.{max_codes};
ghost use Rattle.border.specs.Stored.{value_of, code_bytes, packed};

use border::digit;

// The codes of a border.
#[derive(Clone, Copy)]
pub(crate) struct Codes<'a> {
    pub(crate) each: &'a [u8],
    ghost few: { length each.now ≤ max_codes },
    ghost low: { (i : ℕ) → get_or each.now i 0 < 8 },
}

impl Codes<'_> {
    // Byte i: three bytes take eight codes, and one byte lies in three codes or in four. The reader finds a code in two bytes in the same way; one function for
    // both, with the widths as const parameters, would look at as many digits as the longer way.
    #[tactic(auto, using(crate::proofs::Packing::byte_in))]
    fn byte(self, i: usize) -> u8
        requires { i ≤ 8192 }
        ensures { result ≡ value_of 8 self.entry.each.now / 256 ^ i % 256 }
    {
        let bit = 8 * i;
        let first = bit / 3;
        let low = digit(self.each, first) + 8 * digit(self.each, first + 1);
        let high = digit(self.each, first + 2) + 8 * digit(self.each, first + 3);
        (((low + 64 * high) >> (bit % 3)) % 256) as u8
    }

    // Fills a slice, which is as long as the bytes that the codes take, with these bytes.
    #[tactic(auto, using(crate::proofs::Packing::bytes_put, crate::proofs::Packing::all_put))]
    pub(crate) fn pack(self, out: &mut [u8])
        requires { length out.old ≡ code_bytes (length self.each.now) }
        ensures { out.new ≡ packed self.entry.each.now }
    {
        for (i, byte) in out.iter_mut().enumerate() {
            *byte = self.byte(i);
        }
    }
}
