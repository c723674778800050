// Printed text, put into a slice piece by piece: slice and place side by side, as the contract of `append` has them.
#![tactic(auto)]

ghost use Rattle.std.specs.Prelude.{◌≡◌};
ghost use Rattle.text.specs.Text.{decimal, appended, refusal_line};

// Puts text into a slice from `at` on, and answers the place after it. Where it does not fit nothing is put.
#[tactic(auto, using(crate::proofs::Laws::append_none, crate::proofs::Laws::append_some))]
pub fn append(out: &mut [u8], at: usize, text: &[u8]) -> usize
    ensures { (out.new, result) ≡ appended out.old at text.now }
{
    if out.len() < at {
        return at;
    }
    if out.len() - at < text.len() {
        return at;
    }
    let next = at + text.len();
    out[at..next].copy_from_slice(text);
    next
}

// Puts a number's decimal digits into a slice in the same way.
#[tactic(auto, using(crate::proofs::Laws::few_digits, crate::proofs::Laws::fewest_spelled))]
pub fn append_decimal(out: &mut [u8], at: usize, n: u64) -> usize
    ensures { (out.new, result) ≡ appended out.old at (decimal n) }
{
    let mut digits = [0u8; 20];
    let k = io::decimal(n, &mut digits);
    append(out, at, &digits[..k])
}

// Puts the line of a refused call into a slice in the same way: put together first, so that it is put whole or not at all.
pub fn append_refusal(out: &mut [u8], at: usize, n: u8) -> usize
    ensures { (out.new, result) ≡ appended out.old at (refusal_line n) }
{
    let mut line = [0u8; 32];
    let a = append(&mut line, 0, b"refused ");
    let b = append_decimal(&mut line, a, n as u64);
    let c = append(&mut line, b, b"\n");
    append(out, at, &line[..c])
}
