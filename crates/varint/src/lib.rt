// The numbers of a stored border: docs/RULES.md, 8. Groups of seven bits, low group first.
#![tactic(auto)]

ghost use Rattle.std.specs.Prelude.{◌≡◌, length};
ghost use Rattle.varint.specs.Varint.{numeral, valued, read_call, write_call};
ghost use Rattle.refusal.specs.Refusal.{said};

use refusal::Refusal;

// The most bytes of a number.
pub const MAX_BYTES: usize = 5;

// What the groups at the front of bytes say, in whatever form: the number, and how many bytes it has.
fn read_groups(bytes: &[u8]) -> Result<(u64, usize), Refusal>
    ensures { said result ≡ valued 5 bytes.now }
{
    let mut value: u64 = 0;
    let mut unit: u64 = 1;
    for before in 0..MAX_BYTES {
        let byte = u64::from(*bytes.get(before).ok_or(Refusal::Short)?);
        if byte < 128 {
            return Ok((value + unit * byte, before + 1));
        }
        value += unit * (byte - 128);
        unit *= 128;
    }
    Err(Refusal::Form)
}

// How many bytes a number has in its shortest form.
#[tactic(auto, using(crate::proofs::Groups::groups_long))]
pub fn number_length(n: u32) -> usize
    ensures { result ≡ length (numeral n) }
{
    n.max(1).ilog2() as usize / 7 + 1
}

// Reads the number that begins at a place: the number, and the place after it. Bytes and place stand side by side, as `read_call` has them.
#[tactic(auto, using(crate::proofs::Calls::read_within))]
pub fn read_number(bytes: &[u8], at: usize) -> Result<(u32, usize), Refusal>
    ensures { said result ≡ read_call bytes.now at }
{
    let (value, count) = read_groups(bytes.get(at..).ok_or(Refusal::Short)?)?;
    let number = u32::try_from(value).map_err(|_| Refusal::Form)?;
    if number_length(number) != count {
        return Err(Refusal::Form);
    }
    Ok((number, at + count))
}

// Fills a slice, which is as long as the number in its shortest form, with the number's groups.
fn write_groups(n: u32, out: &mut [u8])
    requires { length out.old ≡ length (numeral n) }
    ensures { out.new ≡ numeral n }
{
    let mut rest = n;
    for byte in out.iter_mut() {
        *byte = if rest < 128 {
            rest as u8
        } else {
            (128 + rest % 128) as u8
        };
        rest /= 128;
    }
}

// Writes a number from a place on, and answers the place after it: slice and place side by side, as `write_call` has them. Where it does not fit nothing
// is written.
#[tactic(auto, using(crate::proofs::Laws::numeral_length, crate::proofs::Calls::write_given))]
pub fn write_number(n: u32, out: &mut [u8], at: usize) -> Result<usize, Refusal>
    ensures { (said result, out.new) ≡ write_call n out.old at }
{
    let count = number_length(n);
    if out.len().saturating_sub(at) < count {
        return Err(Refusal::Length);
    }
    write_groups(n, &mut out[at..at + count]);
    Ok(at + count)
}
