// Temperatures as text by their bits, among them some that no word of a case is.
use crate::temperature::DECIMALS;
use std::fmt;
use std::fmt::Display;

const NAN: u32 = 0x7fc0_0000;

const INFINITY: u32 = 0x7f80_0000;

const SIGN: u32 = 0x8000_0000;

#[derive(Clone, Copy)]
pub struct Bits(pub u32);

impl Bits {
    pub fn of(t: f32) -> Bits {
        Bits(if t.is_nan() { NAN } else { t.to_bits() })
    }
}

// How many eighths a float, or the one next to it, is, by its bits but for the sign; none where they are not between an eighth and 2^21.
fn eighths(size: u32) -> Option<u32> {
    let near = (size % SIGN + 1) / 4 * 4;
    if near == 0 {
        return Some(0);
    }
    let exponent = near >> 23;
    if exponent < 124 || 147 < exponent || size % 4 == 2 {
        return None;
    }
    let digits = near % 0x80_0000 + 0x80_0000;
    let n = digits >> (147 - exponent);
    (n << (147 - exponent) == digits).then_some(n)
}

// What marks a float next to eighths: away from zero, or back.
fn mark(size: u32, negative: bool) -> &'static str {
    match (size % 4, negative) {
        (0, _) => "",
        (1, false) | (3, true) => "+",
        (1, true) | (3, false) => "-",
        _ => " ",
    }
}

// One that is near no eighths is written by its bits but for the sign.
impl Display for Bits {
    fn fmt<W: fmt::Write>(&self, f: &mut fmt::Formatter<W>) -> fmt::Result {
        let size = self.0 % SIGN;
        let negative = SIGN <= self.0;
        let sign = if negative { "-" } else { "" };
        if INFINITY < size {
            return write!(f, "nan");
        }
        if size == INFINITY {
            return write!(f, "{sign}inf");
        }
        match eighths(size) {
            None => write!(f, "{sign}{size}"),
            Some(n) => {
                let decimals = DECIMALS[(n % 8) as usize];
                write!(f, "{sign}{}.{decimals}{}", n / 8, mark(size, negative))
            }
        }
    }
}
