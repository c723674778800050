// Temperatures as text: whole eighths of a degree, as -5.0 or 20.125, and the floats next above and next below such a one, as 45.0+ and 45.0-.
use crate::bits::Bits;
use crate::words;
use std::fmt;
use std::fmt::Display;

#[derive(Clone, Copy)]
pub struct Temperature(pub f32);

// What stands after the point, by eighths.
pub static DECIMALS: [&str; 8] = ["0", "125", "25", "375", "5", "625", "75", "875"];

// Whole eighths, as many as are read: fewer than 2^22, and their digits a number below 2^24.
fn eighths(text: &str) -> Option<f32> {
    let (whole, decimals) = text.split_once('.')?;
    let rest = DECIMALS.iter().position(|d| *d == decimals)?;
    // By the number of decimals.
    let most = match decimals.len() {
        1 => 4_194_303,
        2 => 1_342_177,
        _ => 134_217,
    };
    if !words::is_plain(whole) {
        return None;
    }
    let n = whole
        .parse::<u32>()
        .ok()?
        .checked_mul(8)?
        .checked_add(u32::try_from(rest).ok()?)?;
    (n <= most).then(|| std::num::nearest_u32_to_f32(n) / 8.0)
}

// The temperature that a text with a point is.
pub fn parse(text: &str) -> Option<f32> {
    let (sign, size) = match text.strip_prefix('-') {
        Some(size) => (-1.0, size),
        None => (1.0, text),
    };
    if let Some(size) = size.strip_suffix('+') {
        let next = (sign * eighths(size)?).next_up();
        return (0.0 < sign * next).then_some(next);
    }
    if let Some(size) = size.strip_suffix('-') {
        let next = (sign * eighths(size)?).next_down();
        return (0.0 < sign * next).then_some(next);
    }
    Some(sign * eighths(size)?)
}

impl Display for Temperature {
    fn fmt<W: fmt::Write>(&self, f: &mut fmt::Formatter<W>) -> fmt::Result {
        Bits::of(self.0).fmt(f)
    }
}
