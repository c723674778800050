// The words of a case.
use crate::bits::Bits;
use crate::temperature;
use cell::Kind;
use std::alloc::{AllocError, Global};

// How many words a case may have, with its end.
pub const WORDS: usize = 4200;

// The letters of the codes 0 to 7.
pub static LETTERS: [&str; 8] = ["t", "l", "r", "e", "w", "T", "E", "W"];

#[derive(Clone, Copy)]
pub enum Word {
    Number(u32),
    // Below zero.
    Negative(i32),
    // The cell of an address.
    Cell(u32),
    Code(u8),
    Temperature(f32),
    Kind(Kind),
    Long,
    // A bar, or the end of the case.
    Bar,
    List,
    // Past the end: 0 in a list that is not there.
    Blank,
    Unknown,
}

impl Word {
    // A word is a name, or just as its value is written.
    fn parse(text: &str) -> Word {
        Word::letter(text)
            .or_else(|| Word::named(text))
            .or_else(|| Word::value(text))
            .unwrap_or(Word::Unknown)
    }

    fn letter(text: &str) -> Option<Word> {
        let code = LETTERS.iter().position(|letter| *letter == text)?;
        u8::try_from(code).ok().map(Word::Code)
    }

    fn named(text: &str) -> Option<Word> {
        Some(match text {
            "up" => Word::Kind(Kind::Up),
            "down" => Word::Kind(Kind::Down),
            "long" => Word::Long,
            "/" => Word::Bar,
            "list" => Word::List,
            "inf" => Word::Temperature(f32::INFINITY),
            "-inf" => Word::Temperature(f32::NEG_INFINITY),
            "nan" => Word::Temperature(f32::NAN),
            _ => return None,
        })
    }

    fn value(text: &str) -> Option<Word> {
        if text.contains('.') {
            return temperature::parse(text).map(Word::Temperature);
        }
        if let Some(digits) = text.strip_prefix('@') {
            return cell_at(digits.as_bytes()).map(Word::Cell);
        }
        match text.strip_prefix('-') {
            Some("0") => None,
            Some(digits) if is_plain(digits) => {
                let n = text.parse::<i32>().ok()?;
                (n != i32::MIN).then_some(Word::Negative(n))
            }
            Some(_) => None,
            None if is_plain(text) => text.parse().ok().map(Word::Number),
            None => None,
        }
    }

    pub fn number(self) -> Option<u32> {
        match self {
            Word::Number(n) => Some(n),
            Word::Cell(n) => Some(n),
            Word::Blank => Some(0),
            _ => None,
        }
    }

    pub fn signed(self) -> Option<i32> {
        match self {
            Word::Number(n) => i32::try_from(n).ok(),
            Word::Negative(n) => Some(n),
            _ => None,
        }
    }

    pub fn byte(self) -> Option<u8> {
        match self {
            Word::Number(n) => u8::try_from(n).ok(),
            Word::Blank => Some(0),
            _ => None,
        }
    }

    // A number, or a temperature's bits.
    pub fn bits(self) -> u32 {
        match self {
            Word::Number(n) => n,
            Word::Cell(n) => n,
            Word::Temperature(t) => Bits::of(t).0,
            _ => 0,
        }
    }

    pub fn code(self) -> Option<u8> {
        match self {
            Word::Code(code) => Some(code),
            Word::Number(n) => u8::try_from(n).ok(),
            _ => None,
        }
    }

    pub fn temperature(self) -> Option<f32> {
        match self {
            Word::Temperature(t) => Some(t),
            Word::Blank => Some(0.0),
            _ => None,
        }
    }

    pub fn kind(self) -> Option<Kind> {
        match self {
            Word::Kind(kind) => Some(kind),
            _ => None,
        }
    }
}

// Whether digits have no zeros, and no sign, in front.
pub fn is_plain(digits: &str) -> bool {
    digits == "0" || digits.starts_with(|c| matches!(c, '1'..='9'))
}

// The cell of an address: the octant's digit, and a digit a level. At level 14 `address::read` drops the highest bit of the octants 4 to 7.
fn cell_at(digits: &[u8]) -> Option<u32> {
    let (octant, below) = digits.split_first()?;
    let highest = if below.len() < 14 { b'7' } else { b'3' };
    if *octant < b'0' || highest < *octant || 14 < below.len() {
        return None;
    }
    if below.iter().any(|digit| !matches!(*digit, b'0'..=b'3')) {
        return None;
    }
    Some(address::read(digits))
}

// How often a word stands there.
fn times(text: &str) -> Option<usize> {
    match Word::parse(text) {
        Word::Number(n) => Some(n as usize),
        _ => None,
    }
}

// Reads the words of a line behind its name. What does not fit is dropped.
pub fn read_line(alloc: Global, line: &[u8], words: &mut Vec<Word>) -> Result<(), AllocError> {
    let line = String::from_utf8_lossy(alloc, line)?;
    for text in line
        .as_str()
        .split(' ')
        .skip(1)
        .filter(|text| !text.is_empty())
    {
        let (times, word) = match text.split_once('*') {
            // Too often where that is no number.
            Some((count, word)) => (times(count).unwrap_or(WORDS), word),
            None => (1, text),
        };
        let word = Word::parse(word);
        for _ in 0..times.min(WORDS.saturating_sub(words.len())) {
            words.push(word)?;
        }
    }
    Ok(())
}
