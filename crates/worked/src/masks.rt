// Masks, given by their marked cells.
use crate::answer::Answer;
use crate::args::Args;
use crate::fault::Fault;
use crate::name::Style;
use crate::words::Word;
use refusal::Refusal;
use std::alloc::Global;
use std::fmt;
use std::fmt::{Display, Write};

// The bytes of a mask of level 8, and one more.
const BYTES: usize = 65537;

// The bytes of a mask of a level; one where no mask has that level.
fn size_of(level: u32) -> usize {
    if level <= mask::MAX_MASK_LEVEL {
        1 << (2 * level)
    } else {
        1
    }
}

// A mask of a level with the cells of a list marked, and a byte longer where the word long stands at the list's end. The mask has to have all the cells.
pub fn marked(alloc: Global, level: u32, words: &[Word]) -> Result<Vec<u8>, Fault> {
    let mut mask = vec![in alloc; 0; size_of(level)]?;
    let cells = match words {
        [cells @ .., Word::Long] => {
            mask.push(0)?;
            cells
        }
        cells => cells,
    };
    for word in cells {
        let cell = word.number().ok_or(Fault::Unreadable)?;
        if mask.len() <= (cell / 8) as usize {
            return Err(Fault::Unreadable);
        }
        bitset::mark(&mut mask, cell);
    }
    Ok(mask)
}

fn next_mask(args: &mut Args<'_>, level: u32) -> Result<Vec<u8>, Fault> {
    marked(args.alloc, level, args.words())
}

fn empty(args: &Args<'_>, level: u32) -> Result<Vec<u8>, Fault> {
    Ok(vec![in args.alloc; 0; size_of(level)]?)
}

// The names of the marked cells of a mask, with a space before each.
#[derive(Clone, Copy)]
struct MarkedNames<'a> {
    level: u32,
    mask: &'a [u8],
    style: Style,
}

impl Display for MarkedNames<'_> {
    fn fmt<W: fmt::Write>(&self, f: &mut fmt::Formatter<W>) -> fmt::Result {
        for cell in 0..8 << (2 * self.level.min(mask::MAX_MASK_LEVEL)) {
            if bitset::is_marked(self.mask, cell) {
                self.style.name(cell).write_after_space(f)?;
            }
        }
        Ok(())
    }
}

// The marked cells, or none.
fn write_cells(args: &Args<'_>, level: u32, mask: &[u8], out: &mut String) -> Result<(), Fault> {
    let names = MarkedNames {
        level,
        mask,
        style: args.style,
    };
    write!(out, "{names}")?;
    if out.is_empty() {
        out.push_str("none")?;
    }
    Ok(())
}

// Whether so many bytes are a mask of a level.
pub fn mask(args: &mut Args<'_>) -> Result<Answer, Fault> {
    let level = args.number()?;
    let size = args.number()? as usize;
    args.end()?;
    if BYTES < size {
        return Err(Fault::Unreadable);
    }
    let mask = vec![in args.alloc; 0; size]?;
    mask::is_mask(level, &mask)?;
    Ok(Answer::Yes)
}

pub fn count(args: &mut Args<'_>) -> Result<Answer, Fault> {
    let level = args.number()?;
    let mask = next_mask(args, level)?;
    args.done()?;
    Ok(Answer::Number(mask::count(level, &mask)?))
}

pub fn within(args: &mut Args<'_>) -> Result<Answer, Fault> {
    let level = args.number()?;
    let one = next_mask(args, level)?;
    let other = next_mask(args, level)?;
    args.done()?;
    Ok(match mask::within(level, &one, &other)? {
        None => Answer::Yes,
        Some(cell) => Answer::Lacks(args.name(cell)),
    })
}

pub fn join(args: &mut Args<'_>, out: &mut String) -> Result<(), Fault> {
    let level = args.number()?;
    let one = next_mask(args, level)?;
    let other = next_mask(args, level)?;
    args.done()?;
    let mut both = empty(args, level)?;
    mask::join(level, &one, &other, &mut both)?;
    write_cells(args, level, &both, out)
}

// A mask grown or shrunk by so many rings, as `resize`, a call of the library, does it.
fn resized<F: Fn(u32, u32, &[u8], &mut [u8], &mut [u8]) -> Result<(), Refusal>>(
    args: &mut Args<'_>,
    out: &mut String,
    resize: F,
) -> Result<(), Fault>
where
    F: Drop,
    requires { F.IsAlwaysCallable resize }
{
    let level = args.number()?;
    let rings = args.number()?;
    let mask = next_mask(args, level)?;
    args.done()?;
    let mut resized = empty(args, level)?;
    let mut work = empty(args, level)?;
    resize(level, rings, &mask, &mut resized, &mut work)?;
    write_cells(args, level, &resized, out)
}

pub fn grow(args: &mut Args<'_>, out: &mut String) -> Result<(), Fault> {
    resized(args, out, grow::grow)
}

pub fn shrink(args: &mut Args<'_>, out: &mut String) -> Result<(), Fault> {
    resized(args, out, grow::shrink)
}

// A level, and the cells that a border leaves on the side away from a cell.
fn filling(args: &mut Args<'_>) -> Result<(u32, Vec<u8>), Fault> {
    let level = args.number()?;
    let outside = args.number()?;
    let border = next_mask(args, level)?;
    args.done()?;
    let mut region = empty(args, level)?;
    fill::fill(level, &border, outside, &mut region)?;
    Ok((level, region))
}

pub fn fill(args: &mut Args<'_>, out: &mut String) -> Result<(), Fault> {
    let (level, region) = filling(args)?;
    write_cells(args, level, &region, out)
}

pub fn filled(args: &mut Args<'_>) -> Result<Answer, Fault> {
    let (level, region) = filling(args)?;
    Ok(Answer::Number(mask::count(level, &region)?))
}
