// What is counted over all cells of a level: how many cells they touch; whether the digit rules of source 000 (section 2) and source 003 (section 5)
// agree with the steps; and the differences of cell numbers of source 003, section 6.
ghost use Rattle.std.specs.Prelude.{◌≤◌, IfOk};

use crate::answer::Answer;
use crate::args::Args;
use crate::fault::Fault;
use crate::words::Word;
use Turn::{Last, On};

// The highest level that is counted.
const MOST: u32 = 6;

// What the rule makes of a digit: the last one that changes, or one after which it goes on to the digit before.
#[derive(Clone, Copy)]
enum Turn {
    Last(u32),
    On(u32),
}

// For each code and each digit; none where there is no such step. T, E and W leave the octant: there is such a step where t, r or l would go on past
// the first digit. A static, since a constant would be built anew for each cell.
static TURNS: [[Option<Turn>; 4]; 8] = [
    [Some(Last(1)), Some(Last(0)), Some(On(2)), Some(On(3))],
    [Some(Last(2)), Some(On(3)), Some(On(1)), Some(Last(0))],
    [Some(Last(3)), Some(On(2)), Some(Last(0)), Some(On(1))],
    [None; 4],
    [None; 4],
    [None, None, Some(On(2)), Some(On(3))],
    [None, Some(On(1)), None, Some(On(2))],
    [None, Some(On(1)), Some(On(3)), None],
];

// The octants to which T, E and W lead from each.
static OCTANTS: [[u32; 8]; 3] = [
    [4, 5, 6, 7, 0, 1, 2, 3],
    [1, 2, 3, 0, 5, 6, 7, 4],
    [3, 0, 1, 2, 7, 4, 5, 6],
];

// The cell to which the rule of a code leads. It begins at the last digit.
fn by_digits(level: u32, cell: u32, code: u8) -> Option<u32>
    requires { level ≤ 6 }
{
    let turns = &TURNS[(code % 8) as usize];
    let mut rest = cell;
    let mut digits = 0;
    for i in 0..level {
        match turns[(rest % 4) as usize]? {
            Last(digit) => return Some(((rest / 4) << (2 * i + 2)) | (digit << (2 * i)) | digits),
            On(digit) => digits |= digit << (2 * i),
        }
        rest /= 4;
    }
    if code < 5 {
        return None;
    }
    let octant = OCTANTS[((code % 8 + 1) % 3) as usize][(rest % 8) as usize];
    Some((octant << (2 * level)) | digits)
}

// How many cells a cell touches.
fn touched(level: u32, cell: u32) -> u32 {
    let mut list = [0u32; 12];
    touch::touching_cells(level, cell, &mut list).unwrap_or(0)
}

// The level of a case, none above the highest that is counted.
fn level_of(args: &mut Args<'_>) -> Result<u32, Fault>
    ensures { IfOk result (λ level. level ≤ 6) }
{
    let level = args.number()?;
    if level <= MOST {
        Ok(level)
    } else {
        Err(Fault::Unreadable)
    }
}

// How many cells touch so many.
pub fn tally(args: &mut Args<'_>) -> Result<Answer, Fault> {
    let level = level_of(args)?;
    let number = args.number()?;
    args.end()?;
    let count = (0..8 << (2 * level))
        .filter(|cell| touched(level, *cell) == number)
        .count();
    Ok(Answer::Number(count as u32))
}

// At how many of all cells the rule and the step of a code agree.
pub fn rule(args: &mut Args<'_>) -> Result<Answer, Fault> {
    let level = level_of(args)?;
    let code = args.one(Word::code)?;
    args.end()?;
    let all = 8 << (2 * level);
    let some = (0..all)
        .filter(|cell| step::step_along(level, *cell, code).ok() == by_digits(level, *cell, code))
        .count();
    Ok(Answer::Share {
        some: some as u32,
        all,
    })
}

// The differences over the direct neighbours inside octant 0.
pub fn distance(args: &mut Args<'_>) -> Result<Answer, Fault> {
    let level = level_of(args)?;
    args.end()?;
    // Up to level 6 neither comes near 2^32.
    let mut sum: u32 = 0;
    let mut steps: u32 = 0;
    for cell in 0..1 << (2 * level) {
        for code in 0..3 {
            if let Ok(to) = step::step_along(level, cell, code) {
                sum = sum.saturating_add(cell.abs_diff(to));
                steps = steps.saturating_add(1);
            }
        }
    }
    Ok(Answer::Average { sum, steps })
}
