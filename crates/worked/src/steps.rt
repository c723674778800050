// Steps, codes, and touching cells.
use crate::answer::Answer;
use crate::args::Args;
use crate::fault::Fault;
use crate::name::Names;
use crate::words::Word;
use std::fmt::Write;

pub fn step(args: &mut Args<'_>) -> Result<Answer, Fault> {
    let level = args.number()?;
    let cell = args.number()?;
    let code = args.one(Word::code)?;
    args.end()?;
    Ok(Answer::Cell(args.name(step::step_along(level, cell, code)?)))
}

// The code between two cells.
pub fn code(args: &mut Args<'_>) -> Result<Answer, Fault> {
    let level = args.number()?;
    let from = args.number()?;
    let to = args.number()?;
    args.end()?;
    Ok(Answer::Code(step::code_between(level, from, to)?))
}

// The codes from each cell of a list to the next.
pub fn codes(args: &mut Args<'_>, out: &mut String) -> Result<(), Fault> {
    let level = args.number()?;
    let mut from = args.number()?;
    let list = args.list(Word::number)?;
    args.done()?;
    for to in list {
        match step::code_between(level, from, to) {
            Ok(code) => write!(out, " {}", Answer::Code(code))?,
            Err(refusal) => write!(out, " refused {}", refusal.number())?,
        }
        from = to;
    }
    Ok(())
}

// The cells that steps lead to, one after the other, to the first that is refused.
pub fn path(args: &mut Args<'_>, out: &mut String) -> Result<(), Fault> {
    let level = args.number()?;
    let mut cell = args.number()?;
    let list = args.list(Word::code)?;
    args.done()?;
    for code in list {
        out.push(' ')?;
        cell = step::step_along(level, cell, code)?;
        write!(out, "{}", args.name(cell))?;
    }
    Ok(())
}

pub fn touch(args: &mut Args<'_>) -> Result<Answer, Fault> {
    let level = args.number()?;
    let one = args.number()?;
    let other = args.number()?;
    args.end()?;
    if corner::cells_touch(level, one, other)? {
        Ok(Answer::Touch)
    } else {
        Ok(Answer::Apart)
    }
}

// The cells that touch a cell, found in a slice of a given length up to 16, or else 12.
pub fn touching(args: &mut Args<'_>, out: &mut String) -> Result<(), Fault> {
    let level = args.number()?;
    let cell = args.number()?;
    let room = if args.at_bar() { 12 } else { args.number()? };
    args.end()?;
    let mut list = [0u32; 16];
    let Some(part) = list.get_mut(..room as usize) else {
        return Err(Fault::Unreadable);
    };
    let count = touch::touching_cells(level, cell, part)?;
    let names = Names {
        cells: part.get(..count as usize).unwrap_or(&[]),
        style: args.style,
    };
    write!(out, "{names}")?;
    Ok(())
}
