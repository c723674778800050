// Readings and days of charts.
use crate::answer::Answer;
use crate::args::Args;
use crate::bits::Bits;
use crate::fault::Fault;
use crate::masks;
use crate::temperature::Temperature;
use crate::words::Word;
use std::fmt::Write;

// The reading of a cell, with the two lists of its chart.
pub fn reading(args: &mut Args<'_>) -> Result<Answer, Fault> {
    let level = args.number()?;
    let cell = args.number()?;
    let temperatures = args.list(Word::temperature)?;
    let ages = args.list(Word::byte)?;
    args.done()?;
    Ok(Answer::Reading(chart::reading_of(level, &temperatures, &ages, cell)?))
}

// A day, and what it leaves of the two lists of the chart. The four lists of a day: new temperatures, clouded cells, old temperatures and ages.
pub fn day(args: &mut Args<'_>, out: &mut String) -> Result<(), Fault> {
    let level = args.number()?;
    let limit = args.number()?;
    let fresh = args.list(Word::temperature)?;
    let is_full = args.is_over();
    let clouds = masks::marked(args.alloc, level, args.words())?;
    let has_one_list = args.is_over();
    let mut temperatures = args.list(Word::temperature)?;
    let mut ages = args.list(Word::byte)?;
    args.done()?;
    match day::day(level, limit, &fresh, &clouds, &mut temperatures, &mut ages) {
        Ok(summary) => {
            let coldest = Temperature(summary.coldest);
            let warmest = Temperature(summary.warmest);
            write!(
                out,
                "fresh {} coldest {coldest} warmest {warmest}",
                summary.count
            )?;
        }
        Err(refusal) => write!(out, "refused {}", refusal.number())?,
    }
    // Where only the first list is there, the day is refused, and the words in front of it stand for the ages, or for the temperatures in a case that has
    // room for no further word.
    let front = if has_one_list { args.front() } else { &[] };
    out.push_str(" /")?;
    if is_full {
        for word in front {
            write!(out, " {}", Bits(word.bits()))?;
        }
    }
    for temperature in temperatures {
        write!(out, " {}", Temperature(temperature))?;
    }
    out.push_str(" /")?;
    if !is_full {
        for word in front {
            write!(out, " {}", word.bits() % 256)?;
        }
    }
    for age in ages {
        write!(out, " {age}")?;
    }
    Ok(())
}
