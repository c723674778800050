// Stored borders.
use crate::args::Args;
use crate::fault::Fault;
use crate::name::Names;
use crate::words::Word;
use border_reader::Border;
use std::fmt::Write;

// The cells of the longest border, and one more.
const CELLS: usize = 4098;

// The bytes of the longest border, and one more.
const BYTES: usize = 1545;

// Reads a stored border into a slice of so many cells.
pub fn read(args: &mut Args<'_>, out: &mut String) -> Result<(), Fault> {
    let room = args.number()? as usize;
    let bytes = args.list(Word::byte)?;
    args.done()?;
    if CELLS < room {
        return Err(Fault::Unreadable);
    }
    let mut cells = vec![in args.alloc; 0u32; room]?;
    let Border { level, count } = border_reader::read(&bytes, &mut cells)?;
    cells.truncate(count as usize);
    let names = Names {
        cells: &cells,
        style: args.style.at(level),
    };
    write!(out, "level {level}:{names}")?;
    Ok(())
}

// Writes a border into a slice of so many bytes.
pub fn write(args: &mut Args<'_>, out: &mut String) -> Result<(), Fault> {
    let room = args.number()? as usize;
    let level = args.number()?;
    let cells = args.list(Word::number)?;
    args.done()?;
    if BYTES < room {
        return Err(Fault::Unreadable);
    }
    let mut bytes = vec![in args.alloc; 0u8; room]?;
    let length = border_writer::write(level, &cells, &mut bytes)?;
    for byte in bytes.iter().take(length as usize) {
        write!(out, " {byte}")?;
    }
    Ok(())
}
