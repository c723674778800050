// The calls, by their names in a case.
use crate::args::Args;
use crate::fault::Fault;
use crate::{borders, cells, charts, counts, masks, steps};
use std::fmt::Write;

// Makes the call of a name and writes what it answers. Before a refusal it may have written a part.
pub fn write_answer(name: &[u8], args: &mut Args<'_>, out: &mut String) -> Result<(), Fault> {
    let answer = match name {
        b"place" => cells::place(args),
        b"number" => cells::number(args),
        b"centroid" => cells::centroid(args),
        b"cell" => cells::cell(args),
        b"centre" => cells::centre(args),
        b"near" => cells::near(args),
        b"step" => steps::step(args),
        b"code" => steps::code(args),
        b"codes" => return steps::codes(args, out),
        b"path" => return steps::path(args, out),
        b"touch" => steps::touch(args),
        b"touching" => return steps::touching(args, out),
        b"tally" => counts::tally(args),
        b"rule" => counts::rule(args),
        b"distance" => counts::distance(args),
        b"mask" => masks::mask(args),
        b"count" => masks::count(args),
        b"join" => return masks::join(args, out),
        b"within" => masks::within(args),
        b"grow" => return masks::grow(args, out),
        b"shrink" => return masks::shrink(args, out),
        b"fill" => return masks::fill(args, out),
        b"filled" => masks::filled(args),
        b"reading" => charts::reading(args),
        b"day" => return charts::day(args, out),
        b"read" => return borders::read(args, out),
        b"write" => return borders::write(args, out),
        _ => return Err(Fault::Unreadable),
    }?;
    write!(out, "{answer}")?;
    Ok(())
}
