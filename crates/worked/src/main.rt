// Runs cases: reads them from standard input, a line each, makes the library's calls, and prints what they answered beside what was expected.
// crates/worked/stdin says how a case is written.
#![tactic(auto)]

mod answer;
mod args;
mod bits;
mod borders;
mod call;
mod cells;
mod charts;
mod counts;
mod fault;
mod masks;
mod name;
mod run;
mod steps;
mod temperature;
mod words;

use std::alloc::Global;
use std::io;
use std::io::{BufWriter, ErrorKind, Read, Write};

// The longest input, in bytes; one as long as that is refused.
const INPUT: usize = 262_144;

// Only memory that runs out is reported: a failed read ends the input, and a failed write ends the output.
fn but_for_memory<T: Drop>(res: io::Result<T>) -> io::Result<()> {
    match res {
        Err(error) if error.kind() == ErrorKind::OutOfMemory => Err(error),
        _ => Ok(()),
    }
}

// All lines, and then how many cases gave the expected answer, of how many.
fn print_all(alloc: Global, input: &[u8], out: &mut impl Write) -> io::Result<()> {
    let score = run::run_all(alloc, input, out)?;
    writeln!(out, "{} of {}", score.right, score.all)?;
    out.flush()
}

fn main(rt: HostRuntime) -> io::Result<()> {
    let alloc = rt.alloc();
    let mut input = Vec::new(alloc);
    but_for_memory(rt.reader().take(INPUT as u64).read_to_end(&mut input))?;
    if input.len() == INPUT {
        return but_for_memory(println!(rt; "WRONG the input is too long\n0 of 1"));
    }
    let mut out = BufWriter::new(alloc, io::writer(&rt))?;
    but_for_memory(print_all(alloc, &input, &mut out))
}
