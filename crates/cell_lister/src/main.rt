// The cell lister (docs/RULES.md, 10): reads a stored border from standard input and prints its level and its cells, a line each, or the
// number by which it is refused.
#![tactic(auto)]

ghost use Rattle.std.specs.Prelude.{ℕ, ◌≤◌, ◌≡◌, List, ◌++◌, length, take};
ghost use Rattle.io.specs.Counts.{IsPrefixLen};
ghost use Rattle.border.specs.Border.{max_cells};
ghost use Rattle.cell_lister.specs.CellLister.{level_line, lines, output, front_bytes};

use border::MAX_CELLS;
use cell::CellNumber;

// The bytes of the longest output: `level`, a space, a line end, and 4,097 lines, with 20 digits to a number.
const OUTPUT: usize = 86064;

// The bytes that are read: one more than the longest border has, so that a longer input is seen to be longer.
const FRONT: usize = 1545;

// The descriptors of standard input and output.
const STDIN: i32 = 0;

const STDOUT: i32 = 1;

// Puts a level and cells into a slice, a line each, and answers the length.
fn put_cells(level: u32, cells: &[CellNumber], out: &mut [u8]) -> usize
    requires { (length cells.now ≤ max_cells) × (86064 ≤ length out.old) }
    ensures fits { IsPrefixLen result out.new }
    ensures text { take result out.new ≡ level_line level ++ lines cells.now }
{
    let a = text::append(out, 0, b"level ");
    let b = text::append_decimal(out, a, u64::from(level));
    let mut place = text::append(out, b, b"\n");
    for cell in cells {
        let next = text::append_decimal(out, place, u64::from(*cell));
        place = text::append(out, next, b"\n");
    }
    place
}

// What is printed for an input, put into a slice, and its length.
fn output_of(input: &[u8], out: &mut [u8; OUTPUT]) -> usize
    ensures fits { IsPrefixLen result out.new }
    ensures text { take result out.new ≡ output input.now }
{
    // Fixed memory: the cells of the longest border.
    let mut cells = [0; MAX_CELLS];
    match border_reader::read(input, &mut cells) {
        Ok(border) => put_cells(border.level, &cells[..border.count as usize], out),
        Err(refusal) => text::append_refusal(out, 0, refusal.number()),
    }
}

// The same for every input of which `front` holds the first bytes, n of them: all of it, or as many as are read. The whole buffer is lent, since
// its length is part of the claim. The ring counter has such a function too, and they stay two: a shared one would take the program's whole claim
// (`output`) and the buffer's length as parameters, for a body of one call.
#[tactic(auto, using(crate::proofs::Laws::front_decides))]
fn output_of_front(front: &[u8], n: usize, out: &mut [u8; OUTPUT]) -> usize
    requires { (length front.now ≡ front_bytes) × (n ≤ front_bytes) }
    ensures fits { IsPrefixLen result out.new }
    ensures text { (input : List ℕ) → take front_bytes input ≡ take n front.now → take result out.new ≡ output input }
{
    output_of(&front[..n], out)
}

fn main() {
    let mut front = [0u8; FRONT];
    let n = io::read_full(STDIN, &mut front);
    let mut out = [0u8; OUTPUT];
    let k = output_of_front(&front, n, &mut out);
    io::write_all(STDOUT, &out[..k]);
}
