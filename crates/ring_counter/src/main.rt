// The ring counter (docs/RULES.md, 10): reads the rings in one byte and then a mask of level 5 from standard input, nothing after, and prints
// how many cells are marked before and after growing, or the number by which it is refused.
#![tactic(auto)]

ghost use Rattle.std.specs.Prelude.{ℕ, ◌≤◌, ◌≡◌, length, take, List, [], ◌∷◌};
ghost use Rattle.refusal.specs.Answer.{in_order};
ghost use Rattle.refusal.specs.Refusal.{said};
ghost use Rattle.io.specs.Counts.{IsPrefixLen};
ghost use Rattle.grow.specs.Grow.{bad_rings};
ghost use Rattle.ring_counter.specs.RingCounter.{counts, ring_counts, line, output, front_bytes};

use refusal::Refusal;

const LEVEL: u32 = 5;

// The bytes of the input, one of rings and a mask.
const INPUT: usize = 1025;

// The bytes that are read: one more than the input may have, so that a longer one is seen to be longer.
const FRONT: usize = 1026;

// The descriptors of standard input and output.
const STDIN: i32 = 0;

const STDOUT: i32 = 1;

// The cells that a mask of level 5 marks, before growing by a number of rings and after it.
fn grown_counts(rings: u8, mask: &[u8; 1024]) -> Result<(u32, u32), Refusal>
    ensures { said result ≡ in_order (bad_rings rings ∷ []) (counts rings mask.now) }
{
    // Fixed memory: the mask written and the working mask. The mask read is the third buffer.
    let mut grown = [0u8; 1024];
    let mut work = [0u8; 1024];
    grow::grow(LEVEL, u32::from(rings), mask, &mut grown, &mut work)?;
    let before = mask::count(LEVEL, mask)?;
    let after = mask::count(LEVEL, &grown)?;
    Ok((before, after))
}

// What the input comes to.
fn outcome_of(input: &[u8]) -> Result<(u32, u32), Refusal>
    ensures { said result ≡ ring_counts input.now }
{
    if input.len() != INPUT {
        return Err(Refusal::Length);
    }
    let mut mask = [0u8; 1024];
    mask.copy_from_slice(&input[1..]);
    grown_counts(input[0], &mask)
}

// Puts the line of an outcome into a slice, and answers its length.
fn put_line(outcome: Result<(u32, u32), Refusal>, out: &mut [u8; 64]) -> usize
    ensures fits { IsPrefixLen result out.new }
    ensures text { take result out.new ≡ line (said outcome) }
{
    match outcome {
        Ok((before, after)) => {
            let a = text::append_decimal(out, 0, u64::from(before));
            let b = text::append(out, a, b" ");
            let c = text::append_decimal(out, b, u64::from(after));
            text::append(out, c, b"\n")
        }
        Err(refusal) => text::append_refusal(out, 0, refusal.number()),
    }
}

// What is printed for an input, put into a slice, and its length.
fn output_of(input: &[u8], out: &mut [u8; 64]) -> usize
    ensures fits { IsPrefixLen result out.new }
    ensures text { take result out.new ≡ output input.now }
{
    put_line(outcome_of(input), out)
}

// The same for every input of which `front` holds the first bytes, n of them: all of it, or as many as are read. The buffer comes whole, since its length is
// in the claim. The cell lister has such a function too, and they stay two: a shared one would take the program's whole claim (`output`) and the buffer's
// length as parameters, for a body of one call.
#[tactic(auto, using(crate::proofs::Laws::front_read))]
fn output_of_front(front: &[u8], n: usize, out: &mut [u8; 64]) -> usize
    requires { (length front.now ≡ front_bytes) × (n ≤ front_bytes) }
    ensures fits { IsPrefixLen result out.new }
    ensures text { (input : List ℕ) → take front_bytes input ≡ take n front.now → take result out.new ≡ output input }
{
    output_of(&front[..n], out)
}

fn main() {
    let mut front = [0u8; FRONT];
    let n = io::read_full(STDIN, &mut front);
    let mut out = [0u8; 64];
    let k = output_of_front(&front, n, &mut out);
    io::write_all(STDOUT, &out[..k]);
}
