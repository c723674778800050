// Masks of cells: docs/RULES.md, 6.
#![tactic(auto)]

ghost use Rattle.std.specs.Prelude.{◌≡◌, ◌*◌, ◌^◌, ◌<◌, ◌≤◌, length};
ghost use Rattle.refusal.specs.Refusal.{said, said_as, said_done};
ghost use Rattle.bitset.specs.Bits.{Bytes, marked, bytes_of, size};
ghost use Rattle.cell.specs.Cell.{cells};
ghost use Rattle.mask.specs.Mask.{max_mask_level, union, difference, lowest, inclusion_of, mask_call, join_call, count_call, within_call};

use cell::{CellNumber, Level};
use refusal::Refusal;

// The highest level of masks and charts.
pub const MAX_MASK_LEVEL: u32 = 8;

// A level of masks and charts.
pub type MaskLevel = Level<MAX_MASK_LEVEL>;

// A cell of such a level, by its number.
#[derive(Clone, Copy)]
pub struct MaskCell {
    pub level: MaskLevel,
    pub number: CellNumber,
    ghost below: { number < cells level.k },
}

// A mask of a level, lent to read.
#[derive(Clone, Copy)]
pub struct Mask<'a> {
    pub level: MaskLevel,
    pub bytes: &'a [u8],
    ghost whole: { length bytes.now ≡ 4 ^ level.k },
}

// A mask of a level, lent to write. What is left in it stands at `.exit.0.now`, by the order of the fields.
#[derive(Drop)]
pub struct MaskMut<'a> {
    pub bytes: &'a mut [u8],
    pub level: MaskLevel,
    ghost whole: { length bytes.now ≡ 4 ^ level.k },
    ghost fits: { Bytes bytes.now },
}

// Whether a slice is a mask of a level: the tests that every call on masks begins with.
pub fn is_mask(level: u32, mask: &[u8]) -> Result<(), Refusal>
    ensures { said_done result ≡ mask_call level mask.now }
{
    let level = MaskLevel::new(level)?;
    if mask.len() != 1 << (2 * level.k) {
        return Err(Refusal::Length);
    }
    Ok(())
}

// The ones of each byte summed.
fn sum_ones(mask: &[u8]) -> u32
    requires { length mask.now ≤ 4 ^ max_mask_level }
    ensures { result ≡ size (8 * length mask.now) (marked mask.now) }
{
    mask.iter().map(|byte| byte.count_ones()).sum()
}

// How many cells are marked.
pub fn count(level: u32, mask: &[u8]) -> Result<u32, Refusal>
    ensures { said result ≡ count_call level mask.now }
{
    is_mask(level, mask)?;
    Ok(sum_ones(mask))
}

// The lowest cell that mask a marks and mask b does not.
// This form is asked for: a byte scan with a bit scan inside, and a labelled break that leaves both loops at the first cell of a that b lacks.
fn first_lacking(a: &[u8], b: &[u8]) -> Option<CellNumber>
    requires { (length a.now ≤ 4 ^ max_mask_level) × (length b.now ≡ length a.now) }
    ensures { inclusion_of result ≡ lowest (difference (marked a.now) (marked b.now)) (8 * length a.now) 0 }
{
    let mut lacking = None;
    'bytes: for i in 0..a.len() {
        for j in 0..8 {
            if (a[i] >> j) % 2 == 1 && (b[i] >> j) % 2 == 0 {
                lacking = Some(8 * i as u32 + j);
                break 'bytes;
            }
        }
    }
    lacking
}

// Whether one mask lies within another: the lowest cell that the outer one lacks, or none.
pub fn within(level: u32, inner: &[u8], outer: &[u8]) -> Result<Option<CellNumber>, Refusal>
    ensures { said_as inclusion_of result ≡ within_call level inner.now outer.now }
{
    is_mask(level, inner)?;
    is_mask(level, outer)?;
    Ok(first_lacking(inner, outer))
}

// Byte by byte, the bits of either mask.
fn join_bytes(a: &[u8], b: &[u8], out: &mut [u8])
    requires { (length a.now ≡ length out.old) × (length b.now ≡ length out.old) }
    ensures { out.new ≡ bytes_of (length out.old) (union (marked a.now) (marked b.now)) }
{
    for (i, byte) in out.iter_mut().enumerate() {
        *byte = a[i] | b[i];
    }
}

// Marks in a third mask exactly the cells that either of two masks marks.
pub fn join(level: u32, a: &[u8], b: &[u8], out: &mut [u8]) -> Result<(), Refusal>
    ensures { (said_done result, out.new) ≡ join_call level a.now b.now out.old }
{
    is_mask(level, a)?;
    is_mask(level, b)?;
    is_mask(level, out)?;
    join_bytes(a, b, out);
    Ok(())
}
