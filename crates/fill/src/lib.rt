// Filling a region: docs/RULES.md, 6.2. The fill is what no direct steps over unmarked cells reach from the outside cell.
#![tactic(auto)]

ghost use Rattle.std.specs.Prelude.{◌≡◌};
ghost use Rattle.refusal.specs.Answer.{in_order};
ghost use Rattle.refusal.specs.Refusal.{said_as, said_done};
ghost use Rattle.fill.specs.Fill.{fill_tests, fill_call};
ghost use Rattle.fill.specs.inside.Tested.{outside_is};

use cell::CellNumber;
use mask::{MaskCell, MaskLevel};
use refusal::Refusal;

mod search;

// Marks in `out` all cells but those that the outside cell reaches through cells that the border does not mark; so the border is marked too.
pub fn fill(level: u32, border: &[u8], outside: CellNumber, out: &mut [u8]) -> Result<(), Refusal>
    ensures { (said_done result, out.new) ≡ fill_call level border.now outside out.old }
{
    let outside = fill_tests(level, border, outside, out)?;
    search::reach_all(outside, border, out);
    bitset::complement(out);
    Ok(())
}

// The tests, in the order of their numbers. Past them the outside cell is one of a level of masks.
#[tactic(auto, using(crate::proofs::Answers::bytes_shifted))]
fn fill_tests(
    level: u32,
    border: &[u8],
    outside: CellNumber,
    out: &[u8],
) -> Result<MaskCell, Refusal>
    ensures { said_as outside_is result ≡ in_order (fill_tests level border.now outside out.now) (level, outside) }
{
    let level = MaskLevel::new(level)?;
    if !cell::is_cell(level.k, outside) {
        return Err(Refusal::Cell);
    }
    let bytes = 1 << (2 * level.k);
    if border.len() != bytes {
        return Err(Refusal::Length);
    }
    if out.len() != bytes {
        return Err(Refusal::Length);
    }
    if bitset::is_marked(border, outside) {
        return Err(Refusal::Outside);
    }
    let outside = MaskCell {
        level,
        number: outside,
    };
    Ok(outside)
}
