// Growing and shrinking of masks by rings of touching cells (dilation and erosion): docs/RULES.md, 6.2.
#![tactic(auto)]

ghost use Rattle.std.specs.Prelude.{◌≡◌};
ghost use Rattle.refusal.specs.Refusal.{said_done};
ghost use Rattle.grow.specs.Grow.{grow_call, shrink_call};
ghost use Rattle.grow.specs.inside.Prepare.{prepare_call};

use refusal::Refusal;

// The most rings of one call.
pub const MAX_RINGS: u32 = 64;

// The tests of both calls. Where none refuses, copies the mask to the slice that is changed in place, and clears the one to work in.
fn prepare(
    level: u32,
    rings: u32,
    mask: &[u8],
    out: &mut [u8],
    work: &mut [u8],
) -> Result<(), Refusal>
    ensures { (said_done result, (out.new, work.new)) ≡ prepare_call level rings mask.now out.old work.old }
{
    mask::is_mask(level, mask)?;
    mask::is_mask(level, out)?;
    mask::is_mask(level, work)?;
    if MAX_RINGS < rings {
        return Err(Refusal::Count);
    }
    out.copy_from_slice(mask);
    bitset::clear(work);
    Ok(())
}

// Marks the cells at most `rings` touching steps from a cell that `mask` marks. `work` is lent for working and holds zeros afterwards.
pub fn grow(
    level: u32,
    rings: u32,
    mask: &[u8],
    grown: &mut [u8],
    work: &mut [u8],
) -> Result<(), Refusal>
    ensures { (said_done result, (grown.new, work.new)) ≡ grow_call level rings mask.now grown.old work.old }
{
    prepare(level, rings, mask, grown, work)?;
    dilate::dilate(level, rings, grown);
    Ok(())
}

// Marks the cells that have only cells marked in `mask` within `rings` touching steps: grows what is outside it. `work` is lent for working and
// holds zeros afterwards.
pub fn shrink(
    level: u32,
    rings: u32,
    mask: &[u8],
    shrunk: &mut [u8],
    work: &mut [u8],
) -> Result<(), Refusal>
    ensures { (said_done result, (shrunk.new, work.new)) ≡ shrink_call level rings mask.now shrunk.old work.old }
{
    prepare(level, rings, mask, shrunk, work)?;
    bitset::complement(shrunk);
    dilate::dilate(level, rings, shrunk);
    bitset::complement(shrunk);
    Ok(())
}
