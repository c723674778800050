// Masks: grow, shrink, join, count, within and fill.
ghost use Rattle.std.specs.Prelude.{◌≡◌};
ghost use Rattle.mask.specs.Mask.{join_call, count_call, within_call};
ghost use Rattle.grow.specs.Grow.{grow_call, shrink_call};
ghost use Rattle.fill.specs.Fill.{fill_call};
ghost use Rattle.c_values.specs.Values.{told, returned, in_c, lacking_cell};

use crate::told;

// What `within` answers in C when every cell of the first mask is in the second.
const WITHIN: u32 = cell::NO_CELL;

#[unsafe(no_mangle)]
pub extern "C" fn ticklocust_grow(
    level: u32,
    rings: u32,
    mask: &[u8],
    out: &mut [u8],
    work: &mut [u8],
) -> u32
    ensures { (result, (out.new, work.new))
        ≡ returned (grow_call level rings mask.now out.old work.old) }
{
    told::status(grow::grow(level, rings, mask, out, work))
}

#[unsafe(no_mangle)]
pub extern "C" fn ticklocust_shrink(
    level: u32,
    rings: u32,
    mask: &[u8],
    out: &mut [u8],
    work: &mut [u8],
) -> u32
    ensures { (result, (out.new, work.new))
        ≡ returned (shrink_call level rings mask.now out.old work.old) }
{
    told::status(grow::shrink(level, rings, mask, out, work))
}

#[unsafe(no_mangle)]
pub extern "C" fn ticklocust_join(level: u32, a: &[u8], b: &[u8], out: &mut [u8]) -> u32
    ensures { (result, out.new) ≡ returned (join_call level a.now b.now out.old) }
{
    told::status(mask::join(level, a, b, out))
}

#[unsafe(no_mangle)]
pub extern "C" fn ticklocust_count(level: u32, mask: &[u8], count: &mut u32) -> u32
    ensures { (result, count.new) ≡ told (count_call level mask.now) count.old }
{
    told::tell(mask::count(level, mask), count)
}

#[unsafe(no_mangle)]
pub extern "C" fn ticklocust_within(level: u32, a: &[u8], b: &[u8], lacking: &mut u32) -> u32
    ensures { (result, lacking.new)
        ≡ told (in_c lacking_cell (within_call level a.now b.now)) lacking.old }
{
    let answer = mask::within(level, a, b).map(|cell| cell.unwrap_or(WITHIN));
    told::tell(answer, lacking)
}

#[unsafe(no_mangle)]
pub extern "C" fn ticklocust_fill(level: u32, border: &[u8], outside: u32, out: &mut [u8]) -> u32
    ensures { (result, out.new) ≡ returned (fill_call level border.now outside out.old) }
{
    told::status(fill::fill(level, border, outside, out))
}
