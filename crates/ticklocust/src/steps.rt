// Steps, codes and touching cells.
ghost use Rattle.std.specs.Prelude.{◌≡◌, ◌⊎◌, ◌<◌};
ghost use Rattle.code.specs.Step.{step_call, code_call};
ghost use Rattle.adjacency.specs.Touch.{list_call};
ghost use Rattle.c_values.specs.Values.{told, told_lent};

use crate::told;

// A code as a byte: one that no byte holds is above 7, as 255 is.
fn code_byte(code: u32) -> u8
    ensures { (result ≡ code) ⊎ ((7 < result) × (7 < code)) }
{
    u8::try_from(code).unwrap_or(255)
}

#[unsafe(no_mangle)]
pub extern "C" fn ticklocust_step(level: u32, cell: u32, code: u32, to: &mut u32) -> u32
    ensures { (result, to.new) ≡ told (step_call level cell code) to.old }
{
    told::tell(step::step_along(level, cell, code_byte(code)), to)
}

#[unsafe(no_mangle)]
pub extern "C" fn ticklocust_code(level: u32, from: u32, to: u32, code: &mut u32) -> u32
    ensures { (result, code.new) ≡ told (code_call level from to) code.old }
{
    told::tell(step::code_between(level, from, to).map(u32::from), code)
}

#[unsafe(no_mangle)]
pub extern "C" fn ticklocust_touching(
    level: u32,
    cell: u32,
    cells: &mut [u32],
    count: &mut u32,
) -> u32
    ensures { ((result, count.new), cells.new) ≡ told_lent (list_call level cell cells.old) count.old }
{
    told::tell(touch::touching_cells(level, cell, cells), count)
}
