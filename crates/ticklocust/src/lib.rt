// The C interface (include/ticklocust.h). Every function returns 0 when its call is accepted, else the refusal's number, and writes its answers
// through references only when it is accepted.
#![tactic(auto)]

mod borders;
mod charts;
mod masks;
mod steps;
mod told;

ghost use Rattle.std.specs.Prelude.{◌≡◌};
ghost use Rattle.position.specs.Position.{cell_call};
ghost use Rattle.centre.specs.Centre.{centre_call};
ghost use Rattle.c_values.specs.Values.{told};

use position::{Latitude, Longitude};

#[unsafe(no_mangle)]
pub extern "C" fn ticklocust_cell_at(
    level: u32,
    latitude: i32,
    longitude: i32,
    cell: &mut u32,
) -> u32
    ensures { (result, cell.new) ≡ told (cell_call level latitude longitude) cell.old }
{
    told::tell(
        position::cell_at(level, Latitude(latitude), Longitude(longitude)),
        cell,
    )
}

#[unsafe(no_mangle)]
pub extern "C" fn ticklocust_centre(
    level: u32,
    cell: u32,
    latitude: &mut i32,
    longitude: &mut i32,
) -> u32
    ensures { (result, (latitude.new, longitude.new))
        ≡ told (centre_call level cell) (latitude.old, longitude.old) }
{
    match centre::centre_of(level, cell) {
        Ok((Latitude(y), Longitude(x))) => {
            *latitude = y;
            *longitude = x;
            0
        }
        Err(refusal) => refusal as u32,
    }
}
