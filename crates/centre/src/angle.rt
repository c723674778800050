// Latitudes and longitudes of centres, by their octants: docs/RULES.md, 3. In this crate signed numbers are met here alone.
ghost use Rattle.std.specs.Prelude.{◌≡◌, ◌<◌, pos, ◌+ℤ◌};
ghost use Rattle.position.specs.Position.{q, beginning};
ghost use Rattle.centre.specs.Centre.{latitude_of};

use position::{Latitude, Longitude, QUARTER};

// A quarter of a turn, as longitudes are counted.
const QUARTER_TURN: i32 = QUARTER as i32;

// The longitude at which an octant begins. Octants stay numbers, as the rules reckon with them: south of an octant lies that of 4 more.
#[tactic(auto, unfolding(position::specs::Position::beginning))]
fn beginning_of(octant: u32) -> i32
    ensures { result ≡ beginning octant }
{
    match octant % 4 {
        0 => 0,
        1 => QUARTER_TURN,
        2 => -2 * QUARTER_TURN,
        _ => -QUARTER_TURN,
    }
}

// The latitude of size p, north or south.
pub(crate) fn latitude_of(octant: u32, p: u64) -> Latitude
    requires { p < q }
    ensures { result.0 ≡ latitude_of octant p }
{
    let north = p as i32;
    Latitude(if octant < 4 { north } else { -north })
}

// The longitude at an offset from its octant's beginning.
pub(crate) fn longitude_of(octant: u32, m: u64) -> Longitude
    requires { m < q }
    ensures { result.0 ≡ beginning octant +ℤ pos m }
{
    let east = m as i32;
    Longitude(beginning_of(octant) + east)
}
