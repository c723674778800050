// Latitudes and longitudes, and the octants that they name: docs/RULES.md, 2. In this crate signed numbers are met here alone.
ghost use Rattle.std.specs.Prelude.{◌≡◌, false, nat_abs};
ghost use Rattle.position.specs.Position.{longitude_out, from_west, octant};

use crate::{Latitude, Longitude, QUARTER};

// Half a turn, as longitudes are counted.
const HALF_TURN: i32 = 2 * QUARTER as i32;

// The same to the west.
const HALF_TURN_WEST: i32 = -HALF_TURN;

// How far a latitude is from the equator.
pub(crate) fn from_equator(latitude: Latitude) -> u64
    ensures { result ≡ nat_abs latitude.0 }
{
    u64::from(latitude.0.unsigned_abs())
}

// Whether a longitude is outside its range, −2q to 2q−1.
pub(crate) fn longitude_out(longitude: Longitude) -> bool
    ensures { result ≡ longitude_out longitude.0 }
{
    !(HALF_TURN_WEST..HALF_TURN).contains(&longitude.0)
}

// A longitude in range, counted east from −2q.
pub(crate) fn from_west(longitude: Longitude) -> u64
    requires { longitude_out longitude.0 ≡ false }
    ensures { result ≡ from_west longitude.0 }
{
    let x = longitude.0;
    (x + HALF_TURN) as u64
}

// The octant of a position whose longitude is in range; a negative latitude adds 4.
pub(crate) fn octant_of(latitude: Latitude, longitude: Longitude) -> u32
    requires { longitude_out longitude.0 ≡ false }
    ensures { result ≡ octant latitude.0 longitude.0 }
{
    let y = latitude.0;
    let north = ((from_west(longitude) / QUARTER + 2) % 4) as u32;
    if y < 0 { north + 4 } else { north }
}
