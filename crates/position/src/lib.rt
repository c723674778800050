// The cell at a position: docs/RULES.md, 2.
#![tactic(auto)]

mod angle;
mod place;

ghost use Rattle.std.specs.Prelude.{◌≡◌};
ghost use Rattle.refusal.specs.Refusal.{said};
ghost use Rattle.position.specs.Position.{cell_call};

use cell::{CellLevel, CellNumber};
use place::InOctant;
use refusal::Refusal;

// Whole millionths of a degree, north of the equator; in the south they are negative.
#[derive(Clone, Copy, Debug, PartialEq, Eq)]
pub struct Latitude(pub i32);

// Whole millionths of a degree, east of the meridian of Greenwich; in the west they are negative.
#[derive(Clone, Copy, Debug, PartialEq, Eq)]
pub struct Longitude(pub i32);

// A quarter of a turn, the document's q.
pub const QUARTER: u64 = 90_000_000;

// The number of the cell at a position.
pub fn cell_at(level: u32, latitude: Latitude, longitude: Longitude) -> Result<CellNumber, Refusal>
    ensures { said result ≡ cell_call level latitude.0 longitude.0 }
{
    let level = CellLevel::new(level)?;
    let p = angle::from_equator(latitude);
    let out = angle::longitude_out(longitude);
    if QUARTER < p {
        return Err(Refusal::Latitude);
    }
    if out {
        return Err(Refusal::Longitude);
    }
    let octant = angle::octant_of(latitude, longitude);
    let m = angle::from_west(longitude) % QUARTER;
    let place = place::place_at(level, InOctant { octant, p, m });
    cell::number_of(level.k, place)
}
