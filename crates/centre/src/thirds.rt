// Centres of cells, which lie thirds of a row and of a column in: docs/RULES.md, 3.
ghost use Rattle.std.specs.Prelude.{◌≡◌, ℕ, ◌*◌, ◌/◌, ◌^◌, ◌<◌, ◌≤◌};
ghost use Rattle.cell.specs.Cell.{place_of, triangle_of, max_level};
ghost use Rattle.position.specs.Position.{q};
ghost use Rattle.centre.specs.Centre.{position_of, thirds, centre};

use crate::angle;
use cell::{CellLevel, Kind, Site};
use position::{Latitude, Longitude, QUARTER};

// A third of the square of a quarter of a turn: whole, and so are its parts of 2^level to level 14.
const SQUARE_THIRD: u64 = QUARTER * QUARTER / 3;

// The size p of a centre's latitude, q · thirds / 3N.
fn centre_p(level: CellLevel, thirds: u64) -> u64
    requires { thirds ≤ 3 * 2 ^ max_level }
    ensures { result ≡ q * thirds / (3 * 2 ^ level.k) }
{
    (QUARTER * thirds / 3) >> level.k
}

// The offset m of a centre's longitude, thirds · q² / (3N · rest): by q² / 3N, which is whole, as the product itself can pass 64 bits.
fn centre_m(level: CellLevel, thirds: u64, rest: u64) -> u64
    requires { (thirds ≤ 3 * 2 ^ level.k) × (0 < rest) }
    ensures { result ≡ thirds * (q * q) / (3 * 2 ^ level.k * rest) }
{
    thirds * (SQUARE_THIRD >> level.k) / rest
}

// The document's s: 1 for up and 2 for down.
#[tactic(auto, unfolding(crate::specs::Centre::thirds))]
fn thirds_of(kind: Kind) -> u64
    ensures { (a b : ℕ) → result ≡ thirds (triangle_of kind a b) }
{
    match kind {
        Kind::Up => 1,
        Kind::Down => 2,
    }
}

// The centre of a cell.
pub(crate) fn centre_at(site: Site) -> (Latitude, Longitude)
    ensures { position_of result ≡ centre site.level.k (place_of site.place) }
{
    let Site { level, place } = site;
    let s = thirds_of(place.kind);
    let p = centre_p(level, 3 * place.row as u64 + s);
    let m = centre_m(level, 3 * place.col as u64 + s, QUARTER - p);
    (
        angle::latitude_of(place.octant, p),
        angle::longitude_of(place.octant, m),
    )
}
