// The place of a position in its octant, by the exact fractions T and R: docs/RULES.md, 2.
ghost use Rattle.std.specs.Prelude.{◌≡◌, ◌*◌, ◌/◌, ◌%◌, ◌^◌, ◌<◌, ◌≤◌};
ghost use Rattle.cell.specs.Cell.{place_of, max_level};
ghost use Rattle.position.specs.Position.{q, triangle_at, holder};

use crate::QUARTER;
use cell::{CellLevel, Kind, Place};

// The square of a quarter of a turn, in whose units T and R are whole.
const SQUARE: u64 = QUARTER * QUARTER;

// The rows of an octant at a level, the document's N.
fn rows_of(level: CellLevel) -> u64
    ensures { (result ≡ 2 ^ level.k) × (1 ≤ result) × (result ≤ 2 ^ max_level) }
{
    1 << level.k
}

// A fraction's whole part, and what is left over of it in units of 1/q².
#[derive(Clone, Copy, Debug, PartialEq, Eq)]
struct Share {
    whole: u64,
    rest: u64,
}

// N · part / q², by q² / N, which is whole to level 14: the product itself can pass 64 bits.
fn share_of(level: CellLevel, part: u64) -> Share
    requires { part < q * q }
    ensures whole { result.whole ≡ 2 ^ level.k * part / (q * q) }
    ensures rest { result.rest ≡ 2 ^ level.k * part % (q * q) }
{
    let unit = SQUARE >> level.k;
    let whole = part / unit;
    let rest = part % unit * rows_of(level);
    Share { whole, rest }
}

// A position by its octant: p is how far it lies from the equator, and m how far east of where the octant begins.
#[derive(Clone, Copy)]
pub(crate) struct InOctant {
    pub(crate) octant: u32,
    pub(crate) p: u64,
    pub(crate) m: u64,
    ghost to_the_pole: { p ≤ q },
    ghost within: { m < q },
}

// The place of a position below the pole: the whole parts of T and R are row and column, and what is left over of both tells up from down.
fn holder_of(level: CellLevel, at: InOctant) -> Place
    requires { at.p < q }
    ensures { place_of result ≡ (at.octant, holder level.k at.p at.m) }
{
    let InOctant { octant, p, m } = at;
    let n = rows_of(level);
    let high = n * p;
    let r = share_of(level, m * (QUARTER - p));
    let row = (high / QUARTER) as u32;
    let col = r.whole as u32;
    let kind = if high % QUARTER * QUARTER + r.rest < SQUARE {
        Kind::Up
    } else {
        Kind::Down
    };
    Place {
        octant,
        kind,
        row,
        col,
    }
}

// The place of a position of an octant: at the pole it is the octant's last row.
pub(crate) fn place_at(level: CellLevel, at: InOctant) -> Place
    ensures { place_of result ≡ (at.octant, triangle_at level.k at.p at.m) }
{
    let InOctant { octant, p, .. } = at;
    if p == QUARTER {
        let row = (rows_of(level) - 1) as u32;
        Place {
            octant,
            kind: Kind::Up,
            row,
            col: 0,
        }
    } else {
        holder_of(level, at)
    }
}
