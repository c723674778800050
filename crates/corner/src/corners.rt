// The corners of a cell as points of three whole numbers (docs/RULES.md, 5).
ghost use Rattle.std.specs.Prelude.{◌≡◌, cond, ◌+◌, ◌^◌, ◌<◌, ◌≤◌, pos};
ghost use Rattle.cell.specs.Cell.{place_of};
ghost use Rattle.corner.specs.Corner.{minus, first_of, corner, corners};

use crate::Side;
use cell::{CellLevel, Kind, Place, Site};

// The first of the two numbers that an octant makes of L and R. The second is the first of the octant three on, so octants stay numbers.
#[tactic(auto, unfolding(crate::specs::Corner::equatorial))]
pub fn first_of(octant: u32, l: u32, r: u32) -> Side
    ensures { result ≡ first_of octant l r }
{
    let (negative, base) = match octant % 4 {
        0 => (false, l),
        1 => (true, r),
        2 => (true, l),
        _ => (false, r),
    };
    Side { negative, base }
}

// The number on a side of zero.
fn signed(side: Side) -> i32
    requires { side.base < 2 ^ 31 }
    ensures { result ≡ cond side.negative (minus side.base) (pos side.base) }
{
    let size = side.base as i32;
    if side.negative { -size } else { size }
}

// The corner with T and R in an octant, where L is N − T − R. The octant stays a number with its bound: a `Place` has it so.
fn corner_of(level: CellLevel, octant: u32, t: u32, r: u32) -> [i32; 3]
    requires { (octant < 8) × (t + r ≤ 2 ^ level.k) }
    ensures { result ≡ corner level.k octant t r }
{
    let l = (1 << level.k) - t - r;
    [
        signed(first_of(octant, l, r)),
        signed(first_of(octant + 3, l, r)),
        signed(Side {
            negative: 4 <= octant,
            base: t,
        }),
    ]
}

// The three corners of a cell, in the order of the rules.
#[tactic(auto, using(crate::proofs::Reach::up_reach, crate::proofs::Reach::down_reach), unfolding(crate::specs::Corner::triangle_corners))]
pub(crate) fn corners_of(site: Site) -> [[i32; 3]; 3]
    ensures { result ≡ corners site.level.k (place_of site.place) }
{
    let Site { level, place } = site;
    let Place {
        octant,
        kind,
        row,
        col,
    } = place;
    match kind {
        Kind::Up => [
            corner_of(level, octant, row, col),
            corner_of(level, octant, row + 1, col),
            corner_of(level, octant, row, col + 1),
        ],
        Kind::Down => [
            corner_of(level, octant, row + 1, col),
            corner_of(level, octant, row, col + 1),
            corner_of(level, octant, row + 1, col + 1),
        ],
    }
}
