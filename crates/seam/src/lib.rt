// The seams of the octants. A point on an octant's edge has a bit in two octants, and a tip in four: all bits of a point are made the same.
#![tactic(auto)]

ghost use Rattle.std.specs.Prelude.{◌≡◌, cond, ℕ, leb};
ghost use Rattle.mask.specs.Mask.{max_mask_level};
ghost use Rattle.rows.specs.Rows.{lit};
ghost use Rattle.seam.specs.Seam.{joined};

mod bits;
mod edges;

use edges::{Edge, Group};
use mask::MaskLevel;
use rows::Rows;

// Sets every bit of each point of which a bit is set. Above level 8 nothing is done.
pub fn join_seams(level: u32, points: &mut Rows)
    ensures { (i : ℕ) →
        lit points.new i
        ≡ cond (leb level max_mask_level) (joined level (lit points.old) i) (lit points.old i) }
{
    let Ok(level) = MaskLevel::new(level) else {
        return;
    };
    Group::of_level(Edge::Meridian, level).join(points);
    Group::of_level(Edge::Beside, level).join(points);
    Group::of_level(Edge::Across, level).join(points);
    Group::of_level(Edge::Equator, level).join(points);
}
