// Whether two cells touch: docs/RULES.md, 5. Touching is vertex adjacency: two different cells have a corner in common.
#![tactic(auto)]

ghost use Rattle.std.specs.Prelude.{◌≡◌, length};
ghost use Rattle.std.specs.List.{All};
ghost use Rattle.refusal.specs.Refusal.{said};
ghost use Rattle.corner.specs.Corner.{common, touch_call};

use cell::{CellNumber, Site};
use corners::corners_of;
use refusal::Refusal;

mod corners;

pub use corners::first_of;

// A side of zero, and how far from zero a number lies there. Zero lies on either side, so this is no signed number.
#[derive(Clone, Copy, Debug, PartialEq, Eq)]
pub struct Side {
    pub negative: bool,
    pub base: u32,
}

// Whether two cells' corners have a point in common.
fn have_common(ps: &[[i32; 3]; 3], qs: &[[i32; 3]; 3]) -> bool
    requires { All (λ p. length p ≡ 3) ps.now × All (λ q. length q ≡ 3) qs.now }
    ensures { result ≡ common ps.now qs.now }
{
    ps.iter().any(|p| qs.contains(p))
}

// Whether two cells touch: refused 1, 4. A cell does not touch itself.
pub fn cells_touch(level: u32, a: CellNumber, b: CellNumber) -> Result<bool, Refusal>
    ensures { said result ≡ touch_call level a b }
{
    let p = Site::at(level, a)?;
    let q = Site::at(level, b)?;
    Ok(a != b && have_common(&corners_of(p), &corners_of(q)))
}
