// Two bits of rows joined.
ghost use Rattle.std.specs.Prelude.{◌≡◌, ◌<◌};
ghost use Rattle.rows.specs.Rows.{lit, spot_count};
ghost use Rattle.seam.specs.inside.Pairs.{join_pair};

use rows::Rows;

// Sets both of two bits where one of them is set. A spot stays a number with its bound, since `rows::spot_of` also answers the first spot past all bits.
#[tactic(auto, using(crate::proofs::Lights::first_lit, crate::proofs::Lights::second_lit, crate::proofs::Lights::none_lit))]
pub(crate) fn join_bits(points: &mut Rows, first: u32, second: u32)
    requires { (first < spot_count) × (second < spot_count) }
    ensures { lit points.new ≡ join_pair first second (lit points.old) }
{
    if rows::is_set(points, first) {
        rows::set_bit(points, second);
    } else if rows::is_set(points, second) {
        rows::set_bit(points, first);
    }
}
