// The pairs of spots of one point, in four groups: on the meridians, at the poles in two turns, and on the equator.
ghost use Rattle.std.specs.Prelude.{◌≡◌, ◌^◌, ◌≤◌, ◌<◌};
ghost use Rattle.rows.specs.Rows.{lit, spot_count};
ghost use Rattle.seam.specs.inside.Pairs.{join_pairs, first_of, second_of, count_of};

use crate::bits;
use mask::MaskLevel;
use rows::Rows;

// Where the pairs of a group lie: the two sides of each meridian, octants beside each other at a pole, octants across it, the two sides of the equator.
#[derive(Clone, Copy)]
pub(crate) enum Edge {
    Meridian,
    Beside,
    Across,
    Equator,
}

// A group of pairs, where the octants' edges have `size` parts.
#[derive(Clone, Copy)]
pub(crate) struct Group {
    edge: Edge,
    size: u32,
    ghost small: { size ≤ 256 },
}

impl Group {
    // The group of a level.
    pub(crate) fn of_level(edge: Edge, level: MaskLevel) -> Self
        ensures { (result.edge ≡ edge) × (result.size ≡ 2 ^ level.k) }
    {
        Group {
            edge,
            size: 1 << level.k,
        }
    }

    // How many pairs it has.
    #[tactic(auto, unfolding(crate::specs::inside::Pairs::count_of))]
    fn count(self) -> u32
        ensures { result ≡ count_of self.edge self.size }
    {
        match self.edge {
            Edge::Meridian => 8 * self.size,
            Edge::Beside => 4,
            Edge::Across => 4,
            Edge::Equator => 4 * (self.size + 1),
        }
    }

    // The two spots of one pair.
    #[tactic(auto, using(rows::proofs::Spots::spot_told), unfolding(crate::specs::inside::Pairs::first_of, crate::specs::inside::Pairs::second_of, crate::specs::inside::Pairs::count_of, code::specs::Step::east))]
    fn spots(self, pair: u32) -> (u32, u32)
        requires { pair < count_of self.edge self.size }
        ensures first { (result.0 ≡ first_of self.edge self.size pair) × (result.0 < spot_count) }
        ensures second { (result.1 ≡ second_of self.edge self.size pair) × (result.1 < spot_count) }
    {
        let Group { edge, size } = self;
        match edge {
            Edge::Meridian => {
                let octant = pair % 8;
                let row = pair / 8;
                let east = rows::east(octant);
                (
                    rows::spot_of(octant, row, size - row),
                    rows::spot_of(east, row, 0),
                )
            }
            Edge::Beside => {
                let octant = 2 * pair;
                (
                    rows::spot_of(octant, size, 0),
                    rows::spot_of(octant + 1, size, 0),
                )
            }
            Edge::Across => {
                let octant = pair / 2 * 4 + pair % 2;
                (
                    rows::spot_of(octant, size, 0),
                    rows::spot_of(octant + 2, size, 0),
                )
            }
            Edge::Equator => {
                let octant = pair % 4;
                let col = pair / 4;
                (
                    rows::spot_of(octant, 0, col),
                    rows::spot_of(octant + 4, 0, col),
                )
            }
        }
    }

    // Joins its pairs, one after the other.
    #[tactic(auto, unfolding(crate::specs::inside::Pairs::join_pairs))]
    pub(crate) fn join(self, points: &mut Rows)
        ensures { lit points.new ≡ join_pairs (first_of self.edge self.size) (second_of self.edge self.size) (count_of self.edge self.size) (lit points.old) }
    {
        for pair in 0..self.count() {
            let (first, second) = self.spots(pair);
            bits::join_bits(points, first, second);
        }
    }
}
