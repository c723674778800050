// The 27 ways from a cube to itself and its neighbours: on each of the three axes one of three.
ghost use Rattle.std.specs.Prelude.{◌≡◌, ◌<◌, ◌≤◌};
ghost use Rattle.adjacency.specs.Cube.{sums_fit};

use adjacency::{Cube, Side};

// A way along one axis.
#[derive(Clone, Copy)]
enum Way {
    // Towards zero, or across it.
    Inward,
    Still,
    // Away from zero.
    Outward,
}

impl Way {
    ghost use Rattle.std.specs.Prelude.{◌≡◌, ◌^◌, ◌<◌, ◌≤◌};
    ghost use Rattle.adjacency.specs.Cube.{moved, least, most, taken};
    ghost use Rattle.cubes.specs.inside.Way.{number_of};

    // The way by its digit in the number of all three.
    fn of(digit: u32) -> Self
        requires { digit < 3 }
        ensures { number_of result ≡ digit }
    {
        match digit {
            0 => Way::Inward,
            1 => Way::Still,
            _ => Way::Outward,
        }
    }

    // How far beyond the base a corner lies at least that both cubes have.
    #[tactic(auto, unfolding(adjacency::specs::Cube::least))]
    fn least(self) -> u32
        ensures { (result ≡ least (number_of self)) × (result ≤ 1) }
    {
        match self {
            Way::Inward | Way::Still => 0,
            Way::Outward => 1,
        }
    }

    // How far it lies beyond the base at most.
    #[tactic(auto, unfolding(adjacency::specs::Cube::most))]
    fn most(self) -> u32
        ensures { (result ≡ most (number_of self)) × (result ≤ 1) }
    {
        match self {
            Way::Inward => 0,
            Way::Still | Way::Outward => 1,
        }
    }

    // What the way takes off a base.
    #[tactic(auto, unfolding(adjacency::specs::Cube::taken))]
    fn taken_off(self, base: u32) -> u32
        ensures { (result ≡ taken (number_of self) base) × (result ≤ 1) }
    {
        match self {
            Way::Inward if base != 0 => 1,
            _ => 0,
        }
    }

    // The side one way on.
    #[tactic(auto, unfolding(adjacency::specs::Cube::moved, adjacency::specs::Cube::inward))]
    fn from(self, side: Side) -> Side
        requires { side.base < 2 ^ 31 }
        ensures { result ≡ moved (number_of self) side }
    {
        let Side { negative, base } = side;
        match self {
            Way::Inward if base == 0 => Side {
                negative: !negative,
                base,
            },
            Way::Inward => Side {
                negative,
                base: base - 1,
            },
            Way::Still => side,
            Way::Outward => Side {
                negative,
                base: base + 1,
            },
        }
    }
}

// Whether the sums along a way fit: a corner is shared, and the next cube is that of a cell. The bounds of lo and off are
// those of one sum of three digits; that of the room stands in one chain of three calls: add_along, are_touching, sums_fit.
#[tactic(auto, unfolding(adjacency::specs::Cube::sums_fit))]
fn sums_fit(room: u32, lo: u32, hi: u32, off: u32) -> bool
    requires { (room ≤ 2) × (lo ≤ 3) × (off ≤ 3) }
    ensures { result ≡ sums_fit room lo hi off }
{
    lo <= room && room <= hi && lo < room + off && room + off <= lo + 2
}

// A way along each axis: one of the 27 from a cube to itself and its neighbours.
#[derive(Clone, Copy)]
pub(crate) struct Ways {
    pub(crate) number: u32,
    ghost few: { number < 27 },
}

impl Ways {
    ghost use Rattle.std.specs.Prelude.{◌≡◌, ◌/◌, ◌%◌, ◌^◌, ◌<◌, ◌≤◌};
    ghost use Rattle.adjacency.specs.Cube.{moved_cube, touching_way};
    ghost use Rattle.cubes.specs.inside.Way.{number_of};

    // Those along x, y and z.
    fn by_axis(self) -> (Way, Way, Way)
        ensures { (number_of result.0 ≡ self.number % 3)
            × (number_of result.1 ≡ self.number / 3 % 3)
            × (number_of result.2 ≡ self.number / 9) }
    {
        let n = self.number;
        (Way::of(n % 3), Way::of(n / 3 % 3), Way::of(n / 9))
    }

    // Whether they lead from the cube of a cell to that of one that touches it; room is 1 for up and 2 for down.
    pub(crate) fn are_touching(self, room: u32, cube: Cube) -> bool
        requires { room ≤ 2 }
        ensures { result ≡ touching_way room cube self.number }
    {
        // Still on every axis: the cell's own cube. A number of the 27, as the ways are counted by it.
        if self.number == 13 {
            return false;
        }
        let (x, y, z) = self.by_axis();
        let lo = x.least() + y.least() + z.least();
        let hi = x.most() + y.most() + z.most();
        let off = x.taken_off(cube.x.base) + y.taken_off(cube.y.base) + z.taken_off(cube.z.base);
        sums_fit(room, lo, hi, off)
    }

    // The cube that they lead to.
    pub(crate) fn from(self, cube: Cube) -> Cube
        requires { (cube.x.base < 2 ^ 31) × (cube.y.base < 2 ^ 31) × (cube.z.base < 2 ^ 31) }
        ensures { result ≡ moved_cube self.number cube }
    {
        let (x, y, z) = self.by_axis();
        Cube {
            x: x.from(cube.x),
            y: y.from(cube.y),
            z: z.from(cube.z),
        }
    }
}
