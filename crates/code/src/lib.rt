// Steps along the eight codes, and the code between two cells: the definitions are in specs/, what follows from them in proofs/; the calls are in
// crate `step`. Here are the octants beside one another.
#![tactic(auto)]

ghost use Rattle.std.specs.Prelude.{◌≡◌};
ghost use Rattle.code.specs.Step.{east, west};

// The octant to the east, in the ring of four of its hemisphere.
#[tactic(auto, unfolding(crate::specs::Step::east))]
pub fn east(octant: u32) -> u32
    ensures { result ≡ east octant }
{
    octant / 4 * 4 + (octant % 4 + 1) % 4
}

// The octant to the west.
#[tactic(auto, unfolding(crate::specs::Step::west))]
pub fn west(octant: u32) -> u32
    ensures { result ≡ west octant }
{
    octant / 4 * 4 + (octant % 4 + 3) % 4
}
