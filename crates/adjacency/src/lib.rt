// Which cells touch a cell and which lie at a point, and how many they are: the definitions are in specs/, what follows from them in proofs/; the call
// is in crate `touch`. Touching is vertex adjacency.
#![tactic(auto)]

pub use corner::Side;

// The unit cube that a cell spans, by its three axes: on each its corners lie at base or base + 1 from zero, on one side of it.
#[derive(Clone, Copy, Debug, PartialEq, Eq)]
pub struct Cube {
    pub x: Side,
    pub y: Side,
    pub z: Side,
}
