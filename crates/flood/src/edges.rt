// Steps over the edges of the octants, cell by cell. Only up cells take them. An octant is the number of the range in `reach_over`. `open_up` and `up` are
// rows of up cells alone, open ones to read and reached ones to write.
ghost use Rattle.std.specs.Prelude.{List, ℕ, ◌^◌, ◌<◌};
ghost use Rattle.rows.specs.Rows.{spot_count};
ghost use Rattle.flood.specs.Flood.{Pair, Edges, EdgesOf, Over};
ghost use Rattle.flood.specs.inside.Turns.{One, Turn};

use crate::words;
use mask::MaskLevel;
use rows::Rows;

// Reaches one spot, where it is open and another is reached. Answers whether that changed anything. A spot stays a number with its bound, since
// `rows::spot_of` also answers the first spot past all bits.
fn reach_one(from: u32, to: u32, open_up: &Rows, up: &mut Rows) -> bool
    requires { (from < spot_count) × (to < spot_count) }
    ensures { (od d : List ℕ) → Turn (One from to) open_up.now od up.old d up.new d result }
{
    if rows::is_set(up, from) {
        return words::join_word((to / 64) as usize, 1 << (to % 64), open_up, up);
    }
    false
}

// Reaches each of two spots from the other.
fn reach_pair(one: u32, other: u32, open_up: &Rows, up: &mut Rows) -> bool
    requires { (one < spot_count) × (other < spot_count) }
    ensures { (od d : List ℕ) → Turn (Pair one other) open_up.now od up.old d up.new d result }
{
    let there = reach_one(one, other, open_up, up);
    let back = reach_one(other, one, open_up, up);
    there | back
}

// Reaches cells over an octant's edge to the east, in row n, and over the equator, in column n.
#[tactic(auto, using(rows::proofs::Spots::spot_told, rows::proofs::Spots::size_shifted, rows::proofs::Spots::size_low), unfolding(code::specs::Step::east))]
fn reach_edges(level: MaskLevel, octant: u32, n: u32, open_up: &Rows, up: &mut Rows) -> bool
    requires { (octant < 8) × (n < 2 ^ level.k) }
    ensures { (od d : List ℕ) → Turn (Edges level.k octant n) open_up.now od up.old d up.new d result }
{
    let east_cell = rows::spot_of(octant, n, (1 << level.k) - 1 - n);
    let east = reach_pair(
        east_cell,
        rows::spot_of(rows::east(octant), n, 0),
        open_up,
        up,
    );
    let equator = reach_pair(
        rows::spot_of(octant, 0, n),
        rows::spot_of((octant + 4) % 8, 0, n),
        open_up,
        up,
    );
    east | equator
}

// Reaches cells over all of an octant's edge to the east and over the equator.
fn reach_octant(level: MaskLevel, octant: u32, open_up: &Rows, up: &mut Rows) -> bool
    requires { octant < 8 }
    ensures { (od d : List ℕ) → Turn (EdgesOf level.k octant (2 ^ level.k)) open_up.now od up.old d up.new d result }
{
    let mut changed = false;
    for n in 0..1 << level.k {
        changed |= reach_edges(level, octant, n, open_up, up);
    }
    changed
}

// Reaches cells over the edges of all octants. Answers whether that changed anything.
pub(crate) fn reach_over(level: MaskLevel, open_up: &Rows, up: &mut Rows) -> bool
    ensures { (od d : List ℕ) → Turn (Over level.k 8) open_up.now od up.old d up.new d result }
{
    let mut changed = false;
    for octant in 0..rows::OCTANTS {
        changed |= reach_octant(level, octant, open_up, up);
    }
    changed
}
