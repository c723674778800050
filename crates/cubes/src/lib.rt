// The cells that touch a cell, found by cubes. A cell spans a unit cube of the whole numbers; the 27 ways to that cube and its neighbours are tried in
// turn. Crate `touch` calls this for cells at their octant's edges.
#![tactic(auto)]

ghost use Rattle.std.specs.Prelude.{◌≡◌, ℕ, ◌+◌, ◌<◌, ◌≤◌, ◌^◌, length};
ghost use Rattle.std.proofs.Math.Option.{some};
ghost use Rattle.cell.specs.Cell.{place_of};
ghost use Rattle.adjacency.specs.Cube.{sum, cube_of, cell_along, with_cell, gathered};
ghost use Rattle.cubes.specs.Cubes.{gather_call};

use adjacency::Cube;
use cell::{CellLevel, CellNumber, Site};
use way::Ways;

mod cube;
mod way;

// Adds the touching cell that ways of a cell's cube lead to, if there is one, and answers how many there are now.
// Slice and count stay beside each other, as the promise of `gather` has them; level, room and cube come together to this function alone.
fn add_along(
    level: CellLevel,
    room: u32,
    cube: Cube,
    ways: Ways,
    found: &mut [CellNumber],
    count: usize,
) -> usize
    requires room { (sum cube + room ≡ 2 ^ level.k) × (1 ≤ room) × (room ≤ 2) }
    requires by_index { (x : ℕ) → cell_along level.k cube ways.number ≡ some x → count < length found.old }
    ensures { (found.new, result) ≡ with_cell (cell_along level.k cube ways.number) (found.old, count) }
{
    if !ways.are_touching(room, cube) {
        return count;
    }
    let place = cube::place_of_cube(1 << level.k, ways.from(cube));
    let site = Site { level, place };
    found[count] = site.number();
    count + 1
}

// Gathers the cells that touch a cell way by way, and answers how many they are.
fn gather_ways(site: Site, found: &mut [CellNumber]) -> usize
    requires { length found.old ≡ 12 }
    ensures { (found.new, result) ≡ gathered site.level.k (cube_of site.level.k (place_of site.place)) found.old 27 }
{
    let level = site.level;
    let cube = cube::cube_of(site);
    let room = cube::room_in(1 << level.k, cube);
    let mut count = 0;
    for w in 0..27 {
        count = add_along(level, room, cube, Ways { number: w }, found, count);
    }
    count
}

// Gathers the cells that touch a cell into the front of a slice of 12, in the order of the ways, and answers how many they are. Where the level has no
// such cell or the slice has another length, nothing is put and the answer is 0, as `gather_call` has it.
pub fn gather(level: u32, cell: CellNumber, found: &mut [CellNumber]) -> usize
    ensures { (found.new, result) ≡ gather_call level cell found.old }
{
    let Ok(site) = Site::at(level, cell) else {
        return 0;
    };
    if found.len() != 12 {
        return 0;
    }
    gather_ways(site, found)
}
