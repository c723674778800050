// Cells as unit cubes of the whole numbers.
ghost use Rattle.std.specs.Prelude.{◌≡◌, cond, ◌+◌, ◌-◌, ◌^◌, ◌<◌, ◌≤◌};
ghost use Rattle.cell.specs.Cell.{span, triangle_of, place_of};
ghost use Rattle.adjacency.specs.Cube.{sum, cube_of, northern_octant, column, place_in};

use adjacency::{Cube, Side};
use cell::{Kind, Place, Site};
use corner::first_of;

// The base on the axis of L: what row, column and kind leave of n rows.
#[tactic(auto, using(crate::proofs::Gathering::span_up, crate::proofs::Gathering::span_down))]
fn left_over(n: u32, kind: Kind, row: u32, col: u32) -> u32
    requires { span (triangle_of kind row col) ≤ n }
    ensures { result ≡ n - span (triangle_of kind row col) }
{
    match kind {
        Kind::Up => n - row - col - 1,
        Kind::Down => n - row - col - 2,
    }
}

// The cube of a cell.
pub(crate) fn cube_of(site: Site) -> Cube
    ensures { result ≡ cube_of site.level.k (place_of site.place) }
{
    let Place {
        octant,
        kind,
        row,
        col,
    } = site.place;
    let l = left_over(1 << site.level.k, kind, row, col);
    Cube {
        x: first_of(octant, l, col),
        y: first_of(octant + 3, l, col),
        z: Side {
            negative: 4 <= octant,
            base: row,
        },
    }
}

// The octant in which a cube lies.
#[tactic(auto, unfolding(adjacency::specs::Cube::northern_octant))]
fn octant_of(cube: Cube) -> u32
    ensures { result ≡ northern_octant cube.x.negative cube.y.negative + cond cube.z.negative 4 0 }
{
    let north = match (cube.x.negative, cube.y.negative) {
        (false, false) => 0,
        (true, false) => 1,
        (true, true) => 2,
        (false, true) => 3,
    };
    if cube.z.negative { north + 4 } else { north }
}

// The column: in octants 1 and 3 x and y change places.
#[tactic(auto, unfolding(adjacency::specs::Cube::column))]
fn column_of(x: Side, y: Side) -> u32
    ensures { result ≡ column x.negative y.negative x.base y.base }
{
    if x.negative == y.negative {
        y.base
    } else {
        x.base
    }
}

// The place of the cell of a level with n rows that spans a cube.
#[tactic(auto, unfolding(adjacency::specs::Cube::place_in))]
pub(crate) fn place_of_cube(n: u32, cube: Cube) -> Place
    requires { sum cube < 2 ^ 31 }
    ensures { place_of result ≡ place_in n cube }
{
    let Cube { x, y, z } = cube;
    Place {
        octant: octant_of(cube),
        kind: if x.base + y.base + z.base + 1 == n {
            Kind::Up
        } else {
            Kind::Down
        },
        row: z.base,
        col: column_of(x, y),
    }
}

// What a cube's bases leave of a level's n rows: 1 for up and 2 for down.
pub(crate) fn room_in(n: u32, cube: Cube) -> u32
    requires { sum cube ≤ n }
    ensures { result ≡ n - sum cube }
{
    n - cube.x.base - cube.y.base - cube.z.base
}
