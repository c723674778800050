// Cells away from their octant's edges: twelve ways lead to their touching cells, and the octant stays.
ghost use Rattle.std.specs.Prelude.{◌≡◌, true, ℕ, ◌^◌, ◌<◌, ◌≤◌, get_or};
ghost use Rattle.cell.specs.Cell.{place_of};
ghost use Rattle.touch.specs.inside.Inner.{is_inner, inner_way, inner_step, other, stepped, inner_cell};

use cell::{CellNumber, Kind, Place, Site};

// The twelve ways of an up cell: its steps on the axis of the row and on that of the column, 1 for none, and whether the kind changes. A down cell's steps
// are the opposite ones. The steps are added, less one, and are no kinds.
static WAYS: [(u32, u32, bool); 12] = [
    (0, 0, true),
    (0, 1, true),
    (0, 1, false),
    (0, 2, true),
    (0, 2, false),
    (1, 0, true),
    (1, 0, false),
    (1, 1, true),
    (1, 2, false),
    (2, 0, true),
    (2, 0, false),
    (2, 1, false),
];

// Whether a cell lies away from its octant's edges.
#[tactic(auto, using(crate::proofs::Twelve::inner_is, crate::proofs::Twelve::sides_small))]
pub(crate) fn is_inner(site: Site) -> bool
    ensures { result ≡ is_inner site.level.k (place_of site.place).1 }
{
    let place = site.place;
    0 < place.row && 0 < place.col && place.row + place.col + 3 <= 1 << site.level.k
}

// A step of an up cell, or the opposite one of a down cell.
#[tactic(auto, unfolding(crate::specs::inside::Inner::inner_step))]
fn step_of(kind: Kind, step: u32) -> u32
    requires { step ≤ 2 }
    ensures { (result ≡ inner_step kind step) × (result ≤ 2) }
{
    match kind {
        Kind::Up => step,
        Kind::Down => 2 - step,
    }
}

// The kind that a cell is not. `Kind` has no such method, since no other crate asks for it.
fn other_kind(kind: Kind) -> Kind
    ensures { result ≡ other kind }
{
    match kind {
        Kind::Up => Kind::Down,
        Kind::Down => Kind::Up,
    }
}

// The place of touching cell i of the twelve: the octant stays.
#[tactic(auto, using(crate::proofs::Steps::steps_at), unfolding(crate::specs::inside::Inner::stepped))]
fn place_at(place: Place, i: usize) -> Place
    requires { (i < 12) × (1 ≤ place.row) × (1 ≤ place.col) × (place.row < 2 ^ 31) × (place.col < 2 ^ 31) }
    ensures { place_of result ≡ (place.octant, stepped (inner_way place.kind i) place.kind place.row place.col) }
{
    let (row, col, turns) = WAYS[i];
    Place {
        octant: place.octant,
        kind: if turns {
            other_kind(place.kind)
        } else {
            place.kind
        },
        row: place.row + step_of(place.kind, row) - 1,
        col: place.col + step_of(place.kind, col) - 1,
    }
}

// Touching cell i of the twelve.
#[tactic(auto, using(crate::proofs::Twelve::room_to_step, crate::proofs::Twelve::found_along), unfolding(crate::specs::inside::Inner::inner_cell))]
fn cell_at(site: Site, i: usize) -> CellNumber
    requires { (is_inner site.level.k (place_of site.place).1 ≡ true) × (i < 12) }
    ensures { result ≡ inner_cell site.level.k site.place i }
{
    cell::number_of(site.level.k, place_at(site.place, i)).unwrap()
}

// Fills an array with the twelve cells that touch a cell away from its octant's edges.
pub(crate) fn fill(site: Site, found: &mut [CellNumber; 12])
    requires { is_inner site.level.k (place_of site.place).1 ≡ true }
    ensures { (i : ℕ) → i < 12 → get_or found.new i 0 ≡ inner_cell site.level.k site.place i }
{
    for i in 0..12 {
        found[i] = cell_at(site, i);
    }
}
