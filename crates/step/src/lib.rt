// Steps between cells along the eight codes: docs/RULES.md, 4. At level k an octant has N = 2^k rows.
#![tactic(auto)]

ghost use Rattle.std.specs.Prelude.{[], ◌∷◌, ◌≡◌};
ghost use Rattle.refusal.specs.Answer.{in_order};
ghost use Rattle.refusal.specs.Refusal.{said};
ghost use Rattle.cell.specs.Cell.{place_of, triangle_of, number};
ghost use Rattle.cell.specs.declared.Kind.TheVariants as Kind;
ghost use Rattle.code.specs.Step.{found_if, found_or, bad_step, step, leads_to, code_to, step_call, code_call};
ghost use Rattle.step.specs.inside.Code.{code_of, Reads};
ghost use Rattle.step.specs.inside.Target.{target_of};

use cell::{CellNumber, Kind, Place, Site};
use refusal::Refusal;

// The codes in the order of their numbers, from 0 to 7. Above each stands its letter.
#[derive(Clone, Copy, Debug, PartialEq, Eq)]
enum Code {
    // t
    Top,
    // l
    Left,
    // r
    Right,
    // e
    East,
    // w
    West,
    // T
    OverEquator,
    // E
    OverEast,
    // W
    OverWest,
}

// How many codes there are.
const CODES: u8 = 8;

impl TryFrom<u8> for Code {
    type Error = Refusal;

    ghost try_from_gives = { Reads };

    fn try_from(number: u8) -> Result<Self, Refusal> {
        match number {
            0 => Ok(Code::Top),
            1 => Ok(Code::Left),
            2 => Ok(Code::Right),
            3 => Ok(Code::East),
            4 => Ok(Code::West),
            5 => Ok(Code::OverEquator),
            6 => Ok(Code::OverEast),
            7 => Ok(Code::OverWest),
            _ => Err(Refusal::Step),
        }
    }
}

// A place, where a test holds.
fn found_if(exists: bool, octant: u32, kind: Kind, row: u32, col: u32) -> Option<Place>
    ensures { target_of result ≡ found_if exists (octant, triangle_of kind row col) }
{
    exists.then_some(Place {
        octant,
        kind,
        row,
        col,
    })
}

// The step from an up cell, over the octant's edge too. Up cells and down cells have a table each, as in the rules.
fn from_up(from: Site, code: Code) -> Option<Place>
    requires { from.place.kind ≡ Kind.Up }
    ensures { target_of result ≡ step from.level.k (place_of from.place) (code_of code) }
{
    let Place {
        octant,
        row,
        col,
        ..
    } = from.place;
    let rows: u32 = 1 << from.level.k;
    let end = row + col + 1;
    let across = (octant + 4) % 8;
    match code {
        Code::Top => found_if(row != 0, octant, Kind::Down, row.saturating_sub(1), col),
        Code::Left => found_if(col != 0, octant, Kind::Down, row, col.saturating_sub(1)),
        Code::Right => found_if(end < rows, octant, Kind::Down, row, col),
        Code::East => found_if(end < rows, octant, Kind::Up, row, col + 1),
        Code::West => found_if(col != 0, octant, Kind::Up, row, col.saturating_sub(1)),
        Code::OverEquator => found_if(row == 0, across, Kind::Up, row, col),
        Code::OverEast => found_if(end == rows, code::east(octant), Kind::Up, row, 0),
        Code::OverWest => found_if(col == 0, code::west(octant), Kind::Up, row, rows - 1 - row),
    }
}

// The step from a down cell.
fn from_down(from: Site, code: Code) -> Option<Place>
    requires { from.place.kind ≡ Kind.Down }
    ensures { target_of result ≡ step from.level.k (place_of from.place) (code_of code) }
{
    let Place {
        octant,
        row,
        col,
        ..
    } = from.place;
    let rows: u32 = 1 << from.level.k;
    let end = row + col + 2;
    match code {
        Code::Top => found_if(true, octant, Kind::Up, row + 1, col),
        Code::Left => found_if(true, octant, Kind::Up, row, col),
        Code::Right => found_if(true, octant, Kind::Up, row, col + 1),
        Code::East => found_if(end < rows, octant, Kind::Down, row, col + 1),
        Code::West => found_if(col != 0, octant, Kind::Down, row, col.saturating_sub(1)),
        Code::OverEquator | Code::OverEast | Code::OverWest => None,
    }
}

// The step from a cell.
fn target_of(from: Site, code: Code) -> Option<Place>
    ensures { target_of result ≡ step from.level.k (place_of from.place) (code_of code) }
{
    match from.place.kind {
        Kind::Up => from_up(from, code),
        Kind::Down => from_down(from, code),
    }
}

// The cell to which the step along a code leads.
pub fn step_along(level: u32, cell: CellNumber, code: u8) -> Result<CellNumber, Refusal>
    ensures { said result ≡ step_call level cell code }
{
    let from = Site::at(level, cell)?;
    let code = Code::try_from(code)?;
    let target = target_of(from, code).ok_or(Refusal::Step)?;
    cell::number_of(level, target)
}

// Whether the step along a code leads from one cell to another of its level.
fn joins(from: Site, to: Site, code: Code) -> bool
    requires { to.level.k ≡ from.level.k }
    ensures { result ≡ leads_to from.level.k (number from.level.k (place_of to.place)) (step from.level.k (place_of from.place) (code_of code)) }
{
    match target_of(from, code) {
        Some(target) => target == to.place,
        None => false,
    }
}

// The code along which a step leads from one cell to another of its level. Numbers are counted and no codes, since the number is what is answered.
fn find_code(from: Site, to: Site) -> Result<u8, Refusal>
    requires { to.level.k ≡ from.level.k }
    ensures { let s = code_to from.level.k (number from.level.k (place_of to.place)) (place_of from.place) in
        said result ≡ in_order (bad_step s ∷ []) (found_or 0 s) }
{
    for number in 0..CODES {
        if joins(from, to, Code::try_from(number)?) {
            return Ok(number);
        }
    }
    Err(Refusal::Step)
}

// The code along which the step from one cell leads to another.
pub fn code_between(level: u32, from: CellNumber, to: CellNumber) -> Result<u8, Refusal>
    ensures { said result ≡ code_call level from to }
{
    find_code(Site::at(level, from)?, Site::at(level, to)?)
}
