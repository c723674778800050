// Cells, positions and centres.
use crate::answer::Answer;
use crate::args::Args;
use crate::fault::Fault;
use crate::words::Word;
use cell::{Kind, Place};
use position::{Latitude, Longitude};

// A level and a cell, which are all the words.
fn place_of(args: &mut Args<'_>) -> Result<Place, Fault> {
    let level = args.number()?;
    let cell = args.number()?;
    args.end()?;
    Ok(cell::place_of(level, cell)?)
}

pub fn place(args: &mut Args<'_>) -> Result<Answer, Fault> {
    Ok(Answer::Place(place_of(args)?))
}

// In the units of source 003, Y is 3a + s and X is a third of 2(3b + s) + Y, with s = 1 for up and 2 for down.
pub fn centroid(args: &mut Args<'_>) -> Result<Answer, Fault> {
    let place = place_of(args)?;
    let s = match place.kind {
        Kind::Up => 1,
        Kind::Down => 2,
    };
    let y = 3 * u64::from(place.row) + s;
    let x = (2 * (3 * u64::from(place.col) + s) + y) / 3;
    Ok(Answer::Centroid { x, y })
}

pub fn number(args: &mut Args<'_>) -> Result<Answer, Fault> {
    let level = args.number()?;
    let place = Place {
        octant: args.number()?,
        kind: args.one(Word::kind)?,
        row: args.number()?,
        col: args.number()?,
    };
    args.end()?;
    Ok(Answer::Cell(args.name(cell::number_of(level, place)?)))
}

pub fn centre(args: &mut Args<'_>) -> Result<Answer, Fault> {
    let level = args.number()?;
    let cell = args.number()?;
    args.end()?;
    let (latitude, longitude) = centre::centre_of(level, cell)?;
    Ok(Answer::Centre(latitude, longitude))
}

fn position(args: &mut Args<'_>) -> Result<(Latitude, Longitude), Fault> {
    let latitude = args.one(Word::signed)?;
    let longitude = args.one(Word::signed)?;
    Ok((Latitude(latitude), Longitude(longitude)))
}

pub fn cell(args: &mut Args<'_>) -> Result<Answer, Fault> {
    let level = args.number()?;
    let (latitude, longitude) = position(args)?;
    args.end()?;
    Ok(Answer::Cell(args.name(position::cell_at(level, latitude, longitude)?)))
}

// How the cell at a position stands to a list of cells: in it, or touching one of them, or apart from all.
pub fn near(args: &mut Args<'_>) -> Result<Answer, Fault> {
    let level = args.number()?;
    let (latitude, longitude) = position(args)?;
    let list = args.list(Word::number)?;
    args.done()?;
    let cell = position::cell_at(level, latitude, longitude)?;
    if list.contains(&cell) {
        return Ok(Answer::In);
    }
    if list
        .iter()
        .any(|one| corner::cells_touch(level, *one, cell) == Ok(true))
    {
        return Ok(Answer::Touches);
    }
    Ok(Answer::Apart)
}
