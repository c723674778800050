// Short answers, and how they are printed.
use crate::name::Name;
use crate::temperature::Temperature;
use crate::words::LETTERS;
use cell::{Kind, Place};
use chart::Reading;
use position::{Latitude, Longitude};
use std::fmt;
use std::fmt::Display;

#[derive(Drop)]
pub enum Answer {
    Place(Place),
    Cell(Name),
    // The coordinates of a centroid in source 003.
    Centroid { x: u64, y: u64 },
    Centre(Latitude, Longitude),
    In,
    Touches,
    Apart,
    Touch,
    Code(u8),
    Number(u32),
    // How many of how many.
    Share { some: u32, all: u32 },
    // A sum over how many steps.
    Average { sum: u32, steps: u32 },
    Yes,
    Lacks(Name),
    Reading(Reading),
}

impl Display for Answer {
    fn fmt<W: fmt::Write>(&self, f: &mut fmt::Formatter<W>) -> fmt::Result {
        match self {
            Answer::Place(place) => write_place(f, *place),
            Answer::Cell(name) => write!(f, "{name}"),
            Answer::Centroid { x, y } => write!(f, "X {x} Y {y}"),
            Answer::Centre(latitude, longitude) => write!(f, "{} {}", latitude.0, longitude.0),
            Answer::In => write!(f, "in"),
            Answer::Touches => write!(f, "touches"),
            Answer::Apart => write!(f, "apart"),
            Answer::Touch => write!(f, "touch"),
            Answer::Code(code) => f.write_str(LETTERS[(*code % 8) as usize]),
            Answer::Number(n) => write!(f, "{n}"),
            Answer::Share { some, all } => write!(f, "{some} of {all}"),
            Answer::Average { sum, steps } => {
                let average = sum.checked_div(*steps).unwrap_or(0);
                write!(f, "{sum} over {steps} steps, average {average}")
            }
            Answer::Yes => write!(f, "yes"),
            Answer::Lacks(name) => write!(f, "lacks {name}"),
            Answer::Reading(reading) => write_reading(f, *reading),
        }
    }
}

fn write_place<W: fmt::Write>(f: &mut fmt::Formatter<W>, place: Place) -> fmt::Result {
    let kind = match place.kind {
        Kind::Up => "up",
        Kind::Down => "down",
    };
    write!(
        f,
        "octant {} {kind}({},{})",
        place.octant, place.row, place.col
    )
}

fn write_reading<W: fmt::Write>(f: &mut fmt::Formatter<W>, reading: Reading) -> fmt::Result {
    match reading {
        Reading::Fresh(t) => write!(f, "fresh {}", Temperature(t)),
        Reading::Carried(t, days) => write!(f, "carried {} days {days}", Temperature(t)),
        Reading::Gap => write!(f, "gap"),
    }
}
