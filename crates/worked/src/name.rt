// How cells are named: by number, or by the address that the source documents give.
use std::fmt;
use std::fmt::Display;

#[derive(Clone, Copy)]
pub enum Style {
    Number,
    // With the level.
    Address(u32),
}

impl Style {
    // The same for cells of another level.
    pub fn at(self, level: u32) -> Style {
        match self {
            Style::Number => Style::Number,
            Style::Address(_) => Style::Address(level),
        }
    }

    pub fn name(self, cell: u32) -> Name {
        Name { cell, style: self }
    }
}

#[derive(Clone, Copy)]
pub struct Name {
    cell: u32,
    style: Style,
}

// The names of a list of cells, with a space before each.
#[derive(Clone, Copy)]
pub struct Names<'a> {
    pub cells: &'a [u32],
    pub style: Style,
}

impl Name {
    pub fn write_after_space<W: fmt::Write>(&self, f: &mut fmt::Formatter<W>) -> fmt::Result {
        f.write_str(" ")?;
        self.fmt(f)
    }
}

impl Display for Name {
    fn fmt<W: fmt::Write>(&self, f: &mut fmt::Formatter<W>) -> fmt::Result {
        let cell = self.cell;
        match self.style {
            Style::Number => cell.fmt(f),
            Style::Address(level) => {
                let level = level.min(cell::MAX_LEVEL);
                // An @, the octant's digit, and a digit a level, in one write: one for each digit costs several times as much. The places
                // above the level are written over, or left out.
                let mut text = [b'@'; 16];
                for place in 0..16u32 {
                    text[15 - place as usize] = b'0' + ((cell >> (2 * place)) % 4) as u8;
                }
                let octant = 15 - level as usize;
                text[octant] = b'0' + ((cell >> (2 * level)) % 8) as u8;
                text[octant - 1] = b'@';
                f.write_str(str::from_utf8(&text[octant - 1..]).map_err(|_| fmt::Error)?)
            }
        }
    }
}

impl Display for Names<'_> {
    fn fmt<W: fmt::Write>(&self, f: &mut fmt::Formatter<W>) -> fmt::Result {
        for cell in self.cells {
            self.style.name(*cell).write_after_space(f)?;
        }
        Ok(())
    }
}
