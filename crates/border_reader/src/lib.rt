// Reads stored borders: docs/RULES.md, 8.
#![tactic(auto)]

mod codes;
mod header;
mod walking;

ghost use Rattle.std.specs.Prelude.{◌≡◌, ◌≤◌, IfOk, length};
ghost use Rattle.refusal.specs.Answer.{in_order};
ghost use Rattle.refusal.specs.Refusal.{said_as};
ghost use Rattle.border.specs.Border.{header, header_tests, read_border};
ghost use Rattle.border_reader.specs.Reader.{border_is};
ghost use Rattle.border_reader.specs.inside.Parts.{header_is};

use cell::{CellLevel, CellNumber};
use header::Header;
use refusal::Refusal;

// What was read of a border: its level, and the number of its cells.
#[derive(Clone, Copy, Debug, PartialEq, Eq)]
pub struct Border {
    pub level: u32,
    pub count: u32,
}

// The level, the start cell and the number of codes: each is read and then held against its bound.
#[tactic(auto, using(crate::proofs::Reading::level_unread, crate::proofs::Reading::level_high, crate::proofs::Reading::leveled, crate::proofs::Reading::started, crate::proofs::Reading::start_unread, crate::proofs::Reading::start_high, varint::proofs::Laws::read_inside))]
fn read_header(bytes: &[u8]) -> Result<Header, Refusal>
    ensures answer { said_as header_is result ≡ in_order (header_tests bytes.now) (header bytes.now) }
    ensures within { IfOk result (λ h. h.next ≤ length bytes.now) }
{
    let (level, after_level) = varint::read_number(bytes, 0)?;
    let level = CellLevel::new(level)?;
    let (start, after_start) = varint::read_number(bytes, after_level)?;
    if !cell::is_cell(level.k, start) {
        return Err(Refusal::Cell);
    }
    let (count, next) = varint::read_number(bytes, after_start)?;
    if border::MAX_CODES < count {
        return Err(Refusal::Codes);
    }
    Ok(Header {
        level,
        start,
        count,
        next,
    })
}

// Reads a stored border: its cells fill the front of `cells`.
pub fn read(bytes: &[u8], cells: &mut [CellNumber]) -> Result<Border, Refusal>
    ensures { (said_as border_is result, cells.new) ≡ read_border bytes.now cells.old }
{
    let header = read_header(bytes)?;
    walking::read_codes(bytes, header, cells)
}
