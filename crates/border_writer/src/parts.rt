// The cells of a border tested, the codes between them found, and the bytes put.
ghost use Rattle.std.specs.Prelude.{false, [], ◌∷◌, ◌≡◌, ◌+◌, ◌<◌, OnOk, length};
ghost use Rattle.refusal.specs.Answer.{done, in_order};
ghost use Rattle.refusal.specs.Refusal.{said, said_done};
ghost use Rattle.cell.specs.Cell.{cells as cellsOfLevel};
ghost use Rattle.code.specs.Step.{bad_step, found_or};
ghost use Rattle.border.specs.Border.{any_from, codes_of};
ghost use Rattle.border_writer.specs.inside.Parts.{write_on};

use crate::codes::Codes;
use cell::{CellLevel, CellNumber};
use refusal::Refusal;

// Whether a cell is none of the level.
pub(crate) fn any_past(level: CellLevel, cells: &[CellNumber]) -> bool
    ensures { result ≡ any_from (cellsOfLevel level.k) cells.now }
{
    cells.iter().any(|cell| !cell::is_cell(level.k, *cell))
}

// Finds the codes that join cells one after another.
pub(crate) fn find_codes(
    level: CellLevel,
    cells: &[CellNumber],
    codes: &mut [u8],
) -> Result<(), Refusal>
    requires { (length cells.now ≡ length codes.old + 1) × (any_from (cellsOfLevel level.k) cells.now ≡ false) }
    ensures steps { said_done result ≡ in_order (bad_step (codes_of level.k cells.now) ∷ []) done }
    ensures codes { OnOk result (codes.new ≡ found_or [] (codes_of level.k cells.now)) }
{
    for i in 0..codes.len() {
        codes[i] = step::code_between(level.k, cells[i], cells[i + 1])?;
    }
    Ok(())
}

// Puts a border into a slice that has room for it. Answers how many bytes it has.
#[tactic(auto, using(crate::proofs::Writing::no_room, crate::proofs::Writing::border_put, varint::proofs::Laws::numeral_length))]
pub(crate) fn put(
    level: CellLevel,
    start: CellNumber,
    codes: Codes<'_>,
    out: &mut [u8],
) -> Result<u32, Refusal>
    ensures { (said result, out.new) ≡ write_on level.k start codes.entry.each.now out.old }
{
    let count = codes.each.len() as u32;
    let header = varint::number_length(level.k)
        + varint::number_length(start)
        + varint::number_length(count);
    let length = header + (3 * codes.each.len()).div_ceil(8);
    if out.len() < length {
        return Err(Refusal::Length);
    }
    let after_level = varint::write_number(level.k, out, 0)?;
    let after_start = varint::write_number(start, out, after_level)?;
    let after_count = varint::write_number(count, out, after_start)?;
    codes.pack(&mut out[after_count..length]);
    Ok(length as u32)
}
