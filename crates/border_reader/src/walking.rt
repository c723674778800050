// The codes after a header, along which the border is walked.
ghost use Rattle.std.specs.Prelude.{[], ◌∷◌, ◌≡◌, ◌+◌, ◌≤◌, OnOk, length};
ghost use Rattle.refusal.specs.Answer.{done, in_order};
ghost use Rattle.refusal.specs.Refusal.{said_as, said_done};
ghost use Rattle.code.specs.Step.{bad_step, found_or};
ghost use Rattle.border_reader.specs.Reader.{border_is};
ghost use Rattle.border_reader.specs.inside.Parts.{header_is, cells_met, read_on};

use crate::header::Header;
use crate::{Border, codes};
use border::MAX_CELLS;
use cell::CellNumber;
use refusal::Refusal;

// Walks along a border's codes and keeps the cells that it meets.
fn walk(header: Header, codes: &[u8], met: &mut [CellNumber]) -> Result<(), Refusal>
    requires { length met.old ≡ header.count + 1 }
    ensures steps { said_done result ≡ in_order (bad_step (cells_met header codes.now) ∷ []) done }
    ensures cells { OnOk result (met.new ≡ found_or [] (cells_met header codes.now)) }
{
    met[0] = header.start;
    for i in 0..met.len() - 1 {
        met[i + 1] = step::step_along(header.level.k, met[i], codes::code_at(codes, i))?;
    }
    Ok(())
}

// The codes after a header: nothing is written before the last of them is walked.
pub(crate) fn read_codes(
    bytes: &[u8],
    header: Header,
    cells: &mut [CellNumber],
) -> Result<Border, Refusal>
    requires { header.next ≤ length bytes.now }
    ensures { (said_as border_is result, cells.new) ≡ read_on bytes.now cells.old (header_is header) }
{
    let count = header.count as usize;
    let size = (3 * count).div_ceil(8);
    let codes = &bytes[header.next..];
    if codes.len() < size {
        return Err(Refusal::Short);
    }
    if size < codes.len() || !codes::is_padded(codes, count) {
        return Err(Refusal::Rest);
    }
    if cells.len() <= count {
        return Err(Refusal::Length);
    }
    // Fixed memory: the cells of the longest border.
    let mut buffer = [0; MAX_CELLS];
    let met = &mut buffer[..count + 1];
    walk(header, codes, met)?;
    cells[..count + 1].copy_from_slice(met);
    Ok(Border {
        level: header.level.k,
        count: header.count + 1,
    })
}
