// Writes stored borders: docs/RULES.md, 8.
#![tactic(auto)]

mod codes;
mod parts;

ghost use Rattle.std.specs.Prelude.{◌≡◌};
ghost use Rattle.refusal.specs.Refusal.{said};
ghost use Rattle.border.specs.Border.{write_border};

use border::MAX_CODES;
use cell::{CellLevel, CellNumber};
use codes::Codes;
use refusal::Refusal;

// Writes the border that runs through some cells: its bytes fill the front of `bytes`. Answers how many there are.
pub fn write(level: u32, cells: &[CellNumber], bytes: &mut [u8]) -> Result<u32, Refusal>
    ensures { (said result, bytes.new) ≡ write_border level cells.now bytes.old }
{
    let level = CellLevel::new(level)?;
    if cells.is_empty() {
        return Err(Refusal::Length);
    }
    let count = cells.len() - 1;
    if (MAX_CODES as usize) < count {
        return Err(Refusal::Codes);
    }
    if parts::any_past(level, cells) {
        return Err(Refusal::Cell);
    }
    // Fixed memory: the codes of the longest border.
    let mut buffer = [0u8; MAX_CODES as usize];
    let codes = &mut buffer[..count];
    parts::find_codes(level, cells, codes)?;
    parts::put(level, cells[0], Codes { each: codes }, bytes)
}
