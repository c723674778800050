// The centre of a cell: docs/RULES.md, 3.
#![tactic(auto)]

mod angle;
mod thirds;

ghost use Rattle.std.specs.Prelude.{◌≡◌};
ghost use Rattle.refusal.specs.Refusal.{said_as};
ghost use Rattle.centre.specs.Centre.{position_of, centre_call};

use cell::{CellNumber, Site};
use position::{Latitude, Longitude};
use refusal::Refusal;

// The centre of a cell.
pub fn centre_of(level: u32, cell: CellNumber) -> Result<(Latitude, Longitude), Refusal>
    ensures { said_as position_of result ≡ centre_call level cell }
{
    let site = Site::at(level, cell)?;
    Ok(thirds::centre_at(site))
}
