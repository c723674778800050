// Levels that were found to be within their bound.
ghost use Rattle.std.specs.Prelude.{◌≤◌};

use crate::MAX_LEVEL;
use refusal::Refusal;

// A level of at most MAX.
#[derive(Clone, Copy, Debug, PartialEq, Eq)]
pub struct Level<const MAX: u32> {
    pub k: u32,
    ghost bounded: { k ≤ MAX },
}

// A level of cells.
pub type CellLevel = Level<MAX_LEVEL>;

impl<const MAX: u32> Level<MAX> {
    ghost use Rattle.std.specs.Prelude.{◌≡◌, [], ◌∷◌};
    ghost use Rattle.refusal.specs.Answer.{in_order};
    ghost use Rattle.refusal.specs.Refusal.{said_as};
    ghost use Rattle.refusal.specs.Tests.{bad_level};

    // Refused 1 above MAX.
    pub fn new(k: u32) -> Result<Self, Refusal>
        ensures { said_as (λ l. l.k) result ≡ in_order (bad_level MAX k ∷ []) k }
    {
        if MAX < k {
            return Err(Refusal::Level);
        }
        Ok(Level { k })
    }
}
