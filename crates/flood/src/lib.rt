// Reaching cells in rows of bits: from the cells that are set, all that steps lead to through open cells.
#![tactic(auto)]

ghost use Rattle.flood.specs.Flood.{Near, Flooded};
ghost use Rattle.flood.specs.inside.Turns.{Turn};

use mask::MaskLevel;
use rows::CellRows;

mod edges;
mod words;

// One round: over all words, and then over the edges. Answers whether that changed anything.
fn go_round(level: MaskLevel, opened: &CellRows, reached: &mut CellRows) -> bool
    ensures { Turn (Near level.k) opened.now.up opened.now.down reached.old.up reached.old.down reached.new.up reached.new.down result }
{
    let inside = words::sweep(opened, reached);
    let over = edges::reach_over(level, &opened.up, &mut reached.up);
    inside | over
}

// Sets exactly the spots that steps at the level lead to from the spots that are set, through open ones. At a level above 8 nothing is written.
pub fn flood(level: u32, opened: &CellRows, reached: &mut CellRows)
    ensures { Flooded level opened.now.up opened.now.down reached.old.up reached.old.down reached.new.up reached.new.down }
{
    let Ok(level) = MaskLevel::new(level) else {
        return;
    };
    // No index is counted: the rounds end when one changes nothing.
    let mut changed = true;
    while changed {
        changed = go_round(level, opened, reached);
    }
}
