// Charts, the temperatures of cells with their ages: docs/RULES.md, 7.
#![tactic(auto)]

ghost use Rattle.std.specs.Prelude.{◌≡◌};
ghost use Rattle.refusal.specs.Refusal.{said_as, said_done};
ghost use Rattle.chart.specs.Chart.{chart_call, in_range, reading_of, reading_call, reading_is};

use cell::CellNumber;
use mask::MaskLevel;
use refusal::Refusal;

// The lowest and the highest temperature in range.
const LOWEST: f32 = -5.0;

const HIGHEST: f32 = 45.0;

// The age of a cell that took its temperature on the day, and the highest age that is no gap.
pub const FRESH_AGE: u8 = 0;

pub const MAX_DAYS: u8 = 30;

// What a cell of a chart reads: a temperature of the day, one carried for some days, or none.
#[derive(Clone, Copy, Debug, PartialEq)]
pub enum Reading {
    Fresh(f32),
    Carried(f32, u8),
    Gap,
}

// Whether two slices are a chart of a level: temperatures and ages lie apart, as callers of the C interface lend them.
pub fn is_chart(level: u32, temperatures: &[f32], ages: &[u8]) -> Result<(), Refusal>
    ensures { said_done result ≡ chart_call level temperatures.now ages.now }
{
    let level = MaskLevel::new(level)?;
    let cells = 8 << (2 * level.k);
    if temperatures.len() != cells || ages.len() != cells {
        return Err(Refusal::Length);
    }
    Ok(())
}

// Whether a temperature is in range. NaN is not: it is neither at least the lowest nor at most the highest.
pub fn in_range(temperature: f32) -> bool
    ensures { result ≡ in_range temperature }
{
    (LOWEST..=HIGHEST).contains(&temperature)
}

// What a temperature and an age say.
#[tactic(auto, using(std::proofs::lemmas::Bool::Decides::nat_tests), unfolding(crate::specs::Chart::reading_of))]
fn read(temperature: f32, age: u8) -> Reading
    ensures { reading_is result ≡ reading_of temperature age }
{
    if MAX_DAYS < age || !in_range(temperature) {
        Reading::Gap
    } else if age == FRESH_AGE {
        Reading::Fresh(temperature)
    } else {
        Reading::Carried(temperature, age)
    }
}

// The reading of a cell of a chart.
pub fn reading_of(
    level: u32,
    temperatures: &[f32],
    ages: &[u8],
    cell: CellNumber,
) -> Result<Reading, Refusal>
    ensures { said_as reading_is result ≡ reading_call level temperatures.now ages.now cell }
{
    let level = MaskLevel::new(level)?.k;
    if !cell::is_cell(level, cell) {
        return Err(Refusal::Cell);
    }
    is_chart(level, temperatures, ages)?;
    Ok(read(temperatures[cell as usize], ages[cell as usize]))
}
