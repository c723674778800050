// One day of a chart: docs/RULES.md, 7.3.
#![tactic(auto)]

ghost use Rattle.std.specs.Prelude.{◌≡◌, true, ◌≤◌, ◌<◌, length};
ghost use Rattle.refusal.specs.Refusal.{said_as};
ghost use Rattle.cell.specs.Cell.{cells};
ghost use Rattle.mask.specs.Mask.{max_mask_level};
ghost use Rattle.chart.specs.Chart.{in_range, max_days, reading_of};
ghost use Rattle.day.specs.Day.{day_of, temperatures_after, ages_after, summary_after, with_cell, day_call, summary_is};

use chart::{FRESH_AGE, MAX_DAYS};
use refusal::Refusal;

// The age that a day gives a cell with nothing to read.
const GAP_AGE: u8 = 255;

// How many cells are fresh, and the lowest and the highest of their temperatures; where there are none, both are 0.0, as the rules have it.
#[derive(Clone, Copy, Debug, PartialEq)]
pub struct Summary {
    pub count: u32,
    pub coldest: f32,
    pub warmest: f32,
}

// The temperature and the age that a day leaves of one cell.
#[tactic(auto, using(std::proofs::lemmas::Bool::Decides::nat_tests), unfolding(crate::specs::Day::day_of))]
fn cell_after(covered: bool, limit: u32, new: f32, old: f32, age: u8) -> (f32, u8)
    requires { limit ≤ max_days }
    ensures { result ≡ day_of covered new old age limit }
{
    if !covered && chart::in_range(new) {
        (new, FRESH_AGE)
    } else if u32::from(age) < limit && chart::in_range(old) {
        (old, age + 1)
    } else {
        (0.0, GAP_AGE)
    }
}

// The summary with one cell more. Of equal temperatures the first stays: `min` and `max` may give either of 0.0 and -0.0.
#[tactic(auto, using(std::proofs::lemmas::Bool::Decides::nat_tests), unfolding(crate::specs::Day::with_cell, crate::specs::Day::with_fresh, chart::specs::Chart::reading_of))]
fn with_cell(summary: Summary, temperature: f32, age: u8) -> Summary
    requires { (summary.count < cells max_mask_level) × (age ≡ 0 → in_range temperature ≡ true) }
    ensures { summary_is result ≡ with_cell (summary_is summary) (reading_of temperature age) }
{
    if age != FRESH_AGE {
        return summary;
    }
    if summary.count == 0 {
        return Summary {
            count: 1,
            coldest: temperature,
            warmest: temperature,
        };
    }
    Summary {
        count: summary.count + 1,
        coldest: if temperature < summary.coldest {
            temperature
        } else {
            summary.coldest
        },
        warmest: if summary.warmest < temperature {
            temperature
        } else {
            summary.warmest
        },
    }
}

// One pass over the cells.
fn rewrite(
    limit: u32,
    new: &[f32],
    clouds: &[u8],
    temperatures: &mut [f32],
    ages: &mut [u8],
) -> Summary
    requires { (limit ≤ max_days) × (length temperatures.old ≤ cells max_mask_level)
        × (length new.now ≡ length temperatures.old) × (length ages.old ≡ length temperatures.old) }
    ensures temperatures { temperatures.new
        ≡ temperatures_after (length temperatures.old) limit new.now clouds.now
        temperatures.old ages.old }
    ensures ages { ages.new
        ≡ ages_after (length temperatures.old) limit new.now clouds.now temperatures.old ages.old }
    ensures summary { summary_is result
        ≡ summary_after (length temperatures.old) limit new.now clouds.now temperatures.old ages.old }
{
    let mut summary = Summary {
        count: 0,
        coldest: 0.0,
        warmest: 0.0,
    };
    for i in 0..temperatures.len() {
        let covered = bitset::is_marked(clouds, i as u32);
        let (temperature, age) = cell_after(covered, limit, new[i], temperatures[i], ages[i]);
        temperatures[i] = temperature;
        ages[i] = age;
        summary = with_cell(summary, temperature, age);
    }
    summary
}

// One day: makes the chart anew from new temperatures and a cloud mask, and sums up the chart that it leaves.
pub fn day(
    level: u32,
    limit: u32,
    new: &[f32],
    clouds: &[u8],
    temperatures: &mut [f32],
    ages: &mut [u8],
) -> Result<Summary, Refusal>
    ensures { (said_as summary_is result, record { temperatures = temperatures.exit.now; ages = ages.new })
        ≡ day_call level limit new.now clouds.now temperatures.entry.now ages.old }
{
    chart::is_chart(level, temperatures, ages)?;
    if new.len() != temperatures.len() {
        return Err(Refusal::Length);
    }
    mask::is_mask(level, clouds)?;
    if limit > u32::from(MAX_DAYS) {
        return Err(Refusal::Count);
    }
    Ok(rewrite(limit, new, clouds, temperatures, ages))
}
