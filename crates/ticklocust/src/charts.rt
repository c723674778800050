// Charts: the reading of a cell and one day.
ghost use Rattle.std.specs.Prelude.{◌≡◌};
ghost use Rattle.chart.specs.Chart.{reading_call};
ghost use Rattle.day.specs.Day.{day_call};
ghost use Rattle.c_values.specs.Values.{told, told_lent, in_c, kind_temperature_days};

use chart::Reading;

// The kinds are numbers in the C interface.
const FRESH: u32 = 0;

const CARRIED: u32 = 1;

const GAP: u32 = 2;

// The days of a gap: more than any temperature is carried.
const NO_DAYS: u32 = 255;

#[unsafe(no_mangle)]
pub extern "C" fn ticklocust_reading(
    level: u32,
    cell: u32,
    temperatures: &[f32],
    ages: &[u8],
    kind: &mut u32,
    temperature: &mut f32,
    days: &mut u32,
) -> u32
    ensures { (result, (kind.new, temperature.new, days.new))
        ≡ told (in_c kind_temperature_days (reading_call level temperatures.now ages.now cell))
        (kind.old, temperature.old, days.old) }
{
    match chart::reading_of(level, temperatures, ages, cell) {
        Ok(Reading::Fresh(t)) => {
            *kind = FRESH;
            *temperature = t;
            *days = 0;
            0
        }
        Ok(Reading::Carried(t, d)) => {
            *kind = CARRIED;
            *temperature = t;
            *days = d as u32;
            0
        }
        Ok(Reading::Gap) => {
            *kind = GAP;
            // A caller who doesn't test the kind gets no temperature either.
            *temperature = f32::NAN;
            *days = NO_DAYS;
            0
        }
        Err(refusal) => refusal as u32,
    }
}

#[unsafe(no_mangle)]
pub extern "C" fn ticklocust_day(
    level: u32,
    limit: u32,
    news: &[f32],
    cloud: &[u8],
    temperatures: &mut [f32],
    ages: &mut [u8],
    count: &mut u32,
    coldest: &mut f32,
    warmest: &mut f32,
) -> u32
    ensures { (
      (result, record { count = count.exit.now; coldest = coldest.new; warmest = warmest.new }),
      record { temperatures = temperatures.exit.now; ages = ages.new },
    )
        ≡ told_lent (day_call level limit news.now cloud.now temperatures.entry.now ages.old)
        (record { count = count.entry.now; coldest = coldest.old; warmest = warmest.old }) }
{
    match day::day(level, limit, news, cloud, temperatures, ages) {
        Ok(summary) => {
            *count = summary.count;
            *coldest = summary.coldest;
            *warmest = summary.warmest;
            0
        }
        Err(refusal) => refusal as u32,
    }
}
