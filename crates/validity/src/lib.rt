// Which tags, measures, days, metrics and weights are valid.
#![tactic(auto)]

ghost use Rattle.std.specs.Prelude.{◌≡◌};
ghost use Rattle.metric_rules.specs.Distance.{valid_metric, valid_weights};
ghost use Rattle.metric_rules.specs.Validity.{valid_tag, valid_measure, valid_measures, valid_day};

use metric_rules::{Profile, Space, Weights};

// A tag is country · 10^12 + national: the least of country 1, the first of no country, and the last national, of 38
// bits.
const NATIONALS: u64 = 1_000_000_000_000;

const PAST_TAGS: u64 = 1_000_000_000_000_000;

const LAST_NATIONAL: u64 = 274_877_906_943;

// The largest size of a measure, in hundredths.
const MEASURE_LIMIT: u32 = 1_000_000;

#[tactic(auto, using(metric_rules::proofs::Ranges::tag_range), unfolding(metric_rules::specs::Validity::valid_tag))]
pub fn valid_tag(tag: u64) -> bool
    ensures { result ≡ valid_tag tag }
{
    (NATIONALS..PAST_TAGS).contains(&tag) && tag % NATIONALS <= LAST_NATIONAL
}

#[tactic(auto, unfolding(metric_rules::specs::Validity::valid_measure, metric_rules::specs::Validity::measure_limit))]
fn valid_measure(measure: i32) -> bool
    ensures { result ≡ valid_measure measure }
{
    measure.unsigned_abs() <= MEASURE_LIMIT
}

pub fn valid_measures(profile: Profile) -> bool
    ensures { result ≡ valid_measures profile }
{
    profile.measures.iter().all(|m| valid_measure(*m))
}

// A day has 16 bits, and 0 is none.
pub fn valid_day(day: u32) -> bool
    ensures { result ≡ valid_day day }
{
    1 <= day
}

// The metrics are 0 to this one.
const LAST_METRIC: u32 = 2;

#[tactic(auto, unfolding(metric_rules::specs::Distance::valid_metric, metric_rules::specs::Distance::last_metric))]
pub fn valid_metric(space: Space) -> bool
    ensures { result ≡ valid_metric space }
{
    space.metric <= LAST_METRIC
}

// The largest weight.
const MOST_WEIGHT: u32 = 100;

pub fn valid_weights(weights: Weights) -> bool
    ensures { result ≡ valid_weights weights }
{
    weights.each.iter().all(|weight| *weight <= MOST_WEIGHT)
}
