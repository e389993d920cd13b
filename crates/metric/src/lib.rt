// The distance between two rows by a table's metric.
#![tactic(auto)]

ghost use Rattle.std.specs.Prelude.{◌≡◌, ◌+◌, ◌*◌, max, ◌-ℤ◌, unsigned_abs};
ghost use Rattle.std.specs.Int.{w32};
ghost use Rattle.std.proofs.Common.{to_z};
ghost use Rattle.metric_rules.specs.Row.{profile_of};
ghost use Rattle.metric_rules.specs.Distance.{saturated, differing, code_distance, distance, space_of};

use metric_rules::{
    CODE_0_HIGH, CODE_0_LOW, CODE_1_HIGH, CODE_1_LOW, MEASURE_0, MEASURE_1, MEASURE_2, MEASURE_3,
    METRIC_AT, Row, WEIGHT_0, WEIGHT_1, WEIGHT_2, WEIGHT_3,
};
use rows::joined;

// The absolute difference of the signed numbers that two words hold. It is worked out unsigned, so that every
// difference fits.
fn gap_of(a: u32, b: u32) -> u32
    ensures { result ≡ unsigned_abs (to_z w32 a -ℤ to_z w32 b) }
{
    a.cast_signed().abs_diff(b.cast_signed())
}

// The difference of one measure, by its weight: in 64 bits the product of two words fits.
fn weighted_gap(weight: u32, a: u32, b: u32) -> u64
    ensures { result ≡ weight * unsigned_abs (to_z w32 a -ℤ to_z w32 b) }
{
    u64::from(weight) * u64::from(gap_of(a, b))
}

// A number past 32 bits is taken as the largest distance.
#[tactic(auto, unfolding(metric_rules::specs::Distance::saturated))]
fn saturate(n: u64) -> u32
    ensures { result ≡ saturated n }
{
    n.min(u64::from(u32::MAX)) as u32
}

// The sum of four products, saturated once more, at the end: a sum that stops at the most of 64 bits is past 32 bits,
// too.
#[tactic(auto, unfolding(metric_rules::specs::Distance::saturated))]
fn saturated_sum(a: u64, b: u64, c: u64, d: u64) -> u32
    ensures { result ≡ saturated (a + b + c + d) }
{
    saturate(a.saturating_add(b).saturating_add(c).saturating_add(d))
}

// Metrics 0 and 2: the sum and the largest of the four measures' weighted differences. The differences stand here once,
// so that a distance stays small enough to be inlined where it is taken.
fn measure_distance(header: &Row, a: Row, b: Row) -> u32
    requires { (space_of header.now).metric ≡ 1 → ⊥ }
    ensures { result ≡ distance (space_of header.now) (profile_of a) (profile_of b) }
{
    let first = weighted_gap(header[WEIGHT_0], a[MEASURE_0], b[MEASURE_0]);
    let second = weighted_gap(header[WEIGHT_1], a[MEASURE_1], b[MEASURE_1]);
    let third = weighted_gap(header[WEIGHT_2], a[MEASURE_2], b[MEASURE_2]);
    let fourth = weighted_gap(header[WEIGHT_3], a[MEASURE_3], b[MEASURE_3]);
    if header[METRIC_AT] == 0 {
        saturated_sum(first, second, third, fourth)
    } else {
        saturate(first.max(second).max(third.max(fourth)))
    }
}

// The number of bits in which two words differ.
#[tactic(auto, using(metric_rules::proofs::Digits::differing_ones))]
fn differing_bits(a: u64, b: u64) -> u32
    ensures { result ≡ differing 64 a b }
{
    (a ^ b).count_ones()
}

// Metric 1, of the code's two numbers of 64 bits.
fn code_distance(a: Row, b: Row) -> u32
    ensures { result ≡ code_distance (profile_of a) (profile_of b) }
{
    let first = differing_bits(
        joined(a[CODE_0_LOW], a[CODE_0_HIGH]),
        joined(b[CODE_0_LOW], b[CODE_0_HIGH]),
    );
    let second = differing_bits(
        joined(a[CODE_1_LOW], a[CODE_1_HIGH]),
        joined(b[CODE_1_LOW], b[CODE_1_HIGH]),
    );
    first + second
}

// The distance between the profiles of two rows, by the metric and the weights of a table's header row. A number that
// is no metric reads as 2. A search makes its query a row once (`row_of`), so that each slot costs a row against a row.
pub fn distance_between(header: &Row, a: Row, b: Row) -> u32
    ensures { result ≡ distance (space_of header.now) (profile_of a) (profile_of b) }
{
    if header[METRIC_AT] == 1 {
        code_distance(a, b)
    } else {
        measure_distance(header, a, b)
    }
}
