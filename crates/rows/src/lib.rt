// Each field of a row, read from its words. `row_store` writes what is read here.
#![tactic(auto)]

ghost use Rattle.std.specs.Prelude.{◌≡◌, ◌+◌, ◌*◌, ◌^◌};
ghost use Rattle.metric_rules.specs.Row.{tag_of, profile_of, threshold_of, mark_of, day_of, is_live};

use metric_rules::{
    CODE_0_HIGH, CODE_0_LOW, CODE_1_HIGH, CODE_1_LOW, DAY_AT, MARK_AT, MEASURE_0, MEASURE_1,
    MEASURE_2, MEASURE_3, Profile, Row, TAG_HIGH, TAG_LOW, THRESHOLD_AT,
};

// The number of 64 bits with these two words.
pub fn joined(low: u32, high: u32) -> u64
    ensures { result ≡ low + high * 2 ^ 32 }
{
    u64::from(low) + (u64::from(high) << 32)
}

// The fields of a row.
#[tactic(auto, unfolding(metric_rules::specs::Row::tag_of))]
pub fn tag_of(row: Row) -> u64
    ensures { result ≡ tag_of row }
{
    joined(row[TAG_LOW], row[TAG_HIGH])
}

#[tactic(auto, unfolding(metric_rules::specs::Row::profile_of))]
pub fn profile_of(row: Row) -> Profile
    ensures { result ≡ profile_of row }
{
    Profile {
        measures: [
            row[MEASURE_0].cast_signed(),
            row[MEASURE_1].cast_signed(),
            row[MEASURE_2].cast_signed(),
            row[MEASURE_3].cast_signed(),
        ],
        code: [
            joined(row[CODE_0_LOW], row[CODE_0_HIGH]),
            joined(row[CODE_1_LOW], row[CODE_1_HIGH]),
        ],
    }
}

#[tactic(auto, unfolding(metric_rules::specs::Row::threshold_of))]
pub fn threshold_of(row: Row) -> u32
    ensures { result ≡ threshold_of row }
{
    row[THRESHOLD_AT]
}

#[tactic(auto, unfolding(metric_rules::specs::Row::mark_of))]
pub fn mark_of(row: Row) -> u32
    ensures { result ≡ mark_of row }
{
    row[MARK_AT]
}

#[tactic(auto, unfolding(metric_rules::specs::Row::day_of))]
pub fn day_of(row: Row) -> u32
    ensures { result ≡ day_of row }
{
    row[DAY_AT]
}

// Whether the row's item is live; any mark but 0 is dead.
#[tactic(auto, unfolding(metric_rules::specs::Row::is_live))]
pub fn is_live(row: Row) -> bool
    ensures { result ≡ is_live row }
{
    mark_of(row) == 0
}
