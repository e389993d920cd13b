// A row made of its fields, and rows zeroed. `rows` reads what is written here.
#![tactic(auto)]

ghost use Rattle.std.specs.Prelude.{◌≡◌, ◌/◌, ◌%◌, ◌^◌, length, replicate};
ghost use Rattle.metric_rules.specs.Row.{row_of, new_row, zero_row};

use metric_rules::{Profile, ROW_WIDTH, Row};

// The low and the high word of a number of 64 bits.
fn low(n: u64) -> u32
    ensures { result ≡ n % 2 ^ 32 }
{
    (n & 0xffff_ffff) as u32
}

fn high(n: u64) -> u32
    ensures { result ≡ n / 2 ^ 32 }
{
    (n >> 32) as u32
}

// The row of these fields.
pub fn row_of(tag: u64, profile: Profile, threshold: u32, mark: u32, day: u32) -> Row
    ensures { result ≡ row_of tag profile threshold mark day }
{
    let m = profile.measures;
    let c = profile.code;
    [
        low(tag),
        high(tag),
        m[0].cast_unsigned(),
        m[1].cast_unsigned(),
        m[2].cast_unsigned(),
        m[3].cast_unsigned(),
        low(c[0]),
        high(c[0]),
        low(c[1]),
        high(c[1]),
        threshold,
        mark,
        day,
    ]
}

// The row of a new item: no threshold yet, and live.
pub fn new_row(tag: u64, profile: Profile, day: u32) -> Row
    ensures { result ≡ new_row tag profile day }
{
    row_of(tag, profile, 0, 0, day)
}

// Every row becomes zero. Each kind of area has three such lines: a generic function would take the zero, which each
// contract names for its own type, and `fill` says nothing of arrays.
#[tactic(auto, unfolding(metric_rules::specs::Row::zero_row, metric_rules::specs::Row::row_width))]
pub fn zero_rows(rows: &mut [Row])
    ensures { rows.new ≡ replicate (length rows.old) zero_row }
{
    for row in rows.iter_mut() {
        *row = [0u32; ROW_WIDTH];
    }
}
