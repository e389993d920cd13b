// What a table's header and size rows show: its order, whether its metric is one, its weights, and the sizes of its
// buckets.
#![tactic(auto)]

ghost use Rattle.std.specs.Prelude.{◌≡◌, map, ◌+◌, ◌≤◌, ◌<◌, length};
ghost use Rattle.lists.specs.Lists.{total};
ghost use Rattle.metric_rules.specs.Row.{row_width, word};
ghost use Rattle.metric_rules.specs.Distance.{valid_metric, weights_of, space_of};
ghost use Rattle.table_rules.specs.Geometry.{buckets_of, sizes_row, first_slot};
ghost use Rattle.table_rules.specs.Table.{order_of, built_of, live_of, in_use, slots_of};

use metric_rules::{METRIC_AT, Row, Space, WEIGHT_0, WEIGHT_1, WEIGHT_2, WEIGHT_3, Weights};
use table_order::Order;
use validity::valid_metric;

// The header row, and the words of it and of a size row.
pub const HEADER_ROW: usize = 0;

pub const ORDER_AT: usize = 0;

pub const BUILT_AT: usize = 0;

pub const LIVE_AT: usize = 1;

// A word of a row, with its bound: a row that was read from a slice comes without it.
pub fn word_at(row: Row, i: usize) -> u32
    requires { i < row_width }
    ensures { result ≡ word row i }
{
    row[i]
}

pub fn weights_of(header: Row) -> Weights
    ensures { result ≡ weights_of header }
{
    Weights {
        each: [
            header[WEIGHT_0],
            header[WEIGHT_1],
            header[WEIGHT_2],
            header[WEIGHT_3],
        ],
    }
}

// What distances depend on, as a header row has it.
pub fn space_of(header: Row) -> Space
    ensures { result ≡ space_of header }
{
    Space {
        metric: word_at(header, METRIC_AT),
        weights: weights_of(header),
    }
}

// Whether a header row has a metric.
pub fn has_metric(header: Row) -> bool
    ensures { result ≡ valid_metric (space_of header) }
{
    valid_metric(space_of(header))
}

// The order that a table shows, any number.
pub fn order_of(table: &[Row]) -> u32
    requires { 0 < length table.now }
    ensures { result ≡ order_of table.now }
{
    word_at(table[HEADER_ROW], ORDER_AT)
}

// The sizes of bucket k, and whether it is in use.
pub fn built_of(table: &[Row], k: u32) -> u32
    requires { sizes_row k < length table.now }
    ensures { result ≡ built_of table.now k }
{
    let row = Order::sizes_row(k);
    word_at(table[row], BUILT_AT)
}

pub fn live_of(table: &[Row], k: u32) -> u32
    requires { sizes_row k < length table.now }
    ensures { result ≡ live_of table.now k }
{
    let row = Order::sizes_row(k);
    word_at(table[row], LIVE_AT)
}

pub fn in_use(table: &[Row], k: u32) -> bool
    requires { sizes_row k < length table.now }
    ensures { result ≡ in_use table.now k }
{
    built_of(table, k) != 0
}

// How many items are live in buckets 0 to T.
pub fn live_total(table: &[Row], order: Order) -> u64
    requires { (order.t < 31) × (sizes_row order.t < length table.now) }
    ensures { result ≡ total (map (live_of table.now) (buckets_of order.t)) }
{
    let mut sum: u64 = 0;
    for k in 0..order.buckets() {
        sum += live_of(table, k) as u64;
    }
    sum
}

// The built slots of bucket k, which must be inside the table.
pub fn slots_of(table: &[Row], order: Order, k: u32) -> &[Row]
    requires { (order.t ≡ order_of table.now) × (order.t < 31) × (k ≤ order.t) × (first_slot order.t k + built_of table.now k ≤ length table.now) }
    ensures { result.now ≡ slots_of table.now k }
{
    let first = order.first_slot(k);
    let end = first + built_of(table, k) as usize;
    &table[first..end]
}
