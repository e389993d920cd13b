// Fresh: a table's order, metric and weights are set, and every bucket is empty.
#![tactic(auto)]

ghost use Rattle.std.specs.Prelude.{◌≡◌, ◌≤◌, ◌<◌, length, set, IfOk};
ghost use Rattle.refusals.specs.Number.{refusal_in};
ghost use Rattle.table_rules.specs.Geometry.{header_row, table_rows};
ghost use Rattle.table_rules.specs.Table.{header_of};
ghost use Rattle.table_rules.specs.Fresh.{fresh_refusal, fresh_table, table_after_fresh};

use metric_rules::{METRIC_AT, ROW_WIDTH, Row, Space, WEIGHT_0, WEIGHT_1, WEIGHT_2, WEIGHT_3};
use refusals::Refusal;
use row_store::zero_rows;
use table_order::Order;
use table_views::{HEADER_ROW, ORDER_AT};
use validity::{valid_metric, valid_weights};

pub fn header_row(order: Order, space: Space) -> Row
    ensures { result ≡ header_of order.t space }
{
    let mut row = [0u32; ROW_WIDTH];
    row[ORDER_AT] = order.t;
    row[METRIC_AT] = space.metric;
    // By words, as header_of has them: copied as a slice they would have to be parted again in the proof.
    let w = space.weights.each;
    row[WEIGHT_0] = w[0];
    row[WEIGHT_1] = w[1];
    row[WEIGHT_2] = w[2];
    row[WEIGHT_3] = w[3];
    row
}

// The header put first: what fresh and load begin a table with, once their tests have passed.
#[tactic(auto, unfolding(table_rules::specs::Geometry::header_row))]
pub fn put_header(table: &mut [Row], order: Order, space: Space)
    requires { 0 < length table.old }
    ensures { table.new ≡ set table.old header_row (header_of order.t space) }
{
    table[HEADER_ROW] = header_row(order, space);
}

// The table's rows become the header and zeros.
fn write_fresh(table: &mut [Row], order: Order, space: Space)
    requires { (order.t < 31) × (table_rows order.t ≤ length table.old) }
    ensures { table.new ≡ fresh_table order.t space table.old }
{
    let rows = order.table_rows();
    zero_rows(&mut table[..rows]);
    put_header(table, order, space);
}

// The order that a table of so many rows is set to, by the call's tests: 3, 4, 32, 23.
#[tactic(auto, using(table_order::proofs::Orders::is_order), unfolding(table_rules::specs::Fresh::fresh_refusal))]
fn fresh_check(rows: usize, order: u32, space: Space) -> Result<Order, Refusal>
    ensures refusal { refusal_in result ≡ fresh_refusal rows order space }
    ensures order { IfOk result (λ valid. valid.t ≡ order) }
    ensures rows { IfOk result (λ valid. (valid.t < 31) × (table_rows valid.t ≤ rows)) }
{
    let order = Order::new(order)?;
    if !valid_metric(space) {
        return Err(Refusal::BadMetric);
    }
    if !valid_weights(space.weights) {
        return Err(Refusal::BadWeight);
    }
    if rows < order.table_rows() {
        return Err(Refusal::ShortArea);
    }
    Ok(order)
}

// The refusal, 0 if accepted: a number, as vpindex_fresh replies it and yard prints it. Nothing of the table is read
// but its length.
#[tactic(auto, unfolding(table_rules::specs::Fresh::table_after_fresh))]
pub fn fresh(table: &mut [Row], order: u32, space: Space) -> u32
    ensures reply { result ≡ fresh_refusal (length table.old) order space }
    ensures area { table.new ≡ table_after_fresh order space table.old }
{
    match fresh_check(table.len(), order, space) {
        Err(refusal) => u32::from(refusal),
        Ok(order) => {
            write_fresh(table, order, space);
            0
        }
    }
}
