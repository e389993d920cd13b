// RULES 14.5: what stops a call on a lent table, 23 and 24 in their order. The table's content and length are any.
#![tactic(auto)]

ghost use Rattle.std.specs.Prelude.{◌≡◌, ◌<◌, ◌≤◌, length, map, IfOk};
ghost use Rattle.refusals.specs.Number.{refusal_in};
ghost use Rattle.lists.specs.Lists.{total};
ghost use Rattle.table_rules.specs.Geometry.{buckets_of, sizes_row};
ghost use Rattle.table_rules.specs.Table.{order_of, built_of, live_of, slots_of};
ghost use Rattle.table_rules.specs.Checks.{size_passes, sizes_pass, header_passes, slots_marked, marks_pass, frame_refusal};
ghost use Rattle.table_rules.specs.Checks.{read_refusal, change_refusal};
ghost use Rattle.table_rules.specs.Passed.{Passed};

use metric_rules::Row;
use refusals::Refusal;
use rows::mark_of;
use table_order::Order;
use table_views::{
    HEADER_ROW, built_of, has_metric, live_of, live_total, order_of, slots_of, weights_of,
};
use validity::valid_weights;

// A lent table that has passed its tests, and its order: what a call goes on with.
#[derive(Clone, Copy)]
pub struct Checked<'a> {
    pub rows: &'a [Row],
    pub order: Order,
    ghost ordered: { order.t ≡ order_of rows.now },
    ghost passed: { Passed rows.now },
}

impl<'a> Checked<'a> {
    // The sizes of bucket k.
    pub fn built(self, k: u32) -> u32
        requires { k ≤ self.order.t }
        ensures { result ≡ built_of self.entry.rows.now k }
    {
        built_of(self.rows, k)
    }

    pub fn live(self, k: u32) -> u32
        requires { k ≤ self.order.t }
        ensures { result ≡ live_of self.entry.rows.now k }
    {
        live_of(self.rows, k)
    }

    // The built slots of bucket k.
    pub fn slots(self, k: u32) -> &'a [Row]
        requires { k ≤ self.order.t }
        ensures { result.now ≡ slots_of self.entry.rows.now k }
    {
        slots_of(self.rows, self.order, k)
    }

    // How many items are live.
    pub fn live_total(self) -> u64
        ensures { result ≡ total (map (live_of self.entry.rows.now) (buckets_of self.entry.order.t)) }
    {
        live_total(self.rows, self.order)
    }
}

// A bucket's sizes are words of any value, and four times a word fits 64 bits.
pub fn size_passes(k: u32, built: u32, live: u32) -> bool
    requires { k < 32 }
    ensures { result ≡ size_passes k built live }
{
    let room = Order::room(k);
    let b = built as usize;
    let l = live as usize;
    ((b == 0) & (l == 0)) | ((l <= b) & (b <= room) & (room < 2 * b) & (room < 4 * l))
}

// Every bucket's sizes, and the live items in all, in one pass.
fn sizes_pass(table: &[Row], order: Order) -> bool
    requires { (order.t < 31) × (sizes_row order.t < length table.now) }
    ensures { result ≡ sizes_pass order.t (built_of table.now) (live_of table.now) }
{
    let mut sum: u64 = 0;
    for k in 0..order.buckets() {
        let live = live_of(table, k);
        if !size_passes(k, built_of(table, k), live) {
            return false;
        }
        sum += live as u64;
    }
    sum <= Order::room(order.t) as u64
}

// The weights, whatever the metric, and the sizes.
fn header_passes(table: &[Row], order: Order) -> bool
    requires { (order.t ≡ order_of table.now) × (order.t < 31) × (sizes_row order.t < length table.now) }
    ensures { result ≡ header_passes table.now }
{
    if !valid_weights(weights_of(table[HEADER_ROW])) {
        return false;
    }
    sizes_pass(table, order)
}

// One pass over a bucket's slots: a mark above 1 ends it, and the 0 marks are counted.
fn slots_marked(slots: &[Row], live: u32) -> bool
    ensures { result ≡ slots_marked slots.now live }
{
    let mut found: usize = 0;
    for slot in slots {
        let mark = mark_of(*slot);
        if 1 < mark {
            return false;
        }
        found += (1 - mark) as usize;
    }
    found == live as usize
}

fn marks_pass(table: Checked<'_>) -> bool
    ensures { result ≡ marks_pass table.entry.rows.now }
{
    for k in 0..table.order.buckets() {
        if !slots_marked(table.slots(k), table.live(k)) {
            return false;
        }
    }
    true
}

// No rows 23, order or metric 24, a short table 23.
#[tactic(auto, using(table_rules::proofs::Passing::frame_tests, table_rules::proofs::Passing::no_frame))]
fn frame_check(table: &[Row]) -> Result<Order, Refusal>
    ensures refusal { refusal_in result ≡ frame_refusal table.now }
    ensures order { IfOk result (λ order. order.t ≡ order_of table.now) }
{
    if table.is_empty() {
        return Err(Refusal::ShortArea);
    }
    if !has_metric(table[HEADER_ROW]) {
        return Err(Refusal::BadTable);
    }
    match Order::new(order_of(table)) {
        Err(_) => Err(Refusal::BadTable),
        Ok(order) => {
            if table.len() < order.table_rows() {
                Err(Refusal::ShortArea)
            } else {
                Ok(order)
            }
        }
    }
}

// What a call that only reads the table goes on with.
#[tactic(auto, unfolding(table_rules::specs::Checks::read_refusal))]
pub fn read_check(table: &[Row]) -> Result<Checked<'_>, Refusal>
    ensures refusal { refusal_in result ≡ read_refusal table.now }
    ensures rows { IfOk result (λ checked. checked.rows.now ≡ table.now) }
{
    let order = frame_check(table)?;
    if !header_passes(table, order) {
        return Err(Refusal::BadTable);
    }
    Ok(Checked { rows: table, order })
}

// What add and remove go on with, which are lent a work area of so many rows and go by the marks.
#[tactic(auto, unfolding(table_rules::specs::Checks::change_refusal))]
pub fn change_check(table: &[Row], rows: usize) -> Result<Checked<'_>, Refusal>
    ensures refusal { refusal_in result ≡ change_refusal rows table.now }
    ensures rows { IfOk result (λ checked. checked.rows.now ≡ table.now) }
{
    let order = frame_check(table)?;
    if rows < order.work_rows() {
        return Err(Refusal::ShortArea);
    }
    if !header_passes(table, order) {
        return Err(Refusal::BadTable);
    }
    let checked = Checked { rows: table, order };
    if !marks_pass(checked) {
        return Err(Refusal::BadTable);
    }
    Ok(checked)
}
