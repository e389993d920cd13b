// The buckets of an image written into a table: each bucket's slots, and zeros in the rest of its room.
#![tactic(auto)]

ghost use Rattle.std.specs.Prelude.{◌≡◌, ◌-◌, ◌≤◌, length, get_or, replicate};
ghost use mathlib.Core.List.{◌++◌, foldl};
ghost use Rattle.metric_rules.specs.Row.{zero_row};
ghost use Rattle.table_rules.specs.Geometry.{room, buckets_of};
ghost use Rattle.table_rules.specs.Table.{put_bucket};
ghost use Rattle.image_rules.specs.Read.{order_in, live_in, bucket_in};
ghost use Rattle.image_read.specs.Slots.{slots_at};
ghost use Rattle.table_buckets.specs.OfOrder.{OfOrder};

use image_read::{Bucket, Slots, WholeImage};
use metric_rules::{ROW_WIDTH, Row};
use table_buckets::put_sizes;
use table_order::Order;

// Row i of a room with some slots of an image.
fn slot_or_zero(slots: Slots, i: usize) -> Row
    ensures { result ≡ get_or (slots_at slots.entry) i zero_row }
{
    if i < slots.count {
        return slots.slot(i);
    }
    [0; ROW_WIDTH]
}

fn fill_room(rows: &mut [Row], slots: Slots)
    requires { slots.count ≤ length rows.old }
    ensures { rows.new ≡ slots_at slots.entry ++ replicate (length rows.old - slots.entry.count) zero_row }
{
    for (i, row) in rows.iter_mut().enumerate() {
        *row = slot_or_zero(slots, i);
    }
}

// Bucket k of a table.
fn put_bucket(table: &mut [Row], order: Order, k: u32, bucket: Bucket)
    requires { OfOrder table.old order.t × (k ≤ order.t) × (bucket.slots.count ≤ room k) }
    ensures { table.new ≡ put_bucket k (slots_at bucket.entry.slots) bucket.entry.live table.old }
{
    let first = order.first_slot(k);
    let end = first + Order::room(k);
    fill_room(&mut table[first..end], bucket.slots);
    put_sizes(table, k, bucket.slots.count as u32, bucket.live);
}

// Every bucket.
pub fn put_buckets(table: &mut [Row], image: WholeImage)
    requires { OfOrder table.old (order_in image.image.bytes.now) }
    ensures { let read = image.entry.image.bytes.now in
        table.new ≡ foldl (λ u k. put_bucket k (bucket_in read k) (live_in read k) u) table.old
        (buckets_of (order_in read)) }
{
    let order = image.image.header.order;
    let mut first = 0;
    for k in 0..image.buckets() {
        let bucket = image.bucket(k, first);
        put_bucket(table, order, k, bucket);
        first += bucket.slots.count;
    }
}
