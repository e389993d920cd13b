// What an image's sizes and its slots one by one must pass. Tags and layouts of whole buckets come after this.
#![tactic(auto)]

ghost use Rattle.std.specs.Prelude.{◌≡◌};
ghost use Rattle.metric_rules.specs.Row.{day_of};
ghost use Rattle.metric_rules.specs.Validity.{valid_day};
ghost use Rattle.table_rules.specs.Checks.{sizes_pass};
ghost use Rattle.image_rules.specs.Read.{order_in, built_in, live_in};
ghost use Rattle.image_rules.specs.Load.{fields_pass, bucket_fields_pass, all_fields_pass, days_pass};
ghost use Rattle.image_read.specs.Slots.{slots_at};

use image_read::{Bucket, Image, WholeImage};
use metric_rules::Row;
use rows::{day_of, mark_of, profile_of, tag_of};
use table_checks::size_passes;
use table_order::Order;
use validity::{valid_day, valid_measures, valid_tag};

// Every bucket's sizes, and the live items in all, in one pass, as table_checks has them of a table. One function over
// a closure would need built_in and live_in, or built_of and live_of, as conditions on what the closure returns.
pub fn sizes_pass(image: Image) -> bool
    ensures { let read = image.entry.bytes.now in
        result ≡ sizes_pass (order_in read) (built_in read) (live_in read) }
{
    let order = image.header.order;
    let mut sum = 0;
    for k in 0..order.buckets() {
        let sizes = image.sizes(k);
        if !size_passes(k, sizes.built, sizes.live) {
            return false;
        }
        sum += sizes.live as usize;
    }
    sum <= Order::room(order.t)
}

// A slot's own fields.
fn slot_passes(row: Row) -> bool
    ensures { result ≡ fields_pass row }
{
    valid_tag(tag_of(row)) & valid_measures(profile_of(row)) & (mark_of(row) <= 1)
}

// Whether a slot has a day.
fn has_day(row: Row) -> bool
    ensures { result ≡ valid_day (day_of row) }
{
    valid_day(day_of(row))
}

// The day of every slot, dead ones too.
pub fn days_pass(image: WholeImage) -> bool
    ensures { result ≡ days_pass image.entry.image.bytes.now }
{
    let slots = image.slots();
    for i in 0..slots.count {
        if !has_day(slots.slot(i)) {
            return false;
        }
    }
    true
}

// A bucket's slots: a field that fails ends it, and the 0 marks are counted.
fn slots_read(bucket: Bucket) -> bool
    ensures { result ≡ bucket_fields_pass (slots_at bucket.entry.slots) bucket.entry.live }
{
    let slots = bucket.slots;
    let mut found = 0;
    for i in 0..slots.count {
        let row = slots.slot(i);
        if !slot_passes(row) {
            return false;
        }
        found += (1 - mark_of(row)) as usize;
    }
    found == bucket.live as usize
}

// The slots of every bucket.
pub fn buckets_read(image: WholeImage) -> bool
    ensures { result ≡ all_fields_pass image.entry.image.bytes.now }
{
    let mut first = 0;
    for k in 0..image.buckets() {
        let bucket = image.bucket(k, first);
        if !slots_read(bucket) {
            return false;
        }
        first += bucket.slots.count;
    }
    true
}
