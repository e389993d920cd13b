// The first fault of an image's trees, found with one array of entries: every bucket's tags and layout, and a live tag
// that an earlier live slot has.
#![tactic(auto)]

ghost use Rattle.std.specs.Prelude.{◌≡◌, ℕ, ◌≤◌, ◌<◌, ◌^◌, true, [], map, length, take};
ghost use Rattle.metric_rules.specs.Row.{tag_of, is_live};
ghost use Rattle.metric_rules.specs.Distance.{space_of};
ghost use Rattle.table_rules.specs.Geometry.{buckets_of};
ghost use Rattle.image_rules.specs.Read.{order_in, bucket_in, row_in, slots_in};
ghost use Rattle.image_rules.specs.Load.{all_fields_pass};
ghost use Rattle.image_rules.specs.Trees.{first_refused, trees_reply};
ghost use Rattle.image_entries.specs.Faults.{loaded_of, first_of, tag_refusals};
ghost use Rattle.image_entries.specs.Entries.{places, TagsFit, counted_entries};
ghost use Rattle.image_read.specs.Slots.{slot_in, slots_at};
ghost use Rattle.image_test.specs.Trees.{most_entries, bucket_fault};

use image_entries::{Fault, duplicate_fault, earlier, tag_entry};
use image_layout::tree_fault;
use image_read::{Slots, WholeImage};
use metric_rules::Row;
use rows::{is_live, tag_of};
use search_rules::Entry;
use table_order::Order;

// As many entries as a bucket has slots, and as there are live slots in all.
const ENTRIES: usize = 1 << Order::MOST;

// The entries of the live ones of some slots, from the first place on. The reply is their number. What `entries` holds
// behind them is left free; it keeps its length.
fn enter_live(slots: Slots, entries: &mut [Entry]) -> usize
    requires { (slots.count ≤ places)
        × (length (counted_entries (slot_in slots) is_live slots.count) ≤ length entries.old)
        × TagsFit (slot_in slots) slots.count }
    ensures counted { result ≡ length (counted_entries (slot_in slots.entry) is_live slots.entry.count) }
    ensures entered { take result entries.new ≡ counted_entries (slot_in slots.entry) is_live slots.entry.count }
{
    let mut count = 0;
    for i in 0..slots.count {
        let row = slots.slot(i);
        if is_live(row) {
            entries[count] = tag_entry(tag_of(row), i);
            count += 1;
        }
    }
    count
}

// The first live slot whose tag an earlier live one has. What `entries` holds then is left free; it keeps its length.
fn live_fault(slots: Slots, entries: &mut [Entry]) -> Result<(), Fault>
    requires { (slots.first ≡ 0)
        × (slots.count ≤ places)
        × (length (counted_entries (slot_in slots) is_live slots.count) ≤ length entries.old)
        × TagsFit (slot_in slots) slots.count }
    ensures { loaded_of result ≡ first_refused 0 (tag_refusals is_live [] (slots_at slots.entry)) }
{
    let count = enter_live(slots, entries);
    duplicate_fault(&mut entries[..count], 0)
}

// The first fault of the buckets' trees, one after the other; `row` is a header row with the image's space. What
// `entries` holds then is left free; it keeps its length.
fn each_tree_fault(image: WholeImage, row: &Row, entries: &mut [Entry]) -> Result<(), Fault>
    requires { let read = image.image.bytes.now in
        (length entries.old ≡ most_entries)
        × ((i : ℕ) → i < slots_in read → tag_of (row_in read i) < 2 ^ 50) }
    ensures { let read = image.entry.image.bytes.now in
        loaded_of result ≡ first_of (map (bucket_fault (space_of row.now) read) (buckets_of (order_in read))) }
{
    let mut first = 0;
    for k in 0..image.buckets() {
        let slots = image.bucket(k, first).slots;
        tree_fault(slots, row, &mut entries[..slots.count])?;
        first += slots.count;
    }
    Ok(())
}

// The first fault of the trees of an image whose fields pass. The array is all the room that this takes. Only within
// its caller does the compiler zero the array once.
#[inline(always)]
pub fn trees_fault(image: WholeImage, row: &Row) -> Result<(), Fault>
    requires { all_fields_pass image.image.bytes.now ≡ true }
    ensures { let read = image.entry.image.bytes.now in
        loaded_of result ≡ trees_reply (space_of row.now) (order_in read) (bucket_in read) }
{
    let mut entries = [[0u64; 2]; ENTRIES];
    let fault = each_tree_fault(image, row, &mut entries[..]);
    let live = live_fault(image.slots(), &mut entries[..]);
    earlier(live, fault)
}
