// The entries of a part of a bucket arranged as its layout wants them: the first slot's first, and the others by their
// distance from it.
#![tactic(auto)]

ghost use Rattle.std.specs.Prelude.{◌≡◌, ◌≤◌, ◌<◌, [], map, length, get_or};
ghost use Rattle.lists.specs.Lists.{All};
ghost use Rattle.metric_rules.specs.Distance.{distance, space_of};
ghost use Rattle.search_rules.specs.Range.{ordered};
ghost use Rattle.image_entries.specs.Entries.{IsEntry, measuredIn, laid_out, laid_from};
ghost use Rattle.image_read.specs.Slots.{slot_in};

use entry_sort::sort_entries;
use image_entries::PLACES;
use image_read::Slots;
use metric::distance_between;
use metric_rules::Row;
use search_rules::Entry;

// The place of the entry with the least first word. The steps here are those of tree_arrange over another layout: there
// a row is moved, here an entry that names an image's slot. Each is a line or two.
fn least_at(entries: &[Entry]) -> usize
    requires { 1 ≤ length entries.now }
    ensures { (result < length entries.now)
        × All (λ e. get_or (get_or entries.now result []) 0 0 ≤ get_or e 0 0) entries.now }
{
    let mut at = 0;
    for (i, entry) in entries.iter().enumerate() {
        if entry[0] < entries[at][0] {
            at = i;
        }
    }
    at
}

// The entries with the distance of each one's slot from v.
fn measure(slots: Slots, header: &Row, v: Row, entries: &mut [Entry])
    requires { All (IsEntry (slot_in slots) slots.count) entries.old }
    ensures { entries.new ≡ map (measuredIn (slot_in slots.entry) (distance (space_of header.now)) v) entries.old }
{
    for entry in entries.iter_mut() {
        let row = slots.slot((entry[0] % PLACES) as usize);
        *entry = [entry[0], u64::from(distance_between(header, v, row))];
    }
}

// The entries with their distances from v, in order.
fn sort_from(slots: Slots, header: &Row, v: Row, entries: &mut [Entry])
    requires { All (IsEntry (slot_in slots) slots.count) entries.old }
    ensures { let measured = measuredIn (slot_in slots.entry) (distance (space_of header.now)) v in
        entries.new ≡ ordered (map measured entries.old) }
{
    measure(slots, header, v, entries);
    sort_entries(entries);
}

// A part's entries arranged: the first slot's, and the others in order of their distance from it.
pub fn arrange(slots: Slots, header: &Row, entries: &mut [Entry])
    requires { (1 ≤ length entries.old) × All (IsEntry (slot_in slots) slots.count) entries.old }
    ensures laid { laid_from (slot_in slots.entry) (distance (space_of header.now)) entries.new
        ≡ laid_out (slot_in slots.entry) (distance (space_of header.now)) entries.old }
    ensures kept { All (IsEntry (slot_in slots.entry) slots.entry.count) entries.new }
{
    let least = least_at(entries);
    entries.swap(0, least);
    let v = slots.slot((entries[0][0] % PLACES) as usize);
    sort_from(slots, header, v, &mut entries[1..]);
}
