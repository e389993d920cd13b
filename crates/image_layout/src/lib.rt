// The test of a bucket of an image with a slice of entries: the first slot whose tag an earlier one has, or that is not
// what the layout puts there.
#![tactic(auto)]

ghost use Rattle.std.specs.Prelude.{◌≡◌, ◌+◌, ◌≤◌, ◌<◌, [], ◌∷◌, length, take, drop, get_or};
ghost use Rattle.lists.specs.Lists.{All};
ghost use Rattle.metric_rules.specs.Distance.{distance, space_of};
ghost use Rattle.tree_rules.specs.Layout.{placed};
ghost use Rattle.image_rules.specs.Trees.{same_item, place_refusal, first_refused};
ghost use Rattle.image_entries.specs.Entries.{places, entry_place, last_of, IsEntry, TagsFit, first_laid, partFault};
ghost use Rattle.image_entries.specs.Faults.{loaded_of, tree_fault};
ghost use Rattle.image_read.specs.Slots.{slot_in, slots_at};

use image_arrange::arrange;
use image_entries::{Fault, PLACES, duplicate_fault, earlier, enter_slots};
use image_read::Slots;
use metric_rules::{MARK_AT, Row, THRESHOLD_AT};
use refusals::Refusal;
use rows::threshold_of;
use search_rules::Entry;

// A row's item: its other words, with threshold and mark 0.
fn item_of(mut row: Row) -> Row
    ensures { result ≡ placed 0 row }
{
    row[THRESHOLD_AT] = 0;
    row[MARK_AT] = 0;
    row
}

// Whether slots i and j hold one item. In an image that is right they are one slot, and no word is compared.
fn same_item(slots: Slots, i: usize, j: usize) -> bool
    requires { (i < slots.count) × (j < slots.count) }
    ensures { result ≡ same_item (slot_in slots.entry i) (slot_in slots.entry j) }
{
    i == j || item_of(slots.slot(i)) == item_of(slots.slot(j))
}

// The distance of the last of l entries behind the first, or 0 where l is 0.
fn last_distance(entries: &[Entry], l: usize) -> u64
    requires { l < length entries.now }
    ensures { result ≡ last_of (take l (drop 1 entries.now)) }
{
    if l == 0 { 0 } else { entries[l][1] }
}

// Slot `place` beside the row that an arranged part puts first: another item 37, another threshold 38.
fn first_check(slots: Slots, entries: &[Entry], place: usize) -> Result<(), Fault>
    requires { (slots.first + slots.count ≤ places)
        × (place < slots.count)
        × (1 ≤ length entries.now)
        × (entry_place (get_or entries.now 0 []) < slots.count) }
    ensures { loaded_of result ≡ first_refused (slots.entry.first + place)
        (place_refusal (first_laid (slot_in slots.entry) entries.now) (slot_in slots.entry place) ∷ []) }
{
    let slot = (slots.first + place) as u32;
    let laid = (entries[0][0] % PLACES) as usize;
    if !same_item(slots, laid, place) {
        let refusal = Refusal::MisplacedItem;
        return Err(Fault { refusal, slot });
    }
    let threshold = threshold_of(slots.slot(place));
    if last_distance(entries, entries.len() / 2) != u64::from(threshold) {
        let refusal = Refusal::BadThreshold;
        return Err(Fault { refusal, slot });
    }
    Ok(())
}

// The first slot from `place` on that is not what the layout of a part's entries puts there. What the part holds then
// is left free: it keeps its length, and its entries are needed no more.
fn first_fault(slots: Slots, header: &Row, entries: &mut [Entry], place: usize) -> Result<(), Fault>
    requires { (slots.first + slots.count ≤ places)
        × (place + length entries.old ≤ slots.count)
        × All (IsEntry (slot_in slots) slots.count) entries.old }
    ensures { loaded_of result
        ≡ partFault (slot_in slots.entry) (distance (space_of header.now)) slots.entry.first place entries.old }
{
    let n = entries.len();
    if n == 0 {
        return Ok(());
    }
    arrange(slots, header, entries);
    first_check(slots, entries, place)?;
    let end = 1 + n / 2;
    first_fault(slots, header, &mut entries[1..end], place + 1)?;
    first_fault(slots, header, &mut entries[end..], place + end)
}

// The first fault of a bucket's tree, 36 before 37 and 38 in a slot. What `entries` holds then is left free; it keeps
// its length.
pub fn tree_fault(slots: Slots, header: &Row, entries: &mut [Entry]) -> Result<(), Fault>
    requires { (slots.first + slots.count ≤ places)
        × (length entries.old ≡ slots.count)
        × TagsFit (slot_in slots) slots.count }
    ensures { loaded_of result ≡ tree_fault (space_of header.now) slots.entry.first (slots_at slots.entry) }
{
    enter_slots(slots, entries);
    let tags = duplicate_fault(entries, slots.first);
    let layout = first_fault(slots, header, entries, 0);
    earlier(tags, layout)
}
