// The live items of a table as entries in the work area, each its place in the table and its tag, by tag.
#![tactic(auto)]

ghost use Rattle.std.specs.Prelude.{◌≡◌, map, ◌+◌, ◌-◌, ◌≤◌, length, take};
ghost use Rattle.std.proofs.lemmas.List.Edits.{sets};
ghost use Rattle.lots_gather.specs.Places.{live_places, all_places, places_by_tag, place_entry};

use entry_sort::sort_entries;
use metric_rules::Row;
use rows::{is_live, tag_of};
use search_rules::Entry;
use table_checks::Checked;

// The live ones of the table's rows from `first` to before `end`, behind the first n entries. The reply is the number
// of entries there now. Of a live row image_test keeps its tag and place in one word, and table_buckets the row: the
// walk is four lines, and what is kept differs.
fn enter_live(table: &[Row], first: usize, end: usize, entries: &mut [Entry], n: usize) -> usize
    requires { (first ≤ end)
        × (end ≤ length table.now)
        × (n + length (live_places table.now first (end - first)) ≤ length entries.old) }
    ensures { let places = live_places table.now first (end - first) in
        (result ≡ n + length places) × (entries.new ≡ sets entries.old n (map (place_entry table.now) places)) }
{
    let mut found = n;
    for at in first..end {
        let row = table[at];
        if is_live(row) {
            entries[found] = [at as u64, tag_of(row)];
            found += 1;
        }
    }
    found
}

// The live items of every bucket, from bucket 0 up, at the front of the entries. The reply is their number.
fn enter_buckets(table: Checked<'_>, entries: &mut [Entry]) -> usize
    requires { length (all_places table.rows.now) ≤ length entries.old }
    ensures { let t = table.entry.rows.now in
        (result ≡ length (all_places t)) × (entries.new ≡ sets entries.old 0 (map (place_entry t) (all_places t))) }
{
    let mut found = 0;
    for k in 0..table.order.buckets() {
        let first = table.order.first_slot(k);
        let end = first + table.built(k) as usize;
        found = enter_live(table.rows, first, end, entries, found);
    }
    found
}

// The places of the live items by tag, equal tags by bucket, then slot, at the front of the entries. The reply is their
// number.
pub fn enter_by_tag(table: Checked<'_>, entries: &mut [Entry]) -> usize
    requires { length (all_places table.rows.now) ≤ length entries.old }
    ensures { let t = table.entry.rows.now in
        (result ≡ length (places_by_tag t)) × (take result entries.new ≡ map (place_entry t) (places_by_tag t)) }
{
    let n = enter_buckets(table, entries);
    sort_entries(&mut entries[..n]);
    n
}
