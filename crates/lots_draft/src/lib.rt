// The drafting of a table's live items by one radius, over entries of their places by tag. An entry's second word is
// the number of its lot, 0 where it has none yet: the entries are two words of the lent work area, with no room for an
// Option.
#![tactic(auto)]

ghost use Rattle.std.specs.Prelude.{◌≡◌, ◌+◌, ◌-◌, ◌≤◌, ◌<◌, length, replicate};
ghost use mathlib.Core.List.{map, ◌++◌, Permᴰ};
ghost use Rattle.lists.specs.Lists.{All, select};
ghost use Rattle.metric_rules.specs.Distance.{space_of};
ghost use Rattle.search_rules.specs.Range.{ordered};
ghost use Rattle.table_rules.specs.Geometry.{most_order, room};
ghost use Rattle.table_rules.specs.Search.{zero_entry};
ghost use Rattle.lots_rules.specs.Lots.{summary_of, numbered};
ghost use Rattle.lots_draft.specs.Leading.{place_of, Placed, joins, followed, without_lot, place_lots, entries_led};
ghost use Rattle.lots_draft.specs.Leading.{draft_led, tag_lot};

use entry_sort::sort_entries;
use lots_rules::Summary;
use metric::distance_between;
use metric_rules::Row;
use rows::tag_of;
use search_reply::zero_entries;
use search_rules::Entry;

// What a drafting has come to: the number of lots so far, and the size of the largest.
#[derive(Clone, Copy)]
pub struct Draft {
    pub lots: usize,
    pub largest: usize,
}

// What a drafting goes by: a table's rows, the header row, and a radius.
#[derive(Clone, Copy)]
struct Drafting<'a> {
    table: &'a [Row],
    header: &'a Row,
    radius: u32,
}

impl Drafting<'_> {
    // Whether an entry has no lot yet and its item is within the radius of the leader.
    fn joins(self, leader: Row, e: Entry) -> bool
        requires { place_of e < length self.table.now }
        ensures { let by = self.entry in
            result ≡ joins by.table.now (space_of by.header.now) by.radius leader e }
    {
        if e[1] != 0 {
            return false;
        }
        let at = e[0] as usize;
        distance_between(self.header, leader, self.table[at]) <= self.radius
    }

    // Every entry that joins the leader gets the lot's number. The reply is how many do.
    fn follow(self, leader: Row, entries: &mut [Entry], lot: u64) -> usize
        requires { All (Placed self.table.now) entries.old }
        ensures { let t = self.entry.table.now in
            let space = space_of self.entry.header.now in
            let radius = self.entry.radius in
            let before = entries.old in
            (result ≡ length (select (joins t space radius leader) before))
            × (entries.new ≡ map (followed t space radius leader lot) before) }
    {
        let mut size = 0;
        for e in entries.iter_mut() {
            if self.joins(leader, *e) {
                *e = [e[0], lot];
                size += 1;
            }
        }
        size
    }

    // The first entry: without a lot it leads the next one, which those of the others that join it follow.
    fn lead_next(self, entries: &mut [Entry], drafted: Draft) -> Draft
        requires { (0 < length entries.old)
            × All (Placed self.table.now) entries.old
            × (drafted.lots + length entries.old ≤ room most_order) }
        ensures { let t = self.entry.table.now in
            let space = space_of self.entry.header.now in
            let radius = self.entry.radius in
            (result ≡ draft_led t space radius drafted entries.old)
            × (entries.new ≡ entries_led t space radius drafted entries.old) }
    {
        let first = entries[0];
        if first[1] != 0 {
            return drafted;
        }
        let at = first[0] as usize;
        let leader = self.table[at];
        let lots = drafted.lots + 1;
        let others = self.follow(leader, &mut entries[1..], lots as u64);
        entries[0] = [first[0], lots as u64];
        Draft {
            lots,
            largest: drafted.largest.max(1 + others),
        }
    }
}

// No entry has a lot.
fn clear_lots(entries: &mut [Entry])
    ensures { entries.new ≡ map without_lot entries.old }
{
    for e in entries.iter_mut() {
        *e = [e[0], 0];
    }
}

// The entries drafted by a radius: each gets its lot's number, and the places stay. The reply is the number of lots and
// the size of the largest.
pub fn draft_by(table: &[Row], header: &Row, entries: &mut [Entry], radius: u32) -> Summary
    requires { All (Placed table.now) entries.old × (length entries.old ≤ room most_order) }
    ensures { let places = map place_of entries.old in
        let after = entries.new in
        let lots = place_lots table.now (space_of header.now) radius places in
        (result ≡ summary_of lots)
        × (Permᴰ after (numbered (λ q. q) 1 lots)
        × (map place_of after ≡ places)) }
{
    clear_lots(entries);
    let by = Drafting {
        table,
        header,
        radius,
    };
    let mut drafted = Draft {
        lots: 0,
        largest: 0,
    };
    for i in 0..entries.len() {
        drafted = by.lead_next(&mut entries[i..], drafted);
    }
    [drafted.lots as u32, drafted.largest as u32]
}

// The tag and the lot of every entry.
fn name_lots(table: &[Row], entries: &[Entry], listing: &mut [Entry])
    requires { All (Placed table.now) entries.now × (length listing.old ≡ length entries.now) }
    ensures { listing.new ≡ map (tag_lot table.now) entries.now }
{
    for (i, e) in entries.iter().enumerate() {
        let at = e[0] as usize;
        listing[i] = [tag_of(table[at]), e[1]];
    }
}

// The tag and the lot of every entry, by lot, then tag.
fn sort_lots(table: &[Row], entries: &[Entry], listing: &mut [Entry])
    requires { All (Placed table.now) entries.now × (length listing.old ≡ length entries.now) }
    ensures { listing.new ≡ ordered (map (tag_lot table.now) entries.now) }
{
    name_lots(table, entries, listing);
    sort_entries(listing);
}

// The same at the front of the listing, and zeros to its end.
pub fn list_lots(table: &[Row], entries: &[Entry], listing: &mut [Entry])
    requires { All (Placed table.now) entries.now × (length entries.now ≤ length listing.old) }
    ensures { let es = entries.now in
        let told = ordered (map (tag_lot table.now) es) in
        listing.new ≡ told ++ replicate (length listing.old - length es) zero_entry }
{
    let n = entries.len();
    sort_lots(table, entries, &mut listing[..n]);
    zero_entries(&mut listing[n..]);
}
