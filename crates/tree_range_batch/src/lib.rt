// Range for several queries over one tree: a slot is read once and compared with each query that would visit it, and
// each half is entered with those whose test lets them in. Each query's hits go to its own part of the area.
#![tactic(auto)]

ghost use Rattle.std.specs.Prelude.{◌≡◌, ◌&&◌, [], ◌∷◌, ℕ, ◌+◌, ◌/◌, ◌<◌, ◌^◌, length};
ghost use Rattle.metric_rules.specs.Row.{may_report, threshold_of};
ghost use Rattle.tree_range.specs.Collected.{met_alone, range_asked};
ghost use Rattle.tree_range_batch.specs.Together.{is_on, Lowest, bit_if, only, asked_at, goes_left_at, goes_right_at};
ghost use Rattle.tree_range_batch.specs.Together.{hits_alone, alone_on, hits_on, count_on, hits_in_halves};
ghost use Rattle.tree_range_batch.specs.Together.{count_in_halves, Parts, Fewer, Collects, Room, Rooms, Collected};

use metric::distance_between;
use metric_rules::Row;
use rows::{tag_of, threshold_of};
use search_asked::may_report;
use search_rules::Entry;
use tree_range::{Found, range_tree};

// What a batch goes by: the table's header row, and each query as a row, as a single search has them.
pub type Batch = [Row; 17];

// How many hits each query has found.
pub type Numbers = [usize; 16];

// The queries that enter the left half below a slot, and those that enter the right half. A set of queries is a number,
// whose bit j says whether query j is in it.
#[derive(Clone, Copy)]
struct Ways {
    left: u32,
    right: u32,
}

// Where the hits go: each query has a part of the area, all parts of one size, and a number of the hits that it found.
#[derive(Drop)]
struct Hits<'a> {
    part: usize,
    area: &'a mut [Entry],
    found: &'a mut Numbers,
}

impl Hits<'_> {
    // A hit of query j goes behind those that it found before, where its part of the area has room.
    fn put(&mut self, j: usize, hit: Entry)
        requires { Room j 0 self.old }
        ensures { Collected self.old (only j (hit ∷ [])) self.new }
    {
        let at = self.found[j];
        self.found[j] = at + 1;
        if at < self.part {
            self.area[j * self.part + at] = hit;
        }
    }
}

// A slot at distance d from query j: whether it is a hit.
fn meet_query(j: usize, row: Row, d: u32, query: &Row, hits: &mut Hits)
    requires { Room j 0 hits.old }
    ensures { Collected hits.old
        (only j (met_alone (may_report query.now) row d (threshold_of query.now)).hits) hits.new }
{
    if may_report(query, row) & (d <= threshold_of(*query)) {
        hits.put(j, [tag_of(row), d as u64]);
    }
}

#[tactic(auto, unfolding(crate::specs::Together::bit_if))]
fn bit_if(test: bool, bit: u32) -> u32
    ensures { result ≡ bit_if test bit }
{
    if test { bit } else { 0 }
}

// A slot and query j, whose bit is given: its hit, and the halves that the query enters. Both sums are exact.
fn compare(j: usize, bit: u32, row: Row, hits: &mut Hits, batch: &Batch) -> Ways
    requires { Room j 0 hits.old }
    ensures ways { (result.left ≡ bit_if (goes_left_at batch.now row j) bit)
        × (result.right ≡ bit_if (goes_right_at batch.now row j) bit) }
    ensures hits { Collected hits.old (only j (hits_alone batch.now row j)) hits.new }
{
    let at = j + 1;
    let d = distance_between(&batch[0], row, batch[at]);
    meet_query(j, row, d, &batch[at], hits);
    let m = threshold_of(row);
    let radius = threshold_of(batch[at]);
    Ways {
        left: bit_if(d as u64 <= m as u64 + radius as u64, bit),
        right: bit_if(m as u64 <= d as u64 + radius as u64, bit),
    }
}

// The lowest query of a set that is not empty: in one step, however many are not in it.
fn lowest_of(set: u32) -> u32
    requires { (set < 2 ^ 16) × (set ≡ 0 → ⊥) }
    ensures { Lowest set result }
{
    set.trailing_zeros()
}

// The bit of query j.
fn bit_of(j: usize) -> u32
    requires { j < 16 }
    ensures { result ≡ 2 ^ j }
{
    1u32 << j
}

// What is left of a set behind this query, from the one after it on.
fn behind(set: u32, last: u32) -> u32
    requires { last < 16 }
    ensures { result ≡ set / 2 ^ last / 2 }
{
    (set >> last) / 2
}

// A slot and all queries of the set, the lowest first.
fn compare_each(on: u32, row: Row, hits: &mut Hits, batch: &Batch) -> Ways
    requires { (on < 2 ^ 16) × Rooms on 1 hits.old }
    ensures ways { ((j : ℕ) → is_on result.left j ≡ (is_on on j && goes_left_at batch.now row j))
        × ((j : ℕ) → is_on result.right j ≡ (is_on on j && goes_right_at batch.now row j)) }
    ensures sizes { (result.left < 2 ^ 16) × (result.right < 2 ^ 16) }
    ensures hits { Collected hits.old (alone_on batch.now on row) hits.new }
{
    let mut left = 0;
    let mut right = 0;
    let mut rest = on;
    let mut next = 0;
    // It goes by the bits that are set, and not by an index: a `for` over 16 queries would ask each whether it is in.
    while rest != 0 {
        let skipped = lowest_of(rest);
        let j = next + skipped as usize;
        let ways = compare(j, bit_of(j), row, hits, batch);
        left += ways.left;
        right += ways.right;
        rest = behind(rest, skipped);
        next = j + 1;
    }
    Ways { left, right }
}

// Where one query is left, its single search goes on, in its own part of the area.
fn range_alone(count: usize, j: usize, slots: &[Row], hits: &mut Hits, batch: &Batch) -> usize
    requires { Room j (length slots.now) hits.old × (count + length slots.now < 2 ^ 32) }
    ensures reply { result ≡ count + (range_asked (asked_at batch.now j) slots.now).count }
    ensures hits { Collected hits.old (only j (range_asked (asked_at batch.now j) slots.now).hits) hits.new }
{
    let asked = [batch[0], batch[j + 1]];
    let from = j * hits.part;
    let to = from + hits.part;
    let found = hits.found[j];
    let met = range_tree(
        Found { hits: found, count },
        slots,
        &mut hits.area[from..to],
        &asked,
    );
    hits.found[j] = met.hits;
    met.count
}

// The slots of one tree, for the queries of a set that is not empty. The reply is the count.
pub fn range_together(
    count: usize,
    on: u32,
    slots: &[Row],
    part: usize,
    area: &mut [Entry],
    found: &mut Numbers,
    batch: &Batch,
) -> usize
    requires { (on < 2 ^ 16)
        × (on ≡ 0 → ⊥)
        × Parts part on area.old
        × Fewer (length slots.now) found.old
        × (count + length slots.now < 2 ^ 32)
        × (length batch.now ≡ 17) }
    ensures reply { result ≡ count + count_on batch.now on slots.now }
    ensures hits { Collects part (hits_on batch.now on slots.now) found.old area.old found.new area.new }
{
    let mut hits = Hits { part, area, found };
    tree_together(count, on, slots, &mut hits, batch)
}

// One query alone goes by its single search, and more by the first slot, and then its halves.
#[cycle(halves_together_tree_together)]
fn tree_together(count: usize, on: u32, slots: &[Row], hits: &mut Hits, batch: &Batch) -> usize
    requires { (on < 2 ^ 16)
        × (on ≡ 0 → ⊥)
        × Rooms on (length slots.now) hits.old
        × (count + length slots.now < 2 ^ 32)
        × (length batch.now ≡ 17) }
    ensures reply { result ≡ count + count_on batch.now on slots.now }
    ensures hits { Collected hits.old (hits_on batch.now on slots.now) hits.new }
{
    if slots.is_empty() {
        return count;
    }
    let first = lowest_of(on);
    if behind(on, first) == 0 {
        return range_alone(count, first as usize, slots, hits, batch);
    }
    let ways = compare_each(on, slots[0], hits, batch);
    halves_together(count + 1, ways, &slots[1..], hits, batch)
}

// The halves below a slot, each where it has slots and some query enters it.
#[cycle(halves_together_tree_together)]
fn halves_together(count: usize, ways: Ways, rest: &[Row], hits: &mut Hits, batch: &Batch) -> usize
    requires { (ways.left < 2 ^ 16)
        × (ways.right < 2 ^ 16)
        × Rooms ways.left (length rest.now) hits.old
        × Rooms ways.right (length rest.now) hits.old
        × (count + length rest.now < 2 ^ 32)
        × (length batch.now ≡ 17) }
    ensures reply { result ≡ count + count_in_halves batch.now ways.left ways.right rest.now }
    ensures hits { Collected hits.old (hits_in_halves batch.now ways.left ways.right rest.now) hits.new }
{
    let l = rest.len() - rest.len() / 2;
    let left = ways.left;
    let right = ways.right;
    let mut met = count;
    if (0 < l) & (left != 0) {
        met = tree_together(met, left, &rest[..l], hits, batch);
    }
    if (l < rest.len()) & (right != 0) {
        met = tree_together(met, right, &rest[l..], hits, batch);
    }
    met
}
