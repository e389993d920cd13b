// Range over one tree: the slots are visited, hits are collected in the area as far as it goes, and both are counted.
#![tactic(auto)]

ghost use Rattle.std.specs.Prelude.{◌≡◌, ◌≤◌, ◌<◌, length};
ghost use Rattle.metric_rules.specs.Row.{threshold_of, may_report};
ghost use Rattle.search_asked.specs.Asked.{distance_asked, query_asked, reports_asked, radius_asked};
ghost use Rattle.tree_leaf.specs.Leaf.{distances_asked};
ghost use Rattle.tree_range.specs.Collected.{Room, found_after, collected, met_alone, met_in_halves, range_asked};

use metric::distance_between;
use metric_rules::Row;
use rows::{tag_of, threshold_of};
use search_asked::{Asked, may_report};
use search_rules::Entry;
use tree_leaf::{distances_of, passed_over};

// What a range search hands on: how many hits it found, and how many slots it visited.
#[derive(Clone, Copy)]
pub struct Found {
    pub hits: usize,
    pub count: usize,
}

// A slot alone, at distance d from the query: a hit is put behind those found before, where the area has room.
fn meet(found: Found, row: &Row, d: u64, query: &Row, area: &mut [Entry]) -> Found
    requires { Room found 1 }
    ensures reply { result ≡ found_after found (met_alone (may_report query.now) row.now d (threshold_of query.now)) }
    ensures area { area.new ≡ collected area.old found (met_alone (may_report query.now) row.now d (threshold_of query.now)) }
{
    let counted = Found {
        count: found.count + 1,
        ..found
    };
    let radius = threshold_of(*query) as u64;
    if radius < d {
        return counted;
    }
    if !may_report(query, *row) {
        return counted;
    }
    let at = found.hits;
    if at < area.len() {
        area[at] = [tag_of(*row), d];
    }
    Found {
        hits: at + 1,
        ..counted
    }
}

// The slots of one tree: up to seven at once, more slot by slot. The counts go first and what never changes goes behind
// one reference, so that a call passes nearly all in registers.
#[cycle(range_halves_range_slots_range_tree)]
pub fn range_tree(found: Found, slots: &[Row], area: &mut [Entry], asked: &Asked) -> Found
    requires { Room found (length slots.now) }
    ensures reply { result ≡ found_after found (range_asked asked.now slots.now) }
    ensures area { area.new ≡ collected area.old found (range_asked asked.now slots.now) }
{
    if slots.is_empty() {
        return found;
    }
    if slots.len() < 8 {
        return range_leaf(found, slots, area, asked);
    }
    range_slots(found, slots, area, asked)
}

// Eight slots or more: the first slot, and then its halves.
#[cycle(range_halves_range_slots_range_tree)]
fn range_slots(found: Found, slots: &[Row], area: &mut [Entry], asked: &Asked) -> Found
    requires { (0 < length slots.now) × Room found (length slots.now) }
    ensures reply { result ≡ found_after found (range_asked asked.now slots.now) }
    ensures area { area.new ≡ collected area.old found (range_asked asked.now slots.now) }
{
    let row = &slots[0];
    let d = distance_between(&asked[0], *row, asked[1]);
    let met = meet(found, row, d as u64, &asked[1], area);
    range_halves(met, &slots[1..], d, threshold_of(*row), area, asked)
}

// The halves below a slot at distance d from the query and of threshold m, each where its test lets it be entered. Both
// sums are exact.
#[cycle(range_halves_range_slots_range_tree)]
fn range_halves(
    found: Found,
    rest: &[Row],
    d: u32,
    m: u32,
    area: &mut [Entry],
    asked: &Asked,
) -> Found
    requires { Room found (length rest.now) }
    ensures reply { result ≡ found_after found (met_in_halves (distance_asked asked.now) (query_asked asked.now) (reports_asked asked.now) (radius_asked asked.now) d m rest.now) }
    ensures area { area.new ≡ collected area.old found (met_in_halves (distance_asked asked.now) (query_asked asked.now) (reports_asked asked.now) (radius_asked asked.now) d m rest.now) }
{
    let l = rest.len() - rest.len() / 2;
    let radius = threshold_of(asked[1]);
    let mut met = found;
    if d as u64 <= m as u64 + radius as u64 {
        met = range_tree(met, &rest[..l], area, asked);
    }
    if m as u64 <= d as u64 + radius as u64 {
        met = range_tree(met, &rest[l..], area, asked);
    }
    met
}

// One to seven slots: counted, where none of them is within the radius, or else visited by their distances.
fn range_leaf(found: Found, slots: &[Row], area: &mut [Entry], asked: &Asked) -> Found
    requires { (0 < length slots.now) × (length slots.now < 8) × Room found (length slots.now) }
    ensures reply { result ≡ found_after found (range_asked asked.now slots.now) }
    ensures area { area.new ≡ collected area.old found (range_asked asked.now slots.now) }
{
    let n = slots.len();
    let mut ds = [0u64; 8];
    let least = distances_of(slots, asked, &mut ds);
    let radius = threshold_of(asked[1]) as u64;
    if radius < least {
        let passed = passed_over(slots, &ds[..n], radius);
        return Found {
            count: found.count + passed,
            ..found
        };
    }
    range_seven(found, slots, &ds[..n], area, asked)
}

// One to three slots at these distances: each half is one slot at most.
fn range_three(found: Found, slots: &[Row], ds: &[u64], area: &mut [Entry], asked: &Asked) -> Found
    requires { (0 < length slots.now) × (length slots.now < 4) × (ds.now ≡ distances_asked asked.now slots.now) × Room found (length slots.now) }
    ensures reply { result ≡ found_after found (range_asked asked.now slots.now) }
    ensures area { area.new ≡ collected area.old found (range_asked asked.now slots.now) }
{
    let n = slots.len();
    let d = ds[0];
    let m = threshold_of(slots[0]) as u64;
    let radius = threshold_of(asked[1]) as u64;
    let mut met = meet(found, &slots[0], d, &asked[1], area);
    if (1 < n) & (d <= m + radius) {
        met = meet(met, &slots[1], ds[1], &asked[1], area);
    }
    if (2 < n) & (m <= d + radius) {
        met = meet(met, &slots[2], ds[2], &asked[1], area);
    }
    met
}

// One to seven slots at these distances: from four on each half is one to three.
fn range_seven(found: Found, slots: &[Row], ds: &[u64], area: &mut [Entry], asked: &Asked) -> Found
    requires { (0 < length slots.now) × (length slots.now < 8) × (ds.now ≡ distances_asked asked.now slots.now) × Room found (length slots.now) }
    ensures reply { result ≡ found_after found (range_asked asked.now slots.now) }
    ensures area { area.new ≡ collected area.old found (range_asked asked.now slots.now) }
{
    let n = slots.len();
    if n < 4 {
        return range_three(found, slots, ds, area, asked);
    }
    let r = n / 2 + 1;
    let d = ds[0];
    let m = threshold_of(slots[0]) as u64;
    let radius = threshold_of(asked[1]) as u64;
    let mut met = meet(found, &slots[0], d, &asked[1], area);
    if d <= m + radius {
        met = range_three(met, &slots[1..r], &ds[1..r], area, asked);
    }
    if m <= d + radius {
        met = range_three(met, &slots[r..], &ds[r..], area, asked);
    }
    met
}
