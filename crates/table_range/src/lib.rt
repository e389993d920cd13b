// Range over a table: buckets from the top down, hits collected over all of them, one sort at the end.
#![tactic(auto)]

ghost use Rattle.std.specs.Prelude.{◌≡◌, ◌++◌, ◌-◌, ◌≤◌, ◌<◌, ◌^◌, suc, length, take, replicate, IfOk};
ghost use Rattle.lists.specs.Lists.{All};
ghost use Rattle.search_rules.specs.Range.{Pair, ordered};
ghost use Rattle.tree_range.specs.Collected.{found_after, collected};
ghost use Rattle.table_rules.specs.Refusals.{no_room};
ghost use Rattle.table_rules.specs.Search.{zero_entry, range_reply, result_after_range};
ghost use Rattle.refusals.specs.Number.{refusal_in};
ghost use Rattle.table_range.specs.Asking.{asking_refusal};
ghost use Rattle.table_range.specs.Below.{met_below, none_found};

use entry_sort::sort_entries;
use metric_rules::{Profile, Row};
use refusals::Refusal;
use search_asked::{Asked, asked_of};
use search_reply::{refused, too_short, zero_behind};
use search_rules::Entry;
use table_checks::{Checked, read_check};
use table_rules::Searched;
use table_views::HEADER_ROW;
use tree_range::{Found, range_tree};
use validity::valid_measures;

// What all buckets meet, the highest first.
fn range_buckets(table: Checked<'_>, area: &mut [Entry], asked: &Asked) -> Found
    ensures reply { let t = table.entry in
        result ≡ found_after none_found (met_below asked.now t.rows.now (suc t.order.t)) }
    ensures area { let t = table.entry in
        area.new ≡ collected area.old none_found (met_below asked.now t.rows.now (suc t.order.t)) }
    ensures few { (result.hits < 2 ^ 32) × (result.count < 2 ^ 32) }
{
    let mut found = Found { hits: 0, count: 0 };
    for k in (0..table.order.buckets()).rev() {
        found = range_tree(found, table.slots(k), area, asked);
    }
    found
}

// The first n entries of an area in order, and zeros after them.
pub fn put_in_order(area: &mut [Entry], n: usize)
    requires { n ≤ length area.old }
    ensures { All Pair (take n area.old)
        → area.new ≡ ordered (take n area.old) ++ replicate (length area.old - n) zero_entry }
{
    sort_entries(&mut area[..n]);
    zero_behind(area, n);
}

// The reply of a range search that found these hits: in order, with zeros after them, where the area holds them all.
fn reply_with(area: &mut [Entry], found: Found) -> Searched
    requires { (found.hits < 2 ^ 32) × (found.count < 2 ^ 32) }
    ensures held { found.hits ≤ length area.old
        → result ≡ record { refusal = 0; found = found.hits; distances = found.count } }
    ensures sorted { found.hits ≤ length area.old
        → All Pair (take found.hits area.old)
        → area.new ≡ ordered (take found.hits area.old) ++ replicate (length area.old - found.hits) zero_entry }
    ensures short { length area.old < found.hits
        → (result ≡ record { refusal = no_room; found = 0; distances = 0 })
        × (area.new ≡ replicate (length area.old) zero_entry) }
{
    let n = found.hits;
    if area.len() < n {
        return too_short(area);
    }
    put_in_order(area, n);
    Searched {
        refusal: 0,
        found: n as u32,
        distances: found.count as u32,
    }
}

// What a range search goes on with: what the table's tests pass, and then measures that are valid. A query's profile,
// radius and first day go on as C's call has them, until they are a row.
fn range_check(table: &[Row], query: Profile) -> Result<Checked<'_>, Refusal>
    ensures refusal { refusal_in result ≡ asking_refusal table.now query }
    ensures rows { IfOk result (λ checked. checked.rows.now ≡ table.now) }
{
    let checked = read_check(table)?;
    if !valid_measures(query) {
        return Err(Refusal::BadMeasure);
    }
    Ok(checked)
}

// RULES 11, range over a table: every value of every argument, a table and an area of any length and content.
pub fn range(
    table: &[Row],
    res: &mut [Entry],
    query: Profile,
    radius: u32,
    first_day: u32,
) -> Searched
    ensures reply { result ≡ range_reply table.now res.old query radius first_day }
    ensures area { res.new ≡ result_after_range table.now res.old query radius first_day }
{
    match range_check(table, query) {
        Err(refusal) => refused(u32::from(refusal)),
        Ok(table) => {
            let asked = asked_of(table.rows[HEADER_ROW], query, radius, first_day);
            let found = range_buckets(table, res, &asked);
            reply_with(res, found)
        }
    }
}
