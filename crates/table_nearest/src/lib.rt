// Nearest over a table: buckets from the top down, the count and the bound going through all of them, the entries kept
// standing in the area.
#![tactic(auto)]

ghost use Rattle.std.specs.Prelude.{◌≡◌, ◌≤◌, ◌<◌, min, suc, leb, length, IfOk};
ghost use Rattle.metric_rules.specs.Row.{may_report};
ghost use Rattle.search_asked.specs.Asked.{reports_asked, k_asked};
ghost use Rattle.tree_nearest.specs.Nearby.{Leaves, reported_in, ReadyAsked, nearest_asked};
ghost use Rattle.table_rules.specs.Search.{nearest_reply, result_after_nearest};
ghost use Rattle.refusals.specs.Number.{refusal_in};
ghost use Rattle.table_nearest.specs.Asking.{asking_refusal};
ghost use Rattle.table_nearest.specs.Tallies.{none_kept, reported_below, tally_below};

use metric_rules::{Profile, Row};
use refusals::Refusal;
use rows::threshold_of;
use search_asked::{Asked, asked_of, may_report};
use search_reply::{accepted, refused, too_short};
use search_rules::Entry;
use table_checks::{Checked, read_check};
use table_rules::Searched;
use table_views::HEADER_ROW;
use tree_nearest::{Nearby, UNBOUNDED, kept_under};
use tree_nearest_tally::visited;
use validity::valid_measures;

// How many of these slots a search by this query may report.
fn count_reported(slots: &[Row], query: &Row) -> usize
    ensures { result ≡ reported_in (may_report query.now) slots.now }
{
    let mut found: usize = 0;
    for row in slots {
        if may_report(query, *row) {
            found += 1;
        }
    }
    found
}

// How many slots of all buckets it may report.
fn count_all_reported(table: Checked<'_>, query: &Row) -> usize
    ensures { let t = table.entry in
        result ≡ reported_below (may_report query.now) t.rows.now (suc t.order.t) }
{
    let mut found: usize = 0;
    for bucket in (0..table.order.buckets()).rev() {
        found += count_reported(table.slots(bucket), query);
    }
    found
}

// Whether so many entries hold the reply. Those of a shorter area than k are counted beforehand, so that a search has
// room for all that it keeps.
fn reply_fits(table: Checked<'_>, entries: usize, asked: &Asked) -> bool
    ensures { let t = table.entry in
        let reported = reported_below (reports_asked asked.now) t.rows.now (suc t.order.t) in
        result ≡ leb (min (k_asked asked.now) reported) entries }
{
    if threshold_of(asked[1]) as usize <= entries {
        return true;
    }
    count_all_reported(table, &asked[1]) <= entries
}

// One bucket's slots, from what the buckets above it have kept, by way of the tally that is lent. An empty bucket is
// searched as no slots.
fn nearest_bucket(near: Nearby, slots: &[Row], area: &mut [Entry], asked: &Asked) -> Nearby
    requires { ReadyAsked asked.now slots.now area.old near }
    ensures { Leaves (k_asked asked.now) (nearest_asked asked.now slots.now area.old near) area.old area.new result }
{
    if slots.len() == 0 {
        return near;
    }
    visited(near, slots, area, asked)
}

// All buckets, the highest first.
fn nearest_buckets(table: Checked<'_>, area: &mut [Entry], asked: &Asked) -> Nearby
    requires some { 0 < k_asked asked.now }
    requires room { let reported = reported_below (reports_asked asked.now) table.rows.now (suc table.order.t) in
        min (k_asked asked.now) reported ≤ length area.old }
    ensures { let t = table.entry in
        let tally = tally_below asked.now t.rows.now (suc t.order.t) none_kept in
        Leaves (k_asked asked.now) tally area.old area.new result }
{
    let mut near = Nearby {
        count: 0,
        bound: UNBOUNDED,
    };
    for bucket in (0..table.order.buckets()).rev() {
        near = nearest_bucket(near, table.slots(bucket), area, asked);
    }
    near
}

// What a nearest search goes on with: what the table's tests pass, measures that are valid, and an item asked for. A
// query's profile, k and first day go on as C's call has them, until they are a row.
fn nearest_check(table: &[Row], query: Profile, k: u32) -> Result<Checked<'_>, Refusal>
    ensures refusal { refusal_in result ≡ asking_refusal table.now query k }
    ensures rows { IfOk result (λ checked. checked.rows.now ≡ table.now) }
{
    let checked = read_check(table)?;
    if !valid_measures(query) {
        return Err(Refusal::BadMeasure);
    }
    if k == 0 {
        return Err(Refusal::NoCount);
    }
    Ok(checked)
}

// RULES 11, nearest over a table: every value of every argument, a table and an area of any length and content.
pub fn nearest(table: &[Row], res: &mut [Entry], query: Profile, k: u32, first_day: u32) -> Searched
    ensures reply { result ≡ nearest_reply table.now res.old query k first_day }
    ensures area { res.new ≡ result_after_nearest table.now res.old query k first_day }
{
    let table = match nearest_check(table, query, k) {
        Err(refusal) => return refused(u32::from(refusal)),
        Ok(table) => table,
    };
    let asked = asked_of(table.rows[HEADER_ROW], query, k, first_day);
    if !reply_fits(table, res.len(), &asked) {
        return too_short(res);
    }
    let near = nearest_buckets(table, res, &asked);
    accepted(res, kept_under(near.bound, k), near.count)
}
