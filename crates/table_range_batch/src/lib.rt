// Range for several queries over a table: one visit of the buckets, from the top down, for all of them; then each part
// of the area is put in order.
#![tactic(auto)]

ghost use Rattle.std.specs.Prelude.{◌≡◌, true, false, ℕ, ◌+◌, ◌*◌, ◌≤◌, ◌<◌, ◌^◌, suc, length, take, get_or};
ghost use Rattle.std.specs.Prelude.{replicate, leb, IfOk};
ghost use Rattle.lists.specs.Lists.{All, every};
ghost use Rattle.metric_rules.specs.Row.{profile_of, IsProfile};
ghost use Rattle.metric_rules.specs.Validity.{valid_measures};
ghost use Rattle.search_rules.specs.Range.{Pair};
ghost use Rattle.tree_range_batch.specs.Together.{Parts, Fewer, Collects};
ghost use Rattle.table_rules.specs.Geometry.{most_order, room};
ghost use Rattle.table_rules.specs.Refusals.{no_room};
ghost use Rattle.table_rules.specs.Search.{zero_entry};
ghost use Rattle.batch_rules.specs.Batch.{queries_refusal, range_batch_reply, result_after_batch};
ghost use Rattle.refusals.specs.Number.{number_of, refusal_in};
ghost use Rattle.table_range_batch.specs.Asking.{asking_refusal};
ghost use Rattle.table_range_batch.specs.Below.{asked_row, batch_of, hits_below, count_below, hits_in, Ordered};
ghost use Rattle.table_range_batch.specs.Below.{InParts};

use batch_rules::{MOST_QUERIES, Ranges};
use metric_rules::Row;
use refusals::Refusal;
use rows::{day_of, profile_of, threshold_of};
use search_asked::query_row;
use search_reply::zero_entries;
use search_rules::Entry;
use table_checks::{Checked, read_check};
use table_range::put_in_order;
use table_views::HEADER_ROW;
use tree_range_batch::{Batch, Numbers, range_together};
use validity::valid_measures;

// A day has 16 bits.
const DAYS: u32 = 65536;

fn all_measures_valid(queries: &[Row]) -> bool
    ensures { result ≡ every (λ query. valid_measures (profile_of query)) queries.now }
{
    queries
        .iter()
        .all(|query| valid_measures(profile_of(*query)))
}

// 1 to 16 queries, and then valid measures in each.
fn queries_check(queries: &[Row]) -> Result<(), Refusal>
    ensures { refusal_in result ≡ queries_refusal queries.now }
{
    if (queries.len() == 0) | (MOST_QUERIES < queries.len()) {
        return Err(Refusal::BadBatch);
    }
    if !all_measures_valid(queries) {
        return Err(Refusal::BadMeasure);
    }
    Ok(())
}

// What a batch goes on with: what the table's tests pass, and then queries that pass theirs.
fn batch_check<'a>(table: &'a [Row], queries: &[Row]) -> Result<Checked<'a>, Refusal>
    ensures refusal { refusal_in result ≡ asking_refusal table.now queries.now }
    ensures rows { IfOk result (λ checked. checked.rows.now ≡ table.now) }
{
    let checked = read_check(table)?;
    queries_check(queries)?;
    Ok(checked)
}

// A query as a single search makes it a row.
fn asked_row(query: Row) -> Row
    ensures { (result ≡ asked_row query) × IsProfile (profile_of query) }
{
    query_row(profile_of(query), threshold_of(query), day_of(query) % DAYS)
}

// What a batch goes by, made once.
fn batch_of(header: Row, queries: &[Row]) -> Batch
    requires { length queries.now ≤ 16 }
    ensures { (result ≡ batch_of header queries.now) × All (λ query. IsProfile (profile_of query)) queries.now }
{
    let mut batch = [header; 17];
    for (i, query) in queries.iter().enumerate() {
        batch[i + 1] = asked_row(*query);
    }
    batch
}

// The set of the first n queries.
fn all_of(n: usize) -> u32
    requires { n ≤ 16 }
    ensures { result + 1 ≡ 2 ^ n }
{
    (1 << n) - 1
}

// What all buckets meet, the highest first. The reply is the count.
fn buckets_together(
    table: Checked<'_>,
    on: u32,
    part: usize,
    area: &mut [Entry],
    found: &mut Numbers,
    batch: &Batch,
) -> usize
    requires { (on < 2 ^ 16)
        × (on ≡ 0 → ⊥)
        × Parts part on area.old
        × Fewer (room most_order * suc most_order) found.old
        × (length batch.now ≡ 17) }
    ensures { let t = table.entry.rows.now in
        let top = suc table.entry.order.t in
        let asked = batch.now in
        let after = found.new in
        ((result ≡ count_below asked on t top) × (result < 2 ^ 32))
        × (Collects part (hits_below asked on t top) found.old area.old after area.new
        × Fewer 0 after) }
{
    let mut count = 0;
    for k in (0..table.order.buckets()).rev() {
        count = range_together(count, on, table.slots(k), part, area, found, batch);
    }
    count
}

// Each part with its query's hits in order and zeros after them, as the single call leaves its area; false where a part
// does not hold them.
fn order_parts(area: &mut [Entry], found: &Numbers, n: usize, part: usize) -> bool
    requires { (n ≤ 16)
        × (n * part ≤ length area.old)
        × Fewer 0 found.now
        × ((j : ℕ) → j < n → get_or found.now j 0 ≤ part → All Pair (hits_in part found.now area.old j)) }
    ensures fits { result ≡ every (λ hits. leb hits part) (take n found.now) }
    ensures parts { result ≡ true → (j : ℕ) → j < n → Ordered part found.now area.old area.new j }
{
    // Not by chunks_mut: where the area is shorter than the queries are many a part has no entry, and there are no
    // chunks of none.
    for j in 0..n {
        let start = j * part;
        let end = start + part;
        let hits = found[j];
        if part < hits {
            return false;
        }
        put_in_order(&mut area[start..end], hits);
    }
    true
}

// The same numbers as words of a reply.
fn words_of(found: &Numbers) -> [u32; 16]
    requires { Fewer 0 found.now }
    ensures { result ≡ found.now }
{
    let mut words = [0u32; 16];
    for (j, hits) in found.iter().enumerate() {
        words[j] = *hits as u32;
    }
    words
}

// A refusal returns its number and zeros.
fn refused(refusal: Refusal) -> Ranges
    ensures { result ≡ record { refusal = number_of refusal; distances = 0; found = replicate 16 0 } }
{
    Ranges {
        refusal: u32::from(refusal),
        distances: 0,
        found: [0u32; 16],
    }
}

// The reply, once each query's hits lie in its part: the parts in order and zeros in what is left over, or 6 and zeros
// all over.
fn reply_in_parts(
    area: &mut [Entry],
    found: &Numbers,
    n: usize,
    part: usize,
    count: usize,
) -> Ranges
    requires { (n ≤ 16)
        × (n * part ≤ length area.old)
        × Fewer 0 found.now
        × ((j : ℕ) → j < n → get_or found.now j 0 ≤ part → All Pair (hits_in part found.now area.old j))
        × (count < 2 ^ 32) }
    ensures held { every (λ hits. leb hits part) (take n found.now) ≡ true
        → result ≡ record { refusal = 0; distances = count; found = found.now } }
    ensures parts { every (λ hits. leb hits part) (take n found.now) ≡ true
        → InParts n part found.now area.old area.new }
    ensures short { every (λ hits. leb hits part) (take n found.now) ≡ false
        → (result ≡ record { refusal = no_room; distances = 0; found = replicate 16 0 })
        × (area.new ≡ replicate (length area.old) zero_entry) }
{
    if !order_parts(area, found, n, part) {
        zero_entries(area);
        return refused(Refusal::NoRoom);
    }
    let used = n * part;
    zero_entries(&mut area[used..]);
    Ranges {
        refusal: 0,
        distances: count as u32,
        found: words_of(found),
    }
}

// RULES 11.12 to 11.15, range for several queries over a table: every value of every argument, a table and areas of any
// length and content.
pub fn range_batch(table: &[Row], res: &mut [Entry], queries: &[Row]) -> Ranges
    ensures reply { result ≡ range_batch_reply table.now res.old queries.now }
    ensures area { res.new ≡ result_after_batch table.now res.old queries.now }
{
    let table = match batch_check(table, queries) {
        Err(refusal) => return refused(refusal),
        Ok(table) => table,
    };
    let n = queries.len();
    let part = res.len() / n;
    let batch = batch_of(table.rows[HEADER_ROW], queries);
    let mut found = [0usize; 16];
    let count = buckets_together(table, all_of(n), part, res, &mut found, &batch);
    reply_in_parts(res, &found, n, part, count)
}
