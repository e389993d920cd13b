// An accepted add: Algorithm 1's Insert with line 2 of Algorithm 2 in place of its line 9 (RULES 1.3). B_k is bucket k,
// null an empty one; D are the rows gathered in the work area.
#![tactic(auto)]

ghost use Rattle.std.specs.Prelude.{◌≡◌, ◌+◌, ◌≤◌, ◌<◌, length};
ghost use Rattle.std.proofs.lemmas.List.Edits.{sets};
ghost use Rattle.lists.specs.Lists.{count_from};
ghost use Rattle.metric_rules.specs.Row.{zero_row};
ghost use Rattle.table_rules.specs.Geometry.{most_order, room, work_rows};
ghost use Rattle.table_rules.specs.Table.{order_of, emptied, cleared};
ghost use Rattle.table_rules.specs.Rebuild.{live_items};
ghost use Rattle.table_rules.specs.Add.{add_refusal, lowest_empty, add_bucket, add_target, added};
ghost use Rattle.table_buckets.specs.OfOrder.{BuiltFits};

use metric_rules::{Profile, Row};
use row_store::new_row;
use table_buckets::{Buckets, Gathered};
use table_order::Order;
use table_rebuild::build_bucket;
use table_rules::Added;

// Line 5: the lowest empty bucket, or the one after the last if none is: no Option, as the rules' `lowest_empty` has
// T + 1 then, and lines 6 to 8 go through all buckets by the same number.
fn lowest_empty(buckets: &Buckets) -> u32
    ensures { result ≡ lowest_empty buckets.now.rows.now }
{
    let all = buckets.order.buckets();
    for k in 0..all {
        if !buckets.in_use(k) {
            return k;
        }
    }
    all
}

// Lines 6 and 7, D ← D ∪ Unbuild(B_i): the live items of buckets 0 to k - 1, in slot order, behind the rows gathered
// before.
fn gather_below(buckets: &Buckets, k: u32, gathered: &mut Gathered)
    requires { BuiltFits buckets.now.rows.now buckets.now.order.t × (k ≤ buckets.now.order.t + 1)
        × (gathered.old.n + length (live_items buckets.now.rows.now (count_from 0 k)) ≤ length gathered.old.work.now) }
    ensures same_area { gathered.new.work.ghost_name ≡ gathered.old.work.ghost_name }
    ensures n { gathered.new.n ≡ gathered.old.n + length (live_items buckets.now.rows.now (count_from 0 k)) }
    ensures work { gathered.new.work.now
        ≡ sets gathered.old.work.now gathered.old.n (live_items buckets.now.rows.now (count_from 0 k)) }
{
    for i in 0..k {
        buckets.gather_fitting(i, gathered);
    }
}

// Lines 6 and 8: buckets 0 to k - 1 become empty.
fn empty_below(buckets: &mut Buckets, k: u32)
    requires { k ≤ buckets.old.order.t + 1 }
    ensures same_area { buckets.new.rows.ghost_name ≡ buckets.old.rows.ghost_name }
    ensures same_order { buckets.new.order.t ≡ buckets.old.order.t }
    ensures rows { buckets.new.rows.now ≡ emptied (count_from 0 k) buckets.old.rows.now }
{
    for i in 0..k {
        buckets.empty(i);
    }
}

// Line 2 of Algorithm 2: n items whose lowest empty bucket is k are built in k if they are more than 2^(k-1), half its
// room, else in k - 1.
fn add_bucket(k: u32, n: usize) -> u32
    requires { (k < 32) × (1 ≤ n) × (n ≤ room most_order) }
    ensures { result ≡ add_bucket k n }
{
    if Order::room(k) < 2 * n { k } else { k - 1 }
}

// The accepted call, line by line of Algorithm 1. Its lines 10 and 11 have nothing here: buckets 0 to T are there from
// the start.
pub fn insert(
    table: &mut [Row],
    work: &mut [Row],
    order: Order,
    tag: u64,
    profile: Profile,
    day: u32,
) -> Added
    requires { (order.t ≡ order_of table.old) × (add_refusal table.old work.old tag profile day ≡ 0) }
    ensures reply { result ≡ record { refusal = 0; bucket = add_target table.old tag profile day; distances = (added table.old tag profile day).distances } }
    ensures table { table.new ≡ (added table.old tag profile day).table }
    ensures work { work.new ≡ cleared zero_row (work_rows (order_of table.old)) work.old }
{
    // Line 4.
    work[0] = new_row(tag, profile, day);
    // Line 5.
    let mut buckets = Buckets { rows: table, order };
    let k = lowest_empty(&buckets);
    // Lines 6 and 7, for every i, then 6 and 8.
    let mut gathered = Gathered { work, n: 1 };
    gather_below(&buckets, k, &mut gathered);
    empty_below(&mut buckets, k);
    // Line 2 of Algorithm 2, in place of line 9.
    let target = add_bucket(k, gathered.n);
    let distances = build_bucket(&mut buckets, target, gathered);
    Added {
        refusal: 0,
        bucket: target,
        distances,
    }
}
