// After a deletion: Algorithm 2 (RULES 1.3), lines 8 to 26. In its words: B_k is bucket k, |B_k| its live size, null an
// empty bucket; Unbuild is to gather a bucket's live items, Build to build a bucket of what was gathered, D.
#![tactic(auto)]

ghost use Rattle.std.specs.Prelude.{◌≡◌, [], ◌∷◌, ◌≤◌, length};
ghost use Rattle.metric_rules.specs.Row.{zero_row};
ghost use Rattle.table_rules.specs.Geometry.{room, work_rows};
ghost use Rattle.table_rules.specs.Table.{cleared};
ghost use Rattle.table_rules.specs.Rebuild.{live_items};
ghost use Rattle.table_rules.specs.Remove.{united, moved, after_deletion};
ghost use Rattle.table_buckets.specs.OfOrder.{BuiltFits};
ghost use Rattle.table_after_deletion.specs.Lost.{Lost};

use metric_rules::Row;
use table_buckets::{Buckets, Gathered};
use table_order::Order;
use table_rebuild::{build_bucket, clear};

// D ← Unbuild(B_k) ∪ Unbuild(B_other), the live items of bucket k first; both become null, and B_target ← Build(D).
fn unite(buckets: &mut Buckets, k: u32, other: u32, target: u32, work: &mut [Row]) -> u32
    requires { BuiltFits buckets.old.rows.now buckets.old.order.t
        × (k ≤ buckets.old.order.t) × (other ≤ buckets.old.order.t) × (target ≤ buckets.old.order.t)
        × (length (live_items buckets.old.rows.now (k ∷ other ∷ [])) ≤ room target)
        × (work_rows buckets.old.order.t ≤ length work.old) }
    ensures same_area { buckets.new.rows.ghost_name ≡ buckets.old.rows.ghost_name }
    ensures rows { buckets.new.rows.now ≡ (united buckets.old.rows.now (k ∷ other ∷ []) target).table }
    ensures work { work.new ≡ cleared zero_row (work_rows buckets.old.order.t) work.old }
    ensures counted { result ≡ (united buckets.old.rows.now (k ∷ other ∷ []) target).distances }
{
    let mut gathered = Gathered { work, n: 0 };
    buckets.gather_fitting(k, &mut gathered);
    buckets.gather_fitting(other, &mut gathered);
    buckets.empty(k);
    buckets.empty(other);
    build_bucket(buckets, target, gathered)
}

// D ← Unbuild(B_k); B_k becomes null, and B_target ← Build(D).
fn move_down(buckets: &mut Buckets, k: u32, target: u32, work: &mut [Row]) -> u32
    requires { BuiltFits buckets.old.rows.now buckets.old.order.t
        × (k ≤ buckets.old.order.t) × (target ≤ buckets.old.order.t)
        × (length (live_items buckets.old.rows.now (k ∷ [])) ≤ room target)
        × (work_rows buckets.old.order.t ≤ length work.old) }
    ensures same_area { buckets.new.rows.ghost_name ≡ buckets.old.rows.ghost_name }
    ensures rows { buckets.new.rows.now ≡ (moved buckets.old.rows.now k target).table }
    ensures work { work.new ≡ cleared zero_row (work_rows buckets.old.order.t) work.old }
    ensures counted { result ≡ (moved buckets.old.rows.now k target).distances }
{
    let mut moving = Gathered { work, n: 0 };
    buckets.gather_fitting(k, &mut moving);
    buckets.empty(k);
    build_bucket(buckets, target, moving)
}

// Lines 8 to 26. Line 7 marked an item of B_k dead and took none out, so |B_k| is the live size, which fell by one.
// Where a line returns true, the reply is the number of distances that the build worked out, or 0 where nothing is
// built.
pub fn after_deletion(table: &mut [Row], order: Order, k: u32, work: &mut [Row]) -> u32
    requires { BuiltFits table.old order.t × Lost table.old k × (work_rows order.t ≤ length work.old) }
    ensures table { table.new ≡ (after_deletion table.old k).table }
    ensures work { work.new ≡ cleared zero_row (work_rows order.t) work.old }
    ensures counted { result ≡ (after_deletion table.old k).distances }
{
    let mut buckets = Buckets { rows: table, order };
    let live = buckets.live(k) as usize;
    // By the rules alone: none left, which k = 0 or 1 come to. B_k becomes null.
    if live == 0 {
        buckets.empty(k);
        clear(work, order, 0);
        return 0;
    }
    // Lines 8 and 9: |B_k| > 2^(k-2).
    if Order::room(k) < 4 * live {
        clear(work, order, 0);
        return 0;
    }
    // Lines 10 and 11: here |B_k| = 2^(k-2) and k ≥ 2.
    if buckets.in_use(k - 1) {
        // Lines 12 to 15: |B_{k-1}| > 2^(k-2).
        if Order::room(k - 2) < buckets.live(k - 1) as usize {
            return unite(&mut buckets, k, k - 1, k, work);
        }
        // Lines 12 and 16 to 18.
        return unite(&mut buckets, k, k - 1, k - 1, work);
    }
    // Lines 19 to 22.
    if buckets.in_use(k - 2) {
        return unite(&mut buckets, k, k - 2, k - 1, work);
    }
    // Lines 23 to 25: the move.
    move_down(&mut buckets, k, k - 2, work)
}
