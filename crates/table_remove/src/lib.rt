// Remove: Algorithm 2 (RULES 1.3), with the refusals before it.
#![tactic(auto)]

ghost use Rattle.std.specs.Prelude.{◌≡◌, ◌+◌, ◌≤◌, ◌<◌, Some, IfOk};
ghost use Rattle.refusals.specs.Number.{refusal_in};
ghost use Rattle.table_rules.specs.Geometry.{room, first_slot};
ghost use Rattle.table_rules.specs.Table.{order_of, row_at, live_of};
ghost use Rattle.table_rules.specs.LookUp.{find};
ghost use Rattle.table_rules.specs.Remove.{remove_refusal, marked, remove_reply, table_after_remove, work_after_remove};
ghost use Rattle.table_look_up.specs.Spots.{place_of};
ghost use Rattle.table_buckets.specs.OfOrder.{OfOrder};

use metric_rules::{MARK_AT, Row};
use refusals::Refusal;
use table_after_deletion::after_deletion;
use table_buckets::put_sizes;
use table_checks::change_check;
use table_look_up::{Spot, find};
use table_order::Order;
use table_rules::Removed;
use table_views::{built_of, live_of};
use validity::valid_tag;

// Line 7. The rules mark an item dead and take none out: its slot still guides searches, and |B_k|, the live size of
// bucket k, is one less.
#[tactic(auto, using(table_buckets::proofs::Places::room_inside))]
fn mark_dead(table: &mut [Row], order: Order, spot: Spot)
    requires order { OfOrder table.old order.t }
    requires bucket { spot.bucket ≤ order.t }
    requires slot { spot.slot < room spot.bucket }
    requires live { 1 ≤ live_of table.old spot.bucket }
    ensures { let row = row_at table.old (first_slot order.t spot.bucket + spot.slot) in
        table.new ≡ marked table.old (record { bucket = spot.bucket; slot = spot.slot; row = row }) }
{
    let k = spot.bucket;
    let at = order.first_slot(k) + spot.slot;
    let built = built_of(table, k);
    let live = live_of(table, k);
    table[at][MARK_AT] = 1;
    put_sizes(table, k, built, live - 1);
}

// What a removal goes on with: the table's order, and where the item stands.
#[derive(Clone, Copy)]
struct Found {
    order: Order,
    spot: Spot,
}

// Lines 4 to 6: o is found by its tag, in the lowest bucket first, and no distance is worked out. The table's tests and
// the tag's come first.
#[tactic(auto, unfolding(table_rules::specs::Remove::remove_refusal))]
fn remove_check(table: &[Row], work: &[Row], tag: u64) -> Result<Found, Refusal>
    ensures refusal { refusal_in result ≡ remove_refusal table.now work.now tag }
    ensures order { IfOk result (λ found. found.order.t ≡ order_of table.now) }
    ensures place { IfOk result (λ found. place_of table.now (Some found.spot) ≡ find table.now tag) }
{
    let table = change_check(table, work.len())?;
    if !valid_tag(tag) {
        return Err(Refusal::BadTag);
    }
    let spot = find(table, tag).ok_or(Refusal::NotLive)?;
    Ok(Found {
        order: table.order,
        spot,
    })
}

// An item is taken out, for every table, work area and tag.
pub fn remove(table: &mut [Row], work: &mut [Row], tag: u64) -> Removed
    ensures reply { result ≡ remove_reply table.old work.old tag }
    ensures table { table.new ≡ table_after_remove table.old work.old tag }
    ensures work { work.new ≡ work_after_remove table.old work.old tag }
{
    match remove_check(table, work, tag) {
        Err(refusal) => Removed {
            refusal: u32::from(refusal),
            distances: 0,
        },
        Ok(found) => {
            // Line 7.
            mark_dead(table, found.order, found.spot);
            // Lines 8 to 26.
            let distances = after_deletion(table, found.order, found.spot.bucket, work);
            Removed {
                refusal: 0,
                distances,
            }
        }
    }
}
