// Add: the refusals in their order, and the accepted call.
#![tactic(auto)]

ghost use Rattle.std.specs.Prelude.{◌≡◌, IfOk};
ghost use Rattle.refusals.specs.Number.{refusal_in};
ghost use Rattle.table_rules.specs.Table.{order_of};
ghost use Rattle.table_rules.specs.Add.{add_refusal, add_reply, table_after_add, work_after_add};

use metric_rules::{Profile, Row};
use refusals::Refusal;
use table_checks::change_check;
use table_insert::insert;
use table_look_up::is_live_tag;
use table_order::Order;
use table_rules::Added;
use validity::{valid_day, valid_measures, valid_tag};

// The table's order, or the first refusal that applies, in the call's order. An item's tag, profile and day go on as
// C's call has them.
#[tactic(auto, unfolding(table_rules::specs::Add::add_refusal))]
fn add_check(
    table: &[Row],
    work: &[Row],
    tag: u64,
    profile: Profile,
    day: u32,
) -> Result<Order, Refusal>
    ensures refusal { refusal_in result ≡ add_refusal table.now work.now tag profile day }
    ensures order { IfOk result (λ order. order.t ≡ order_of table.now) }
{
    let table = change_check(table, work.len())?;
    if !valid_tag(tag) {
        return Err(Refusal::BadTag);
    }
    if !valid_measures(profile) {
        return Err(Refusal::BadMeasure);
    }
    if !valid_day(day) {
        return Err(Refusal::BadDay);
    }
    if is_live_tag(table, tag) {
        return Err(Refusal::AlreadyLive);
    }
    let most = table.order.work_rows() as u64;
    if most <= table.live_total() {
        return Err(Refusal::Full);
    }
    Ok(table.order)
}

// An item is put in, for every table, work area, tag, profile and day.
pub fn add(table: &mut [Row], work: &mut [Row], tag: u64, profile: Profile, day: u32) -> Added
    ensures reply { result ≡ add_reply table.old work.old tag profile day }
    ensures table { table.new ≡ table_after_add table.old work.old tag profile day }
    ensures work { work.new ≡ work_after_add table.old work.old tag profile day }
{
    match add_check(table, work, tag, profile, day) {
        Err(refusal) => Added {
            refusal: u32::from(refusal),
            bucket: 0,
            distances: 0,
        },
        Ok(order) => insert(table, work, order, tag, profile, day),
    }
}
