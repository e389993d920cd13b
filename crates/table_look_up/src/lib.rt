// The finding of a live item by its tag, and look up.
#![tactic(auto)]

ghost use Rattle.std.specs.Prelude.{◌≡◌, ◌<◌, ◌≤◌, ◌&&◌, eqb, length, IfOk, IfSome, position};
ghost use Rattle.metric_rules.specs.Row.{tag_of, is_live};
ghost use Rattle.refusals.specs.Number.{number_of as refusal_number, refusal_in};
ghost use Rattle.table_rules.specs.Refusals.{not_live, unless};
ghost use Rattle.table_rules.specs.Table.{slots_of};
ghost use Rattle.table_rules.specs.LookUp.{find, is_live_tag, not_found, look_up_refusal, look_up_reply};
ghost use Rattle.table_look_up.specs.Spots.{number_of, place_of};

use metric_rules::{Profile, Row};
use refusals::Refusal;
use rows::{day_of, is_live, profile_of, tag_of};
use table_checks::{Checked, read_check};
use table_rules::LookedUp;
use validity::valid_tag;

// Where a live item stands.
#[derive(Clone, Copy)]
pub struct Spot {
    pub bucket: u32,
    pub slot: usize,
}

fn is_tagged(row: Row, tag: u64) -> bool
    ensures { result ≡ (is_live row && eqb (tag_of row) tag) }
{
    is_live(row) & (tag_of(row) == tag)
}

// The first live slot with the tag.
fn slot_with(slots: &[Row], tag: u64) -> Option<usize>
    ensures { result ≡ position (λ row. is_live row && eqb (tag_of row) tag) slots.now }
{
    slots.iter().position(|slot| is_tagged(*slot, tag))
}

// The lowest bucket first, then the lowest slot.
pub fn find(table: Checked<'_>, tag: u64) -> Option<Spot>
    ensures place { place_of table.entry.rows.now result ≡ find table.entry.rows.now tag }
    ensures number { number_of result ≡ unless (is_live_tag table.entry.rows.now tag) not_live 0 }
    ensures inside { IfSome result
        (λ spot. (spot.bucket ≤ table.entry.order.t)
        × (spot.slot < length (slots_of table.entry.rows.now spot.bucket))) }
{
    for k in 0..table.order.buckets() {
        if let Some(slot) = slot_with(table.slots(k), tag) {
            return Some(Spot { bucket: k, slot });
        }
    }
    None
}

#[tactic(auto, unfolding(table_rules::specs::LookUp::is_live_tag))]
pub fn is_live_tag(table: Checked<'_>, tag: u64) -> bool
    ensures { result ≡ is_live_tag table.entry.rows.now tag }
{
    find(table, tag).is_some()
}

// The reply of a look up that finds the tag, or what stops it.
#[tactic(auto, unfolding(table_rules::specs::LookUp::look_up_refusal, table_rules::specs::LookUp::look_up_reply))]
fn look(table: &[Row], tag: u64) -> Result<LookedUp, Refusal>
    ensures refusal { refusal_in result ≡ look_up_refusal table.now tag }
    ensures reply { IfOk result (λ reply. reply ≡ look_up_reply table.now tag) }
{
    let table = read_check(table)?;
    if !valid_tag(tag) {
        return Err(Refusal::BadTag);
    }
    let spot = find(table, tag).ok_or(Refusal::NotLive)?;
    let slots = table.slots(spot.bucket);
    let row = slots[spot.slot];
    Ok(LookedUp {
        refusal: 0,
        bucket: spot.bucket,
        profile: profile_of(row),
        day: day_of(row),
    })
}

// The reply of a refused call, zeros besides.
#[tactic(auto, unfolding(table_rules::specs::LookUp::not_found, table_rules::specs::LookUp::no_profile))]
fn not_found(refusal: Refusal) -> LookedUp
    ensures { result ≡ not_found (refusal_number refusal) }
{
    LookedUp {
        refusal: u32::from(refusal),
        bucket: 0,
        profile: Profile {
            measures: [0i32; 4],
            code: [0u64; 2],
        },
        day: 0,
    }
}

#[tactic(auto, using(refusals::proofs::Refused::some_number), unfolding(table_rules::specs::LookUp::look_up_reply))]
pub fn look_up(table: &[Row], tag: u64) -> LookedUp
    ensures { result ≡ look_up_reply table.now tag }
{
    match look(table, tag) {
        Err(refusal) => not_found(refusal),
        Ok(reply) => reply,
    }
}
