// RULES 20: the dues of a list of tags. What each pays is kept apart until the whole list is known to pay, so that a
// tag is looked up once.
#![tactic(auto)]

ghost use Rattle.std.specs.Prelude.{◌≡◌, ◌&&◌, ◌≤◌, leb, length, set, is_some, IfOk, IfSome};
ghost use Rattle.std.proofs.Math.Option.{some};
ghost use Rattle.std.proofs.lemmas.List.Edits.{sets};
ghost use Rattle.lists.specs.Lists.{every, total};
ghost use Rattle.refusals.specs.Number.{refusal_in};
ghost use Rattle.table_rules.specs.Refusals.{not_live, unless};
ghost use Rattle.dues_rules.specs.Board.{board, rate_by, dues_by};
ghost use Rattle.dues_rules.specs.Listed.{no_dues, most_listed, weight_at, weights_at, is_found, is_weight, pays};
ghost use Rattle.dues_rules.specs.Listed.{dues_of, weights_refusal, weights_reply, area_after, dues_reply, dues_after};

use dues_rules::Dues;
use metric_rules::Row;
use refusals::Refusal;
use rows::profile_of;
use table_checks::{Checked, read_check};
use table_look_up::find;

// The most tags of a list, and so the room for what each pays.
const MOST_LISTED: usize = 4096;

// The cents a kilo of the first band of the board that a weight is within.
#[tactic(auto, using(crate::proofs::Rating::rates))]
fn rate_of(weight: u32) -> u64
    ensures { result ≡ rate_by board weight }
{
    if weight < 40_000 {
        return 2;
    }
    if weight < 60_000 {
        return 3;
    }
    4
}

// What a weight pays: the nearest cent, half up.
fn cents(weight: u32) -> u32
    ensures { result ≡ dues_by board weight }
{
    ((weight as u64 * rate_of(weight) + 50) / 100) as u32
}

// Of a weight as it was found: that it is not below 0, and then what it pays.
fn is_weight(weight: i32) -> bool
    ensures { result ≡ is_weight (some weight) }
{
    0 <= weight
}

fn paid(weight: i32) -> Option<u32>
    ensures weight { is_some result ≡ is_weight (some weight) }
    ensures cents { IfSome result (λ cents. cents ≡ pays (some weight)) }
{
    if is_weight(weight) {
        Some(cents(weight as u32))
    } else {
        None
    }
}

// What the item that is live by a tag pays, by its weight.
#[tactic(auto, unfolding(dues_rules::specs::Listed::weight_at, dues_rules::specs::Listed::is_found))]
fn owed(table: Checked<'_>, tag: u64) -> Result<Option<u32>, Refusal>
    ensures refusal { refusal_in result ≡ unless (is_found (weight_at table.entry.rows.now tag)) not_live 0 }
    ensures weight { IfOk result (λ owed. is_some owed ≡ is_weight (weight_at table.entry.rows.now tag)) }
    ensures cents { IfOk result (λ owed. IfSome owed (λ cents. cents ≡ pays (weight_at table.entry.rows.now tag))) }
{
    let spot = find(table, tag).ok_or(Refusal::NotLive)?;
    let slots = table.slots(spot.bucket);
    let profile = profile_of(slots[spot.slot]);
    Ok(paid(profile.measures[0]))
}

// A number put in its place, where the area reaches that far. By `get_mut` the proof does not close: of a slice that
// tells the length alone.
fn put(area: &mut [u32], i: usize, number: u32)
    ensures { area.new ≡ set area.old i number }
{
    if i < area.len() {
        area[i] = number;
    }
}

// What each listed tag pays, from the first number on, each tag looked up once. A tag that is not live ends it; a
// weight that pays no dues does not, as 21 is told before 39.
fn weigh(table: Checked<'_>, tags: &[u64], held: &mut [u32]) -> Result<(), Refusal>
    ensures refusal { let weights = weights_at table.entry.rows.now tags.now in
        refusal_in result
        ≡ unless (every is_found weights) not_live
        (unless (leb (length weights) most_listed && every is_weight weights) no_dues 0) }
    ensures held { IfOk result (λ u. held.new ≡ sets held.old 0 (dues_of (weights_at table.entry.rows.now tags.now))) }
{
    let mut pays = tags.len() <= MOST_LISTED;
    for (i, tag) in tags.iter().enumerate() {
        let owed = owed(table, *tag)?;
        match owed {
            Some(cents) => put(held, i, cents),
            None => pays = false,
        }
    }
    if !pays {
        return Err(Refusal::NoDues);
    }
    Ok(())
}

// What each listed tag pays is held, or what stops the call: 21, 39, 6.
#[tactic(auto, unfolding(dues_rules::specs::Listed::weights_refusal))]
fn hold(table: Checked<'_>, tags: &[u64], dues: &[u32], held: &mut [u32]) -> Result<(), Refusal>
    ensures refusal { refusal_in result
        ≡ weights_refusal (weights_at table.entry.rows.now tags.now) (length dues.now) }
    ensures held { IfOk result (λ u. held.new ≡ sets held.old 0 (dues_of (weights_at table.entry.rows.now tags.now))) }
    ensures room { IfOk result (λ u. (length tags.now ≤ most_listed) × (length tags.now ≤ length dues.now)) }
{
    weigh(table, tags, held)?;
    if dues.len() < tags.len() {
        return Err(Refusal::NoRoom);
    }
    Ok(())
}

// The dues as they were held, written from the first number of the area on. The reply is their sum.
fn pay(held: &[u32], dues: &mut [u32]) -> u64
    requires room { length held.now ≤ length dues.old }
    requires few { length held.now ≤ most_listed }
    ensures sum { result ≡ total held.now }
    ensures area { dues.new ≡ sets dues.old 0 held.now }
{
    for (i, cents) in held.iter().enumerate() {
        dues[i] = *cents;
    }
    held.iter().map(|cents| u64::from(*cents)).sum()
}

// The dues of a list over a table that passed its tests, which go first: the room for what is held is made after them.
fn listed(table: Checked<'_>, tags: &[u64], dues: &mut [u32]) -> Dues
    ensures reply { let weights = weights_at table.entry.rows.now tags.now in
        result ≡ weights_reply (weights_refusal weights (length dues.old)) weights }
    ensures area { let weights = weights_at table.entry.rows.now tags.now in
        dues.new ≡ area_after (weights_refusal weights (length dues.old)) weights dues.old }
{
    let mut held = [0u32; MOST_LISTED];
    match hold(table, tags, dues, &mut held[..]) {
        Err(refusal) => Dues {
            refusal: u32::from(refusal),
            total: 0,
        },
        Ok(()) => Dues {
            refusal: 0,
            total: pay(&held[..tags.len()], dues),
        },
    }
}

// The dues of a list: every table, every list of tags and every dues area, of any length and content.
pub fn dues(table: &[Row], tags: &[u64], dues: &mut [u32]) -> Dues
    ensures reply { result ≡ dues_reply table.now tags.now dues.old }
    ensures area { dues.new ≡ dues_after table.now tags.now dues.old }
{
    match read_check(table) {
        Err(refusal) => Dues {
            refusal: u32::from(refusal),
            total: 0,
        },
        Ok(table) => listed(table, tags, dues),
    }
}
