// Lots over a table: the refusals in their order, and the drafting by every radius of a list, with the lots of one of
// them listed.
#![tactic(auto)]

ghost use Rattle.std.specs.Prelude.{◌≡◌, map, ◌++◌, ◌-◌, ◌≤◌, ◌<◌, length, get_or, replicate, IfOk};
ghost use Rattle.lists.specs.Lists.{All};
ghost use Rattle.metric_rules.specs.Row.{tag_of};
ghost use Rattle.table_rules.specs.Geometry.{most_order, room, work_rows};
ghost use Rattle.table_rules.specs.Table.{order_of, table_space, cleared};
ghost use Rattle.table_rules.specs.Search.{zero_entry};
ghost use Rattle.lots_rules.specs.Lots.{listing_of};
ghost use Rattle.lots_rules.specs.Drafting.{zero_summary, radii_pass, drafted_items, table_lots, table_summaries};
ghost use Rattle.lots_rules.specs.Drafting.{table_listing, lots_refusal, summary_after_lots, listing_after_lots};
ghost use Rattle.lots_rules.specs.Drafting.{work_after_lots};
ghost use Rattle.refusals.specs.Number.{refusal_in};
ghost use Rattle.lots_draft.specs.Leading.{place_of, Placed};
ghost use Rattle.table_lots.specs.Places.{place_summary, place_listing};

use lots_draft::{draft_by, list_lots};
use lots_gather::enter_by_tag;
use lots_rules::{MOST_RADII, Summary};
use metric_rules::Row;
use refusals::Refusal;
use search_reply::zero_entries;
use search_rules::Entry;
use table_checks::{Checked, change_check};
use table_views::HEADER_ROW;

// Every entry of a summary becomes zero.
#[tactic(auto, unfolding(lots_rules::specs::Drafting::zero_summary))]
fn zero_summaries(area: &mut [Summary])
    ensures { area.new ≡ replicate (length area.old) zero_summary }
{
    for summary in area.iter_mut() {
        *summary = [0u32; 2];
    }
}

// 1 to 32 radii, and a place in their list from 1 on.
#[tactic(auto, unfolding(lots_rules::specs::Drafting::radii_pass, lots_rules::specs::Drafting::most_radii))]
fn radii_pass(radii: &[u32], chosen: u32) -> bool
    ensures { result ≡ radii_pass radii.now chosen }
{
    let count = radii.len();
    (1 <= count) & (count <= MOST_RADII) & ((1 <= chosen) & (chosen as usize <= count))
}

// The first refusal that applies, in the call's order, or the table's order.
fn lots_check<'a>(
    table: &'a [Row],
    work: &[Entry],
    radii: &[u32],
    summary: &[Summary],
    listing: &[Entry],
    chosen: u32,
) -> Result<Checked<'a>, Refusal>
    ensures refusal { refusal_in result ≡ lots_refusal table.now work.now summary.now listing.now radii.now chosen }
    ensures rows { IfOk result (λ checked. checked.rows.now ≡ table.now) }
{
    let checked = change_check(table, work.len())?;
    if !radii_pass(radii, chosen) {
        return Err(Refusal::BadRadii);
    }
    let items = checked.live_total();
    if !((radii.len() <= summary.len()) & (items <= listing.len() as u64)) {
        return Err(Refusal::NoRoom);
    }
    Ok(checked)
}

// The entries drafted by every radius in turn, each with its summary; the lots by the radius at place `at` are listed.
// The lent areas stay arguments: each contract over a struct of them, lent on, would also have to say that it still
// holds the same three, and by value it would call what they are left with exit.0 and exit.1.0.
fn draft_each(
    table: Checked<'_>,
    entries: &mut [Entry],
    radii: &[u32],
    summary: &mut [Summary],
    listing: &mut [Entry],
    at: usize,
)
    requires { All (Placed table.rows.now) entries.old
        × (length entries.old ≤ room most_order)
        × (length summary.old ≡ length radii.now)
        × (length entries.old ≤ length listing.old)
        × (at < length radii.now) }
    ensures { let t = table.entry.rows.now in
        let space = table_space t in
        let es = entries.old in
        let places = map place_of es in
        let by = radii.now in
        let listed = place_listing t space places (get_or by at 0) in
        (summary.new ≡ map (place_summary t space places) by)
        × (listing.new ≡ listed ++ replicate (length listing.old - length es) zero_entry) }
{
    let header = table.rows[HEADER_ROW];
    for (i, radius) in radii.iter().enumerate() {
        summary[i] = draft_by(table.rows, &header, entries, *radius);
        if i == at {
            list_lots(table.rows, entries, listing);
        }
    }
}

// The same in a summary that may be longer: zeros follow to its end.
fn draft_radii(
    table: Checked<'_>,
    entries: &mut [Entry],
    radii: &[u32],
    summary: &mut [Summary],
    listing: &mut [Entry],
    at: usize,
)
    requires { All (Placed table.rows.now) entries.old
        × (length entries.old ≤ room most_order)
        × (length radii.now ≤ length summary.old)
        × (length entries.old ≤ length listing.old)
        × (at < length radii.now) }
    ensures { let t = table.entry.rows.now in
        let space = table_space t in
        let es = entries.old in
        let places = map place_of es in
        let by = radii.now in
        let told = map (place_summary t space places) by in
        let listed = place_listing t space places (get_or by at 0) in
        (summary.new ≡ told ++ replicate (length summary.old - length by) zero_summary)
        × (listing.new ≡ listed ++ replicate (length listing.old - length es) zero_entry) }
{
    let count = radii.len();
    draft_each(table, entries, radii, &mut summary[..count], listing, at);
    zero_summaries(&mut summary[count..]);
}

// The live items by tag in the work area, drafted by every radius; the work area is zero after it.
fn draft_items(
    table: Checked<'_>,
    work: &mut [Entry],
    radii: &[u32],
    summary: &mut [Summary],
    listing: &mut [Entry],
    at: usize,
)
    requires { let items = length (drafted_items table.rows.now) in
        (items ≤ length work.old)
        × (items ≤ room most_order)
        × (length radii.now ≤ length summary.old)
        × (items ≤ length listing.old)
        × (at < length radii.now) }
    ensures { let t = table.entry.rows.now in
        let by = radii.now in
        let items = length (drafted_items t) in
        let told = table_summaries t by in
        let listed = listing_of tag_of (table_lots t (get_or by at 0)) in
        (work.new ≡ replicate (length work.old) zero_entry)
        × ((summary.new ≡ told ++ replicate (length summary.old - length by) zero_summary)
        × (listing.new ≡ listed ++ replicate (length listing.old - items) zero_entry)) }
{
    let n = enter_by_tag(table, work);
    draft_radii(table, &mut work[..n], radii, summary, listing, at);
    zero_entries(work);
}

// An accepted drafting, in the first 2^T entries of the work area.
fn draft_table(
    table: Checked<'_>,
    work: &mut [Entry],
    radii: &[u32],
    summary: &mut [Summary],
    listing: &mut [Entry],
    chosen: u32,
)
    requires { lots_refusal table.rows.now work.old summary.old listing.old radii.now chosen ≡ 0 }
    ensures { let t = table.entry.rows.now in
        let by = radii.now in
        let items = length (drafted_items t) in
        let told = table_summaries t by in
        let listed = table_listing t by chosen in
        (work.new ≡ cleared zero_entry (work_rows (order_of t)) work.old)
        × ((summary.new ≡ told ++ replicate (length summary.old - length by) zero_summary)
        × (listing.new ≡ listed ++ replicate (length listing.old - items) zero_entry)) }
{
    let rows = table.order.work_rows();
    draft_items(
        table,
        &mut work[..rows],
        radii,
        summary,
        listing,
        chosen as usize - 1,
    );
}

// RULES 21, lots over a table: every value of every argument, a table and areas of any length and content. The reply is
// the refusal's number, 0 if accepted, as vpindex_lots replies it.
pub fn lots(
    table: &[Row],
    work: &mut [Entry],
    radii: &[u32],
    summary: &mut [Summary],
    listing: &mut [Entry],
    chosen: u32,
) -> u32
    ensures { let t = table.now in
        let work₀ = work.old in
        let summary₀ = summary.old in
        let listing₀ = listing.old in
        let by = radii.now in
        (result ≡ lots_refusal t work₀ summary₀ listing₀ by chosen)
        × ((work.new ≡ work_after_lots t work₀ summary₀ listing₀ by chosen)
        × ((summary.new ≡ summary_after_lots t work₀ summary₀ listing₀ by chosen)
        × (listing.new ≡ listing_after_lots t work₀ summary₀ listing₀ by chosen))) }
{
    match lots_check(table, work, radii, summary, listing, chosen) {
        Ok(table) => {
            draft_table(table, work, radii, summary, listing, chosen);
            0
        }
        Err(refusal) => {
            if refusal == Refusal::NoRoom {
                zero_summaries(summary);
                zero_entries(listing);
            }
            u32::from(refusal)
        }
    }
}
