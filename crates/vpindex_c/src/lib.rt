// The calls of the index for C: each is the call of crates/vpindex that has its name, and has its contract. A crate is
// a library or exports to C, and C has a function for each call: so each stands in both crates.
#![tactic(auto)]

ghost use Rattle.std.specs.Prelude.{◌≡◌, length};
ghost use Rattle.call_rules.specs.Calls.{draft_areas, Ask, begin_reply, table_begun, change_reply, table_changed};
ghost use Rattle.call_rules.specs.Calls.{work_changed, ask_reply, areas_answered, Write, written_reply, bytes_written};
ghost use Rattle.call_rules.specs.Calls.Begin.{fresh, load, restore};
ghost use Rattle.call_rules.specs.Calls.Change.{add, remove, read_list};
ghost use Rattle.call_rules.specs.Calls.Ask.{look_up, range, nearest, range_batch};

use batch_rules::Ranges;
use dues_rules::Dues;
use image_rules::{Loaded, Written};
use list_rules::ListRead;
use lots_rules::Summary;
use metric_rules::{Profile, Row, Weights};
use search_rules::Entry;
use table_rules::{Added, LookedUp, Removed, Searched};

#[unsafe(no_mangle)]
pub extern "C" fn vpindex_fresh(table: &mut [Row], order: u32, metric: u32, weights: Weights) -> u32
    ensures reply { result ≡ begin_reply (fresh order (record { metric = metric; weights = weights })) (length table.old) }
    ensures table { table.new ≡ table_begun (fresh order (record { metric = metric; weights = weights })) table.old }
{
    vpindex::vpindex_fresh(table, order, metric, weights)
}

#[unsafe(no_mangle)]
pub extern "C" fn vpindex_load(table: &mut [Row], image: &[u8]) -> Loaded
    ensures reply { result ≡ begin_reply (load image.now) (length table.old) }
    ensures table { table.new ≡ table_begun (load image.now) table.old }
{
    vpindex::vpindex_load(table, image)
}

#[unsafe(no_mangle)]
pub extern "C" fn vpindex_add(
    table: &mut [Row],
    work: &mut [Row],
    tag: u64,
    profile: Profile,
    day: u16,
) -> Added
    ensures reply { result ≡ change_reply (add tag profile day) table.old work.old }
    ensures table { table.new ≡ table_changed (add tag profile day) table.old work.old }
    ensures work { work.new ≡ work_changed (add tag profile day) table.old work.old }
{
    vpindex::vpindex_add(table, work, tag, profile, day)
}

#[unsafe(no_mangle)]
pub extern "C" fn vpindex_remove(table: &mut [Row], work: &mut [Row], tag: u64) -> Removed
    ensures reply { result ≡ change_reply (remove tag) table.old work.old }
    ensures table { table.new ≡ table_changed (remove tag) table.old work.old }
    ensures work { work.new ≡ work_changed (remove tag) table.old work.old }
{
    vpindex::vpindex_remove(table, work, tag)
}

#[unsafe(no_mangle)]
pub extern "C" fn vpindex_look_up(table: &[Row], tag: u64) -> LookedUp
    ensures reply { result ≡ ask_reply (look_up tag) table.now tt }
{
    vpindex::vpindex_look_up(table, tag)
}

#[unsafe(no_mangle)]
pub extern "C" fn vpindex_range(
    table: &[Row],
    res: &mut [Entry],
    query: Profile,
    radius: u32,
    first_day: u16,
) -> Searched
    ensures reply { result ≡ ask_reply (range query radius first_day) table.now res.old }
    ensures res { res.new ≡ areas_answered (range query radius first_day) table.now res.old }
{
    vpindex::vpindex_range(table, res, query, radius, first_day)
}

#[unsafe(no_mangle)]
pub extern "C" fn vpindex_nearest(
    table: &[Row],
    res: &mut [Entry],
    query: Profile,
    k: u32,
    first_day: u16,
) -> Searched
    ensures reply { result ≡ ask_reply (nearest query k first_day) table.now res.old }
    ensures res { res.new ≡ areas_answered (nearest query k first_day) table.now res.old }
{
    vpindex::vpindex_nearest(table, res, query, k, first_day)
}

#[unsafe(no_mangle)]
pub extern "C" fn vpindex_range_batch(table: &[Row], res: &mut [Entry], queries: &[Row]) -> Ranges
    ensures reply { result ≡ ask_reply (range_batch queries.now) table.now res.old }
    ensures res { res.new ≡ areas_answered (range_batch queries.now) table.now res.old }
{
    vpindex::vpindex_range_batch(table, res, queries)
}

#[unsafe(no_mangle)]
pub extern "C" fn vpindex_write(table: &[Row], image: &mut [u8]) -> Written
    ensures reply { result ≡ written_reply Write.image table.now image.old }
    ensures image { image.new ≡ bytes_written Write.image table.now image.old }
{
    vpindex::vpindex_write(table, image)
}

#[unsafe(no_mangle)]
pub extern "C" fn vpindex_read_list(
    table: &mut [Row],
    work: &mut [Row],
    list: &[u8],
    day: u16,
) -> ListRead
    ensures reply { result ≡ change_reply (read_list list.now day) table.old work.old }
    ensures table { table.new ≡ table_changed (read_list list.now day) table.old work.old }
    ensures work { work.new ≡ work_changed (read_list list.now day) table.old work.old }
{
    vpindex::vpindex_read_list(table, work, list, day)
}

#[unsafe(no_mangle)]
pub extern "C" fn vpindex_save(table: &[Row], states: &mut [u8], name: u32) -> Written
    ensures reply { result ≡ written_reply (Write.save name) table.now states.old }
    ensures states { states.new ≡ bytes_written (Write.save name) table.now states.old }
{
    vpindex::vpindex_save(table, states, name)
}

#[unsafe(no_mangle)]
pub extern "C" fn vpindex_restore(table: &mut [Row], states: &[u8], name: u32) -> Loaded
    ensures reply { result ≡ begin_reply (restore states.now name) (length table.old) }
    ensures table { table.new ≡ table_begun (restore states.now name) table.old }
{
    vpindex::vpindex_restore(table, states, name)
}

#[unsafe(no_mangle)]
pub extern "C" fn vpindex_dues(table: &[Row], tags: &[u64], dues: &mut [u32]) -> Dues
    ensures reply { result ≡ ask_reply (Ask.dues tags.now) table.now dues.old }
    ensures dues { dues.new ≡ areas_answered (Ask.dues tags.now) table.now dues.old }
{
    vpindex::vpindex_dues(table, tags, dues)
}

#[unsafe(no_mangle)]
pub extern "C" fn vpindex_lots(
    table: &[Row],
    work: &mut [Entry],
    radii: &[u32],
    summary: &mut [Summary],
    listing: &mut [Entry],
    chosen: u32,
) -> u32
    ensures reply { result ≡ ask_reply (Ask.lots radii.now chosen) table.now (draft_areas work.old summary.old listing.old) }
    ensures work { work.new ≡ (areas_answered (Ask.lots radii.now chosen) table.now (draft_areas work.old summary.old listing.old)).work }
    ensures summary { summary.new ≡ (areas_answered (Ask.lots radii.now chosen) table.now (draft_areas work.old summary.old listing.old)).summary }
    ensures listing { listing.new ≡ (areas_answered (Ask.lots radii.now chosen) table.now (draft_areas work.old summary.old listing.old)).listing }
{
    vpindex::vpindex_lots(table, work, radii, summary, listing, chosen)
}
