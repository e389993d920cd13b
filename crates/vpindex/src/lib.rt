// The calls of the index under the names that C has for them (crates/vpindex_c): every value of every argument, lent
// areas of any length and content, no condition on the caller. Each contract is its call of
// crates/call_rules/specs/Calls, the one that the demands' theorems speak of.
#![tactic(auto)]

ghost use Rattle.std.specs.Prelude.{◌≡◌, length};
ghost use Rattle.call_rules.specs.Calls.{draft_areas, Ask, begin_reply, table_begun, change_reply, table_changed};
ghost use Rattle.call_rules.specs.Calls.{work_changed, ask_reply, areas_answered, Write, written_reply, bytes_written};
ghost use Rattle.call_rules.specs.Calls.Begin.{fresh, load, restore};
ghost use Rattle.call_rules.specs.Calls.Change.{add, remove, read_list};
ghost use Rattle.call_rules.specs.Calls.Ask.{look_up, range, nearest, range_batch};

use batch_rules::Ranges;
use dues_rules::Dues;
use image_rules::{Loaded, Written};
use list_rules::ListRead;
use lots_rules::Summary;
use metric_rules::{Profile, Row, Space, Weights};
use search_rules::Entry;
use table_rules::{Added, LookedUp, Removed, Searched};

// A table of this order, metric and weights with no item in it. The reply is the refusal: 3, 4, 32, 23, or 0.
pub fn vpindex_fresh(table: &mut [Row], order: u32, metric: u32, weights: Weights) -> u32
    ensures reply { result ≡ begin_reply (fresh order (record { metric = metric; weights = weights })) (length table.old) }
    ensures table { table.new ≡ table_begun (fresh order (record { metric = metric; weights = weights })) table.old }
{
    table_fresh::fresh(table, order, Space { metric, weights })
}

// The table that these bytes are the image of. Refusals: 7, 3, 4, 8, 7, 32, 7, 24, 7, 23, 33, 8; and then 36, 37 or 38
// with the lowest slot that one is of.
pub fn vpindex_load(table: &mut [Row], image: &[u8]) -> Loaded
    ensures reply { result ≡ begin_reply (load image.now) (length table.old) }
    ensures table { table.new ≡ table_begun (load image.now) table.old }
{
    image_load::load(table, image)
}

// An item put in, with the day on which it was weighed; the reply has the bucket that was built and the distances that
// its build worked out.
pub fn vpindex_add(
    table: &mut [Row],
    work: &mut [Row],
    tag: u64,
    profile: Profile,
    day: u16,
) -> Added
    ensures reply { result ≡ change_reply (add tag profile day) table.old work.old }
    ensures table { table.new ≡ table_changed (add tag profile day) table.old work.old }
    ensures work { work.new ≡ work_changed (add tag profile day) table.old work.old }
{
    table_add::add(table, work, tag, profile, day as u32)
}

// An item struck out; the reply has the distances that a build worked out, 0 where none was built.
pub fn vpindex_remove(table: &mut [Row], work: &mut [Row], tag: u64) -> Removed
    ensures reply { result ≡ change_reply (remove tag) table.old work.old }
    ensures table { table.new ≡ table_changed (remove tag) table.old work.old }
    ensures work { work.new ≡ work_changed (remove tag) table.old work.old }
{
    table_remove::remove(table, work, tag)
}

// The bucket, the profile and the day of the live item with this tag.
pub fn vpindex_look_up(table: &[Row], tag: u64) -> LookedUp
    ensures reply { result ≡ ask_reply (look_up tag) table.now tt }
{
    table_look_up::look_up(table, tag)
}

// Every live item within this radius of the query that was weighed on the first day or later, by distance, then tag.
pub fn vpindex_range(
    table: &[Row],
    res: &mut [Entry],
    query: Profile,
    radius: u32,
    first_day: u16,
) -> Searched
    ensures reply { result ≡ ask_reply (range query radius first_day) table.now res.old }
    ensures res { res.new ≡ areas_answered (range query radius first_day) table.now res.old }
{
    table_range::range(table, res, query, radius, first_day as u32)
}

// Of the live items weighed on the first day or later the k nearest to the query, or all if there are fewer, by
// distance, then tag.
pub fn vpindex_nearest(
    table: &[Row],
    res: &mut [Entry],
    query: Profile,
    k: u32,
    first_day: u16,
) -> Searched
    ensures reply { result ≡ ask_reply (nearest query k first_day) table.now res.old }
    ensures res { res.new ≡ areas_answered (nearest query k first_day) table.now res.old }
{
    table_nearest::nearest(table, res, query, k, first_day as u32)
}

// Range for 1 to 16 queries at once, each a row with its profile, its radius and its first day: each query's list in
// its own part of the area, its number in the reply, and a slot visited once if any of them visits it.
pub fn vpindex_range_batch(table: &[Row], res: &mut [Entry], queries: &[Row]) -> Ranges
    ensures reply { result ≡ ask_reply (range_batch queries.now) table.now res.old }
    ensures res { res.new ≡ areas_answered (range_batch queries.now) table.now res.old }
{
    table_range_batch::range_batch(table, res, queries)
}

// The image of the table, its length in the reply; bytes after it are unchanged.
pub fn vpindex_write(table: &[Row], image: &mut [u8]) -> Written
    ensures reply { result ≡ written_reply Write.image table.now image.old }
    ensures image { image.new ≡ bytes_written Write.image table.now image.old }
{
    image_write::write(table, image)
}

// A herd list of one day: each line an add, up to the first line refused. The reply has that line's refusal and number,
// the items added and their distances.
pub fn vpindex_read_list(table: &mut [Row], work: &mut [Row], list: &[u8], day: u16) -> ListRead
    ensures reply { result ≡ change_reply (read_list list.now day) table.old work.old }
    ensures table { table.new ≡ table_changed (read_list list.now day) table.old work.old }
    ensures work { work.new ≡ work_changed (read_list list.now day) table.old work.old }
{
    list_read::read_list(table, work, list, day as u32)
}

// A snapshot of the table saved under a name, its image's length in the reply; other parts, and the bytes after the
// snapshot, are unchanged.
pub fn vpindex_save(table: &[Row], states: &mut [u8], name: u32) -> Written
    ensures reply { result ≡ written_reply (Write.save name) table.now states.old }
    ensures states { states.new ≡ bytes_written (Write.save name) table.now states.old }
{
    state_save::save(table, states, name)
}

// The table that was saved under a name. Refusals: 34, 35, 7, then what a load replies.
pub fn vpindex_restore(table: &mut [Row], states: &[u8], name: u32) -> Loaded
    ensures reply { result ≡ begin_reply (restore states.now name) (length table.old) }
    ensures table { table.new ≡ table_begun (restore states.now name) table.old }
{
    state_restore::restore(table, states, name)
}

// What the items with these tags pay at the gate, each number in the order of the list and their total in the reply;
// numbers after them are unchanged.
pub fn vpindex_dues(table: &[Row], tags: &[u64], dues: &mut [u32]) -> Dues
    ensures reply { result ≡ ask_reply (Ask.dues tags.now) table.now dues.old }
    ensures dues { dues.new ≡ areas_answered (Ask.dues tags.now) table.now dues.old }
{
    table_dues::dues(table, tags, dues)
}

// The live items drafted into lots by each of some radii: the number of lots and the size of the largest for each, and
// the lots by the chosen one listed.
pub fn vpindex_lots(
    table: &[Row],
    work: &mut [Entry],
    radii: &[u32],
    summary: &mut [Summary],
    listing: &mut [Entry],
    chosen: u32,
) -> u32
    ensures reply { result ≡ ask_reply (Ask.lots radii.now chosen) table.now (draft_areas work.old summary.old listing.old) }
    ensures work { work.new ≡ (areas_answered (Ask.lots radii.now chosen) table.now (draft_areas work.old summary.old listing.old)).work }
    ensures summary { summary.new ≡ (areas_answered (Ask.lots radii.now chosen) table.now (draft_areas work.old summary.old listing.old)).summary }
    ensures listing { listing.new ≡ (areas_answered (Ask.lots radii.now chosen) table.now (draft_areas work.old summary.old listing.old)).listing }
{
    table_lots::lots(table, work, radii, summary, listing, chosen)
}
