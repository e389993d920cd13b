// The build of a tree: its layout from rows as they were gathered, at c(n) distances. While a part is built, its source
// rows carry their rank in the mark word and their distance from the part's first slot in the threshold word.
#![tactic(auto)]

ghost use Rattle.std.specs.Prelude.{◌≡◌, ◌≤◌, ◌<◌, ◌^◌, map, length, take, drop, replicate};
ghost use Rattle.metric_rules.specs.Row.{row_width, zero_row, with_mark};
ghost use Rattle.metric_rules.specs.Distance.{distance, space_of};
ghost use Rattle.tree_rules.specs.Layout.{placed, layout_within, layout, cost};
ghost use Rattle.tree_rows.specs.Working.{ranked_of, ranks_written, RanksApart, last_measured};
ghost use Rattle.tree_rules.specs.Guided.{Whole};

use metric_rules::{MARK_AT, ROW_WIDTH, Row, THRESHOLD_AT};
use tree_arrange::arrange;

// A row with its rank. A row by value has all its words, and says so for the rows of a slice, of which nothing else
// does.
#[tactic(auto, unfolding(metric_rules::specs::Row::with_mark, metric_rules::specs::Row::row_width))]
fn with_rank(row: Row, rank: u32) -> Row
    ensures { (result ≡ with_mark rank row) × (length row ≡ row_width) }
{
    let mut ranked = row;
    ranked[MARK_AT] = rank;
    ranked
}

// The rows' places become their ranks.
fn write_ranks(rows: &mut [Row])
    requires { length rows.old ≤ 2 ^ 32 }
    ensures { (rows.new ≡ ranks_written 0 rows.old) × Whole rows.old }
{
    for (i, row) in rows.iter_mut().enumerate() {
        *row = with_rank(*row, i as u32);
    }
}

// The distance of the last of l rows behind the first, or 0 where l is 0.
fn last_distance(rows: &[Row], l: usize) -> u32
    requires { l < length rows.now }
    ensures { result ≡ last_measured (take l (drop 1 rows.now)) }
{
    if l == 0 { 0 } else { rows[l][THRESHOLD_AT] }
}

// The row as its slot holds it.
#[tactic(auto, unfolding(tree_rules::specs::Layout::placed))]
fn place(row: Row, threshold: u32) -> Row
    ensures { result ≡ placed threshold row }
{
    let mut slot = row;
    slot[THRESHOLD_AT] = threshold;
    slot[MARK_AT] = 0;
    slot
}

// A part of working rows becomes the layout of its rows with their ranks: the first slot here, and each half by the
// same rule.
fn build_part(dst: &mut [Row], src: &mut [Row], header: &Row) -> u64
    requires { (length dst.old ≡ length src.old) × (length src.old ≤ 2 ^ 32) × Whole src.old × RanksApart src.old }
    ensures laid { dst.new ≡ layout_within (distance (space_of header.now)) (length src.old) (map ranked_of src.old) }
    ensures cleared { src.new ≡ replicate (length src.old) zero_row }
    ensures counted { result ≡ cost (length src.old) }
{
    let n = src.len();
    if n == 0 {
        return 0;
    }
    let count = arrange(dst, src, header);
    let l = n / 2;
    let end = 1 + l;
    dst[0] = place(src[0], last_distance(src, l));
    src[0] = [0u32; ROW_WIDTH];
    let left = build_part(&mut dst[1..end], &mut src[1..end], header);
    let right = build_part(&mut dst[end..], &mut src[end..], header);
    count + left + right
}

// The rows of src, in the order gathered, become the tree's slots in dst. The reply is the number of distances worked
// out, and src is left zero.
pub fn build(dst: &mut [Row], src: &mut [Row], header: &Row) -> u64
    requires { (length dst.old ≡ length src.old) × (length src.old ≤ 2 ^ 32) }
    ensures laid { dst.new ≡ layout (distance (space_of header.now)) src.old }
    ensures cleared { src.new ≡ replicate (length src.old) zero_row }
    ensures counted { result ≡ cost (length src.old) }
    ensures whole { Whole src.old }
{
    write_ranks(src);
    build_part(dst, src, header)
}
