// A part of a tree arranged: the row of the least tag first, and the others by their distance from it.
// Its rows carry their rank in the mark word and, once measured, their distance from the first in the threshold word.
#![tactic(auto)]

ghost use Rattle.std.specs.Prelude.{◌≡◌, ◌-◌, ◌≤◌, ◌<◌, true, [], map, length, get_or};
ghost use Rattle.lists.specs.Lists.{every};
ghost use Rattle.metric_rules.specs.Distance.{distance, space_of};
ghost use Rattle.tree_rules.specs.Sorting.{key_le};
ghost use Rattle.tree_rows.specs.Working.{first_key, RanksApart, measured_from, arranged};

use metric::distance_between;
use metric_rules::{Row, THRESHOLD_AT};
use tree_rows::tag_le;
use tree_sort::sort;

// The place of the row with the least tag and rank.
fn first_at(rows: &[Row]) -> usize
    requires { 1 ≤ length rows.now }
    ensures { (result < length rows.now) × (every (λ x. key_le (first_key (get_or rows.now result [])) (first_key x)) rows.now ≡ true) }
{
    let mut at = 0;
    for (i, row) in rows.iter().enumerate() {
        if !tag_le(rows[at], *row) {
            at = i;
        }
    }
    at
}

// The rows of src with their distances from v written, and a copy of them in dst. The reply is the number of distances
// worked out.
fn measure(dst: &mut [Row], src: &mut [Row], v: Row, header: &Row) -> u64
    requires { length dst.old ≡ length src.old }
    ensures measured { src.new ≡ map (measured_from (distance (space_of header.now)) v) src.old }
    ensures copied { dst.new ≡ src.new }
    ensures counted { result ≡ length src.old }
{
    let mut count: u64 = 0;
    for (i, row) in src.iter_mut().enumerate() {
        row[THRESHOLD_AT] = distance_between(header, v, *row);
        dst[i] = *row;
        count += 1;
    }
    count
}

// A part's rows arranged: the first slot's, and the others in order of their distance from it. The destination is the
// sort's scratch: what it holds afterwards is left free, and it keeps its length. The reply is the number of distances
// worked out.
pub fn arrange(dst: &mut [Row], src: &mut [Row], header: &Row) -> u64
    requires { (length dst.old ≡ length src.old) × (1 ≤ length src.old) × RanksApart src.old }
    ensures arranged { src.new ≡ arranged (distance (space_of header.now)) src.old }
    ensures counted { result ≡ length src.old - 1 }
{
    let at = first_at(src);
    src.swap(0, at);
    let v = src[0];
    let count = measure(&mut dst[1..], &mut src[1..], v, header);
    sort(&mut src[1..], &mut dst[1..]);
    count
}
