// Up to seven slots of a tree at once. Their distances are worked out with no branch that depends on one, so that the
// processor works on several at a time; a search then goes by them.
#![tactic(auto)]

ghost use Rattle.std.specs.Prelude.{◌≡◌, ◌+◌, ◌≤◌, ◌<◌, ◌^◌, leb, length, take};
ghost use Rattle.lists.specs.Lists.{All};
ghost use Rattle.tree_leaf.specs.Leaf.{distances_asked, count_if, Known, MetAt};

use metric::distance_between;
use metric_rules::Row;
use rows::threshold_of;
use search_asked::Asked;

// The distances of at most seven slots, each in the place of its slot.
pub type Distances = [u64; 8];

const MOST_DISTANCE: u64 = 0xffff_ffff;

// The distances of at most seven slots. The reply is the least of them. The number 7 lets the compiler write the loop
// out.
pub fn distances_of(slots: &[Row], asked: &Asked, into: &mut Distances) -> u64
    requires { (length slots.now < 8) × (length into.old ≡ 8) }
    ensures each { take (length slots.now) into.new ≡ distances_asked asked.now slots.now }
    ensures least { All (λ d. result ≤ d) (distances_asked asked.now slots.now) }
{
    let few = &slots[..slots.len().min(7)];
    let mut least = MOST_DISTANCE;
    for (i, slot) in few.iter().enumerate() {
        let d = distance_between(&asked[0], *slot, asked[1]) as u64;
        into[i] = d;
        least = least.min(d);
    }
    least
}

// The n slots of the left half below a slot at distance d and of threshold m count where the half is entered. The right
// half's test is this with d and m exchanged.
#[tactic(auto, unfolding(crate::specs::Leaf::count_if))]
fn half_count(d: u64, m: u64, bound: u64, n: usize) -> usize
    requires { (m < 2 ^ 32) × (bound < 2 ^ 32) }
    ensures { result ≡ count_if (leb d (m + bound)) n }
{
    if d <= m + bound { n } else { 0 }
}

// How many of one to three slots at these distances a visit meets, where none of them is within the bound.
#[tactic(auto, using(crate::proofs::Passing::count_most))]
fn three_passed(slots: &[Row], ds: &[u64], bound: u64) -> usize
    requires { (0 < length slots.now) × (length slots.now < 4) × Known slots.now ds.now × (bound < 2 ^ 32) }
    ensures { (result ≤ 3) × MetAt slots.now ds.now bound result }
{
    let n = slots.len();
    let m = threshold_of(slots[0]) as u64;
    let left = half_count(ds[0], m, bound, n / 2);
    let right = half_count(m, ds[0], bound, n - 1 - n / 2);
    1 + left + right
}

// How many of one to seven slots at these distances a visit meets, where none of them is within the bound.
#[tactic(auto, using(crate::proofs::Passing::count_most))]
pub fn passed_over(slots: &[Row], ds: &[u64], bound: u64) -> usize
    requires { (0 < length slots.now) × (length slots.now < 8) × Known slots.now ds.now × (bound < 2 ^ 32) }
    ensures { MetAt slots.now ds.now bound result }
{
    let n = slots.len();
    if n < 4 {
        return three_passed(slots, ds, bound);
    }
    let r = n / 2 + 1;
    let m = threshold_of(slots[0]) as u64;
    let left = three_passed(&slots[1..r], &ds[1..r], bound);
    let right = three_passed(&slots[r..], &ds[r..], bound);
    let before = half_count(ds[0], m, bound, left);
    let behind = half_count(m, ds[0], bound, right);
    1 + before + behind
}
