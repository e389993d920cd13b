// Nearest over one tree by a tally that is lent: the running count and the kept bound pass through every step.
#![tactic(auto)]

ghost use Rattle.std.specs.Prelude.{◌<◌, length};
ghost use Rattle.search_asked.specs.Asked.{k_asked};
ghost use Rattle.tree_nearest.specs.Nearby.{Leaves, ReadyAsked, nearest_asked};

use metric_rules::Row;
use search_asked::Asked;
use search_rules::Entry;
use tree_nearest::{Nearby, nearest_tree};

// The tally is lent: what it holds goes by value to the core over one tree, and what the core leaves is put back.
pub fn visit(tally: &mut Nearby, slots: &[Row], area: &mut [Entry], asked: &Asked)
    requires { (0 < length slots.now) × ReadyAsked asked.now slots.now area.old tally.old }
    ensures { Leaves (k_asked asked.now) (nearest_asked asked.now slots.now area.old tally.old) area.old area.new tally.new }
{
    *tally = nearest_tree(*tally, slots, area, asked);
}

// One tree's search, from what the trees before it have kept.
pub fn visited(near: Nearby, slots: &[Row], area: &mut [Entry], asked: &Asked) -> Nearby
    requires { (0 < length slots.now) × ReadyAsked asked.now slots.now area.old near }
    ensures { Leaves (k_asked asked.now) (nearest_asked asked.now slots.now area.old near) area.old area.new result }
{
    let mut lent = near;
    visit(&mut lent, slots, area, asked);
    lent
}
