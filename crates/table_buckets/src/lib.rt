// One bucket of a table: its sizes written, its live items gathered, and the bucket emptied.
#![tactic(auto)]

ghost use Rattle.std.specs.Prelude.{◌≡◌, [], ◌+◌, ◌≤◌, ◌<◌, length};
ghost use Rattle.std.proofs.lemmas.List.Edits.{sets};
ghost use Rattle.lists.specs.Lists.{select};
ghost use Rattle.metric_rules.specs.Row.{is_live};
ghost use Rattle.table_rules.specs.Geometry.{room, sizes_row};
ghost use Rattle.table_rules.specs.Table.{built_of, in_use, live_of, live_slots, pair_row, put_sizes, put_bucket};
ghost use Rattle.table_buckets.specs.OfOrder.{OfOrder};

use metric_rules::{ROW_WIDTH, Row};
use row_store::zero_rows;
use rows::is_live;
use table_order::Order;
use table_views::{BUILT_AT, LIVE_AT, built_of, in_use, live_of};

// A sizes row: two words and zeros.
#[tactic(auto, unfolding(table_rules::specs::Table::pair_row, metric_rules::specs::Row::zero_row))]
fn pair_row(built: u32, live: u32) -> Row
    ensures { result ≡ pair_row built live }
{
    let mut row = [0u32; ROW_WIDTH];
    row[BUILT_AT] = built;
    row[LIVE_AT] = live;
    row
}

// The sizes of bucket k, their row written whole.
#[tactic(auto, unfolding(table_rules::specs::Table::put_sizes))]
pub fn put_sizes(table: &mut [Row], k: u32, built: u32, live: u32)
    requires { sizes_row k < length table.old }
    ensures { table.new ≡ put_sizes k built live table.old }
{
    table[Order::sizes_row(k)] = pair_row(built, live);
}

// Rows gathered at the front of a work area: its first n.
#[derive(Drop)]
pub struct Gathered<'a> {
    pub work: &'a mut [Row],
    pub n: usize,
}

// The live ones of a bucket's slots, in slot order, behind the rows gathered before.
fn gather_live(gathered: &mut Gathered, slots: &[Row])
    requires { gathered.old.n + length (select is_live slots.now) ≤ length gathered.old.work.now }
    ensures same_area { gathered.new.work.ghost_name ≡ gathered.old.work.ghost_name }
    ensures n { gathered.new.n ≡ gathered.old.n + length (select is_live slots.now) }
    ensures work { gathered.new.work.now ≡ sets gathered.old.work.now gathered.old.n (select is_live slots.now) }
{
    for row in slots {
        if is_live(*row) {
            gathered.work[gathered.n] = *row;
            gathered.n += 1;
        }
    }
}

// The buckets of a table lent for a change. Its order is known, and its rows are as many as the order needs.
#[derive(Drop)]
pub struct Buckets<'a> {
    pub rows: &'a mut [Row],
    pub order: Order,
    ghost of_order: { OfOrder rows.now order.t },
}

impl<'a> Buckets<'a> {
    // Whether bucket k is in use.
    pub fn in_use(&self, k: u32) -> bool
        requires { k ≤ self.now.order.t }
        ensures { result ≡ in_use self.now.rows.now k }
    {
        in_use(self.rows, k)
    }

    // The live items of bucket k.
    pub fn live(&self, k: u32) -> u32
        requires { k ≤ self.now.order.t }
        ensures { result ≡ live_of self.now.rows.now k }
    {
        live_of(self.rows, k)
    }

    // Bucket k becomes empty: its whole room is zeroed, whatever stood there past the built slots.
    pub fn empty(&mut self, k: u32)
        requires { k ≤ self.old.order.t }
        ensures same_area { self.new.rows.ghost_name ≡ self.old.rows.ghost_name }
        ensures same_order { self.new.order.t ≡ self.old.order.t }
        ensures rows { self.new.rows.now ≡ put_bucket k [] 0 self.old.rows.now }
    {
        let first = self.order.first_slot(k);
        let end = first + Order::room(k);
        // The table is whole again once both are written, so both are written through one loan of its rows.
        let table = &mut *self.rows;
        zero_rows(&mut table[first..end]);
        put_sizes(table, k, 0, 0);
    }

    // The live items of bucket k, in slot order, behind the rows gathered before. Whatever its built size says, its
    // built slots go no further than the table. The calls know more of them, and go by the next.
    #[tactic(auto, using(crate::proofs::Places::room_inside))]
    pub fn gather(&self, k: u32, gathered: &mut Gathered)
        requires { (k ≤ self.now.order.t)
            × (gathered.old.n + length (live_slots self.now.rows.now k) ≤ length gathered.old.work.now) }
        ensures same_area { gathered.new.work.ghost_name ≡ gathered.old.work.ghost_name }
        ensures n { gathered.new.n ≡ gathered.old.n + length (live_slots self.now.rows.now k) }
        ensures work { gathered.new.work.now
            ≡ sets gathered.old.work.now gathered.old.n (live_slots self.now.rows.now k) }
    {
        let first = self.order.first_slot(k);
        let end = first + built_of(self.rows, k) as usize;
        gather_live(gathered, &self.rows[first..end.min(self.rows.len())])
    }

    // The same where the built slots are known to lie in the bucket's room: nothing is compared.
    #[tactic(auto, using(crate::proofs::Places::room_inside))]
    pub fn gather_fitting(&self, k: u32, gathered: &mut Gathered)
        requires { (k ≤ self.now.order.t) × (built_of self.now.rows.now k ≤ room k)
            × (gathered.old.n + length (live_slots self.now.rows.now k) ≤ length gathered.old.work.now) }
        ensures same_area { gathered.new.work.ghost_name ≡ gathered.old.work.ghost_name }
        ensures n { gathered.new.n ≡ gathered.old.n + length (live_slots self.now.rows.now k) }
        ensures work { gathered.new.work.now
            ≡ sets gathered.old.work.now gathered.old.n (live_slots self.now.rows.now k) }
    {
        let first = self.order.first_slot(k);
        let end = first + built_of(self.rows, k) as usize;
        gather_live(gathered, &self.rows[first..end])
    }
}

#[cfg(test)]
mod tests {
    use super::*;

    // In a table of order 1 bucket 0 says that it was built of two slots, where it has room for one, and bucket 1 of
    // nine, where the table has two more. The slots are numbered, and all live.
    #[test]
    fn gathers_as_far_as_the_table_goes(rt: HostRuntime) {
        let mut table = [[0u32; ROW_WIDTH]; 6];
        table[0][0] = 1;
        table[1][BUILT_AT] = 2;
        table[2][BUILT_AT] = 9;
        table[3][0] = 3;
        table[4][0] = 4;
        table[5][0] = 5;
        let mut work = [[0u32; ROW_WIDTH]; 4];
        let buckets = Buckets {
            rows: &mut table[..],
            order: Order { t: 1 },
        };
        let mut gathered = Gathered {
            work: &mut work[..],
            n: 0,
        };
        buckets.gather(0, &mut gathered);
        buckets.gather(1, &mut gathered);
        assert_eq!(rt; gathered.n, 4);
        assert_eq!(rt;
            [work[0][0], work[1][0], work[2][0], work[3][0]],
            [3, 4, 4, 5]
        );
    }
}
