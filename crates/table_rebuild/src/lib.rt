// Gathered rows built in a bucket's own slots.
#![tactic(auto)]

ghost use Rattle.std.specs.Prelude.{◌≡◌, ◌++◌, ◌-◌, ◌≤◌, length, take, drop, replicate};
ghost use Rattle.metric_rules.specs.Row.{zero_row};
ghost use Rattle.metric_rules.specs.Distance.{distance, space_of};
ghost use Rattle.tree_rules.specs.Layout.{layout, cost};
ghost use Rattle.table_rules.specs.Geometry.{most_order, room, work_rows};
ghost use Rattle.table_rules.specs.Table.{table_space, put_bucket, cleared};

use metric_rules::Row;
use row_store::zero_rows;
use table_buckets::{Buckets, Gathered, put_sizes};
use table_order::Order;
use table_views::HEADER_ROW;
use tree_build::build;

// Gathered rows are built in a bucket's room, with zeros in the rest of it. They are left zero. The reply is the number
// of distances worked out.
fn fill(slots: &mut [Row], rows: &mut [Row], header: &Row) -> u64
    requires { (length rows.old ≤ length slots.old) × (length rows.old ≤ room most_order) }
    ensures slots { slots.new ≡ layout (distance (space_of header.now)) rows.old
        ++ replicate (length slots.old - length rows.old) zero_row }
    ensures rows { rows.new ≡ replicate (length rows.old) zero_row }
    ensures counted { result ≡ cost (length rows.old) }
{
    let n = rows.len();
    let count = build(&mut slots[..n], rows, header);
    zero_rows(&mut slots[n..]);
    count
}

// The rest of the work area's first rows zeroed, where n of them are zero already.
pub fn clear(work: &mut [Row], order: Order, n: usize)
    requires { (order.t ≤ most_order) × (work_rows order.t ≤ length work.old) × (n ≤ work_rows order.t)
        × (take n work.old ≡ replicate n zero_row) }
    ensures { work.new ≡ cleared zero_row (work_rows order.t) work.old }
{
    let end = order.work_rows();
    zero_rows(&mut work[n..end]);
}

// Bucket k is built of the rows gathered, all of them live, and the work area is left zero. At most 2^12 items are
// built, and so few distances fit 32 bits.
pub fn build_bucket(buckets: &mut Buckets, k: u32, gathered: Gathered) -> u32
    requires { (k ≤ buckets.old.order.t) × (gathered.n ≤ room k)
        × (work_rows buckets.old.order.t ≤ length gathered.work.now) }
    ensures same_area { buckets.new.rows.ghost_name ≡ buckets.old.rows.ghost_name }
    ensures rows { buckets.new.rows.now ≡ put_bucket k
        (layout (distance (table_space buckets.old.rows.now)) (take gathered.entry.n gathered.entry.work.now))
        gathered.entry.n buckets.old.rows.now }
    ensures work { gathered.exit.0.now ≡ cleared zero_row (work_rows buckets.old.order.t) gathered.entry.work.now }
    ensures counted { result ≡ cost gathered.entry.n }
{
    let Gathered { work, n } = gathered;
    let first = buckets.order.first_slot(k);
    let end = first + Order::room(k);
    let table = &mut *buckets.rows;
    let header = table[HEADER_ROW];
    let count = fill(&mut table[first..end], &mut work[..n], &header);
    put_sizes(table, k, n as u32, n as u32);
    clear(work, buckets.order, n);
    count as u32
}
