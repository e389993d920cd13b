// RULES 5.1, the order T of a table. Every place in a table or a work area is worked out here and nowhere else.
#![tactic(auto)]

ghost use Rattle.std.specs.Prelude.{◌≡◌, ◌+◌, ◌<◌, IfOk};
ghost use Rattle.refusals.specs.Number.{refusal_in};
ghost use Rattle.table_rules.specs.Geometry.{room, sizes_row, first_slot, table_rows, work_rows};
ghost use Rattle.table_order.specs.Numbers.{order_refusal};

use refusals::Refusal;

#[derive(Clone, Copy)]
pub struct Order {
    pub t: u32,
}

// A contract asks of an order no more than that what is worked out fits its type; that it is at most 12 is said of a
// table (OfOrder, Passed), whose order it is.
impl Order {
    // 0 and 12 are constants of the order itself.
    pub const LEAST: u32 = 0;

    pub const MOST: u32 = 12;

    // The order with this number. It is named as its callers have it; TryFrom would say the same.
    #[tactic(auto, using(crate::proofs::Orders::order_passes, crate::proofs::Orders::order_refused))]
    pub fn new(t: u32) -> Result<Order, Refusal>
        ensures refusal { refusal_in result ≡ order_refusal t }
        ensures order { IfOk result (λ order. order.t ≡ t) }
    {
        if !(Order::LEAST..=Order::MOST).contains(&t) {
            return Err(Refusal::BadOrder);
        }
        Ok(Order { t })
    }

    // How many buckets there are, 0 to T. A walk over them is a `for` with its own step: three lines, which a function
    // over a closure would not shorten.
    pub fn buckets(self) -> u32
        requires { self.t < 32 }
        ensures { result ≡ self.t + 1 }
    {
        let t = self.t;
        t + 1
    }

    // The slots of bucket k.
    pub fn room(k: u32) -> usize
        requires { k < 32 }
        ensures { result ≡ room k }
    {
        1usize << k
    }

    // The row with the sizes of bucket k.
    pub fn sizes_row(k: u32) -> usize
        ensures { result ≡ sizes_row k }
    {
        1 + k as usize
    }

    // The row of the first slot of bucket k.
    pub fn first_slot(self, k: u32) -> usize
        requires { k < 32 }
        ensures { result ≡ first_slot self.t k }
    {
        let t = self.t;
        t as usize + 1 + Order::room(k)
    }

    // The rows of a table, and of the work area lent with it.
    pub fn table_rows(self) -> usize
        requires { self.t < 31 }
        ensures { result ≡ table_rows self.t }
    {
        self.first_slot(self.t + 1)
    }

    pub fn work_rows(self) -> usize
        requires { self.t < 32 }
        ensures { result ≡ work_rows self.t }
    {
        Order::room(self.t)
    }
}
