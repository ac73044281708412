// One order after another.
ghost use Rattle.orders.specs.Orders.{pair};
ghost use Rattle.std.proofs.Common.{rules};

use crate::order::{RecallOrder, Summary};

/// The first order, and where it ties, the second.
#[derive(Clone, Copy, Debug, Default)]
pub struct Then<A, B> {
    pub first: A,
    pub second: B,
}

impl<A: RecallOrder, B: RecallOrder> RecallOrder for Then<A, B> {
    ghost meaning = { λ o. pair (A.meaning o.first) (B.meaning o.second) };

    ghost lawful = { Prim.search rules };

    fn no_later(&self, a: Summary, b: Summary) -> bool {
        self.first.no_later(a, b) && (!self.first.no_later(b, a) || self.second.no_later(a, b))
    }
}
