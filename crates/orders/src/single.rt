// The orders that look at one number of the summary.
ghost use Rattle.orders.specs.Orders.{newest, lightest, fewest};
ghost use Rattle.std.proofs.Common.{rules};

use crate::order::{RecallOrder, Summary};

/// Who was opened later goes earlier.
#[derive(Clone, Copy, Debug, Default)]
pub struct Newest;

impl RecallOrder for Newest {
    ghost meaning = { λ _. newest };

    ghost lawful = { Prim.search rules };

    fn no_later(&self, a: Summary, b: Summary) -> bool {
        a.standing >= b.standing
    }
}

/// Who weighs less goes earlier.
#[derive(Clone, Copy, Debug, Default)]
pub struct Lightest;

impl RecallOrder for Lightest {
    ghost meaning = { λ _. lightest };

    ghost lawful = { Prim.search rules };

    fn no_later(&self, a: Summary, b: Summary) -> bool {
        a.weight <= b.weight
    }
}

/// Who holds fewer claims goes earlier.
#[derive(Clone, Copy, Debug, Default)]
pub struct Fewest;

impl RecallOrder for Fewest {
    ghost meaning = { λ _. fewest };

    ghost lawful = { Prim.search rules };

    fn no_later(&self, a: Summary, b: Summary) -> bool {
        a.held <= b.held
    }
}
