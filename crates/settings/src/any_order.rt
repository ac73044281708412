// A recall order that is chosen by name.
ghost use Rattle.settings.specs.Meanings.{order_meaning};
ghost use Rattle.settings.specs.OrderLaws.{single_lawful, pair_lawful};
ghost use Rattle.settings.specs.declared.any_order.AnyOrder.TheVariants.{One, Pair};

use crate::single_order::SingleOrder;
use crate::unknown_name::UnknownName;
use orders::order::{RecallOrder, Summary};
use orders::pair::Then;
use std::str::FromStr;

/// One single order, or a pair of them: the second counts where the first ties.
#[derive(Clone, Copy, Debug)]
pub enum AnyOrder {
    One(SingleOrder),
    Pair(Then<SingleOrder, SingleOrder>),
}

impl RecallOrder for AnyOrder {
    ghost meaning = { order_meaning };

    ghost lawful = { elim [
      | One o ↦ single_lawful o
      | Pair p ↦ pair_lawful (single_lawful p.first) (single_lawful p.second)
    ] };

    fn no_later(&self, a: Summary, b: Summary) -> bool {
        match self {
            AnyOrder::One(order) => order.no_later(a, b),
            AnyOrder::Pair(pair) => pair.no_later(a, b),
        }
    }
}

impl FromStr for AnyOrder {
    ghost use Rattle.std.specs.Result.{result_ok};
    ghost use Rattle.settings.specs.Names.{IsNameOf, order_name};

    type Err = UnknownName;

    ghost from_str_gives = { λ word r. IsNameOf order_name word (result_ok r) };

    /// Reads a single order's name, or two with a comma between; of two the first counts first.
    fn from_str(word: &str) -> Result<Self, UnknownName> {
        let Some((first, second)) = word.split_once(',') else {
            return Ok(AnyOrder::One(word.parse()?));
        };
        Ok(AnyOrder::Pair(Then {
            first: first.parse()?,
            second: second.parse()?,
        }))
    }
}
