// A single recall order that is chosen by name.
ghost use Rattle.settings.specs.Meanings.{single_meaning};
ghost use Rattle.std.proofs.Common.{rules};

use crate::unknown_name::UnknownName;
use orders::order::{RecallOrder, Summary};
use orders::single::{Fewest, Lightest, Newest};
use std::str::FromStr;

/// One of the three single orders.
#[derive(Clone, Copy, Debug, PartialEq, Eq)]
pub enum SingleOrder {
    Newest,
    Lightest,
    Fewest,
}

impl RecallOrder for SingleOrder {
    ghost meaning = { single_meaning };

    ghost lawful = { Prim.search rules };

    fn no_later(&self, a: Summary, b: Summary) -> bool {
        match self {
            SingleOrder::Newest => Newest.no_later(a, b),
            SingleOrder::Lightest => Lightest.no_later(a, b),
            SingleOrder::Fewest => Fewest.no_later(a, b),
        }
    }
}

impl FromStr for SingleOrder {
    ghost use Rattle.std.specs.Result.{result_ok};
    ghost use Rattle.settings.specs.Names.{IsNameOf, single_name};

    type Err = UnknownName;

    ghost from_str_gives = { λ word r. IsNameOf single_name word (result_ok r) };

    /// Reads a single order's name: `newest`, `lightest` or `fewest`.
    fn from_str(word: &str) -> Result<Self, UnknownName> {
        match word {
            "newest" => Ok(SingleOrder::Newest),
            "lightest" => Ok(SingleOrder::Lightest),
            "fewest" => Ok(SingleOrder::Fewest),
            _ => Err(UnknownName),
        }
    }
}
