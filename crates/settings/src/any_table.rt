// A table that is chosen by name.
ghost use Rattle.settings.specs.Meanings.{table_meaning};
ghost use Rattle.settings.specs.declared.any_table.AnyTable.TheVariants.{Two, Five, Span};
ghost use Rattle.uses.specs.SpanLaws.{spans_lawful};
ghost use Rattle.settings.specs.TableLaws.{two_lawful, five_lawful};

use crate::unknown_name::UnknownName;
use std::str::FromStr;
use uses::five_uses::FiveUses;
use uses::spans::Spans;
use uses::table::UseTable;
use uses::two_uses::TwoUses;

/// One of the three tables.
#[derive(Clone, Copy, Debug)]
pub enum AnyTable {
    Two(TwoUses),
    Five(FiveUses),
    Span(Spans),
}

impl UseTable for AnyTable {
    ghost meaning = { table_meaning };

    ghost lawful = { elim [ Two t ↦ two_lawful | Five t ↦ five_lawful | Span t ↦ spans_lawful ] };

    fn knows(&self, mode: u32) -> bool {
        match self {
            AnyTable::Two(table) => table.knows(mode),
            AnyTable::Five(table) => table.knows(mode),
            AnyTable::Span(table) => table.knows(mode),
        }
    }

    fn conflicts(&self, a: u32, b: u32) -> bool {
        match self {
            AnyTable::Two(table) => table.conflicts(a, b),
            AnyTable::Five(table) => table.conflicts(a, b),
            AnyTable::Span(table) => table.conflicts(a, b),
        }
    }

    fn covers(&self, a: u32, b: u32) -> bool {
        match self {
            AnyTable::Two(table) => table.covers(a, b),
            AnyTable::Five(table) => table.covers(a, b),
            AnyTable::Span(table) => table.covers(a, b),
        }
    }
}

impl FromStr for AnyTable {
    ghost use Rattle.std.specs.Result.{result_ok};
    ghost use Rattle.settings.specs.Names.{IsNameOf, table_name};

    type Err = UnknownName;

    ghost from_str_gives = { λ word r. IsNameOf table_name word (result_ok r) };

    /// Reads a table's name: `two`, `five` or `span`.
    fn from_str(word: &str) -> Result<Self, UnknownName> {
        match word {
            "two" => Ok(AnyTable::Two(TwoUses)),
            "five" => Ok(AnyTable::Five(FiveUses)),
            "span" => Ok(AnyTable::Span(Spans)),
            _ => Err(UnknownName),
        }
    }
}
