// The numbers of a set, one by one. The contracts speak of the iterator as the list of what is left.
ghost use Rattle.std.specs.Iterator.{YieldsFirst, item_count};

use crate::DispatchSet;
use std::marker::Model;

/// The numbers in a [`DispatchSet`], in ascending order.
#[derive(Drop)]
pub struct Numbers {
    pub(crate) left: DispatchSet,
}

impl Model for Numbers {
    ghost use Rattle.std.specs.Prelude.{List, ℕ};
    ghost use Rattle.dispatch_set.specs.DispatchSet.{numbers_in};

    ghost Value = { List ℕ };

    ghost view = { λ s. numbers_in s.left };
}

impl Iterator for Numbers {
    type Item = u8;

    ghost next_gives = { YieldsFirst (λ s. s) };

    ghost remaining = { item_count (λ s. s) };

    fn next(&mut self) -> Option<u8> {
        let first = self.left.first()?;
        self.left.remove(first);
        Some(first)
    }
}
