// Claims in line: each with those that stand earlier.
ghost use Rattle.std.specs.Prelude.{◌≡◌, ◌&&◌};
ghost use Rattle.std.specs.Iterator.{YieldsFirst, item_count};
ghost use Rattle.dispatch_set.specs.DispatchSet.{contains};
ghost use Rattle.model.specs.Claims.{of, blocks as blocking, waits};
ghost use Rattle.model.specs.Search.{any};

use crate::blocking::{blocks, is_blocked};
use dispatch_set::DispatchSet;
use model::state::Claim;
use std::marker::Model;
use uses::table::UseTable;

// A claim with the claims that stand earlier, each of a dispatch number. The contracts speak of one
// as the model's.
#[derive(Drop)]
pub struct InLine<'a> {
    pub earlier: &'a [Claim],
    pub claim: Claim,
}

impl<'a> Model for InLine<'a> {
    ghost use Rattle.std.specs.Prelude.{◌<◌};
    ghost use Rattle.std.specs.List.{All};
    ghost use Rattle.model.specs.Claims.{InLine as ModelInLine};
    ghost use Rattle.model.specs.declared.limits.TheConstants.{DISPATCHES};

    ghost Value = { ModelInLine };

    ghost view = { λ p. record { earlier = p.earlier.now; claim = p.claim } };

    ghost invariant = { λ p. (p.claim.dispatch < DISPATCHES)
        × All (λ c. c.dispatch < DISPATCHES) p.earlier.now };
}

impl<'a> InLine<'a> {
    // Does the claim wait: does some earlier claim block it?
    pub fn waits<T: UseTable>(&self, table: &T) -> bool
        ensures { result ≡ waits (T.meaning table.now) self.now }
    {
        is_blocked(table, self.earlier, &self.claim)
    }

    // The dispatches whose earlier claims block the claim.
    pub fn blockers<T: UseTable>(&self, table: &T) -> DispatchSet
        ensures { contains result
            ≡ (λ e. any (λ b. of e b && blocking (T.meaning table.now) b self.now.claim)
            self.now.earlier) }
    {
        let mut found = DispatchSet::none();
        for b in self.earlier {
            if blocks(table, b, &self.claim) {
                found.insert(b.dispatch);
            }
        }
        found
    }
}

// The claims in line, in order, from place `next` on. An iterator written by hand, with its index:
// the type of a chain with a closure has no name, so a function could not hand one out.
#[derive(Drop)]
pub struct Line<'a> {
    pub claims: &'a [Claim],
    pub next: usize,
}

impl<'a> Model for Line<'a> {
    ghost use Rattle.std.specs.Prelude.{◌<◌, List, take, drop};
    ghost use Rattle.std.specs.List.{All};
    ghost use Rattle.model.specs.Claims.{InLine as ModelInLine, in_line_behind};
    ghost use Rattle.model.specs.declared.limits.TheConstants.{DISPATCHES};

    ghost Value = { List ModelInLine };

    ghost view = { λ s. in_line_behind (take s.next s.claims.now) (drop s.next s.claims.now) };

    ghost invariant = { λ s. All (λ c. c.dispatch < DISPATCHES) s.claims.now };
}

impl<'a> Iterator for Line<'a> {
    type Item = InLine<'a>;

    ghost next_gives = { YieldsFirst (λ s. s) };

    ghost remaining = { item_count (λ s. s) };

    fn next(&mut self) -> Option<InLine<'a>> {
        let claim = *self.claims.get(self.next)?;
        let earlier = &self.claims[..self.next];
        self.next += 1;
        Some(InLine { earlier, claim })
    }
}
