// The claim table (a lock table). The contracts speak of it as the list of its claims.
ghost use Rattle.std.specs.Prelude.{◌≡◌, ◌<◌, ◌≤◌, ℕ, [], ◌∷◌, ◌++◌, length, ◌↔◌, IsTrue, nat_le};
ghost use Rattle.std.specs.List.{All};
ghost use Rattle.dispatch_set.specs.DispatchSet.{contains};
ghost use Rattle.model.specs.Claims.{without, is_covered, blocks, dispatch_waits, waiting_section, held_count as held_count_of, waits_for, holds, in_line};
ghost use Rattle.model.specs.Graph.{OnCycle};
ghost use Rattle.model.specs.Search.{any};
ghost use Rattle.claims.specs.ClaimTable.{AreWaitingSections, or_waiting_section};
ghost use Rattle.claims.specs.Rows.{relation};

use crate::cycles::Rows;
use crate::in_line::{InLine, Line};
use crate::{blocking, cycles};
use dispatch_set::DispatchSet;
use fixed_list::FixedList;
use model::limits::{CLAIMS, DISPATCHES};
use model::state::Claim;
use std::marker::Model;
use uses::table::UseTable;

/// The claims of a book, in order of arrival: at most 512, each of a dispatch number. The use table
/// is lent to each question that needs it.
#[derive(Drop)]
pub struct ClaimTable {
    list: FixedList<Claim, CLAIMS>,
}

impl Model for ClaimTable {
    ghost use Rattle.std.specs.Prelude.{◌<◌, ◌≤◌, List, length};
    ghost use Rattle.std.specs.List.{All};
    ghost use Rattle.model.specs.declared.limits.TheConstants.{CLAIMS, DISPATCHES};
    ghost use Rattle.model.specs.declared.state.Claim.{Claim};

    ghost Value = { List Claim };

    ghost view = { λ t. t.list };

    ghost invariant = { λ t. (length t.list ≤ CLAIMS) × All (λ c. c.dispatch < DISPATCHES) t.list };
}

// The section of the claim for which a dispatch waits: the one that was found, or else the claim's,
// if it waits.
fn or_waiting<T: UseTable>(found: Option<u16>, c: &InLine, table: &T) -> Option<u16>
    ensures { result ≡ or_waiting_section (T.meaning table.now) found c.now }
{
    if found.is_none() && c.waits(table) {
        return Some(c.claim.section);
    }
    found
}

impl ClaimTable {
    /// No claims.
    pub fn new() -> ClaimTable
        ensures { result ≡ [] }
    {
        let free = Claim {
            dispatch: 0,
            section: 0,
            mode: 0,
        };
        ClaimTable {
            list: FixedList::new(free),
        }
    }

    /// How many claims there are: at most 512.
    pub fn len(&self) -> usize
        ensures value { result ≡ length self.now }
        ensures fits { result ≤ CLAIMS }
    {
        self.list.len()
    }

    /// Do as many claims stand as there is room for?
    pub fn is_full(&self) -> bool
        ensures { result ≡ nat_le CLAIMS (length self.now) }
    {
        self.len() >= CLAIMS
    }

    /// The claims, in order: at most 512, each of a dispatch number.
    pub fn rows(&self) -> &[Claim]
        ensures value { result.now ≡ self.now }
        ensures fits { length result.now ≤ CLAIMS }
        ensures small { All (λ c. c.dispatch < DISPATCHES) result.now }
    {
        self.list.rows()
    }

    /// Enters a claim behind the others.
    pub fn enter(&mut self, c: Claim)
        requires small { c.dispatch < DISPATCHES }
        requires room { length self.old < CLAIMS }
        ensures { self.new ≡ self.old ++ c ∷ [] }
    {
        self.list.push(c);
    }

    /// Takes the dispatch's claims out (releases its locks).
    pub fn take_out(&mut self, d: u8)
        ensures { self.new ≡ without d self.old }
    {
        self.list.retain(|c| c.dispatch != d);
    }

    /// Does some claim of the dispatch on the section cover the use?
    pub fn is_covered<T: UseTable>(&self, table: &T, d: u8, section: u16, mode: u32) -> bool
        ensures { result ≡ is_covered (T.meaning table.now) self.now d section mode }
    {
        self.list.rows().iter().any(|c| {
            c.dispatch == d && c.section == section && table.covers(c.mode, mode)
        })
    }

    /// Does some claim block the claim, which would stand behind all others?
    pub fn is_blocked<T: UseTable>(&self, table: &T, c: Claim) -> bool
        ensures { result ≡ any (λ b. blocks (T.meaning table.now) b c) self.now }
    {
        blocking::is_blocked(table, self.list.rows(), &c)
    }

    /// Does some claim of the dispatch wait?
    pub fn waits<T: UseTable>(&self, table: &T, d: u8) -> bool
        ensures { result ≡ dispatch_waits (T.meaning table.now) self.now d }
    {
        self.in_line()
            .any(|c| c.claim.dispatch == d && c.waits(table))
    }

    /// The section of the claim for which the dispatch waits.
    pub fn waiting_section<T: UseTable>(&self, table: &T, d: u8) -> Option<u16>
        ensures { result ≡ waiting_section (T.meaning table.now) self.now d }
    {
        self.in_line()
            .find(|c| c.claim.dispatch == d && c.waits(table))
            .map(|c| c.claim.section)
    }

    /// For each dispatch, the section of the claim for which it waits, if it waits.
    pub fn waiting_sections<T: UseTable>(&self, table: &T) -> [Option<u16>; DISPATCHES]
        ensures { AreWaitingSections (T.meaning table.now) self.now result }
    {
        let mut sections = [None; DISPATCHES];
        for c in self.in_line() {
            let d = c.claim.dispatch as usize;
            sections[d] = or_waiting(sections[d], &c, table);
        }
        sections
    }

    /// How many claims of the dispatch are held (granted).
    pub fn held_count<T: UseTable>(&self, table: &T, d: u8) -> u32
        ensures { result ≡ held_count_of (T.meaning table.now) self.now d }
    {
        self.in_line()
            .filter(|c| c.claim.dispatch == d && !c.waits(table))
            .count() as u32
    }

    /// The dispatches for which the dispatch waits (its successors in the waits-for graph).
    pub fn blockers<T: UseTable>(&self, table: &T, d: u8) -> DispatchSet
        ensures { contains result ≡ waits_for (T.meaning table.now) self.now d }
    {
        let mut found = DispatchSet::none();
        for c in self.in_line() {
            if c.claim.dispatch == d {
                found = found.union(c.blockers(table));
            }
        }
        found
    }

    /// The dispatches that hold a claim on the section.
    pub fn holders<T: UseTable>(&self, table: &T, section: u16) -> DispatchSet
        ensures { contains result ≡ holds (T.meaning table.now) self.now section }
    {
        let mut found = DispatchSet::none();
        for c in self.in_line() {
            if c.claim.section == section && !c.waits(table) {
                found.insert(c.claim.dispatch);
            }
        }
        found
    }

    /// The dispatches that are on a cycle of waits.
    pub fn on_cycles<T: UseTable>(&self, table: &T) -> DispatchSet
        ensures { (d : ℕ) → IsTrue (contains result d)
            ↔ OnCycle (waits_for (T.meaning table.now) self.now) d }
    {
        cycles::on_cycles(self.waits_for_rows(table))
    }

    // The waits-for graph: a row for each dispatch number.
    fn waits_for_rows<T: UseTable>(&self, table: &T) -> Rows
        ensures { relation result ≡ waits_for (T.meaning table.now) self.now }
    {
        let mut rows = [DispatchSet::none(); DISPATCHES];
        for c in self.in_line() {
            let d = c.claim.dispatch as usize;
            rows[d] = rows[d].union(c.blockers(table));
        }
        rows
    }

    // The claims in line, in order.
    fn in_line(&self) -> Line<'_>
        ensures value { result ≡ in_line self.now }
        ensures fits { length result ≤ CLAIMS }
    {
        Line {
            claims: self.list.rows(),
            next: 0,
        }
    }
}
