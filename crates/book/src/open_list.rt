// The open list. The contracts speak of it as the list of its entries.
ghost use Rattle.std.specs.Prelude.{◌≡◌, ◌<◌, ◌≤◌, [], ◌∷◌, ◌++◌, length};
ghost use Rattle.model.specs.Search.{member};
ghost use Rattle.model.specs.State.{numbers, entries_without};
ghost use Rattle.model.specs.Recalling.{standing as standing_of, weight as weight_of};

use fixed_list::FixedList;
use model::limits::DISPATCHES;
use model::state::OpenEntry;
use std::marker::Model;

/// The open dispatches (active transactions) with their weights, in order of opening: at most 64.
#[derive(Drop)]
pub struct OpenList {
    entries: FixedList<OpenEntry, DISPATCHES>,
}

impl Model for OpenList {
    ghost use Rattle.std.specs.Prelude.{◌≤◌, List, length};
    ghost use Rattle.model.specs.declared.limits.TheConstants.{DISPATCHES};
    ghost use Rattle.model.specs.declared.state.OpenEntry.{OpenEntry};

    ghost Value = { List OpenEntry };

    ghost view = { λ l. l.entries };

    ghost invariant = { λ l. length l.entries ≤ DISPATCHES };
}

impl OpenList {
    /// Nobody.
    pub fn new() -> OpenList
        ensures { result ≡ [] }
    {
        let free = OpenEntry {
            dispatch: 0,
            weight: 0,
        };
        OpenList {
            entries: FixedList::new(free),
        }
    }

    /// The entries, in order of opening.
    pub fn rows(&self) -> &[OpenEntry]
        ensures value { result.now ≡ self.now }
        ensures fits { length result.now ≤ DISPATCHES }
    {
        self.entries.rows()
    }

    /// Puts an entry behind the others.
    pub fn push(&mut self, entry: OpenEntry)
        requires { length self.old < DISPATCHES }
        ensures { self.new ≡ self.old ++ entry ∷ [] }
    {
        self.entries.push(entry);
    }

    /// Takes the dispatch's entry out.
    pub fn take_out(&mut self, dispatch: u8)
        ensures { self.new ≡ entries_without dispatch self.old }
    {
        self.entries.retain(|e| e.dispatch != dispatch);
    }

    /// Is the dispatch in the list?
    pub fn contains(&self, dispatch: u8) -> bool
        ensures { result ≡ member dispatch (numbers self.now) }
    {
        self.rows().iter().any(|e| e.dispatch == dispatch)
    }

    /// How many were opened before the dispatch.
    pub fn standing(&self, dispatch: u8) -> u32
        ensures { result ≡ standing_of self.now dispatch }
    {
        let entries = self.rows();
        entries
            .iter()
            .position(|e| e.dispatch == dispatch)
            .unwrap_or(entries.len()) as u32
    }

    /// The weight of the dispatch.
    pub fn weight(&self, dispatch: u8) -> u32
        ensures { result ≡ weight_of self.now dispatch }
    {
        self.rows()
            .iter()
            .find(|e| e.dispatch == dispatch)
            .map_or(0, |e| u32::from(e.weight))
    }
}
