// Who is on a cycle of a relation on the dispatch numbers, given as a row for each number: the set
// of the numbers to which a step leads.
ghost use Rattle.std.specs.Prelude.{◌≡◌, ℕ, ◌<◌, ◌&&◌, ◌||◌, ◌↔◌, IsTrue};
ghost use Rattle.std.specs.List.{range_with_len};
ghost use Rattle.dispatch_set.specs.DispatchSet.{contains};
ghost use Rattle.model.specs.Graph.{OnCycle, by_way_of, closure};
ghost use Rattle.claims.specs.Rows.{relation};

use dispatch_set::DispatchSet;
use model::limits::DISPATCHES;

// A row for each dispatch number. An array, since the memory is fixed.
pub type Rows = [DispatchSet; DISPATCHES];

// The numbers that are on a cycle.
pub fn on_cycles(mut rows: Rows) -> DispatchSet
    ensures { (a : ℕ) → IsTrue (contains result a) ↔ OnCycle (relation rows) a }
{
    close(&mut rows);
    own_numbers(&rows)
}

// Adds the steps by way of each number in turn.
fn close(rows: &mut Rows)
    ensures { relation rows.new ≡ closure (range_with_len 0 DISPATCHES) (relation rows.old) }
{
    for k in 0..DISPATCHES as u8 {
        add_steps_by(rows, k);
    }
}

// Adds the steps by way of k. Where no step leads from k there are none.
fn add_steps_by(rows: &mut Rows, k: u8)
    requires { k < DISPATCHES }
    ensures { relation rows.new ≡ by_way_of k (relation rows.old) }
{
    let via = rows[k as usize];
    if via.is_empty() {
        return;
    }
    for row in rows.iter_mut() {
        *row = row_by(*row, k, via);
    }
}

// A row with the numbers of row k too, if it contains k.
fn row_by(row: DispatchSet, k: u8, via: DispatchSet) -> DispatchSet
    ensures { (b : ℕ) → contains result b ≡ (contains row b || (contains row k && contains via b)) }
{
    if row.contains(k) { row.union(via) } else { row }
}

// The numbers whose own row contains them.
fn own_numbers(rows: &Rows) -> DispatchSet
    ensures { (a : ℕ) → contains result a ≡ relation rows.now a a }
{
    let mut own = DispatchSet::none();
    for (a, row) in rows.iter().enumerate() {
        let a = a as u8;
        if row.contains(a) {
            own.insert(a);
        }
    }
    own
}
