// Naming who is woken.
ghost use Rattle.std.specs.Prelude.{◌≡◌, ◌+◌, ◌<◌, ◌≤◌, [], ◌∷◌, length};
ghost use Rattle.model.specs.State.{numbers, state_without};
ghost use Rattle.model.specs.Calls.{report_of, woken};
ghost use Rattle.book.specs.Tables.{state, NamesWoken};

use crate::tables::Tables;
use model::limits::DISPATCHES;
use model::report::{Report, ReportEntry};
use uses::table::UseTable;

// Names the dispatch, if it waited before and runs now.
fn name_if_woken<T: UseTable>(
    table: &T,
    tables: &Tables,
    before: &[Option<u16>; DISPATCHES],
    dispatch: u8,
    report: &mut Report,
)
    requires small { dispatch < DISPATCHES }
    requires room { report.old.recalled + report.old.woken < DISPATCHES }
    ensures named { NamesWoken (T.meaning table.now) (state tables.now) (dispatch ∷ [])
        before.now report.old report.new }
    ensures recalled { report.new.recalled ≡ report.old.recalled }
    ensures one { report.new.woken ≤ report.old.woken + 1 }
{
    let Some(section) = before[dispatch as usize] else {
        return;
    };
    if !tables.claims.waits(table, dispatch) {
        report.name_woken(ReportEntry { dispatch, section });
    }
}

// Names all who waited before and run now, in the order of the open list.
pub fn name_all_woken<T: UseTable>(
    table: &T,
    tables: &Tables,
    before: &[Option<u16>; DISPATCHES],
    report: &mut Report,
)
    requires none { report.old.woken ≡ 0 }
    requires room { report.old.recalled + length (state tables.now).opened ≤ DISPATCHES }
    ensures { NamesWoken (T.meaning table.now) (state tables.now)
        (numbers (state tables.now).opened)
        before.now report.old report.new }
{
    for e in tables.opened.rows() {
        name_if_woken(table, tables, before, e.dispatch, report);
    }
}

// Takes out an open dispatch, and names who is woken by it.
pub fn end<T: UseTable>(table: &T, tables: &mut Tables, dispatch: u8, report: &mut Report)
    requires { report.old ≡ report_of [] [] }
    ensures after { state tables.new ≡ state_without dispatch (state tables.old) }
    ensures named { report.new ≡ report_of []
        (woken (T.meaning table.now) (state tables.old)
        (state_without dispatch (state tables.old))) }
{
    let before = tables.claims.waiting_sections(table);
    tables.take_out(dispatch);
    name_all_woken(table, tables, &before, report);
}
