// Deadlocks: who is to be recalled, and recalling until no cycle of waits stands.
ghost use Rattle.std.specs.Prelude.{◌≡◌, ◌<◌, true, false, [], length, filter, if◌then◌else◌, Ok, None, Some};
ghost use Rattle.dispatch_set.specs.DispatchSet.{contains};
ghost use Rattle.model.specs.Claims.{dispatch_waits};
ghost use Rattle.model.specs.State.{numbers, is_open, state_with_claim};
ghost use Rattle.model.specs.Recalling.{summary as summary_of, first, on_cycles, recall_result};
ghost use Rattle.model.specs.Calls.{report_of, woken, answer_granted, answer_waits, answer_recalled};
ghost use Rattle.model.specs.Invariant.{claim_in_range, NoCycle};
ghost use Rattle.model.specs.declared.state.Detection.TheVariants.{Continuous as ModelContinuous};
ghost use Rattle.claims.specs.ClaimTable.{AreWaitingSections};
ghost use Rattle.book.specs.Answer.{answer_of};
ghost use Rattle.book.specs.Tables.{state, better as better_of, victim_of, IsCleared, NamesRecalled, ReportsRecalls, IsSwept, claimant_answer, EntersClaim};

use crate::answer::Answer;
use crate::policy::Policy;
use crate::tables::Tables;
use crate::wakes::name_all_woken;
use dispatch_set::DispatchSet;
use model::limits::{CLAIMS, DISPATCHES};
use model::report::{Report, ReportEntry, UNUSED_SECTION};
use model::state::{Claim, Detection};
use orders::order::{RecallOrder, Summary};
use uses::table::UseTable;

// A dispatch with what the recall order sees of it.
#[derive(Clone, Copy)]
pub struct Candidate {
    pub dispatch: u8,
    pub summary: Summary,
}

// What the recall order sees of the dispatch.
fn summary<T: UseTable>(table: &T, tables: &Tables, dispatch: u8) -> Summary
    ensures { result ≡ summary_of (T.meaning table.now) (state tables.now) dispatch }
{
    Summary {
        standing: tables.opened.standing(dispatch),
        weight: tables.opened.weight(dispatch),
        held: tables.claims.held_count(table, dispatch),
    }
}

// The candidate, if there is no best so far or it goes no later; else the best so far.
fn better<O: RecallOrder>(order: &O, best: Option<Candidate>, next: Candidate) -> Candidate
    ensures { result ≡ better_of (O.meaning order.now) best next }
{
    match best {
        Some(b) if !order.no_later(next.summary, b.summary) => b,
        _ => next,
    }
}

// The first in the recall order of the open dispatches in a set.
fn first_of<T: UseTable, O: RecallOrder>(
    policy: &Policy<T, O>,
    tables: &Tables,
    set: DispatchSet,
) -> Option<u8>
    ensures { result ≡ first (T.meaning policy.now.table) (O.meaning policy.now.order)
        (state tables.now)
        (filter (contains set) (numbers (state tables.now).opened)) }
{
    let mut best = None;
    for e in tables.opened.rows() {
        if set.contains(e.dispatch) {
            let next = Candidate {
                dispatch: e.dispatch,
                summary: summary(&policy.table, tables, e.dispatch),
            };
            best = Some(better(&policy.order, best, next));
        }
    }
    best.map(|b| b.dispatch)
}

// The dispatch to be recalled (the deadlock victim), if a cycle of waits stands.
fn victim<T: UseTable, O: RecallOrder>(policy: &Policy<T, O>, tables: &Tables) -> Option<u8>
    ensures { result ≡ victim_of T.meaning O.meaning policy.now (state tables.now) }
{
    let set = tables.claims.on_cycles(&policy.table);
    if set.is_empty() {
        return None;
    }
    first_of(policy, tables, set)
}

// Recalls the victim that was found, and looks for the next, until no cycle of waits stands; and
// names the recalled.
fn recall_victims<T: UseTable, O: RecallOrder>(
    policy: &Policy<T, O>,
    tables: &mut Tables,
    found: Option<u8>,
    report: &mut Report,
)
    requires victim { found ≡ victim_of T.meaning O.meaning policy.now (state tables.old) }
    requires empty { report.old ≡ report_of [] [] }
    ensures after { IsCleared T.meaning O.meaning policy.now (state tables.old) (state tables.new) }
    ensures named { NamesRecalled T.meaning O.meaning policy.now (state tables.old) report.new }
{
    let mut next = found;
    for _turn in 0..DISPATCHES as u8 {
        let Some(dispatch) = next else {
            return;
        };
        // a report has numbers and no options; who is on a cycle waits, so that this number of no
        // section is never taken
        let waiting = tables.claims.waiting_section(&policy.table, dispatch);
        let section = waiting.unwrap_or(UNUSED_SECTION);
        tables.recall(dispatch);
        report.name_recalled(ReportEntry { dispatch, section });
        next = victim(policy, tables);
    }
}

// Recalls until no cycle of waits stands, and names the recalled, and the woken of those who waited
// before the call.
fn recall_all<T: UseTable, O: RecallOrder>(
    policy: &Policy<T, O>,
    tables: &mut Tables,
    found: Option<u8>,
    before: &[Option<u16>; DISPATCHES],
    report: &mut Report,
)
    requires victim { found ≡ victim_of T.meaning O.meaning policy.now (state tables.old) }
    requires empty { report.old ≡ report_of [] [] }
    ensures after { IsCleared T.meaning O.meaning policy.now (state tables.old) (state tables.new) }
    ensures reported { ReportsRecalls T.meaning O.meaning policy.now (state tables.old)
        before.now report.new }
{
    recall_victims(policy, tables, found, report);
    name_all_woken(&policy.table, tables, before, report);
}

// Looks for cycles of waits, and recalls until none stands (a deadlock detection run).
pub fn sweep<T: UseTable, O: RecallOrder>(
    policy: &Policy<T, O>,
    tables: &mut Tables,
    report: &mut Report,
)
    requires empty { report.old ≡ report_of [] [] }
    ensures { IsSwept T.meaning O.meaning policy.now (state tables.old)
        report.new (state tables.new) }
{
    let found = victim(policy, tables);
    if found.is_none() {
        return;
    }
    let before = tables.claims.waiting_sections(&policy.table);
    recall_all(policy, tables, found, &before, report);
}

// How a claimant stands, whose claim was entered.
fn claim_answer<T: UseTable>(table: &T, tables: &Tables, dispatch: u8) -> Answer
    ensures { answer_of (Ok result)
        ≡ claimant_answer (T.meaning table.now) (state tables.now) dispatch }
{
    if !tables.is_open(dispatch) {
        Answer::Recalled
    } else if tables.claims.waits(table, dispatch) {
        Answer::Waits
    } else {
        Answer::Granted
    }
}

// Enters a claim of a dispatch that runs. In a continuous book a claim that is blocked is looked at
// for cycles; one that nothing blocks closes none, and none stood before.
pub fn enter_claim<T: UseTable, O: RecallOrder>(
    policy: &Policy<T, O>,
    tables: &mut Tables,
    claim: Claim,
    report: &mut Report,
) -> Answer
    requires in_range { claim_in_range (state tables.old) claim ≡ true }
    requires runs { dispatch_waits (T.meaning policy.now.table) (state tables.old).claims
        claim.dispatch ≡ false }
    requires room { length (state tables.old).claims < CLAIMS }
    requires clear { (state tables.old).detection ≡ ModelContinuous
        → NoCycle (T.meaning policy.now.table) (state tables.old) }
    requires empty { report.old ≡ report_of [] [] }
    ensures { EntersClaim (T.meaning policy.now.table) (O.meaning policy.now.order)
        (state tables.old) claim
        result report.new (state tables.new) }
{
    let blocked = tables.claims.is_blocked(&policy.table, claim);
    tables.enter(claim);
    if !blocked {
        return Answer::Granted;
    }
    match tables.detection {
        Detection::Continuous => {}
        Detection::Periodic => return Answer::Waits,
    }
    let found = victim(policy, tables);
    if found.is_none() {
        return Answer::Waits;
    }
    let mut before = tables.claims.waiting_sections(&policy.table);
    before[claim.dispatch as usize] = None;
    recall_all(policy, tables, found, &before, report);
    claim_answer(&policy.table, tables, claim.dispatch)
}
