// The book.
ghost use Rattle.std.specs.Prelude.{◌≡◌, [], ◌∷◌, length};
ghost use Rattle.dispatch_set.specs.DispatchSet.{contains};
ghost use Rattle.model.specs.Runs.{HasRun};
ghost use Rattle.book.specs.Tables.{state};

use crate::answer::{Answer, Refusal, Status};
use crate::policy::Policy;
use crate::tables::{Tables, number, section_number};
use crate::{deadlock, wakes};
use dispatch_set::DispatchSet;
use model::call::Call;
use model::report::Report;
use model::state::{Claim, Detection, OpenEntry};
use orders::order::RecallOrder;
use uses::table::UseTable;

/// A dispatch book (a lock manager) over a use table and a recall order. It holds at most 64
/// dispatches, 1024 sections and 512 claims, in fixed memory.
#[derive(Drop)]
pub struct Book<T: UseTable, O: RecallOrder> {
    pub(crate) policy: Policy<T, O>,
    pub(crate) tables: Tables,
    // some run of calls has led to the tables: what holds of every run holds of every book
    ghost history: { HasRun (T.meaning policy.table) (O.meaning policy.order) (state tables) },
}

impl<T: UseTable, O: RecallOrder> Book<T, O> {
    ghost use Rattle.model.specs.State.{new as new_state};
    ghost use Rattle.model.specs.Calls.{number_too_high, section_too_high};
    ghost use Rattle.model.specs.Questions.{waited_for as waited_for_by, holders as holders_of};
    ghost use Rattle.book.specs.Answer.{IsChecked};
    ghost use Rattle.book.specs.Book.{state_of, table_of, order_of, IsStatus};

    /// A new book. It cannot be refused.
    pub fn new(table: T, order: O, detection: Detection) -> Book<T, O>
        ensures after { state_of result ≡ new_state detection }
        ensures table { table_of result ≡ table }
        ensures order { order_of result ≡ order }
    {
        Book {
            policy: Policy { table, order },
            tables: Tables::new(detection),
        }
    }

    /// When the book looks for cycles of waits.
    pub fn detection(&self) -> Detection
        ensures { result ≡ (state_of self.now).detection }
    {
        self.tables.detection
    }

    /// The open dispatches with their weights, in order of opening: at most 64.
    pub fn open_entries(&self) -> &[OpenEntry]
        ensures { result.now ≡ (state_of self.now).opened }
    {
        self.tables.opened.rows()
    }

    /// The dispatches that were recalled and have not been acknowledged yet.
    pub fn recalled(&self) -> DispatchSet
        ensures { contains result ≡ (state_of self.now).recalled }
    {
        self.tables.recalled
    }

    /// The claims, in order of arrival: at most 512. A claim waits behind those of other dispatches
    /// before it on its section whose uses conflict with its own.
    pub fn claims(&self) -> &[Claim]
        ensures { result.now ≡ (state_of self.now).claims }
    {
        self.tables.claims.rows()
    }

    /// How many dispatches are open, 0 to 64.
    pub fn open_count(&self) -> usize
        ensures { result ≡ length (state_of self.now).opened }
    {
        self.open_entries().len()
    }

    /// How many claims stand, 0 to 512.
    pub fn claim_count(&self) -> usize
        ensures { result ≡ length (state_of self.now).claims }
    {
        self.claims().len()
    }

    /// How the dispatch stands, and for which section it waits, if it waits. Refused by 1.
    pub fn condition(&self, dispatch: u32) -> Result<Status, Refusal>
        ensures { IsStatus (T.meaning (table_of self.now)) (state_of self.now) dispatch result }
    {
        let number = number(dispatch)?;
        let waiting_section = self
            .tables
            .claims
            .waiting_section(&self.policy.table, number);
        Ok(Status {
            condition: self.tables.condition(number, waiting_section.is_some()),
            waiting_section,
        })
    }

    /// Puts the dispatches for which the dispatch waits into `found`. Refused by 1, and then nobody
    /// is in it: a place of the caller's beside the `Result`, since an `Err` could not say so.
    pub fn waited_for(&self, dispatch: u32, found: &mut DispatchSet) -> Result<(), Refusal>
        ensures answered { IsChecked result (number_too_high dispatch ∷ []) (λ _. Unit {0}) }
        ensures found { contains found.new
            ≡ waited_for_by (T.meaning (table_of self.now)) (state_of self.now) dispatch }
    {
        *found = DispatchSet::none();
        let number = number(dispatch)?;
        *found = self.tables.claims.blockers(&self.policy.table, number);
        Ok(())
    }

    /// Puts the dispatches that hold a claim on the section into `found`. Refused by 2, and then
    /// nobody is in it.
    pub fn holders(&self, section: u32, found: &mut DispatchSet) -> Result<(), Refusal>
        ensures answered { IsChecked result (section_too_high section ∷ []) (λ _. Unit {0}) }
        ensures found { contains found.new
            ≡ holders_of (T.meaning (table_of self.now)) (state_of self.now) section }
    {
        *found = DispatchSet::none();
        let section = section_number(section)?;
        *found = self.tables.claims.holders(&self.policy.table, section);
        Ok(())
    }
}

impl<T: UseTable, O: RecallOrder> Book<T, O> {
    ghost use Rattle.model.specs.declared.call.Call.TheVariants.{Open, Claim as ClaimCall, Close, Withdraw, Acknowledge, Sweep};
    ghost use Rattle.book.specs.Book.{CarriesOut, KeepsLaw};

    /// Opens a dispatch (begins a transaction). Refused by 1, 4, 5 and 6.
    pub fn open(
        &mut self,
        dispatch: u32,
        weight: u32,
        report: &mut Report,
    ) -> Result<Answer, Refusal>
        ensures { CarriesOut T.meaning O.meaning self.old (Open dispatch weight)
            result report.new self.new }
    {
        *report = Report::empty();
        let newcomer = self.tables.check_open(dispatch, weight)?;
        self.tables.open(newcomer);
        Ok(Answer::Ok)
    }

    /// Claims a section for a use (requests a lock). Refused by 1, 2, 3, 5, 7, 8 and 9.
    pub fn claim(
        &mut self,
        dispatch: u32,
        section: u32,
        mode: u32,
        report: &mut Report,
    ) -> Result<Answer, Refusal>
        ensures { CarriesOut T.meaning O.meaning self.old (ClaimCall dispatch section mode)
            result report.new self.new }
    {
        *report = Report::empty();
        let table = &self.policy.table;
        let claim = self.tables.check_claim(table, dispatch, section, mode)?;
        if self
            .tables
            .claims
            .is_covered(table, claim.dispatch, claim.section, claim.mode)
        {
            return Ok(Answer::Covered);
        }
        if self.tables.claims.is_full() {
            return Err(Refusal::NoRoom);
        }
        Ok(deadlock::enter_claim(&self.policy, &mut self.tables, claim, report))
    }

    /// Closes a dispatch that runs (commits). Refused by 1, 5, 7 and 8.
    pub fn close(&mut self, dispatch: u32, report: &mut Report) -> Result<Answer, Refusal>
        ensures { CarriesOut T.meaning O.meaning self.old (Close dispatch)
            result report.new self.new }
    {
        *report = Report::empty();
        let number = self.tables.check_close(&self.policy.table, dispatch)?;
        wakes::end(&self.policy.table, &mut self.tables, number, report);
        Ok(Answer::Ok)
    }

    /// Withdraws a dispatch, running or waiting (aborts). Refused by 1, 5 and 7.
    pub fn withdraw(&mut self, dispatch: u32, report: &mut Report) -> Result<Answer, Refusal>
        ensures { CarriesOut T.meaning O.meaning self.old (Withdraw dispatch)
            result report.new self.new }
    {
        *report = Report::empty();
        let number = self.tables.check_withdraw(dispatch)?;
        wakes::end(&self.policy.table, &mut self.tables, number, report);
        Ok(Answer::Ok)
    }

    /// Takes note of a recall: the dispatch is free again. Refused by 1 and 10.
    pub fn acknowledge(&mut self, dispatch: u32, report: &mut Report) -> Result<Answer, Refusal>
        ensures { CarriesOut T.meaning O.meaning self.old (Acknowledge dispatch)
            result report.new self.new }
    {
        *report = Report::empty();
        let number = self.tables.check_acknowledge(dispatch)?;
        self.tables.acknowledge(number);
        Ok(Answer::Ok)
    }

    /// Looks for cycles of waits, and recalls until none stands (a deadlock detection run). Never
    /// refused. In a continuous book none can stand, so there is nothing to look for.
    pub fn sweep(&mut self, report: &mut Report) -> Result<Answer, Refusal>
        ensures { CarriesOut T.meaning O.meaning self.old Sweep result report.new self.new }
    {
        *report = Report::empty();
        match self.tables.detection {
            Detection::Continuous => {}
            Detection::Periodic => deadlock::sweep(&self.policy, &mut self.tables, report),
        }
        Ok(Answer::Ok)
    }

    /// Carries out any call, by its own checks. Some run of calls has led to the book, and each that
    /// has goes on lawfully: with this call and this outcome added it keeps exclusion, progress and
    /// recall.
    pub fn carry_out(&mut self, asked: Call, report: &mut Report) -> Result<Answer, Refusal>
        ensures done { CarriesOut T.meaning O.meaning self.old asked result report.new self.new }
        ensures law { KeepsLaw T.meaning O.meaning self.old asked result report.new self.new }
    {
        match asked {
            Call::Open { dispatch, weight } => self.open(dispatch, weight, report),
            Call::Claim {
                dispatch,
                section,
                mode,
            } => self.claim(dispatch, section, mode, report),
            Call::Close { dispatch } => self.close(dispatch, report),
            Call::Withdraw { dispatch } => self.withdraw(dispatch, report),
            Call::Acknowledge { dispatch } => self.acknowledge(dispatch, report),
            Call::Sweep => self.sweep(report),
        }
    }
}
