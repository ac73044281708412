// The book's tables, how they change, and the checks of the calls.
ghost use Rattle.std.specs.Prelude.{◌≡◌, ◌<◌, ◌≤◌, true, false, [], ◌∷◌, length};
ghost use Rattle.dispatch_set.specs.DispatchSet.{contains};
ghost use Rattle.model.specs.State.{new as new_state, is_open, state_without, state_with_claim, recall as recall_state};
ghost use Rattle.model.specs.Calls.{with_open, without_recalled, number_too_high, section_too_high, open_checks, entry_checks, close_checks, withdraw_checks, acknowledge_checks};
ghost use Rattle.model.specs.Invariant.{claim_in_range, IsConsistent};
ghost use Rattle.book.specs.Answer.{IsChecked};

use crate::answer::Refusal;
use crate::open_list::OpenList;
use claims::claim_table::ClaimTable;
use dispatch_set::DispatchSet;
use model::limits::{CLAIMS, DISPATCHES, HEAVIEST, SECTIONS};
use model::state::{Claim, Condition, Detection, OpenEntry};
use uses::table::UseTable;

/// The open list, the recalled set and the claim table, and when cycles are looked for. The use
/// table is lent to what needs it.
#[derive(Drop)]
pub struct Tables {
    pub(crate) detection: Detection,
    pub(crate) opened: OpenList,
    pub(crate) recalled: DispatchSet,
    pub(crate) claims: ClaimTable,
    // the parts fit one another
    ghost consistent: { IsConsistent (record {
      opened = opened;
      recalled = contains recalled;
      claims = claims;
      detection = detection;
    }) },
}

// The dispatch number, if it is one.
pub fn number(dispatch: u32) -> Result<u8, Refusal>
    ensures { IsChecked result (number_too_high dispatch ∷ []) (λ n. n ≡ dispatch) }
{
    if dispatch >= DISPATCHES as u32 {
        return Err(Refusal::NumberTooHigh);
    }
    Ok(dispatch as u8)
}

// The section, if it is one.
pub fn section_number(section: u32) -> Result<u16, Refusal>
    ensures { IsChecked result (section_too_high section ∷ []) (λ n. n ≡ section) }
{
    if section >= SECTIONS {
        return Err(Refusal::SectionTooHigh);
    }
    Ok(section as u16)
}

impl Tables {
    ghost use Rattle.book.specs.Tables.{state, condition_by};

    // The tables of a new book.
    pub(crate) fn new(detection: Detection) -> Tables
        ensures { state result ≡ new_state detection }
    {
        Tables {
            detection,
            opened: OpenList::new(),
            recalled: DispatchSet::none(),
            claims: ClaimTable::new(),
        }
    }

    // Is the dispatch open?
    pub(crate) fn is_open(&self, dispatch: u8) -> bool
        ensures { result ≡ is_open (state self.now) dispatch }
    {
        self.opened.contains(dispatch)
    }

    // How the dispatch stands, of whom it is known whether it waits.
    pub(crate) fn condition(&self, dispatch: u8, waits: bool) -> Condition
        ensures { result ≡ condition_by waits (state self.now) dispatch }
    {
        if self.recalled.contains(dispatch) {
            Condition::Recalled
        } else if !self.is_open(dispatch) {
            Condition::Free
        } else if waits {
            Condition::Waiting
        } else {
            Condition::Running
        }
    }

    // Opens a dispatch that is free.
    pub(crate) fn open(&mut self, newcomer: OpenEntry)
        requires number { newcomer.dispatch < DISPATCHES }
        requires weight { newcomer.weight ≤ HEAVIEST }
        requires light { (state self.old).recalled newcomer.dispatch ≡ false }
        requires out { is_open (state self.old) newcomer.dispatch ≡ false }
        ensures { state self.new ≡ with_open newcomer.dispatch newcomer.weight (state self.old) }
    {
        self.opened.push(newcomer);
    }

    // Takes out the dispatch's claims and its open entry.
    pub(crate) fn take_out(&mut self, dispatch: u8)
        ensures { state self.new ≡ state_without dispatch (state self.old) }
    {
        self.opened.take_out(dispatch);
        self.claims.take_out(dispatch);
    }

    // Recalls an open dispatch.
    pub(crate) fn recall(&mut self, dispatch: u8)
        requires { is_open (state self.old) dispatch ≡ true }
        ensures { state self.new ≡ recall_state dispatch (state self.old) }
    {
        self.take_out(dispatch);
        self.recalled.insert(dispatch);
    }

    // Takes note of a recall.
    pub(crate) fn acknowledge(&mut self, dispatch: u8)
        requires { dispatch < DISPATCHES }
        ensures { state self.new ≡ without_recalled dispatch (state self.old) }
    {
        self.recalled.remove(dispatch);
    }

    // Enters a claim of an open dispatch at the end of the claim list.
    pub(crate) fn enter(&mut self, claim: Claim)
        requires in_range { claim_in_range (state self.old) claim ≡ true }
        requires room { length (state self.old).claims < CLAIMS }
        ensures { state self.new ≡ state_with_claim claim (state self.old) }
    {
        self.claims.enter(claim);
    }

    // May the dispatch be opened with this weight?
    pub(crate) fn check_open(&self, dispatch: u32, weight: u32) -> Result<OpenEntry, Refusal>
        ensures { IsChecked result (open_checks (state self.now) dispatch weight)
            (λ e. e ≡ record { dispatch = dispatch; weight = weight }) }
    {
        let newcomer = number(dispatch)?;
        if weight > HEAVIEST {
            return Err(Refusal::WeightTooHigh);
        }
        if self.recalled.contains(newcomer) {
            return Err(Refusal::IsRecalled);
        }
        if self.is_open(newcomer) {
            return Err(Refusal::IsOpen);
        }
        Ok(OpenEntry {
            dispatch: newcomer,
            weight: weight as u16,
        })
    }

    // Is the dispatch open?
    pub(crate) fn check_withdraw(&self, dispatch: u32) -> Result<u8, Refusal>
        ensures { IsChecked result (withdraw_checks (state self.now) dispatch) (λ n. n ≡ dispatch) }
    {
        let number = number(dispatch)?;
        if self.recalled.contains(number) {
            return Err(Refusal::IsRecalled);
        }
        if !self.is_open(number) {
            return Err(Refusal::IsFree);
        }
        Ok(number)
    }

    // Is the dispatch open, and does it run?
    pub(crate) fn check_close<T: UseTable>(&self, table: &T, dispatch: u32) -> Result<u8, Refusal>
        ensures { IsChecked result (close_checks (T.meaning table.now) (state self.now) dispatch)
            (λ n. n ≡ dispatch) }
    {
        let number = self.check_withdraw(dispatch)?;
        if self.claims.waits(table, number) {
            return Err(Refusal::IsWaiting);
        }
        Ok(number)
    }

    // May the dispatch claim the section for the use, if there is room?
    pub(crate) fn check_claim<T: UseTable>(
        &self,
        table: &T,
        dispatch: u32,
        section: u32,
        mode: u32,
    ) -> Result<Claim, Refusal>
        ensures { IsChecked result
            (entry_checks (T.meaning table.now) (state self.now) dispatch section mode)
            (λ c. c ≡ record { dispatch = dispatch; section = section; mode = mode }) }
    {
        let claimant = number(dispatch)?;
        let section = section_number(section)?;
        table.check(mode)?;
        if self.recalled.contains(claimant) {
            return Err(Refusal::IsRecalled);
        }
        if !self.is_open(claimant) {
            return Err(Refusal::IsFree);
        }
        if self.claims.waits(table, claimant) {
            return Err(Refusal::IsWaiting);
        }
        Ok(Claim {
            dispatch: claimant,
            section,
            mode,
        })
    }

    // Is the dispatch recalled?
    pub(crate) fn check_acknowledge(&self, dispatch: u32) -> Result<u8, Refusal>
        ensures { IsChecked result (acknowledge_checks (state self.now) dispatch)
            (λ n. n ≡ dispatch) }
    {
        let number = number(dispatch)?;
        if !self.recalled.contains(number) {
            return Err(Refusal::NotRecalled);
        }
        Ok(number)
    }
}
