// The theorems. Each function does nothing: its contract is what is proved, for every use table and
// every recall order that keeps its laws.
ghost use Rattle.model.specs.Theorems.{LimitsRight, LawOverRuns, InvariantKept};
ghost use Rattle.model.specs.Theorems.{InvariantHolds, CycleTestExact};
ghost use Rattle.model.specs.Theorems.{StepsLeadToOpen, FirstExact, ReportFits, RefusedByFirst};
ghost use Rattle.model.specs.Theorems.{RefusedChangesNothing, RefusedWhenFull, CoveredExact};
ghost use Rattle.model.specs.Theorems.{ChangesExact, NoNewStep, NoNewCycle, ExamplesRight};
ghost use Rattle.model.specs.LawExamples.{LawExamplesRight};

/// Exclusion, progress and recall hold of every run of calls.
pub fn law_over_runs()
    ensures { LawOverRuns }
{}

/// The invariant holds of a new book, and every call keeps it; so it holds wherever a run leads.
pub fn invariant_is_kept()
    ensures kept { InvariantKept }
    ensures holds { InvariantHolds }
{}

/// The computed test for being on a cycle agrees with the inductive definition.
pub fn cycle_test_is_exact()
    ensures test { CycleTestExact }
    ensures applies { StepsLeadToOpen }
{}

/// The first of a set of open dispatches is as the rule says, and there is only one.
pub fn first_is_unique()
    ensures { FirstExact }
{}

/// The recalled and the woken of a call fit the 64 places of a report.
pub fn report_fits()
    ensures { ReportFits }
{}

/// A call is answered by a refusal exactly when a check applies, by the first that does; and then
/// it changes nothing, recalls nobody and wakes nobody.
pub fn refusals_are_exact()
    ensures first { RefusedByFirst }
    ensures unchanged { RefusedChangesNothing }
{}

/// A claim is refused for want of room exactly where nothing else refuses it, 512 claims stand and
/// none covers it.
pub fn refused_when_full()
    ensures { RefusedWhenFull }
{}

/// A claim is answered covered exactly where nothing but the room may refuse it and a claim covers
/// it, however many claims stand.
pub fn covered_is_exact()
    ensures { CoveredExact }
{}

/// The limits are 64 dispatches, 1024 sections, 512 claims and a weight of 1000.
pub fn limits_are_right()
    ensures { LimitsRight }
{}

/// What a call changes of the state follows from its answer and from whom it recalls.
pub fn changes_are_exact()
    ensures { ChangesExact }
{}

/// A claim that nothing blocks adds no step of waiting.
pub fn unblocked_claim_adds_no_step()
    ensures { NoNewStep }
{}

/// A claim of a dispatch that runs, which nothing blocks, closes no cycle. For this reason a book
/// grants it without a search.
pub fn unblocked_claim_closes_no_cycle()
    ensures { NoNewCycle }
{}

/// The worked examples come out as they should.
pub fn worked_examples()
    ensures { ExamplesRight }
{}

/// The law says of given runs what it should: who was granted what, and where it is broken.
pub fn law_examples()
    ensures { LawExamplesRight }
{}
