// The theorems on transcripts and their runs. The functions do nothing: the contract of each is what
// is proved.
ghost use Rattle.session.specs.Theorems.{TranscriptUnique, RunUnique, TranscriptLawful};
ghost use Rattle.session.specs.Theorems.{PrintedIsFront, ServedIsTranscript, ServedIsFront};
ghost use Rattle.session.specs.Examples.{ExamplesRight};

use crate::console::Console;
use orders::order::RecallOrder;
use uses::table::UseTable;

/// An input has no more than one transcript.
pub fn transcript_is_unique()
    ensures { TranscriptUnique }
{}

/// Lines are the calls of one run.
pub fn run_is_unique()
    ensures { RunUnique }
{}

/// The calls of an input that has a transcript are a run that keeps the law.
pub fn transcript_is_lawful()
    ensures { TranscriptLawful }
{}

/// What is printed while the first bytes of an input are read is the front of its transcript.
pub fn printed_is_the_front()
    ensures { PrintedIsFront }
{}

/// Where a console has served a reader, what the writer was given goes on with what the console
/// printed before, to the transcript of the whole input.
pub fn served_is_the_transcript<T: UseTable, O: RecallOrder>(
    before: &Console<T, O>,
    after: &Console<T, O>,
)
    ensures { ServedIsTranscript T.meaning O.meaning before.now after.now }
{}

/// Where an error ended that, what the writer was given is the front of it.
pub fn served_is_the_front<T: UseTable, O: RecallOrder>(
    before: &Console<T, O>,
    after: &Console<T, O>,
)
    ensures { ServedIsFront T.meaning O.meaning before.now after.now }
{}

/// The worked examples come out as they should.
pub fn worked_examples()
    ensures { ExamplesRight }
{}
