// The theorems on lines. The functions do nothing: the contract of each is what is proved.
ghost use Rattle.protocol.specs.Theorems.{ReadingUnique};
ghost use Rattle.protocol.specs.Examples.{ExamplesRight};

/// A line is read in one way.
pub fn reading_is_unique()
    ensures { ReadingUnique }
{}

/// The worked examples come out as they should.
pub fn worked_examples()
    ensures { ExamplesRight }
{}
