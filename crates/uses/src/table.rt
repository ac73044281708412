// The interface between a line's use table and the book.
ghost use Rattle.std.specs.Prelude.{◌≡◌, Some, codes};
ghost use Rattle.uses.specs.Relations.{Relations, UseLaws};
ghost use Rattle.uses.specs.Checked.{checked};

use std::error::Error;
use std::fmt;

/// A code that the asked table does not know.
#[derive(Clone, Copy, Debug, PartialEq, Eq)]
pub struct UnknownUse;

impl fmt::Display for UnknownUse {
    ghost output = { λ _. Some (codes "no use of the table has this code") };

    fn fmt<W: fmt::Write>(&self, f: &mut fmt::Formatter<W>) -> fmt::Result {
        f.write_str("no use of the table has this code")
    }
}

impl Error for UnknownUse {}

/// A use table (a lock mode compatibility matrix). A use (lock mode) is a 32-bit code, any of which
/// may be asked about; each table reads a code as a value of a type of its own.
pub trait UseTable {
    // What the table means. Every answer is read off it, so an answer depends on the table and
    // the codes alone.
    ghost meaning: { Self → Relations };

    /// Is the code one of the table's uses?
    fn knows(&self, mode: u32) -> bool
        ensures { result ≡ (meaning self.now).known mode };

    /// Do the two uses conflict? No, if either is unknown.
    fn conflicts(&self, a: u32, b: u32) -> bool
        ensures { result ≡ (meaning self.now).conflict a b };

    /// Does use `a` cover use `b`? No, if either is unknown.
    fn covers(&self, a: u32, b: u32) -> bool
        ensures { result ≡ (meaning self.now).cover a b };

    /// Refuses an unknown code.
    fn check(&self, mode: u32) -> Result<(), UnknownUse>
        ensures { result ≡ checked (meaning self.now) mode }
    {
        if self.knows(mode) {
            Ok(())
        } else {
            Err(UnknownUse)
        }
    }

    ghost lawful: { (t : Self) → UseLaws (meaning t) };
}
