// A session over one input.
ghost use Rattle.std.specs.Prelude.{◌≡◌, ◌≤◌, ◌==◌};
ghost use Rattle.std.specs.List.{position_or_len};
ghost use Rattle.book.specs.Tables.{state};
ghost use Rattle.session.specs.History.{position_of_parts, HasHistory};
ghost use Rattle.session.specs.declared.limits.TheConstants.{LAST_LINE};

use crate::limits::{KEPT, LAST_LINE};
use crate::numbered_line::answer_line;
use book::book::Book;
use fixed_list::FixedList;
use memchr::memchr;
use model::report::Report;
use model::state::Detection;
use orders::order::RecallOrder;
use orders::single::Newest;
use protocol::outcome::print_outcome;
use std::alloc::AllocError;
use std::mem;
use text_buffer::TextBuffer;
use uses::table::UseTable;
use uses::two_uses::TwoUses;

/// A console (a session over one input): a book, and the line that has begun.
#[derive(Drop)]
pub struct Console<T: UseTable, O: RecallOrder> {
    pub(crate) book: Book<T, O>,
    // how many lines were answered
    pub(crate) answered: u32,
    // the first bytes of the line that has begun
    pub(crate) line: FixedList<u8, KEPT>,
    // what the last call told
    pub(crate) report: Report,
    ghost few: { answered ≤ LAST_LINE },
    // some input was read, and answered so: what holds of every input holds of every console
    ghost history: { HasHistory (T.meaning book.policy.table) (O.meaning book.policy.order)
        (position_of_parts (state book.tables) answered line) },
}

// How many bytes of a piece stand before its first byte 10, or how many it has if none is in it.
#[inline(always)]
fn before_line_end(piece: &[u8]) -> usize
    ensures { result ≡ position_or_len (λ b. b == 10) piece.now }
{
    memchr(b'\n', piece).unwrap_or(piece.len())
}

impl<T: UseTable, O: RecallOrder> Console<T, O> {
    ghost use Rattle.std.specs.Prelude.{◌≡◌, [], ◌++◌, take, OnOk, OnErr, nat_le};
    ghost use Rattle.session.specs.Inputs.{IsUnbroken, line_length};
    ghost use Rattle.session.specs.History.{HasRead};
    ghost use Rattle.session.specs.Stands.{position_of, table_of, order_of, policy_of, AnswersLine, EndsLine, Reads, ReadsAll, LosesAnswer, EndsLines, Finishes, TellsStop};

    /// A console over a new book. Nothing has been read or printed.
    pub fn new(table: T, order: O, detection: Detection) -> Console<T, O>
        ensures starts { HasRead (T.meaning table) (O.meaning order) detection [] []
            (position_of result) }
        ensures table { table_of result ≡ table }
        ensures order { order_of result ≡ order }
    {
        Console {
            book: Book::new(table, order, detection),
            answered: 0,
            line: FixedList::new(0),
            report: Report::empty(),
        }
    }

    /// Has line 1000000 been answered? Then nothing more is printed, whatever comes.
    pub fn has_stopped(&self) -> bool
        ensures count { result ≡ nat_le LAST_LINE (position_of self.now).answered }
        ensures lines { TellsStop T.meaning O.meaning self.now result }
    {
        self.answered >= LAST_LINE
    }

    // Answers a line. After line 1000000 nothing is printed.
    fn answer(&mut self, line: &[u8], printed: &mut TextBuffer)
        requires { IsUnbroken line.now }
        ensures done { AnswersLine T.meaning O.meaning self.old self.new line.now printed.new }
        ensures policy { policy_of self.new ≡ policy_of self.old }
    {
        if self.answered == LAST_LINE {
            printed.clear();
            return;
        }
        self.answered += 1;
        let outcome = answer_line(&mut self.book, self.answered, line, &mut self.report);
        print_outcome(self.answered, outcome, &self.report, printed);
    }

    // Keeps bytes of the line that has begun, as far as they are among its first 33.
    fn gather(&mut self, bytes: &[u8])
        requires { IsUnbroken bytes.now }
        ensures kept { self.new.line ≡ take KEPT (self.old.line ++ bytes.now) }
        ensures book { self.new.book ≡ self.old.book }
        ensures answered { self.new.answered ≡ self.old.answered }
    {
        let room = KEPT - self.line.len();
        self.line.extend_from_slice(&bytes[..room.min(bytes.len())]);
    }

    // The line that has begun ends with these bytes, and is answered. A line that lies in them
    // whole is read where it lies.
    fn end_line(&mut self, bytes: &[u8], printed: &mut TextBuffer)
        requires { IsUnbroken bytes.now }
        ensures done { EndsLine T.meaning O.meaning self.old self.new bytes.now printed.new }
        ensures policy { policy_of self.new ≡ policy_of self.old }
    {
        if self.line.len() == 0 {
            self.answer(bytes, printed);
            return;
        }
        self.gather(bytes);
        let line = mem::replace(&mut self.line, FixedList::new(0));
        self.answer(line.rows(), printed);
    }

    /// Takes the bytes of a piece up to the end of the line that has begun or of the piece, and
    /// answers the line if it has come to its end. Says how many bytes it took.
    pub fn take(&mut self, piece: &[u8], printed: &mut TextBuffer) -> usize
        ensures taken { result ≡ line_length piece.now }
        ensures read { Reads T.meaning O.meaning self.old self.new (take result piece.now)
            printed.new }
        ensures policy { policy_of self.new ≡ policy_of self.old }
    {
        let count = before_line_end(piece);
        if count == piece.len() {
            printed.clear();
            self.gather(piece);
            return count;
        }
        self.end_line(&piece[..count], printed);
        count + 1
    }

    /// The input has ended: the line that has begun, if there is one, is answered.
    pub fn finish(&mut self, printed: &mut TextBuffer)
        ensures read { Finishes T.meaning O.meaning self.old self.new [] printed.new }
        ensures left { EndsLines T.meaning O.meaning self.old self.new printed.new }
        ensures policy { policy_of self.new ≡ policy_of self.old }
    {
        if self.line.len() == 0 {
            printed.clear();
            return;
        }
        self.end_line(&[], printed);
    }

    // Takes a whole piece as `take_all` does, with a place for printed bytes that is lent, so that who
    // takes many pieces makes one.
    pub(crate) fn take_all_by(
        &mut self,
        piece: &[u8],
        printed: &mut TextBuffer,
        out: &mut Vec<u8>,
    ) -> Result<(), AllocError>
        ensures read { OnOk result
            (ReadsAll T.meaning O.meaning self.old self.new piece.now out.old.items out.new.items) }
        ensures failed { OnErr result
            (LosesAnswer T.meaning O.meaning self.old self.new piece.now
            out.old.items out.new.items) }
        ensures policy { policy_of self.new ≡ policy_of self.old }
    {
        let mut rest = piece;
        while !rest.is_empty() {
            let taken = self.take(rest, printed);
            out.extend_from_slice(printed.text())?;
            rest = &rest[taken..];
        }
        Ok(())
    }

    /// Takes a whole piece, and puts all that is printed behind what is in `out`. Where there is no
    /// memory for an answer, that answer is lost, and what stands behind its line is not taken.
    pub fn take_all(&mut self, piece: &[u8], out: &mut Vec<u8>) -> Result<(), AllocError>
        ensures read { OnOk result
            (ReadsAll T.meaning O.meaning self.old self.new piece.now out.old.items out.new.items) }
        ensures failed { OnErr result
            (LosesAnswer T.meaning O.meaning self.old self.new piece.now
            out.old.items out.new.items) }
        ensures policy { policy_of self.new ≡ policy_of self.old }
    {
        if before_line_end(piece) == piece.len() {
            // no line ends here, so nothing is printed
            self.gather(piece);
            return Ok(());
        }
        self.take_all_by(piece, &mut TextBuffer::new(), out)
    }
}

impl Console<TwoUses, Newest> {
    ghost use Rattle.std.specs.Prelude.{[]};
    ghost use Rattle.uses.specs.TwoUses.{two_uses};
    ghost use Rattle.orders.specs.Orders.{newest};
    ghost use Rattle.model.specs.declared.state.Detection.TheVariants.{Continuous};
    ghost use Rattle.session.specs.History.{HasRead};
    ghost use Rattle.session.specs.Stands.{position_of};

    /// The usual console: over a new book that is continuous, has the two uses look and move, and
    /// recalls the newest.
    pub fn standard() -> Console<TwoUses, Newest>
        ensures { HasRead two_uses newest Continuous [] [] (position_of result) }
    {
        Console::new(TwoUses, Newest, Detection::Continuous)
    }
}
