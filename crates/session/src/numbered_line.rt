// One line with its number: read as a call, and carried out on a book.
ghost use Rattle.std.specs.Prelude.{◌≡◌, [], OnErr};
ghost use Rattle.model.specs.Calls.{report_of};
ghost use Rattle.session.specs.Transcript.{ReadAs};
ghost use Rattle.session.specs.NumberedLine.{CarriesOutLine, LineKeepsLaw};

use crate::limits::LAST_LINE;
use book::answer::Answer;
use book::book::Book;
use model::call::Call;
use model::report::Report;
use orders::order::RecallOrder;
use protocol::fault::Fault;
use protocol::form::read_call;
use uses::table::UseTable;

// Reads the line of a number as a call.
#[inline(always)]
fn read_line(number: u32, line: &[u8]) -> Result<Call, Fault>
    ensures { ReadAs number line.now result }
{
    if number >= LAST_LINE {
        return Err(Fault::TooManyLines);
    }
    read_call(line)
}

// Reads the line of a number as a call. Where it is none, the report tells of nobody.
#[inline(always)]
fn request(number: u32, line: &[u8], report: &mut Report) -> Result<Call, Fault>
    ensures read { ReadAs number line.now result }
    ensures told { OnErr result (report.new ≡ report_of [] []) }
{
    let request = read_line(number, line);
    if request.is_err() {
        *report = Report::empty();
    }
    request
}

/// Answers the line of a number, from 1: reads it as a call and carries that out on the book. The
/// line goes without its byte 10. From number 1000000 on a line is fault 44, whatever is in it. A
/// fault or a refusal has its number, its place and its layer, and leaves the book as it was.
pub fn answer_line<T: UseTable, O: RecallOrder>(
    book: &mut Book<T, O>,
    number: u32,
    line: &[u8],
    report: &mut Report,
) -> Result<Answer, Fault>
    ensures answered { CarriesOutLine T.meaning O.meaning book.old number line.now
        result report.new book.new }
    ensures law { LineKeepsLaw T.meaning O.meaning book.old number line.now book.new }
{
    let call = request(number, line, report)?;
    let answer = book.carry_out(call, report)?;
    Ok(answer)
}
