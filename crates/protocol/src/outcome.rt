// The printed bytes of an outcome.
ghost use Rattle.std.specs.Prelude.{◌≡◌, ◌≤◌, length, Err};
ghost use Rattle.text_buffer.specs.TextBuffer.{put_behind};
ghost use Rattle.text_buffer.specs.declared.TheConstants.{ROOM};
ghost use Rattle.protocol.specs.Words.{words, printed_line, entry_words, entry_lines, entries, report_lines, printed, reply_to, recalled_entries, woken_entries};

use crate::fault::{Fault, Layer};
use book::answer::Answer;
use model::limits::DISPATCHES;
use model::report::{Report, ReportEntry};
use text_buffer::TextBuffer;

// Puts the words of a fault: a fault of the line says its place, any other is a refusal.
// `write!` would not do: its contract says nothing of what was written where room lacks.
fn put_fault(fault: Fault, out: &mut TextBuffer)
    ensures puts { out.new ≡ put_behind out.old (words (reply_to (Err fault))) }
    ensures short { length (words (reply_to (Err fault))) ≤ 16 }
{
    match fault.layer() {
        Layer::Line => {
            out.put_all(b"fault ");
            out.put_number(u32::from(fault.number()));
            out.put_all(b" at ");
            out.put_number(u32::from(fault.place()));
        }
        Layer::UseTable | Layer::Book => {
            out.put_all(b"refused ");
            out.put_number(u32::from(fault.number()));
        }
    }
}

// Puts the printed line of a reply.
#[inline(always)]
fn put_reply(number: u32, outcome: Result<Answer, Fault>, out: &mut TextBuffer)
    ensures puts { out.new ≡ put_behind out.old (printed_line number (words (reply_to outcome))) }
    ensures short { length (printed_line number (words (reply_to outcome))) ≤ 28 }
{
    out.put_number(number);
    out.put(b' ');
    match outcome {
        Ok(answer) => out.put_all(answer.name().as_bytes()),
        Err(fault) => put_fault(fault, out),
    }
    out.put(b'\n');
}

// Puts the printed line of one that a report names.
fn put_name(number: u32, word: &[u8], named: ReportEntry, out: &mut TextBuffer)
    ensures { out.new ≡ put_behind out.old (printed_line number (entry_words word.now named)) }
{
    out.put_number(number);
    out.put(b' ');
    out.put_all(word);
    out.put(b' ');
    out.put_number(u32::from(named.dispatch));
    out.put(b' ');
    out.put_number(u32::from(named.section));
    out.put(b'\n');
}

// Puts a printed line for each of the dispatches, with its section beside it.
fn put_names(number: u32, word: &[u8], dispatches: &[u8], sections: &[u16], out: &mut TextBuffer)
    requires { length out.old ≤ ROOM }
    ensures { out.new ≡ put_behind out.old
        (entry_lines number word.now (entries dispatches.now sections.now)) }
{
    for (dispatch, section) in dispatches.iter().zip(sections.iter()) {
        let named = ReportEntry {
            dispatch: *dispatch,
            section: *section,
        };
        put_name(number, word, named, out);
    }
}

// Puts a printed line for each that a report names: the recalled, then the woken.
fn put_report(number: u32, report: &Report, out: &mut TextBuffer)
    requires { length out.old ≤ ROOM }
    ensures puts { out.new ≡ put_behind out.old
        (report_lines number (recalled_entries report.now) (woken_entries report.now)) }
    ensures short { length (report_lines number
        (recalled_entries report.now) (woken_entries report.now)) ≤ 1792 }
{
    let recalled = (report.recalled as usize).min(DISPATCHES);
    let named = (recalled + report.woken as usize).min(DISPATCHES);
    put_names(
        number,
        b"recall",
        &report.dispatches[..recalled],
        &report.sections[..recalled],
        out,
    );
    put_names(
        number,
        b"wake",
        &report.dispatches[recalled..named],
        &report.sections[recalled..named],
        out,
    );
}

/// Prints what a line gave, in the place of what was printed before: the reply, then the recalled,
/// then the woken, each after the number of the line. All of it fits.
#[inline(always)]
pub fn print_outcome(
    number: u32,
    outcome: Result<Answer, Fault>,
    report: &Report,
    out: &mut TextBuffer,
)
    ensures { out.new ≡ printed number (reply_to outcome)
        (recalled_entries report.now) (woken_entries report.now) }
{
    out.clear();
    put_reply(number, outcome, out);
    if report.recalled > 0 || report.woken > 0 {
        put_report(number, report, out);
    }
}
