// A whole input, in pieces or from a reader.
ghost use Rattle.std.specs.Prelude.{◌≡◌, map, IfOk, OnOk, OnErr};
ghost use Rattle.std.specs.Io.KnownBytes.{Appends};
ghost use Rattle.session.specs.Inputs.{all_bytes};
ghost use Rattle.session.specs.Lawful.{LawfulTranscript};
ghost use Rattle.session.specs.Stands.{policy_of, WritesFront, Serves, BreaksOff};

use crate::console::Console;
use model::state::Detection;
use orders::order::RecallOrder;
use std::alloc::{AllocError, Global};
use std::io;
use std::io::{Read, Write};
use text_buffer::TextBuffer;
use uses::table::UseTable;

/// The transcript of an input: all that is printed for it, from a new book on. However the input is
/// cut into pieces, it is the same.
pub fn transcript<T: UseTable + Drop, O: RecallOrder + Drop>(
    table: T,
    order: O,
    detection: Detection,
    pieces: &[&[u8]],
    alloc: Global,
) -> Result<Vec<u8>, AllocError>
    ensures { IfOk result (λ v. LawfulTranscript (T.meaning table) (O.meaning order) detection
        (all_bytes (map (λ p. p.now) pieces.now)) v.items) }
{
    let mut console = Console::new(table, order, detection);
    let mut printed = TextBuffer::new();
    let mut out = Vec::new(alloc);
    for piece in pieces {
        console.take_all_by(piece, &mut printed, &mut out)?;
    }
    console.finish(&mut printed);
    out.extend_from_slice(printed.text())?;
    Ok(out)
}

// How many bytes are read at once.
const BLOCK: usize = 65536;

// Writes a text, by as many writes as it takes. On an error the first bytes of it are written; of
// what std's `write_all` wrote then, its contract says nothing.
fn write_text<W: Write>(output: &mut W, text: &[u8]) -> io::Result<()>
    ensures whole { OnOk result (Appends (W.contents output.old) (W.contents output.new) text.now) }
    ensures front { OnErr result
        (WritesFront (W.contents output.old) (W.contents output.new) text.now) }
{
    let mut rest = text;
    for _ in 0..u64::MAX {
        if rest.is_empty() {
            return Ok(());
        }
        match output.write(rest) {
            Ok(0) => return Err(io::Error::from(io::ErrorKind::WriteZero)),
            Ok(count) => rest = &rest[count..],
            Err(error) => {
                if error.kind() != io::ErrorKind::Interrupted {
                    return Err(error);
                }
            }
        }
    }
    Err(io::Error::from(io::ErrorKind::TimedOut))
}

/// Answers the lines that a reader gives on a writer, until the input ends or reading stops.
/// What a read gives is answered at once, and written at once: so a line that is typed is answered
/// when it ends, and a file is read and answered in blocks.
/// An error of the reader or the writer, or for lack of memory, ends it. What was written then is
/// the front of what should have been.
// No input takes as many reads as the loop has turns; if one did, it would end in an error.
pub fn serve_between<R: Read, W: Write, T: UseTable, O: RecallOrder>(
    input: &mut R,
    output: &mut W,
    console: &mut Console<T, O>,
    alloc: Global,
) -> io::Result<()>
    ensures served { OnOk result (Serves T.meaning O.meaning console.old console.new
        (R.remaining input.old) (W.contents output.old) (W.contents output.new)) }
    ensures failed { OnErr result (BreaksOff T.meaning O.meaning console.old console.new
        (R.remaining input.old) (W.contents output.old) (W.contents output.new)) }
    ensures policy { policy_of console.new ≡ policy_of console.old }
{
    let mut block = [0; BLOCK];
    let mut printed = TextBuffer::new();
    let mut answers = Vec::new(alloc);
    for _ in 0..u64::MAX {
        let count = input.read(&mut block)?;
        console.take_all_by(&block[..count], &mut printed, &mut answers)?;
        write_text(output, answers.as_slice())?;
        answers.clear();
        if count == 0 || console.has_stopped() {
            console.finish(&mut printed);
            return write_text(output, printed.text());
        }
    }
    Err(io::Error::from(io::ErrorKind::TimedOut))
}
