// What a person would type at the console.
use crate::setting::new_book;
use book::answer::{Answer, Refusal};
use model::report::Report;
use model::state::Detection;
use orders::single::Newest;
use protocol::fault::{Fault, Layer};
use session::console::Console;
use session::numbered_line::answer_line;
use std::alloc::{AllocError, Global};
use std::process::Abort;
use std::test::Fail;
use text_buffer::TextBuffer;
use uses::two_uses::TwoUses;

// A console as the program has it.
fn new_console() -> Console<TwoUses, Newest> {
    Console::standard()
}

// Types a line with its byte 10, and checks what is printed for it.
fn check_line(
    rt: &impl Abort,
    console: &mut Console<TwoUses, Newest>,
    line: &[u8],
    expected: &[u8],
) {
    let mut printed = TextBuffer::new();
    assert_eq!(rt; console.take(line, &mut printed), line.len());
    assert_eq!(rt; printed.text(), expected);
}

// Dispatch 1 looks on the sections from 0 on: 512 claims.
fn claim_all(
    rt: &impl Abort,
    alloc: Global,
    console: &mut Console<TwoUses, Newest>,
) -> Result<(), AllocError> {
    let mut printed = TextBuffer::new();
    for section in 0..512 {
        let line = format!(in alloc; "C 1 {section} 0\n")?;
        console.take(line.as_bytes(), &mut printed);
    }
    assert_eq!(rt; printed.text(), b"513 granted\n".as_slice());
    Ok(())
}

#[test]
fn the_513th_claim_is_refused_at_the_console(rt: HostRuntime) -> Result<(), Fail> {
    let mut console = new_console();
    check_line(&rt, &mut console, b"O 1 5\n", b"1 ok\n");
    claim_all(&rt, rt.alloc(), &mut console)?;
    check_line(&rt, &mut console, b"C 1 600 0\n", b"514 refused 9\n");
    check_line(&rt, &mut console, b"C 1 511 0\n", b"515 covered\n");
    Ok(())
}

#[test]
fn line_1000000_is_the_last(rt: HostRuntime) {
    let mut console = new_console();
    let mut printed = TextBuffer::new();
    for _ in 1..1000000u32 {
        console.take(b"S\n", &mut printed);
    }
    assert_eq!(rt; printed.text(), b"999999 ok\n".as_slice());
    assert_eq!(rt; console.has_stopped(), false);
    check_line(&rt, &mut console, b"S\n", b"1000000 fault 44 at 1\n");
    assert_eq!(rt; console.has_stopped(), true);
    check_line(&rt, &mut console, b"S\n", b"");
}

#[test]
fn a_rest_is_answered_at_the_end(rt: HostRuntime) {
    let mut console = new_console();
    let mut printed = TextBuffer::new();
    assert_eq!(rt; console.take(b"O 1", &mut printed), 3);
    assert_eq!(rt; printed.text(), b"".as_slice());
    assert_eq!(rt; console.take(b" 5\nS", &mut printed), 3);
    assert_eq!(rt; printed.text(), b"1 ok\n".as_slice());
    assert_eq!(rt; console.take(b"S", &mut printed), 1);
    console.finish(&mut printed);
    assert_eq!(rt; printed.text(), b"2 ok\n".as_slice());
    assert_eq!(rt; printed.count(), 5);
    assert_eq!(rt; printed.bytes().len(), 2048);
}

#[test]
fn a_line_of_a_number_is_answered(rt: HostRuntime) {
    let mut book = new_book(Detection::Continuous);
    let mut report = Report::empty();
    let opened = answer_line(&mut book, 1, b"O 1 5", &mut report);
    assert_eq!(&rt; opened, Ok(Answer::Ok));
    let unknown = Fault::Refused(Refusal::NotKnown);
    let claimed = answer_line(&mut book, 2, b"C 1 10 9", &mut report);
    assert_eq!(&rt; claimed, Err(unknown));
    assert_eq!(&rt; [unknown.number(), unknown.place()], [3, 3]);
    assert_eq!(&rt; unknown.layer(), Layer::UseTable);
    let late = answer_line(&mut book, 1000001, b"S", &mut report);
    assert_eq!(&rt; late, Err(Fault::TooManyLines));
}
