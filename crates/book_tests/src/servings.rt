// What a reader and a writer in memory are served.
use model::state::Detection;
use orders::single::Newest;
use session::console::Console;
use session::serving::{serve_between, transcript};
use settings::any_table::AnyTable;
use settings::arguments::read_setting;
use settings::setting::{Setting, choose};
use std::alloc::Global;
use std::io;
use std::io::{Cursor, ErrorKind};
use std::process::Abort;
use std::test::Fail;
use uses::two_uses::TwoUses;

// How many lines of 2 bytes are more than one block of 65536 bytes.
const MANY: usize = 40000;

// The input and the answers of so many sweeps.
fn sweeps(alloc: Global, count: usize) -> io::Result<(Vec<u8>, Vec<u8>)> {
    let mut input = Vec::new(alloc);
    let mut expected = Vec::new(alloc);
    for number in 1..=count {
        input.extend_from_slice(b"S\n")?;
        let line = format!(in alloc; "{number} ok\n")?;
        expected.extend_from_slice(line.as_bytes())?;
    }
    Ok((input, expected))
}

#[test]
fn more_than_a_block_is_served(rt: HostRuntime) -> Result<(), Fail> {
    let (input, expected) = sweeps(rt.alloc(), MANY)?;
    let mut console = Console::standard();
    let mut output = Vec::new(rt.alloc());
    serve_between(&mut input.as_slice(), &mut output, &mut console, rt.alloc())?;
    assert_eq!(&rt; output.as_slice(), expected.as_slice());
    Ok(())
}

#[test]
fn an_error_of_the_writer_ends_it(rt: HostRuntime) {
    let mut console = Console::standard();
    let mut output = Cursor::new([0; 8]);
    let served = serve_between(
        &mut b"S\nS\nS\n".as_slice(),
        &mut output,
        &mut console,
        rt.alloc(),
    );
    assert!(&rt; served.is_err_and(|error| error.kind() == ErrorKind::WriteZero));
    assert_eq!(&rt; output.into_inner(), *b"1 ok\n2 o");
}

#[test]
fn a_transcript_is_the_same_however_the_input_is_cut(rt: HostRuntime) -> Result<(), Fail> {
    let pieces: [&[u8]; 4] = [b"O 1 5\nC 1", b"", b" 10 1\n", b"E 1"];
    let out = transcript(TwoUses, Newest, Detection::Continuous, &pieces, rt.alloc())?;
    assert_eq!(&rt; out.as_slice(), b"1 ok\n2 granted\n3 ok\n".as_slice());
    Ok(())
}

// Two cycles of weights 7, 3 and 3 under five uses, which stand until a sweep looks for them.
const CALLS: &[u8] =
    b"O 1 7\nO 2 3\nO 3 3\nC 1 10 4\nC 2 11 2\nC 3 11 2\nC 1 11 1\nC 2 10 2\nC 3 10 0\nS\nC 3 10 0\nA 3\nC 1 10 9\nE 1\n";

// What is printed for them, where the lightest is recalled, and of two the newest.
const ANSWERS: &[u8] =
    b"1 ok\n2 ok\n3 ok\n4 granted\n5 granted\n6 granted\n7 waits\n8 waits\n9 waits\n10 ok\n10 recall 3 10\n10 recall 2 10\n10 wake 1 11\n11 refused 5\n12 ok\n13 refused 3\n14 ok\n";

#[test]
fn a_book_of_chosen_words_is_served(rt: HostRuntime) -> Result<(), Fail> {
    let detection = "periodic".to_string(rt.alloc())?;
    let table = "five".to_string(rt.alloc())?;
    let order = "lightest,newest".to_string(rt.alloc())?;
    let chosen = choose(detection, table, order);
    assert!(&rt; chosen.is_ok());
    if let Ok(setting) = chosen {
        let out = transcript(
            setting.table,
            setting.order,
            setting.detection,
            &[CALLS],
            rt.alloc(),
        )?;
        assert_eq!(&rt; out.as_slice(), ANSWERS);
    }
    Ok(())
}

#[test]
fn the_arguments_of_a_program_choose_its_book(rt: HostRuntime) -> Result<(), Fail> {
    let mut args = Vec::new(rt.alloc());
    for word in ["console", "periodic", "span", "fewest"] {
        args.push(word.to_string(rt.alloc())?)?;
    }
    let chosen = read_setting(args.into_iter());
    assert!(&rt;
        matches!(
            chosen,
            Ok(Setting {
                detection: Detection::Periodic,
                table: AnyTable::Span(_),
                ..
            })
        )
    );
    Ok(())
}
