#![tactic(auto)]

// The console of a line: calls on standard input, answers on standard output. With no arguments the
// book is continuous, has the two uses look and move, and recalls the newest; three arguments
// choose another.
use orders::order::RecallOrder;
use session::console::Console;
use session::serving::serve_between;
use settings::arguments::read_setting;
use settings::setting::Wrong;
use std::env::{Env, FillError};
use std::process::ExitCode;
use std::{env, io};
use uses::table::UseTable;

// How the program is called.
const USAGE: &str = "usage: console [DETECTION TABLE ORDER[,ORDER]]
    DETECTION  continuous or periodic
    TABLE      two, five or span
    ORDER      newest, lightest or fewest";

// Answers what is wrong with the arguments.
fn complain(rt: &HostRuntime, wrong: Wrong) -> io::Result<ExitCode> {
    eprintln!(rt; "console: {wrong}")?;
    eprintln!(rt; "{USAGE}")?;
    Ok(ExitCode::FAILURE)
}

// Serves standard input.
fn serve<T: UseTable + Drop, O: RecallOrder + Drop>(
    rt: &HostRuntime,
    mut console: Console<T, O>,
) -> io::Result<ExitCode> {
    serve_between(&mut rt.stdin(), &mut rt.stdout(), &mut console, rt.alloc())?;
    Ok(ExitCode::SUCCESS)
}

// Was the program called by its name alone? The name may be any bytes.
fn has_no_arguments(rt: &HostRuntime) -> bool {
    matches!(rt.arg(1, &mut []), Err(FillError::NotPresent))
}

fn main(rt: HostRuntime) -> io::Result<ExitCode> {
    if has_no_arguments(&rt) {
        return serve(&rt, Console::standard());
    }
    let Ok(args) = env::args(&rt) else {
        return complain(&rt, Wrong::Unreadable);
    };
    match read_setting(args) {
        Ok(chosen) => serve(
            &rt,
            Console::new(chosen.table, chosen.order, chosen.detection),
        ),
        Err(wrong) => complain(&rt, wrong),
    }
}
