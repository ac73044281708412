#![tactic(auto)]

// Prints charts of the use tables (lock mode compatibility matrices): which uses conflict, and which
// cover which.
ghost use Rattle.std.specs.Prelude.{◌≡◌};
ghost use Rattle.use_charts.specs.Relation.{answer_of};

use std::{fmt, io};
use uses::spans::{Direction, Span, Spans};
use uses::table::{UnknownUse, UseTable};
use uses::{five_uses, two_uses};

// How the charts are read.
const HOW_TO_READ: &str = "USE TABLES

conflicts: where an x stands, two dispatches cannot hold the two uses
           of one section side by side, and the later claim waits
covers:    where an x stands, a dispatch with a claim for the row's use of
           a section is answered covered when it claims the column's there";

// The rows and columns of the charts.
const TWO_USES: [two_uses::Use; 2] = [two_uses::Use::Look, two_uses::Use::Move];

const FIVE_USES: [five_uses::Use; 5] = [
    five_uses::Use::IS,
    five_uses::Use::IX,
    five_uses::Use::S,
    five_uses::Use::SIX,
    five_uses::Use::X,
];

// The relations that a chart may show.
#[derive(Clone, Copy)]
enum Relation {
    Conflicts,
    Covers,
}

impl fmt::Display for Relation {
    fn fmt<W: fmt::Write>(&self, f: &mut fmt::Formatter<W>) -> fmt::Result {
        f.pad(match self {
            Relation::Conflicts => "conflicts",
            Relation::Covers => "covers",
        })
    }
}

// The table's answer for one place of a chart.
fn ask<T: UseTable>(table: &T, relation: Relation, row: u32, column: u32) -> bool
    ensures { result ≡ answer_of (T.meaning table.now) relation row column }
{
    match relation {
        Relation::Conflicts => table.conflicts(row, column),
        Relation::Covers => table.covers(row, column),
    }
}

// One relation of a table, with a row and a column for each of its uses.
#[derive(Clone, Copy)]
struct Chart<'a, T, U> {
    table: &'a T,
    relation: Relation,
    uses: &'a [U],
}

impl<T: UseTable, U: Copy + fmt::Display + Into<u32>> Chart<'_, T, U> {
    // The line of one use: its code, its name and a mark for each column.
    fn write_row<W: fmt::Write>(&self, f: &mut fmt::Formatter<W>, row: U) -> fmt::Result {
        let code: u32 = row.into();
        write!(f, "  {code} {row:<8}")?;
        for column in self.uses {
            let mark = if ask(self.table, self.relation, code, (*column).into()) {
                "x"
            } else {
                "."
            };
            write!(f, "{mark:>6}")?;
        }
        writeln!(f)
    }

    // The first line: the relation and the names of the columns.
    fn write_heading<W: fmt::Write>(&self, f: &mut fmt::Formatter<W>) -> fmt::Result {
        let relation = self.relation;
        write!(f, "\n  {relation:<10}")?;
        for column in self.uses {
            write!(f, "{column:>6}")?;
        }
        writeln!(f)
    }
}

impl<T: UseTable, U: Copy + fmt::Display + Into<u32>> fmt::Display for Chart<'_, T, U> {
    fn fmt<W: fmt::Write>(&self, f: &mut fmt::Formatter<W>) -> fmt::Result {
        self.write_heading(f)?;
        for row in self.uses {
            self.write_row(f, *row)?;
        }
        Ok(())
    }
}

// Prints both charts of a table, under a heading.
fn print_table<T: UseTable, U: Copy + fmt::Display + Into<u32>>(
    rt: &HostRuntime,
    heading: &str,
    table: &T,
    uses: &[U],
) -> io::Result<()> {
    println!(rt; "\n{heading}")?;
    for relation in [Relation::Conflicts, Relation::Covers] {
        let chart = Chart {
            table,
            relation,
            uses,
        };
        print!(rt; "{chart}")?;
    }
    Ok(())
}

// Prints the question whether the two spans conflict, with its answer.
fn print_conflict(rt: &HostRuntime, a: Span, b: Span) -> io::Result<()> {
    let code = u32::from(a);
    let other = u32::from(b);
    let answer = if ask(&Spans, Relation::Conflicts, code, other) {
        "yes"
    } else {
        "no"
    };
    println!(rt; "  Does {a} ({code}) conflict with {b} ({other})? {answer}")
}

// Prints the question whether the span is a use, with its answer.
fn print_known(rt: &HostRuntime, span: Span) -> io::Result<()> {
    let code = u32::from(span);
    let answer = match Spans.check(code) {
        Ok(()) => "yes",
        Err(UnknownUse) => "no, it is unknown",
    };
    println!(rt; "  Is {span} ({code}) a use? {answer}")
}

// Prints examples of spans.
fn print_spans(rt: &HostRuntime) -> io::Result<()> {
    let up = Span {
        direction: Direction::Up,
        from: 0,
        to: 5,
    };
    let crossing = Span {
        direction: Direction::Down,
        from: 4,
        to: 9,
    };
    let beyond = Span {
        direction: Direction::Down,
        from: 5,
        to: 9,
    };
    let empty = Span {
        direction: Direction::Up,
        from: 5,
        to: 5,
    };
    println!(rt; "\nSPANS\n")?;
    let code = u32::from(up);
    println!(rt; "  {up} is the direction up and the fields 0 to 4; its code is {code}")?;
    print_conflict(rt, up, crossing)?;
    print_conflict(rt, up, beyond)?;
    print_known(rt, empty)
}

fn main(rt: HostRuntime) -> io::Result<()> {
    println!(rt; "{HOW_TO_READ}")?;
    print_table(&rt, "TWO USES", &two_uses::TwoUses, &TWO_USES)?;
    print_table(&rt, "FIVE USES", &five_uses::FiveUses, &FIVE_USES)?;
    print_spans(&rt)
}
