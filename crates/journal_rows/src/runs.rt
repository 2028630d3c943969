//! Runs over memory: each kind of command once, and reads, writes and loads that fail.
use crate::case::{Beside, Case, Seen, answer_beside, nothing};
use std::process::Abort;
use std::test::Fail;

/// The 68 bytes of one entry.
const BREAD: &[u8] = b"2024-01-05 bread\n    expenses:food  10 EUR\n    assets:cash  -10 EUR\n";

/// A rule of each kind, and two entries of a household, the second without a year.
const HOME: &[u8] =
    b"= expenses:food\n    (budget:food)  *-1\n~ monthly\n    expenses:food  40 EUR\n    assets:bank\n\n2024-01-05 * market\n    expenses:food  10 EUR\n    assets:bank\n\n02-01 pay\n    assets:bank  50 EUR\n    income:salary  -50 EUR\n";

/// A run over the input, of which no call fails.
pub fn case_of<'a>(words: &'a [&'a str], text: &'a [u8]) -> Case<'a> {
    Case {
        words,
        text,
        read_fails: &[],
        write_fails: &[],
        error_fails: &[],
    }
}

pub fn expect(rt: &impl Abort, seen: &Seen, status: u8, output: &[u8], error: &[u8], what: &str) {
    assert_eq!(rt; seen.status, status, "status of {what}");
    assert_eq!(rt; seen.output.as_slice(), output, "output of {what}");
    assert_eq!(rt; seen.error.as_slice(), error, "error of {what}");
}

/// A run on a day of 2024 with a maker that refuses one pattern, over an entry and beside a file.
#[test]
fn runs_each_command(rt: HostRuntime) -> Result<(), Fail> {
    let beside = Beside {
        name: "home",
        text: HOME,
        load_fails: &[],
        disk_fails: &[],
        refused: "a.c",
    };
    for (words, status, output, error) in [
        (
            ["register", "-f", "home", "assets"].as_slice(),
            0,
            b"2024-01-05 market                assets:bank                -10 EUR      -10 EUR\n2024-02-01 pay                   assets:bank                 50 EUR       40 EUR\n".as_slice(),
            b"".as_slice(),
        ),
        (
            ["balance", "-f", "home", "a.c"].as_slice(),
            1,
            b"".as_slice(),
            b"error: pattern: a.c\n".as_slice(),
        ),
        (
            ["accounts", "-f", "home", "f..d"].as_slice(),
            0,
            b"expenses:food\n".as_slice(),
            b"".as_slice(),
        ),
        (
            ["balance", "-f", "home", "--auto", "-t", "-N", "budget"].as_slice(),
            0,
            b"             -10 EUR  budget\n             -10 EUR    food\n".as_slice(),
            b"".as_slice(),
        ),
        (
            ["balance", "-f", "home", "--forecast=2024-03", "-N", "food"].as_slice(),
            0,
            b"              50 EUR  expenses:food\n".as_slice(),
            b"".as_slice(),
        ),
        (
            [
                "balance",
                "-f",
                "home",
                "--budget",
                "-p",
                "monthly in 2024-01",
                "food",
            ]
            .as_slice(),
            0,
            b"Budget performance in 2024-01-01..2024-01-31:\n\n               ||                2024-01 \n===============++========================\n expenses:food || 10 EUR [25% of 40 EUR] \n---------------++------------------------\n               || 10 EUR [25% of 40 EUR] \n".as_slice(),
            b"".as_slice(),
        ),
        (
            ["bs", "-f", "home", "-p", "monthly in 2024-01"].as_slice(),
            0,
            b"Balance Sheet 2024-01-01..2024-01-31\n\n             || 2024-01-31 \n=============++============\n Assets      ||            \n-------------++------------\n assets:bank ||    -10 EUR \n-------------++------------\n             ||    -10 EUR \n=============++============\n Liabilities ||            \n-------------++------------\n-------------++------------\n             ||          0 \n=============++============\n Net:        ||    -10 EUR \n".as_slice(),
            b"".as_slice(),
        ),
        (
            ["strict", "accounts"].as_slice(),
            1,
            b"".as_slice(),
            b"error: line 2: undeclared account expenses:food\n".as_slice(),
        ),
        (
            ["close", "--on=2024-12-31"].as_slice(),
            0,
            b"2024-12-31 closing\n    assets:cash      10 EUR\n    equity:closing  -10 EUR\n\n2025-01-01 opening\n    assets:cash     -10 EUR\n    equity:closing   10 EUR\n\n".as_slice(),
            b"".as_slice(),
        ),
    ] {
        let seen = answer_beside(&rt, rt.alloc(), &case_of(words, BREAD), &beside)?;
        expect(&rt, &seen, status, output, error, "a command");
    }
    Ok(())
}

/// A log of each kind, and the hours of its days.
#[test]
fn writes_hours(rt: HostRuntime) -> Result<(), Fail> {
    for (words, log, output) in [
        (
            ["hours"].as_slice(),
            b"i 2024-01-05 22:30 work:a  night\no 2024-01-06 02:00:36\n".as_slice(),
            b"2024-01-05 * night\n    (work:a)  1.50h\n\n2024-01-06 * night\n    (work:a)  2.01h\n\n".as_slice(),
        ),
        (
            ["hours", "--dot"].as_slice(),
            b"2024-02-01 plan\nwork:a  .... ..\n".as_slice(),
            b"2024-02-01 * plan\n    (work:a)  1.50h\n\n".as_slice(),
        ),
    ] {
        let seen = answer_beside(&rt, rt.alloc(), &case_of(words, log), &nothing())?;
        expect(&rt, &seen, 0, output, b"", "a log");
    }
    Ok(())
}

/// A text of so many entries that several threads read it; what they read, and its faults, are in
/// `tests/commands/many_entries.rows`.
#[test]
fn reads_many_entries(rt: HostRuntime) -> Result<(), Fail> {
    let mut text = String::new(rt.alloc());
    for _ in 0..5_000 {
        text.push_str("2024-01-05 x\n    a  1 EUR\n    b\n")?;
    }
    let case = case_of(&["accounts"], text.as_bytes());
    let seen = answer_beside(&rt, rt.alloc(), &case, &nothing())?;
    expect(&rt, &seen, 0, b"a\nb\n", b"", "many entries");
    Ok(())
}

#[test]
fn tells_faults_of_the_outside(rt: HostRuntime) -> Result<(), Fail> {
    for (words, read_fails, write_fails, error_fails, status, error) in [
        (
            ["balance"].as_slice(),
            [1].as_slice(),
            [].as_slice(),
            [].as_slice(),
            3,
            b"error: read fault\n".as_slice(),
        ),
        (
            ["strict", "accounts"].as_slice(),
            [2].as_slice(),
            [].as_slice(),
            [].as_slice(),
            3,
            b"error: read fault\n".as_slice(),
        ),
        (
            ["hours"].as_slice(),
            [1].as_slice(),
            [].as_slice(),
            [1].as_slice(),
            4,
            b"".as_slice(),
        ),
        (
            ["balance"].as_slice(),
            [].as_slice(),
            [1].as_slice(),
            [].as_slice(),
            4,
            b"error: write fault\n".as_slice(),
        ),
        (
            ["close", "--on=2024-12-31"].as_slice(),
            [].as_slice(),
            [1].as_slice(),
            [1].as_slice(),
            4,
            b"".as_slice(),
        ),
    ] {
        let case = Case {
            words,
            text: BREAD,
            read_fails,
            write_fails,
            error_fails,
        };
        let seen = answer_beside(&rt, rt.alloc(), &case, &nothing())?;
        expect(&rt, &seen, status, b"", error, "a fault");
    }
    Ok(())
}

#[test]
fn tells_a_load_that_fails(rt: HostRuntime) -> Result<(), Fail> {
    for (load_fails, status, output, error) in [
        (
            [1].as_slice(),
            3,
            b"".as_slice(),
            b"error: read fault\n".as_slice(),
        ),
        (
            [2].as_slice(),
            0,
            b"expenses:food\n".as_slice(),
            b"".as_slice(),
        ),
    ] {
        let beside = Beside {
            name: "home",
            text: HOME,
            load_fails,
            disk_fails: &[],
            refused: "a.c",
        };
        let case = case_of(&["accounts", "-f", "home", "food"], BREAD);
        let seen = answer_beside(&rt, rt.alloc(), &case, &beside)?;
        expect(&rt, &seen, status, output, error, "a load");
    }
    Ok(())
}
