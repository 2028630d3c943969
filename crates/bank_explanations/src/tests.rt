//! Explanations of records and of lines of rules.
use crate::{Explanation, explain, explain_file, explain_rules};
use csv_entries::{ConvertFault, convert};
use csv_rules::{Rules, RulesFault};
use hl_base::{Bytes, Memory};
use query_terms::RegexMaker;
use std::alloc::Global;
use std::test::Fail;

const RULES: &[u8] =
    b"skip 1\nfields date, description, amount, currency\naccount1 assets:bank\nif %description own\n  account2 assets:\n";

/// Why a file is refused by rules.
fn refused(alloc: Global, rules: &Rules, text: &[u8]) -> ConvertFault {
    match convert(alloc, rules, text) {
        Ok(_) => ConvertFault::Memory,
        Err(fault) => fault,
    }
}

/// The explanation of the record of a file that is refused.
fn explained(alloc: Global, text: &[u8]) -> Result<Bytes, Memory> {
    match Rules::read(alloc, RULES, &mut RegexMaker::new()) {
        Ok(rules) => explain(alloc, &rules, text, refused(alloc, &rules, text)),
        Err(_) => Err(Memory),
    }
}

#[test]
fn an_amount_that_does_not_read(rt: HostRuntime) -> Result<(), Fail> {
    let text =
        b"Day,Text,Amount,Symbol\r\n2024-01-05,market,-1,EUR\r\n\r\n2024-01-06,\"a\nb\",1\r\n2024-01-07,baker,3 20,EUR\r\n";
    let lines = explained(rt.alloc(), text)?;
    let wanted =
        b"record 3, line 6\n2024-01-07,baker,3 20,EUR\namount: 3 20\nThe amount does not read: decimal-mark says how its decimals begin, and there are no spaces between its digits.\n";
    assert_eq!(rt; lines.as_slice(), wanted.as_slice());
    Ok(())
}

#[test]
fn an_account_that_does_not_read(rt: HostRuntime) -> Result<(), Fail> {
    let lines = explained(rt.alloc(), b"\n\nx\n2024-01-05,own,-1,EUR")?;
    let wanted =
        b"record 1, line 4\n2024-01-05,own,-1,EUR\naccount2: assets:\nThe account has no name, an empty part as in a::b, or more than 64 parts: write each part, with one colon between two.\n";
    assert_eq!(rt; lines.as_slice(), wanted.as_slice());
    Ok(())
}

#[test]
fn a_record_without_an_amount(rt: HostRuntime) -> Result<(), Fail> {
    let lines = explained(rt.alloc(), b"x\n2024-01-05,market")?;
    let wanted =
        b"record 1, line 2\n2024-01-05,market\nThe fields amount, amount-in and amount-out are all empty: assign a column to one of them, or leave the record out by skip.\n";
    assert_eq!(rt; lines.as_slice(), wanted.as_slice());
    Ok(())
}

#[test]
fn a_line_that_is_no_rule(rt: HostRuntime) -> Result<(), Fail> {
    let text = b"skip 1\n\ncurrncy EUR\n";
    let lines = explain_rules(rt.alloc(), text, RulesFault::BadRule { line: 3 })?;
    let wanted =
        b"line 3\ncurrncy EUR\nThis is no rule: a rule begins with the name of a field, before a colon or white space, or with another word of rules.\n";
    assert_eq!(rt; lines.as_slice(), wanted.as_slice());
    Ok(())
}

/// The lines on a record.
fn record_lines(explanation: Explanation) -> Result<Bytes, Memory> {
    match explanation {
        Explanation::Record { fault: _, lines } => Ok(lines),
        Explanation::Rules { .. } => Err(Memory),
    }
}

/// The lines on the first record of a file that is refused.
fn first_lines(alloc: Global, text: &[u8]) -> Result<Bytes, Memory> {
    match explain_file(alloc, RULES, text, &mut RegexMaker::new())? {
        Some(explanation) => record_lines(explanation),
        None => Err(Memory),
    }
}

/// Whether nothing is wrong with a file.
fn is_good(alloc: Global, text: &[u8]) -> Result<bool, Memory> {
    match explain_file(alloc, RULES, text, &mut RegexMaker::new())? {
        Some(_) => Ok(false),
        None => Ok(true),
    }
}

#[test]
fn a_file_by_its_rules(rt: HostRuntime) -> Result<(), Fail> {
    let lines = first_lines(
        rt.alloc(),
        b"x\n2024-01-05,market,-1,EUR\n2024-01-06,market\n2024-01-07,market,x,\n",
    )?;
    let wanted =
        b"record 2, line 3\n2024-01-06,market\nThe fields amount, amount-in and amount-out are all empty: assign a column to one of them, or leave the record out by skip.\n";
    assert_eq!(rt; lines.as_slice(), wanted.as_slice());
    Ok(())
}

#[test]
fn a_file_that_becomes_entries(rt: HostRuntime) -> Result<(), Fail> {
    assert_eq!(rt;
        is_good(rt.alloc(), b"x\n2024-01-05,market,-1,EUR\n")?,
        true
    );
    Ok(())
}
