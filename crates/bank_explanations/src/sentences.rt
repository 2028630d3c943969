//! A sentence on each cause.
ghost use Rattle.std.specs.Prelude.{◌≡◌, ◌==◌, ◌||◌, true, length, codes};
ghost use Rattle.std.specs.List.{list_any};
ghost use Rattle.std.specs.Str.{bytes_eq, is_utf8};
ghost use Rattle.entry_reader.specs.Accounts.{account_len, is_account_text};
ghost use Rattle.bank_explanations.specs.Places.{begins_with};
ghost use Rattle.bank_explanations.specs.Sentences as spec;

use crate::parts::Part;
use csv_entries::ConvertFault;
use csv_entries::dates::read_parts;
use csv_rules::{DatePart, EntryField, RulesFault, pattern_text};
use entry_reader::account::cut_account;
use entry_reader::scan::{begins, begins_white, has, is_utf8};
use explanations::lines::begins_with;
use hl_base::{List, Text};
use query_terms::cutting::bytes_of;

/// Whether nothing follows the account that a text begins with.
#[tactic(auto, using(crate::proofs::Accounts::all_of_it))]
fn is_one_account(text: &[u8]) -> bool
    ensures { result ≡ (account_len text.now == length text.now) }
{
    let (_, more) = cut_account(text);
    more.is_empty()
}

/// Whether all of a text is an account, without white space at its ends.
fn is_account_text(text: &[u8]) -> bool
    ensures { result ≡ is_account_text text.now }
{
    let (_, last) = text.split_at(text.len().saturating_sub(1));
    is_one_account(text) && !begins_white(text) && !has(text, b'\n') && !begins_white(last)
}

/// The sentence on an account that isn't valid.
fn account_sentence(text: &Text) -> &'static str
    ensures { result.now ≡ spec.account_sentence text.now }
{
    if is_account_text(bytes_of(text.as_str())) {
        "The account has no name, an empty part as in a::b, or more than 64 parts: write each part, with one colon between two."
    } else {
        "The account has a tab, a line end, white space at an end, or two white space characters in a row: assign a name with single spaces between its words."
    }
}

/// The sentence on a field that isn't valid, and what it is given.
fn field_sentence(field: EntryField, text: &Text) -> &'static str
    ensures { result.now ≡ spec.field_sentence field text.now }
{
    match field {
        EntryField::Status =>
            "The status is none of *, ! and nothing: assign one of these, in blocks if the bank has other words.",
        EntryField::Amount | EntryField::AmountIn | EntryField::AmountOut | EntryField::Amount2 =>
            "The amount does not read: decimal-mark says how its decimals begin, and there are no spaces between its digits.",
        EntryField::Currency =>
            "The currency is no symbol, or an amount has a symbol already: leave out one of them, or write the currency in double quotes.",
        EntryField::Account1 | EntryField::Account2 => account_sentence(text),
        EntryField::Date | EntryField::Code | EntryField::Description | EntryField::Comment =>
            "An amount, the status, the currency or an account does not read.",
    }
}

/// The sentence on a record with a field that isn't valid.
fn bad_sentence(part: &Option<Part>) -> &'static str
    ensures { result.now ≡ spec.bad_sentence part.now }
{
    match part {
        Some(part) => field_sentence(part.field, &part.text),
        None => "An amount, the status, the currency or an account does not read.",
    }
}

/// Whether a part of a date is its year.
fn is_year(part: DatePart) -> bool
    ensures { result ≡ spec.is_year part }
{
    match part {
        DatePart::Year | DatePart::ShortYear => true,
        DatePart::Month | DatePart::MonthName | DatePart::Day | DatePart::Byte(_) => false,
    }
}

/// Whether a part of a date is its month.
fn is_month(part: DatePart) -> bool
    ensures { result ≡ spec.is_month part }
{
    match part {
        DatePart::Month | DatePart::MonthName => true,
        DatePart::Year | DatePart::ShortYear | DatePart::Day | DatePart::Byte(_) => false,
    }
}

/// Whether a part of a date is its day.
fn is_day(part: DatePart) -> bool
    ensures { result ≡ spec.is_day part }
{
    match part {
        DatePart::Day => true,
        DatePart::Year
        | DatePart::ShortYear
        | DatePart::Month
        | DatePart::MonthName
        | DatePart::Byte(_) => false,
    }
}

fn has_year(format: &[DatePart]) -> bool
    ensures { result ≡ list_any spec.is_year format.now }
{
    format.iter().any(|part| is_year(*part))
}

fn has_month(format: &[DatePart]) -> bool
    ensures { result ≡ list_any spec.is_month format.now }
{
    format.iter().any(|part| is_month(*part))
}

fn has_day(format: &[DatePart]) -> bool
    ensures { result ≡ list_any spec.is_day format.now }
{
    format.iter().any(|part| is_day(*part))
}

/// Whether a year, a month or a day isn't among the parts of a date.
fn lacks_part(format: &Option<List<DatePart>>) -> bool
    ensures { result ≡ spec.lacks_part format.now }
{
    match format {
        Some(format) => {
            let parts = format.as_slice();
            !(has_year(parts) && has_month(parts) && has_day(parts))
        }
        None => false,
    }
}

/// Whether the whole of a text is of some parts of a date.
fn is_written(format: &[DatePart], text: &[u8]) -> bool
    ensures { result ≡ spec.is_written format.now text.now }
{
    read_parts(format, text).is_some()
}

/// Whether a text is a year, a month and a day with a byte between them.
fn is_divided(mark: u8, text: &[u8]) -> bool
    ensures { result ≡ spec.is_written (spec.divided_by mark) text.now }
{
    let format = [
        DatePart::Year,
        DatePart::Byte(mark),
        DatePart::Month,
        DatePart::Byte(mark),
        DatePart::Day,
    ];
    is_written(&format, text)
}

/// Whether a text is written as a date of a journal, with its year.
fn is_journal_date(text: &[u8]) -> bool
    ensures { result ≡ (spec.is_written (spec.divided_by 45) text.now
        || spec.is_written (spec.divided_by 46) text.now
        || spec.is_written (spec.divided_by 47) text.now) }
{
    is_divided(b'-', text) || is_divided(b'.', text) || is_divided(b'/', text)
}

/// Whether a text is written as `date-format` says, and without that rule as in a journal.
fn is_date(format: &Option<List<DatePart>>, text: &[u8]) -> bool
    ensures { result ≡ spec.is_date format.now text.now }
{
    match format {
        Some(format) => is_written(format.as_slice(), text),
        None => is_journal_date(text),
    }
}

/// The sentence on a date that isn't written so.
fn unwritten_sentence(format: &Option<List<DatePart>>) -> &'static str
    ensures { result.now ≡ spec.unwritten_sentence format.now }
{
    match format {
        Some(_) =>
            "The date is not written as date-format says: correct the rule, or leave the record out by skip.",
        None =>
            "The date is not written as 2024-02-28: say by date-format how the bank writes it, or leave the record out by skip.",
    }
}

/// The sentence on a date that is written so, and that the calendar doesn't have.
fn unknown_sentence(format: &Option<List<DatePart>>) -> &'static str
    ensures { result.now ≡ spec.unknown_sentence format.now }
{
    match format {
        Some(_) =>
            "The calendar does not have this day: correct the order of %m and %d in date-format, or assign another date in a block.",
        None =>
            "The calendar does not have this day: say by date-format how the bank writes it, or assign another date in a block.",
    }
}

/// The sentence on a date that doesn't read.
fn date_sentence(format: &Option<List<DatePart>>, text: &[u8]) -> &'static str
    ensures { result.now ≡ spec.date_sentence format.now text.now }
{
    if lacks_part(format) {
        "The rule date-format lacks a year, a month or a day: write %Y or %y, %m or %b, and %d, and assign date with all three, as in date 2024-%1."
    } else if text.is_empty() {
        "The date is empty: assign a column to date, or leave the record out by skip."
    } else if is_date(format, text) {
        unknown_sentence(format)
    } else {
        unwritten_sentence(format)
    }
}

/// The sentence on a record whose date doesn't read.
fn no_date_sentence(format: &Option<List<DatePart>>, part: &Option<Part>) -> &'static str
    ensures { result.now ≡ spec.no_date_sentence format.now part.now }
{
    match part {
        Some(part) => date_sentence(format, bytes_of(part.text.as_str())),
        None => "The date does not read.",
    }
}

/// What is wrong in a record that is refused for this cause, and how it is mended.
pub(crate) fn sentence_of(
    format: &Option<List<DatePart>>,
    fault: ConvertFault,
    part: &Option<Part>,
) -> &'static str
    ensures { result.now ≡ spec.sentence_of format.now fault part.now }
{
    match fault {
        ConvertFault::BadRecord { .. } => bad_sentence(part),
        ConvertFault::NoDate { .. } => no_date_sentence(format, part),
        ConvertFault::NoAmount { .. } =>
            "The fields amount, amount-in and amount-out are all empty: assign a column to one of them, or leave the record out by skip.",
        ConvertFault::TwoAmounts { .. } =>
            "Assign amount alone, or amount-in and amount-out, of which one is empty or zero in each record.",
        ConvertFault::CsvRefused { .. } =>
            "A column is not UTF-8: convert the file, for example with iconv -f latin1 -t utf-8.",
        ConvertFault::Memory => "There is not enough memory.",
    }
}

/// Whether a line is the word `end` alone.
fn is_end(line: &[u8]) -> bool
    ensures { result ≡ bytes_eq line.now (codes "end") }
{
    line == b"end".as_slice()
}

/// The sentence on a line that begins with a word for the file as a whole, or with no word of rules.
fn setting_sentence(line: &[u8]) -> &'static str
    ensures { result.now ≡ spec.setting_sentence line.now }
{
    if begins_with(line, b"skip") {
        "After skip there is nothing, or white space and the number of lines that are no records."
    } else if begins_with(line, b"separator") {
        "After separator there are white space and one ASCII character, SPACE or TAB."
    } else if begins_with(line, b"date-format") {
        "After date-format there are white space and the form of a date, in which each % begins one of %Y, %y, %m, %-m, %b, %d, %-d and %%."
    } else if begins_with(line, b"decimal-mark") {
        "After decimal-mark there are white space and . or a comma."
    } else if begins_with(line, b"fields") {
        "After fields there are white space and the names of the columns, with commas between them."
    } else if is_end(line) {
        "The word end is indented, below the patterns of a block."
    } else {
        "This is no rule: a rule begins with the name of a field, before a colon or white space, or with another word of rules."
    }
}

/// Whether a line begins with a mark of patterns.
fn begins_pattern(line: &[u8]) -> bool
    ensures { result ≡ spec.begins_pattern line.now }
{
    begins(line, b'&') || begins(line, b'!') || begins(line, b'%')
}

/// Whether a line begins with a word that nothing may follow.
fn begins_lone_word(line: &[u8]) -> bool
    ensures { result ≡ (begins_with line.now (codes "newest-first")
        || begins_with line.now (codes "intra-day-reversed")) }
{
    begins_with(line, b"newest-first") || begins_with(line, b"intra-day-reversed")
}

/// The sentence on a line that begins with a mark of patterns.
fn pattern_sentence(line: &[u8]) -> &'static str
    requires { is_utf8 line.now ≡ true }
    ensures { result.now ≡ spec.pattern_sentence line.now }
{
    if pattern_text(line).is_empty() {
        "A pattern is missing after &, ! and the name of a column."
    } else {
        "A pattern stands below if, above the indented lines of its block: move this line there, or begin it with if."
    }
}

/// The sentence on a line that isn't indented.
fn word_sentence(line: &[u8]) -> &'static str
    requires { is_utf8 line.now ≡ true }
    ensures { result.now ≡ spec.word_sentence line.now }
{
    if begins_lone_word(line) {
        "Nothing follows newest-first and intra-day-reversed."
    } else if begins_with(line, b"if") {
        "After if there is nothing, or white space and a pattern."
    } else if begins_pattern(line) {
        pattern_sentence(line)
    } else if begins_with(line, b"include") {
        "No other file is included: put all rules into one file."
    } else {
        setting_sentence(line)
    }
}

/// The sentence on a line that isn't of its form.
fn line_sentence(line: &[u8]) -> &'static str
    ensures { result.now ≡ spec.line_sentence line.now }
{
    if line.is_empty() {
        "The block at the end has no assignment: below its patterns, indent a field with its value, skip or end."
    } else if begins_with(line, &[239, 187, 191]) {
        "The line begins with a byte order mark (U+FEFF): remove it, at the start of a file for example with tail -c +4."
    } else if !is_utf8(line) {
        "The line is not UTF-8: convert the file, for example with iconv -f latin1 -t utf-8."
    } else if begins_white(line) {
        "An indented line is a field with its value, skip or end, and is below the patterns of a block."
    } else {
        word_sentence(line)
    }
}

/// What is wrong in a line of rules that is refused for this cause, and how it is mended.
pub(crate) fn rules_sentence(fault: RulesFault, line: &[u8]) -> &'static str
    ensures { result.now ≡ spec.rules_sentence fault line.now }
{
    match fault {
        RulesFault::BadRule { .. } => line_sentence(line),
        RulesFault::PatternRefused { .. } =>
            "The pattern is no regular expression, or too large a one: write a backslash before each of \\ . + * ? ( ) | [ ] { } ^ $ that is meant as it is.",
        RulesFault::Memory => "There is not enough memory.",
    }
}
