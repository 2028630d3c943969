//! A sentence on each cause.
ghost use Rattle.std.specs.Prelude.{◌≡◌, ◌==◌, ◌&&◌};
ghost use Rattle.directive_reader.specs.Keywords.{has_word};
ghost use Rattle.explanations.specs.Explained as spec;

use crate::lines::begins_with;
use book::Cause;
use directive_reader::keyword::after_word;
use entry_reader::scan::{before, begins, begins_digit, begins_white};

/// Whether a no-break space begins with a byte and those that follow it.
fn is_no_break(first: u8, more: &[u8]) -> bool
    ensures { result ≡ spec.is_no_break first more.now }
{
    first == 194 && begins(more, 160)
}

/// Whether a no-break space is somewhere in a text.
#[tactic(auto, using(crate::proofs::Breaking::break_more, crate::proofs::Breaking::break_here, crate::proofs::Breaking::break_none))]
fn has_no_break(text: &[u8]) -> bool
    ensures { result ≡ spec.has_no_break text.now }
{
    let mut rest = text;
    while let Some((first, more)) = rest.split_first() {
        if is_no_break(*first, more) {
            return true;
        }
        rest = more;
    }
    false
}

/// The first sentence where the line has a no-break space before a comment, and else the other.
fn by_no_break(line: &[u8], named: &'static str, other: &'static str) -> &'static str
    ensures { result.now ≡ spec.by_no_break line.now named.now other.now }
{
    if has_no_break(before(line, b';')) {
        named
    } else {
        other
    }
}

/// The sentence on a line that is of none of the forms: the first line of an entry, an indented line, or a directive.
fn form_sentence(line: &[u8]) -> &'static str
    ensures { result.now ≡ spec.form_sentence line.now }
{
    if begins_digit(line) {
        "White space is missing between the date of the entry and what follows it."
    } else if begins_white(line) {
        "An indented line belongs to the entry directly above it, without an empty line between; a note after an amount begins with ;, a posting in parentheses and a cost need an amount, and a rule has no assertion."
    } else {
        "Something that the directive takes is missing or does not read, or the line has more than it takes: begin a note with ;."
    }
}

/// Whether a line begins with a word.
fn begins_word(line: &[u8], word: &[u8]) -> bool
    ensures { result ≡ has_word word.now line.now }
{
    match after_word(line, word) {
        Some(_) => true,
        None => false,
    }
}

/// The sentence on a line that is no directive.
fn directive_sentence(line: &[u8]) -> &'static str
    ensures { result.now ≡ spec.directive_sentence line.now }
{
    if begins_with(line, &[239, 187, 191]) {
        "The line begins with a byte order mark (U+FEFF): remove it, at the start of a file for example with tail -c +4."
    } else if begins_word(line, b"include") {
        "No other file is included: put all files into one, for example with cat."
    } else if begins_word(line, b"account") {
        "The type of an account is one of A, L, E, R, X, C and V, or its English word."
    } else if begins_word(line, b"end") {
        "No apply account above this line is still open, or its end is not written end apply account."
    } else {
        "This is no directive: indent a posting, and begin a note with ;."
    }
}

/// The sentence on a date, or on the period of a rule.
fn date_sentence(line: &[u8]) -> &'static str
    ensures { result.now ≡ spec.date_sentence line.now }
{
    if begins(line, b'~') {
        "The period of the rule does not read: write it as in ~ monthly, with two spaces before a description."
    } else {
        "The date does not read, or the calendar does not have it: write it as 2024-02-28, with its year where none is known."
    }
}

/// What is wrong in a line with a fault of this cause, and how it is mended.
pub fn sentence_of(cause: &Cause, line: &[u8]) -> &'static str
    ensures { result.now ≡ spec.sentence_of cause.now line.now }
{
    match cause {
        Cause::Form => form_sentence(line),
        Cause::Date => date_sentence(line),
        Cause::Number => by_no_break(
            line,
            "The number does not read: it has digits, at most one sign and one decimal mark, at most 18 decimals, group marks only between digits, and less than 2^127 units of its last decimal. The line has a no-break space (U+00A0), which is neither a group mark nor white space.",
            "The number does not read: it has digits, at most one sign and one decimal mark, at most 18 decimals, group marks only between digits, and less than 2^127 units of its last decimal.",
        ),
        Cause::Account => {
            "The account has no name, an empty part as in a::b, or more than 64 parts: write each part, with one colon between two."
        }
        Cause::StatusMark => "There is a second ! or * after the first: leave one of them out.",
        Cause::Directive => directive_sentence(line),
        Cause::Quote => by_no_break(
            line,
            "A symbol with digits, spaces or punctuation is written in double quotes, and a number has no spaces between its digits. The line has a no-break space (U+00A0), which is neither a group mark nor white space.",
            "A symbol with digits, spaces or punctuation is written in double quotes, and a number has no spaces between its digits.",
        ),
        Cause::TooLong => "An entry or a directive has at most 65536 bytes: divide it.",
        Cause::Encoding => {
            "The line is not UTF-8: convert the file, for example with iconv -f latin1 -t utf-8."
        }
        Cause::TwoMissing => {
            "Two postings of this entry have no amount: write two spaces or a tab before each amount, since after one space it belongs to the account, and leave out at most one amount."
        }
        Cause::NotAllowed => {
            "A posting of this entry has a tag date, so no amount can be assigned by =: write the amounts, or leave out the tag."
        }
        Cause::Unbalanced { .. } => {
            "The amounts of this entry sum to the amount above and not to zero: correct one of them, or leave one out."
        }
        Cause::AssertionFailed { .. } => {
            "After this posting the account has the second amount where the assertion wants the first: an entry up to here is missing, is there twice or has a wrong amount, or the assertion is wrong. With == the account has no other symbol, and with =* its subaccounts count."
        }
        Cause::Range => {
            "Amounts or costs are too large: without their signs their sum in one symbol, or a quantity times its price, is 2^127 or more, in units of the last decimal."
        }
    }
}
