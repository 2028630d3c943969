//! The line of a file on which a record begins.
ghost use Rattle.std.specs.Prelude.{◌≡◌, ◌==◌, ◌≤◌, length};
ghost use Rattle.csv.specs.Reading as reading;
ghost use Rattle.bank_explanations.specs.Places as spec;

use crate::spots::{Spot, past_line};
use csv_entries::skipping::text_after;
use csv_rules::Settings;
use explanations::lines::begins_with;
use hl_base::line::line_at;

/// The text without a byte order mark at its front.
#[tactic(auto, using(crate::proofs::Marks::mark_some, crate::proofs::Marks::mark_cut, crate::proofs::Marks::mark_none))]
fn without_mark(text: &[u8]) -> &[u8]
    ensures { result.now ≡ reading.strip_bom text.now }
{
    if begins_with(text, &[239, 187, 191]) {
        let (_, rest) = text.split_at(3);
        rest
    } else {
        text
    }
}

/// Whether a record is found, where so many records are left to find.
fn is_found(left: u64) -> bool
    ensures { result ≡ (left == 0) }
{
    left == 0
}

/// The text from the line on in which a record begins.
#[tactic(auto, using(crate::proofs::Opening::line_starts, crate::proofs::Opening::no_line))]
fn text_from(separator: u8, n: u64, text: &[u8]) -> &[u8]
    ensures { result.now ≡ spec.text_from separator n text.now }
{
    let mut rest = text;
    let mut spot = Spot::Start;
    let mut left = n;
    while !rest.is_empty() {
        let (line, next) = line_at(rest, 0);
        let (behind, more) = past_line(separator, spot, left, line);
        if is_found(more) {
            return rest;
        }
        spot = behind;
        left = more;
        let (_, later) = rest.split_at(next);
        rest = later;
    }
    rest
}

/// The text of a file from the line on in which a record begins.
#[tactic(auto, unfolding(crate::specs::Places::record_text))]
pub(crate) fn record_text(settings: Settings, n: u64, text: &[u8]) -> &[u8]
    ensures { result.now ≡ spec.record_text settings n text.now }
{
    let cut = text_after(text, settings.skipped);
    text_from(settings.separator, n, without_mark(cut))
}

/// How many line feeds a text has.
#[tactic(auto, using(crate::proofs::Counting::few_ends))]
fn line_ends(text: &[u8]) -> usize
    ensures count { result ≡ spec.line_ends text.now }
    ensures few { result ≤ length text.now }
{
    text.iter().filter(|byte| **byte == b'\n').count()
}

/// The number of the line with which the rest of a file begins.
pub(crate) fn number_before(text: &[u8], rest: &[u8]) -> u64
    ensures { result ≡ spec.number_before text.now rest.now }
{
    line_ends(text).saturating_sub(line_ends(rest)) as u64 + 1
}
