//! The lines that are cut off before the records.
ghost use Rattle.std.specs.Prelude.{◌≡◌, ◌-◌, if◌then◌else◌};
ghost use Rattle.hl_base.specs.Items.{is_blank};
ghost use Rattle.csv_entries.specs.Records as spec;

use hl_base::line::{is_blank, line_at};

/// How many lines are left to cut off behind one.
fn left_behind(line: &[u8], left: u64) -> u64
    ensures { result ≡ (if is_blank line.now then left else left - 1) }
{
    if is_blank(line) {
        left
    } else {
        left.saturating_sub(1)
    }
}

/// The text behind the first so many lines that aren't blank.
#[tactic(auto, using(crate::proofs::CutOff::passed_one, crate::proofs::CutOff::all_passed, crate::proofs::CutOff::none_left))]
pub fn text_after(text: &[u8], count: u64) -> &[u8]
    ensures { result.now ≡ spec.text_after count text.now }
{
    let mut rest = text;
    let mut left = count;
    while 0 < left {
        if rest.is_empty() {
            return rest;
        }
        let (line, next) = line_at(rest, 0);
        left = left_behind(line, left);
        let (_, more) = rest.split_at(next);
        rest = more;
    }
    rest
}
