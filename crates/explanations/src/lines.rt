//! One line of a text, by its number, and what it begins with.
ghost use Rattle.std.specs.Prelude.{◌≡◌, nat_eq, nat_le};
ghost use Rattle.std.specs.List.{starts_with};
ghost use Rattle.entry_reader.specs.Lines.{contents_of};
ghost use Rattle.explanations.specs.Explained as spec;

use entry_reader::scan::cut_line;

/// Whether a line is the one that is looked for, where so many are left up to it.
fn is_here(left: u64) -> bool
    ensures { result ≡ nat_le left 1 }
{
    left <= 1
}

/// What the line of a number says, counted from 1; nothing where there is no such line.
#[tactic(auto, using(crate::proofs::Numbering::line_more, crate::proofs::Numbering::line_here, crate::proofs::Numbering::line_none))]
pub fn line_numbered(text: &[u8], number: u64) -> &[u8]
    ensures { result.now ≡ spec.numbered number (contents_of text.now) }
{
    let mut rest = text;
    let mut left = number;
    while !rest.is_empty() {
        let (content, after) = cut_line(rest);
        if is_here(left) {
            return content;
        }
        left = left.saturating_sub(1);
        rest = after;
    }
    rest
}

/// What the first line of a text says.
#[tactic(auto, using(crate::proofs::Lined::first_cut, crate::proofs::Lined::first_none))]
pub fn first_content(text: &[u8]) -> &[u8]
    ensures { result.now ≡ spec.first_content text.now }
{
    if text.is_empty() {
        return text;
    }
    let (content, _) = cut_line(text);
    content
}

/// Whether a line begins with some bytes.
pub fn begins_with(line: &[u8], front: &[u8]) -> bool
    ensures { result ≡ starts_with nat_eq line.now front.now }
{
    line.starts_with(front)
}
