//! How the lines of a directive end: with a comment, and comment lines after it.
ghost use Rattle.std.specs.Prelude.{◌≡◌, ◌+◌, ◌<◌, ◌^◌, true, length, IfOk};
ghost use Rattle.std.specs.Str.{is_utf8};
ghost use Rattle.hl_base.specs.Gives.{Gives};
ghost use Rattle.entry_reader.specs.Causes.{cause_in};
ghost use Rattle.entry_reader.specs.Lines.{contents_of};
ghost use Rattle.entry_reader.specs.Postings as postings;
ghost use Rattle.directive_reader.specs.Endings as spec;

use book::Cause;
use entry_reader::ReadFault;
use entry_reader::comment::is_comment;
use entry_reader::fault::fault_at;
use entry_reader::scan::{before, begins, cut_line, past_first, trimmed};

/// Whether a line has ended, or goes on with a comment.
pub fn ends_line(text: &[u8]) -> bool
    ensures { result ≡ postings.ends_line text.now }
{
    text.is_empty() || begins(text, b';')
}

/// What a line says before its comment.
pub fn before_comment(text: &[u8]) -> &[u8]
    ensures value { result.now ≡ spec.before_comment text.now }
    ensures utf8 { is_utf8 text.now ≡ true → is_utf8 result.now ≡ true }
{
    before(text, b';')
}

/// The comment with which a line ends, empty where there is none; else the line's fault.
#[tactic(auto, using(entry_reader::proofs::Texts::empty_utf8), unfolding(crate::specs::Endings::ending_at))]
pub fn read_ending(text: &[u8], line: u64) -> Result<&[u8], ReadFault>
    requires { is_utf8 text.now ≡ true }
    ensures value { Gives (λ x. x.now) cause_in result (spec.ending_at line text.now) }
    ensures utf8 { IfOk result (λ x. is_utf8 x.now ≡ true) }
{
    if !ends_line(text) {
        return Err(fault_at(line, Cause::Form));
    }
    if begins(text, b';') {
        Ok(trimmed(past_first(text)))
    } else {
        Ok(&[])
    }
}

/// Whether all of some lines are comments, of which the first is the `line`-th; else the fault of the first that is none.
#[tactic(auto, unfolding(crate::specs::Endings::comments_only))]
pub fn check_comments(after: &[u8], line: u64) -> Result<(), ReadFault>
    requires { line + length (contents_of after.now) < 2 ^ 64 }
    ensures { Gives (λ done.
        done) cause_in result (spec.comments_only line (contents_of after.now)) }
{
    let mut rest = after;
    let mut next = line;
    while !rest.is_empty() {
        let (content, more) = cut_line(rest);
        if !is_comment(content) {
            return Err(fault_at(next, Cause::Form));
        }
        rest = more;
        next += 1;
    }
    Ok(())
}

/// Whether nothing but comments follows on a line and on those after it; else the fault of the first that does.
#[tactic(auto, unfolding(crate::specs::Endings::closing))]
pub fn check_closing(text: &[u8], after: &[u8], line: u64) -> Result<(), ReadFault>
    requires { line + 1 + length (contents_of after.now) < 2 ^ 64 }
    ensures { Gives (λ done.
        done) cause_in result (spec.closing line text.now (contents_of after.now)) }
{
    if ends_line(text) {
        check_comments(after, line + 1)
    } else {
        Err(fault_at(line, Cause::Form))
    }
}
