//! Accounts that read back as they are.
ghost use Rattle.std.specs.Prelude.{◌≡◌, true, IfOk, Ok};
ghost use Rattle.std.specs.Str.{is_utf8};
ghost use Rattle.std.specs.String.{string_bytes};
ghost use Rattle.hl_base.specs.Gives.{Gives};
ghost use Rattle.entry_reader.specs.Causes.{cause_in};
ghost use Rattle.book_care.specs.Reads as spec;

use book::{Mark, Side};
use entry_reader::account::{cut_account, read_account, read_account_in};
use entry_reader::comment::is_comment;
use entry_reader::head::read_mark;
use entry_reader::scan::after_white;
use entry_reader::{Context, ReadFault};
use hl_base::{Memory, Text};
use query_terms::cutting::bytes_of;
use std::alloc::Global;

/// The mark that a posting's line begins with, and the side and the account behind it.
#[derive(Drop)]
struct Named {
    mark: Mark,
    side: Side,
    account: Text,
}

fn is_unmarked(mark: Mark) -> bool
    ensures { result ≡ spec.is_unmarked mark }
{
    match mark {
        Mark::Unmarked => true,
        Mark::Pending | Mark::Cleared => false,
    }
}

fn is_real(side: Side) -> bool
    ensures { result ≡ spec.is_real side }
{
    match side {
        Side::Real => true,
        Side::Balanced | Side::Free => false,
    }
}

/// The mark and the account that a posting's line begins with.
#[tactic(auto, unfolding(crate::specs::Reads::named_at))]
fn read_named(alloc: Global, context: &Context, content: &[u8]) -> Result<Named, ReadFault>
    requires { is_utf8 content.now ≡ true }
    ensures { Gives (λ x. (x.mark, (x.side, x.account))) cause_in result
        (spec.named_at context.now content.now) }
{
    let (mark, rest) = read_mark(after_white(content), 1)?;
    let (text, _) = cut_account(rest);
    let (side, account) = read_account_in(alloc, context, text, 1)?;
    Ok(Named {
        mark,
        side,
        account,
    })
}

/// Whether it is a real posting's, without a mark, of this name.
fn is_plain(named: &Named, name: &Text) -> bool
    ensures { result ≡ spec.is_plain name.now
        (Ok (named.now.mark, (named.now.side, named.now.account))) }
{
    is_unmarked(named.mark) && is_real(named.side) && named.account.as_str() == name.as_str()
}

/// A name in the line of a posting, before its amount.
fn in_posting(alloc: Global, name: &Text) -> Result<String, Memory>
    ensures { IfOk result (λ line. string_bytes line ≡ spec.in_posting name.now) }
{
    let mut line = String::from_str(alloc, "    ")?;
    line.push_str(name.as_str())?;
    line.push_str("  ")?;
    Ok(line)
}

/// Whether a line is no comment, and begins with the account of a real posting, without a mark, of this name.
fn begins_plain(
    alloc: Global,
    context: &Context,
    name: &Text,
    content: &[u8],
) -> Result<bool, Memory>
    requires { is_utf8 content.now ≡ true }
    ensures { IfOk result (λ plain. plain ≡ spec.begins_plain context.now name.now content.now) }
{
    if is_comment(content) {
        return Ok(false);
    }
    match read_named(alloc, context, content) {
        Ok(named) => Ok(is_plain(&named, name)),
        Err(ReadFault::Memory) => Err(Memory),
        Err(ReadFault::Read(_fault)) => Ok(false),
    }
}

/// Whether all of a name is the text of an account.
fn stands_whole(alloc: Global, name: &Text) -> Result<bool, Memory>
    ensures { IfOk result (λ whole. whole ≡ spec.stands_whole name.now) }
{
    match read_account(alloc, bytes_of(name.as_str())) {
        Ok(_account) => Ok(true),
        Err(ReadFault::Memory) => Err(Memory),
        Err(ReadFault::Read(_fault)) => Ok(false),
    }
}

/// Whether a name that is written as the account of a real posting reads back as that account.
pub(crate) fn reads_back(alloc: Global, context: &Context, name: &Text) -> Result<bool, Memory>
    ensures { IfOk result (λ back. back ≡ spec.reads_back context.now name.now) }
{
    if !stands_whole(alloc, name)? {
        return Ok(false);
    }
    let line = in_posting(alloc, name)?;
    begins_plain(alloc, context, name, bytes_of(line.as_str()))
}
