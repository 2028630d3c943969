//! What a line of a log says, and the parts that both forms have.
ghost use Rattle.std.specs.Prelude.{◌≡◌, true, IfOk, IfSome};
ghost use Rattle.std.specs.Option.{option_copied};
ghost use Rattle.std.specs.Str.{is_utf8};
ghost use Rattle.time_logs.specs.Said as spec;

use book::Side;
use entry_reader::account::cut_account;
use entry_reader::scan::{before, before_white, begins, trimmed};
use entry_reader::{ReadFault, read_account};
use hl_base::{Memory, Text};
use std::alloc::Global;

/// What a line says: what stands before a `;`, without the white space at its end.
pub fn said(content: &[u8]) -> &[u8]
    ensures value { result.now ≡ spec.said content.now }
    ensures utf8 { is_utf8 content.now ≡ true → is_utf8 result.now ≡ true }
{
    before_white(before(content, b';'))
}

/// The account that a text is, as that of a real posting.
#[tactic(auto, unfolding(crate::specs::Said::account_said))]
pub fn read_real_account(alloc: Global, text: &[u8]) -> Result<Option<Text>, Memory>
    requires { is_utf8 text.now ≡ true }
    ensures { IfOk result (λ account. account ≡ spec.account_said text.now) }
{
    match read_account(alloc, text) {
        Ok((Side::Real, account)) => Ok(Some(account)),
        Ok(_) => Ok(None),
        Err(ReadFault::Read(_)) => Ok(None),
        Err(ReadFault::Memory) => Err(Memory),
    }
}

/// The account that stands at the front of a text, and what follows it.
pub fn account_and_rest(text: &[u8]) -> (&[u8], &[u8])
    requires { is_utf8 text.now ≡ true }
    ensures account { result.0.now ≡ spec.account_front text.now }
    ensures rest { result.1.now ≡ spec.after_account text.now }
    ensures utf8 { (is_utf8 result.0.now ≡ true) × (is_utf8 result.1.now ≡ true) }
{
    cut_account(text)
}

/// Whether two spaces stand first.
pub fn begins_gap(text: &[u8]) -> bool
    ensures { result ≡ spec.begins_gap text.now }
{
    match text {
        [first, second, ..] => *first == b' ' && *second == b' ',
        _ => false,
    }
}

/// The description that a text is, where it may stand in the first line of an entry.
#[tactic(auto, unfolding(crate::specs::Said::description_said))]
pub fn description_said(text: &[u8]) -> Option<&[u8]>
    requires { is_utf8 text.now ≡ true }
    ensures value { option_copied result ≡ spec.description_said text.now }
    ensures utf8 { IfSome result (λ description. is_utf8 description.now ≡ true) }
{
    let description = trimmed(text);
    if begins(description, b'(') || begins(description, b'!') || begins(description, b'*') {
        None
    } else {
        Some(description)
    }
}
