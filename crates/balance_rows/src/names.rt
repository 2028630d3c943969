//! How accounts are shown.
ghost use Rattle.std.specs.Prelude.{◌≡◌, ◌==◌, ◌++◌, ◌*◌, IfOk, OnOk, drop, replicate};
ghost use Rattle.std.specs.Str.{IsCharBoundary, IsUtf8};
ghost use Rattle.std.specs.String.{string_bytes};
ghost use Rattle.hl_base.specs.Ascii.{colon, space};
ghost use Rattle.balance_rows.specs.Layouts.{name_in};
ghost use Rattle.balance_rows.specs.Trees.{indented, last_part, level};

use crate::layout::Order;
use hl_base::{Memory, Text};
use std::alloc::Global;

/// An account's name as it is shown: in a tree its last part, after two spaces for each level.
pub fn name_of(alloc: Global, account: &Text, order: Order) -> Result<Text, Memory>
    ensures { IfOk result (λ name. name ≡ name_in order account.now) }
{
    match order {
        Order::Accounts => Text::copied(alloc, account.as_str()),
        Order::Amounts => Text::copied(alloc, account.as_str()),
        Order::Tree => indented(alloc, account.as_str()),
    }
}

/// The last part of an account, after two spaces for each level.
fn indented(alloc: Global, account: &str) -> Result<Text, Memory>
    ensures { IfOk result (λ name. name ≡ indented account.now) }
{
    let mut name = String::new(alloc);
    push_spaces(&mut name, level(account))?;
    name.push_str(last_part(account))?;
    Ok(Text::from_string(name))
}

/// Appends two spaces a number of times.
fn push_spaces(name: &mut String, count: usize) -> Result<(), Memory>
    ensures { OnOk result (string_bytes name.new ≡ string_bytes name.old
        ++ replicate (2 * count) space) }
{
    for _pushed in 0..count {
        name.push_str("  ")?;
    }
    Ok(())
}

/// How many accounts lie above one: as many as there are colons.
fn level(account: &str) -> usize
    ensures { result ≡ level account.now }
{
    let mut levels = 0;
    for byte in account.as_bytes() {
        if *byte == b':' {
            levels += 1;
        }
    }
    levels
}

/// Whether a byte divides the parts of a name.
fn is_colon(byte: u8) -> bool
    ensures { result ≡ (byte == colon) }
{
    byte == b':'
}

/// Where the last part of a name begins: behind its last colon, or at its beginning.
fn last_begin(name: &[u8]) -> usize
    requires { IsUtf8 name.now }
    ensures place { drop result name.now ≡ last_part name.now }
    ensures boundary { IsCharBoundary name.now result }
{
    let mut start = name.len();
    while 0 < start {
        if is_colon(name[start - 1]) {
            return start;
        }
        start -= 1;
    }
    0
}

/// What is left of a text from a place on.
fn rest(text: &str, start: usize) -> &str
    requires { IsCharBoundary text.now start }
    ensures { result.now ≡ drop start text.now }
{
    &text[start..]
}

/// The last part of an account.
fn last_part(account: &str) -> &str
    ensures { result.now ≡ last_part account.now }
{
    rest(account, last_begin(account.as_bytes()))
}
