//! The text of a journal that is made of a row of numbers.
ghost use Rattle.std.specs.Prelude.{◌≡◌, ◌+◌, ◌*◌, ◌^◌, ◌<◌, ◌≤◌, ◌++◌, IfOk, OnOk};
ghost use Rattle.std.specs.Fmt.{decimal};
ghost use Rattle.sample_text.specs.Sample as spec;

use hl_base::{Bytes, Memory};
use hl_time::{Day, print_day};
use itoa::Buffer;
use std::alloc::Global;

/// The most entries that a sample may have.
pub const SAMPLE_LIMIT: u64 = 100_000;

/// The number behind another one.
#[tactic(auto, unfolding(crate::specs::Sample::next_number))]
pub(crate) fn next_number(number: u64) -> u64
    requires { number < 2 ^ 31 }
    ensures next { result ≡ spec.next_number number }
    ensures bound { result < 2 ^ 31 }
{
    (number * 1_103_515_245 + 12_345) % 2_147_483_648
}

/// What the entry of a number spends, in cents.
#[tactic(auto, unfolding(crate::specs::Sample::cents_of))]
pub(crate) fn cents_of(number: u64) -> u64
    ensures cents { result ≡ spec.cents_of number }
    ensures bound { result ≤ 100000 }
{
    1 + number / 10 % 100_000
}

/// The kind of its expense.
#[tactic(auto, unfolding(crate::specs::Sample::kind_of))]
pub(crate) fn kind_of(number: u64) -> u64
    ensures { result ≡ spec.kind_of number }
{
    number % 10
}

/// Puts a number in decimal.
pub(crate) fn push_decimal(out: &mut Vec<u8>, number: u64) -> Result<(), Memory>
    ensures { OnOk result (out.new.items ≡ out.old.items ++ decimal number) }
{
    let mut digits = Buffer::new();
    out.extend_from_slice(digits.format(number).as_bytes())?;
    Ok(())
}

/// Puts two digits.
fn push_two(out: &mut Vec<u8>, number: u8) -> Result<(), Memory>
    requires { number < 100 }
    ensures { OnOk result (out.new.items ≡ out.old.items ++ spec.two_digits number) }
{
    out.extend_from_slice(&[b'0' + number / 10, b'0' + number % 10])?;
    Ok(())
}

/// Puts cents, in euros.
#[tactic(auto, unfolding(crate::specs::Sample::money))]
fn push_money(out: &mut Vec<u8>, cents: u64) -> Result<(), Memory>
    ensures { OnOk result (out.new.items ≡ out.old.items ++ spec.money cents) }
{
    push_decimal(out, cents / 100)?;
    out.extend_from_slice(b".")?;
    push_two(out, (cents % 100) as u8)?;
    out.extend_from_slice(b" EUR")?;
    Ok(())
}

/// Puts the head of an entry: fifty entries stand on a day.
#[tactic(auto, unfolding(crate::specs::Sample::head_line))]
fn push_head(out: &mut Vec<u8>, at: u64) -> Result<(), Memory>
    requires { at < 100000 }
    ensures { OnOk result (out.new.items ≡ out.old.items ++ spec.head_line at) }
{
    let day = Day(738_886 + (at / 50) as u32);
    out.extend_from_slice(&print_day(day))?;
    out.extend_from_slice(b" sample ")?;
    push_decimal(out, at)?;
    out.extend_from_slice(b"\n")?;
    Ok(())
}

/// Puts the posting of an expense.
#[tactic(auto, unfolding(crate::specs::Sample::spending_line))]
fn push_spending(out: &mut Vec<u8>, number: u64) -> Result<(), Memory>
    ensures { OnOk result (out.new.items ≡ out.old.items ++ spec.spending_line number) }
{
    out.extend_from_slice(b"    expenses:e")?;
    push_decimal(out, kind_of(number))?;
    out.extend_from_slice(b"  ")?;
    push_money(out, cents_of(number))?;
    out.extend_from_slice(b"\n")?;
    Ok(())
}

/// Puts what leads to an amount below zero, and the amount.
pub(crate) fn push_negative(out: &mut Vec<u8>, lead: &[u8], cents: u64) -> Result<(), Memory>
    ensures { OnOk result (out.new.items ≡ out.old.items ++ (lead.now ++ spec.money cents)) }
{
    out.extend_from_slice(lead)?;
    push_money(out, cents)
}

/// Puts the posting of the bank with its amount and an assertion.
#[tactic(auto, unfolding(crate::specs::Sample::asserting_line))]
fn push_asserting(out: &mut Vec<u8>, cents: u64, spent: u64) -> Result<(), Memory>
    ensures { OnOk result (out.new.items ≡ out.old.items ++ spec.asserting_line cents spent) }
{
    push_negative(out, b"    assets:bank  -", cents)?;
    push_negative(out, b" = -", spent)?;
    out.extend_from_slice(b"\n")?;
    Ok(())
}

/// Puts the posting of the bank: in each hundredth entry with what the bank holds then.
#[tactic(auto, unfolding(crate::specs::Sample::paying_line))]
fn push_paying(out: &mut Vec<u8>, at: u64, cents: u64, spent: u64) -> Result<(), Memory>
    ensures { OnOk result (out.new.items ≡ out.old.items ++ spec.paying_line at cents spent) }
{
    if at % 100 == 99 {
        push_asserting(out, cents, spent)
    } else {
        out.extend_from_slice(b"    assets:bank\n")?;
        Ok(())
    }
}

/// Puts an entry.
#[tactic(auto, unfolding(crate::specs::Sample::entry))]
fn push_entry(out: &mut Vec<u8>, at: u64, number: u64, spent: u64) -> Result<(), Memory>
    requires { at < 100000 }
    ensures { OnOk result (out.new.items ≡ out.old.items ++ spec.entry at number spent) }
{
    push_head(out, at)?;
    push_spending(out, number)?;
    push_paying(out, at, cents_of(number), spent)
}

/// How many bytes most entries have, at most.
const USUAL_BYTES: usize = 72;

/// The sample journal of so many entries, at most 100,000: fifty a day from 2024-01-01 on, each an expense of one of ten
/// kinds that the bank pays, and in each hundredth an assertion of what the bank holds (docs/manual/stores.md).
pub fn sample_text(alloc: Global, count: u64) -> Result<Bytes, Memory>
    requires { count ≤ 100000 }
    ensures { IfOk result (λ text. text ≡ spec.sample_text count) }
{
    let mut out = Vec::with_capacity(alloc, count as usize * USUAL_BYTES)?;
    let mut number = count;
    let mut spent: u64 = 0;
    for at in 0..count {
        number = next_number(number);
        spent += cents_of(number);
        push_entry(&mut out, at, number, spent)?;
    }
    Ok(Bytes::from_vec(out))
}
