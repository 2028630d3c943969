//! The line that is told of a sample.
ghost use Rattle.std.specs.Prelude.{◌≡◌, ◌+◌, ◌*◌, ◌<◌, ◌≤◌, ◌++◌, IfOk, OnOk};
ghost use Rattle.std.specs.Fmt.{decimal};
ghost use Rattle.sample_text.specs.Sample as spec;

use crate::sample::{cents_of, kind_of, next_number, push_decimal, push_negative};
use hl_base::{Bytes, Memory};
use std::alloc::Global;

/// What all entries of a sample spend, in cents.
fn spent_in(count: u64) -> u64
    requires { count ≤ 100000 }
    ensures { result ≡ spec.spent_by count count }
{
    let mut number = count;
    let mut spent: u64 = 0;
    for _at in 0..count {
        number = next_number(number);
        spent += cents_of(number);
    }
    spent
}

/// Whether a kind of expense stands in a sample.
fn is_used(count: u64, kind: u64) -> bool
    requires { count ≤ 100000 }
    ensures { result ≡ spec.is_used count kind count }
{
    let mut number = count;
    let mut used = false;
    for _at in 0..count {
        number = next_number(number);
        used = used || kind_of(number) == kind;
    }
    used
}

/// How many kinds of expenses stand in it.
fn kinds_used(count: u64) -> u64
    requires { count ≤ 100000 }
    ensures kinds { result ≡ spec.kinds_used count 10 }
    ensures bound { result ≤ 10 }
{
    let mut kinds: u64 = 0;
    for kind in 0..10 {
        if is_used(count, kind) {
            kinds += 1;
        }
    }
    kinds
}

/// Puts a word and a number behind it.
fn push_told(out: &mut Vec<u8>, word: &[u8], number: u64) -> Result<(), Memory>
    ensures { OnOk result (out.new.items ≡ out.old.items ++ (word.now ++ decimal number)) }
{
    out.extend_from_slice(word)?;
    push_decimal(out, number)
}

/// The line that is told of a sample of so many entries and bytes: with how many accounts it has and what the bank holds.
#[tactic(auto, unfolding(crate::specs::Sample::sample_line))]
pub fn sample_line(alloc: Global, count: u64, bytes: u64) -> Result<Bytes, Memory>
    requires { count ≤ 100000 }
    ensures { IfOk result (λ line. line ≡ spec.sample_line count bytes) }
{
    let mut out = Vec::new(alloc);
    push_told(&mut out, b"transactions ", count)?;
    push_told(&mut out, b", bytes ", bytes)?;
    push_told(&mut out, b", accounts ", 1 + kinds_used(count))?;
    push_negative(&mut out, b", bank -", spent_in(count))?;
    out.extend_from_slice(b"\n")?;
    Ok(Bytes::from_vec(out))
}
