//! The line of each cause.
ghost use Rattle.std.specs.Prelude.{◌≡◌, IfOk};
ghost use Rattle.error_lines.specs.Lines as spec;

use crate::writing::{around_number, line, two_numbers, two_texts, with_number, with_text};
use hl_base::{Bytes, Memory};
use std::alloc::Global;

/// A word that has no place, or no word where one is needed.
pub fn usage(alloc: Global, word: &str) -> Result<Bytes, Memory>
    ensures { IfOk result (λ line. line ≡ spec.usage word.now) }
{
    if word.is_empty() {
        return line(alloc, "error: usage");
    }
    with_text(alloc, "error: usage: ", word)
}

/// Two words that exclude each other.
pub fn conflict(alloc: Global, a: &str, b: &str) -> Result<Bytes, Memory>
    ensures { IfOk result (λ line. line ≡ spec.conflict a.now b.now) }
{
    two_texts(alloc, "error: usage: ", a, " with ", b)
}

/// A word that is no term of a query.
pub fn bad_term(alloc: Global, word: &str) -> Result<Bytes, Memory>
    ensures { IfOk result (λ line. line ≡ spec.bad_term word.now) }
{
    with_text(alloc, "error: term: ", word)
}

/// A word with a pattern that isn't built.
pub fn refused_pattern(alloc: Global, word: &str) -> Result<Bytes, Memory>
    ensures { IfOk result (λ line. line ≡ spec.refused_pattern word.now) }
{
    with_text(alloc, "error: pattern: ", word)
}

/// The line of a rule that doesn't read.
pub fn bad_rule(alloc: Global, at: u64) -> Result<Bytes, Memory>
    ensures { IfOk result (λ line. line ≡ spec.bad_rule at) }
{
    with_number(alloc, "error: rule line ", at)
}

/// The line of a rule with a pattern that isn't built.
pub fn refused_rule_pattern(alloc: Global, at: u64) -> Result<Bytes, Memory>
    ensures { IfOk result (λ line. line ≡ spec.refused_rule_pattern at) }
{
    with_number(alloc, "error: rule pattern line ", at)
}

/// A symbol whose amounts are out of range.
pub fn out_of_range(alloc: Global, symbol: &str) -> Result<Bytes, Memory>
    ensures { IfOk result (λ line. line ≡ spec.out_of_range symbol.now) }
{
    with_text(alloc, "error: range: ", symbol)
}

/// A count past its limit.
pub fn past_limit(alloc: Global, count: u64, limit: u64) -> Result<Bytes, Memory>
    ensures { IfOk result (λ line. line ≡ spec.past_limit count limit) }
{
    two_numbers(alloc, "error: limit: ", count, " of ", limit)
}

/// A store without room.
pub fn full(alloc: Global, size: u64, limit: u64) -> Result<Bytes, Memory>
    ensures { IfOk result (λ line. line ≡ spec.full size limit) }
{
    two_numbers(alloc, "error: full: ", size, " of ", limit)
}

/// A name under which there is no file.
pub fn absent(alloc: Global, name: &str) -> Result<Bytes, Memory>
    ensures { IfOk result (λ line. line ≡ spec.absent name.now) }
{
    with_text(alloc, "error: absent: ", name)
}

/// The first byte by which a file is no store.
pub fn not_a_store(alloc: Global, at: u64) -> Result<Bytes, Memory>
    ensures { IfOk result (λ line. line ≡ spec.not_a_store at) }
{
    with_number(alloc, "error: not a store: ", at)
}

/// The edition of a store that is too new.
pub fn newer(alloc: Global, version: u64) -> Result<Bytes, Memory>
    ensures { IfOk result (λ line. line ≡ spec.newer version) }
{
    with_number(alloc, "error: newer: ", version)
}

/// How long the file is where a store was to be made.
pub fn exists(alloc: Global, length: u64) -> Result<Bytes, Memory>
    ensures { IfOk result (λ line. line ≡ spec.exists length) }
{
    with_number(alloc, "error: exists: ", length)
}

/// A read that failed.
pub fn read_fault(alloc: Global) -> Result<Bytes, Memory>
    ensures { IfOk result (λ line. line ≡ spec.read_fault) }
{
    line(alloc, "error: read fault")
}

/// A call of a disk that failed.
pub fn disk_fault(alloc: Global) -> Result<Bytes, Memory>
    ensures { IfOk result (λ line. line ≡ spec.disk_fault) }
{
    line(alloc, "error: disk fault")
}

/// A call of a door that failed.
pub fn door_fault(alloc: Global) -> Result<Bytes, Memory>
    ensures { IfOk result (λ line. line ≡ spec.door_fault) }
{
    line(alloc, "error: door fault")
}

/// Want of memory.
pub fn memory(alloc: Global) -> Result<Bytes, Memory>
    ensures { IfOk result (λ line. line ≡ spec.memory) }
{
    line(alloc, "error: memory")
}

/// An edit that needs more than is allowed, as the words of `--allow` say both.
pub fn forbidden(alloc: Global, need: &str, have: &str) -> Result<Bytes, Memory>
    ensures { IfOk result (λ line. line ≡ spec.forbidden need.now have.now) }
{
    two_texts(alloc, "error: forbidden: need ", need, ", have ", have)
}

/// An edit of a text that has changed since.
pub fn stale(alloc: Global, base: u64, current: u64) -> Result<Bytes, Memory>
    ensures { IfOk result (λ line. line ≡ spec.stale base current) }
{
    two_numbers(alloc, "error: stale: base ", base, ", current ", current)
}

/// An edit of a text that there hasn't been.
pub fn bad_base(alloc: Global, base: u64, current: u64) -> Result<Bytes, Memory>
    ensures { IfOk result (λ line. line ≡ spec.bad_base base current) }
{
    two_numbers(alloc, "error: bad base: base ", base, ", current ", current)
}

/// A number of an item past their count.
pub fn no_item(alloc: Global, number: u64, count: u64) -> Result<Bytes, Memory>
    ensures { IfOk result (λ line. line ≡ spec.no_item number count) }
{
    two_numbers(alloc, "error: no item ", number, " of ", count)
}

/// The line of an addition that is no transaction.
pub fn not_transactions(alloc: Global, at: u64) -> Result<Bytes, Memory>
    ensures { IfOk result (λ line. line ≡ spec.not_transactions at) }
{
    around_number(alloc, "error: entry line ", at, ": not a transaction")
}

/// A record of a bank file that makes no entry, and why.
pub fn bad_record(alloc: Global, number: u64, why: &str) -> Result<Bytes, Memory>
    ensures { IfOk result (λ line. line ≡ spec.bad_record number why.now) }
{
    around_number(alloc, "error: record ", number, why)
}

/// A kind of frame that no record has.
pub fn frame_kind(alloc: Global, kind: u64) -> Result<Bytes, Memory>
    ensures { IfOk result (λ line. line ≡ spec.frame_kind kind) }
{
    with_number(alloc, "error: frame: kind ", kind)
}

/// Why a frame isn't taken.
pub fn frame(alloc: Global, why: &str) -> Result<Bytes, Memory>
    ensures { IfOk result (λ line. line ≡ spec.frame why.now) }
{
    with_text(alloc, "error: frame: ", why)
}

/// What is wrong in a line of a time log.
pub fn in_log(alloc: Global, at: u64, why: &str) -> Result<Bytes, Memory>
    ensures { IfOk result (λ line. line ≡ spec.in_log at why.now) }
{
    around_number(alloc, "error: log line ", at, why)
}
