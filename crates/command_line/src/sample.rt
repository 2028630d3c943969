//! A sample, which is loaded and told.
ghost use Rattle.std.specs.Prelude.{◌≡◌, ◌≤◌, IfErr, length};
ghost use Rattle.sample_text.specs.Sample as sample;
ghost use Rattle.command_line.specs.Samples as spec;
ghost use Rattle.command_line.specs.StoreTasks.{IsOfStored};

use crate::store_tasks::refuse_journal;
use hl_base::{Bytes, Memory, Steps, Text};
use refusals::Refusal;
use sample_text::{sample_line, sample_text};
use std::alloc::Global;
use std::sync::ledger::Ledger;
use std::thread::Threads;
use talk_commands::judge_text;

/// What is said of a sample whose text has so many bytes, and loads.
fn sample_said(alloc: Global, count: u64, bytes: u64) -> Result<Bytes, Refusal>
    requires { count ≤ 100000 }
    ensures told { spec.ToldLine (sample.sample_line count bytes) result }
    ensures kind { IfErr result IsOfStored }
{
    match sample_line(alloc, count, bytes) {
        Ok(line) => Ok(line),
        Err(Memory) => Err(Refusal::Memory),
    }
}

/// What is said of a sample of this text.
fn judge_sample<R: Threads + Sync, L: Ledger>(
    rt: &R,
    alloc: Global,
    count: u64,
    text: &[u8],
    steps: &mut Steps<L>,
) -> Result<Bytes, Refusal>
    requires few { count ≤ 100000 }
    requires text { text.now ≡ sample.sample_text count }
    ensures told { spec.ToldSample (spec.sample_answer count) result }
    ensures kind { IfErr result IsOfStored }
{
    match judge_text(rt, alloc, text, steps) {
        Ok(()) => sample_said(alloc, count, text.len() as u64),
        Err(refusal) => Err(refuse_journal(alloc, &Text::new(alloc), &refusal)),
    }
}

/// What is said of a sample of so many entries, after its text was loaded.
pub(crate) fn answer_sample<R: Threads + Sync, L: Ledger>(
    rt: &R,
    alloc: Global,
    count: u64,
    steps: &mut Steps<L>,
) -> Result<Bytes, Refusal>
    requires { count ≤ 100000 }
    ensures told { spec.ToldSample (spec.sample_answer count) result }
    ensures kind { IfErr result IsOfStored }
{
    match sample_text(alloc, count) {
        Ok(text) => judge_sample(rt, alloc, count, text.as_slice(), steps),
        Err(Memory) => Err(Refusal::Memory),
    }
}
