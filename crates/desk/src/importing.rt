//! How a machine answers imports: the entries of a file, and the edit that an import of them is.
ghost use Rattle.std.specs.Prelude.{◌≡◌, ◌++◌, ◌<◌, ◌^◌, ◌∷◌, true, None, IfOk, OnOk, length};
ghost use Rattle.std.specs.List.{flat_map};
ghost use Rattle.csv_rules.specs.Importing.{is_ordered};
ghost use Rattle.desk.specs.Files.{FileSo, rules_reply, convert_reply};
ghost use Rattle.desk.specs.Imports as spec;
ghost use Rattle.desk.specs.States as state;

use crate::csv_fault::CsvFault;
use crate::deed::Deed;
use crate::desk::Desk;
use crate::judging::covers;
use crate::reply::Reply;
use crate::request::{Allow, Request};
use crate::states::state_named;
use book::Txn;
use csv_entries::{ConvertFault, convert};
use csv_rules::{Rules, RulesFault, new_ones};
use entry_reader::{Context, context_behind};
use hl_base::{Bytes, Disk, Latest, List, Memory, Steps, Text};
use journal_printer::print_entry;
use live_journal::{Edit, Live};
use query::Maker;
use std::alloc::Global;
use std::sync::ledger::Ledger;

impl<D: Disk> Desk<D> {
    ghost use Rattle.std.specs.Prelude.{◌≡◌, ℕ, true, IfErr, IfOk};
    ghost use Rattle.csv_rules.specs.Importing.{is_ordered};
    ghost use Rattle.desk.specs.Desks.{Serves, counts_of, state_of};
    ghost use Rattle.desk.specs.DryRuns.{IsRefusal};
    ghost use Rattle.desk.specs.Files.{IsDeedOf, TellsDeed};
    ghost use Rattle.desk.specs.Imports.{entries_of as entries_told, new_deed};
    ghost use Rattle.desk.specs.Reading.{CountsSteps};
    ghost use Rattle.desk.specs.Steps.{TellsReply};

    /// Answers an import of a file by rules, whose state is remembered under a name.
    pub(crate) fn import<M: Maker, L: Ledger>(
        &mut self,
        alloc: Global,
        name: &Text,
        rules: &[u8],
        csv: &[u8],
        maker: &mut M,
        steps: &mut Steps<L>,
    ) -> Reply
        ensures maker { (day : ℕ) → TellsReply (Request.Import name.now rules.now csv.now) day
            (M.refusals maker.old) (M.refusals maker.new)
            (M.last_refused maker.old) (M.last_refused maker.new) result }
        ensures served { Serves (state.import_answer (state_of self.old) name.now rules.now csv.now)
            (state.deed_of_file (state_of self.old) name.now (entries_told rules.now csv.now))
            self.old result self.new }
        ensures counts { counts_of self.new ≡ counts_of self.old }
        ensures steps { CountsSteps self.old.live
            (state.deed_of_file (state_of self.old) name.now (entries_told rules.now csv.now))
            result
            steps.old steps.new }
    {
        match self.deed_in_file(alloc, name, rules, csv, maker) {
            Ok(deed) => self.put_deed(alloc, deed, steps),
            Err(reply) => reply,
        }
    }

    /// What an import of a file by rules puts in under a name, which is nothing where none of its entries is new; or the
    /// refusal, where it isn't allowed or the file becomes no entries.
    pub(crate) fn deed_in_file<M: Maker>(
        &self,
        alloc: Global,
        name: &Text,
        rules: &[u8],
        csv: &[u8],
        maker: &mut M,
    ) -> Result<Option<Deed>, Reply>
        ensures deed { IfOk result (IsDeedOf (state_of self.now) name.now
            (entries_told rules.now csv.now)) }
        ensures refusal { let s = state_of self.now in IfErr result
            (IsRefusal s (state.import_answer s name.now rules.now csv.now)) }
        ensures maker { (day : ℕ) → TellsDeed (Request.Import name.now rules.now csv.now) day
            (M.refusals maker.old) (M.refusals maker.new)
            (M.last_refused maker.old) (M.last_refused maker.new) result }
    {
        if !covers(self.allow, Allow::Add) {
            let have = self.allow;
            return Err(Reply::Forbidden {
                need: Allow::Add,
                have,
            });
        }
        match entries_of(alloc, rules, csv, maker) {
            Ok(txns) => self.deed_of(alloc, name, txns),
            Err(reply) => Err(reply),
        }
    }

    /// What an import of some entries puts in.
    fn deed_of(&self, alloc: Global, name: &Text, txns: List<Txn>) -> Result<Option<Deed>, Reply>
        requires { is_ordered txns ≡ true }
        ensures deed { IfOk result (λ deed. deed
            ≡ new_deed self.now.live.text self.now.latest name.now txns) }
        ensures memory { IfErr result (λ r. r ≡ Reply.Memory) }
    {
        if txns.len() as u64 >= 1 << 32 {
            return Err(Reply::Memory);
        }
        match import_deed(alloc, &self.live, self.latest.as_slice(), name, txns) {
            Ok(deed) => Ok(deed),
            Err(Memory) => Err(Reply::Memory),
        }
    }

    /// Puts in what an import is, unless none of its entries is new.
    fn put_deed<L: Ledger>(
        &mut self,
        alloc: Global,
        deed: Option<Deed>,
        steps: &mut Steps<L>,
    ) -> Reply
        ensures served { Serves (state.deed_answer (state_of self.old) deed) deed
            self.old result self.new }
        ensures counts { counts_of self.new ≡ counts_of self.old }
        ensures steps { CountsSteps self.old.live deed result steps.old steps.new }
    {
        match deed {
            Some(deed) => self.judge(alloc, Allow::Add, &deed, steps),
            None => {
                let revision = self.live.revision();
                Reply::Same { revision }
            }
        }
    }
}

/// The reply to an import whose rules don't read.
fn rules_reply(fault: RulesFault) -> Reply
    ensures { result ≡ rules_reply fault }
{
    match fault {
        RulesFault::Memory => Reply::Memory,
        RulesFault::BadRule { line } => Reply::Csv(CsvFault::Rules(RulesFault::BadRule { line })),
        RulesFault::PatternRefused { line } => Reply::Csv(CsvFault::Rules(
            RulesFault::PatternRefused { line },
        )),
    }
}

/// The reply to an import of which a record is refused.
fn convert_reply(fault: ConvertFault) -> Reply
    ensures { result ≡ convert_reply fault }
{
    match fault {
        ConvertFault::Memory => Reply::Memory,
        ConvertFault::BadRecord { n } => Reply::Csv(CsvFault::Convert(ConvertFault::BadRecord {
            n,
        })),
        ConvertFault::NoDate { n } => Reply::Csv(CsvFault::Convert(ConvertFault::NoDate { n })),
        ConvertFault::NoAmount { n } => Reply::Csv(CsvFault::Convert(ConvertFault::NoAmount { n })),
        ConvertFault::TwoAmounts { n } => Reply::Csv(CsvFault::Convert(ConvertFault::TwoAmounts {
            n,
        })),
        ConvertFault::CsvRefused { n } => Reply::Csv(CsvFault::Convert(ConvertFault::CsvRefused {
            n,
        })),
    }
}

/// The entries that a file becomes by rules, whose patterns the maker builds; or the reply that says why it becomes none.
fn entries_of<M: Maker>(
    alloc: Global,
    rules: &[u8],
    csv: &[u8],
    maker: &mut M,
) -> Result<List<Txn>, Reply>
    ensures file { FileSo rules.now csv.now (M.refusals maker.old) (M.refusals maker.new)
        (M.last_refused maker.old) (M.last_refused maker.new) result }
    ensures ordered { IfOk result (λ txns. is_ordered txns ≡ true) }
{
    let rules = match Rules::read(alloc, rules, maker) {
        Ok(rules) => rules,
        Err(fault) => return Err(rules_reply(fault)),
    };
    match convert(alloc, &rules, csv) {
        Ok(txns) => Ok(txns),
        Err(fault) => Err(convert_reply(fault)),
    }
}

/// Puts an entry as it is printed in a context behind other bytes.
fn push_entry(
    alloc: Global,
    bytes: &mut Vec<u8>,
    context: &Context,
    txn: &Txn,
) -> Result<(), Memory>
    ensures { OnOk result (bytes.new.items ≡ bytes.old.items
        ++ spec.entry_text context.now txn.now) }
{
    let text = print_entry(alloc, txn, context)?;
    bytes.extend_from_slice(text.as_slice())?;
    Ok(())
}

/// Puts further entries, each behind a blank line.
fn push_further(
    alloc: Global,
    bytes: &mut Vec<u8>,
    context: &Context,
    txns: &[Txn],
) -> Result<(), Memory>
    ensures { OnOk result (bytes.new.items
        ≡ bytes.old.items ++ flat_map (λ next. 10 ∷ spec.entry_text context.now next) txns.now) }
{
    for txn in txns {
        bytes.push(b'\n')?;
        push_entry(alloc, bytes, context, txn)?;
    }
    Ok(())
}

/// Entries as they are printed in a context, with a blank line between them.
fn entries_text(alloc: Global, context: &Context, txns: &[Txn]) -> Result<Bytes, Memory>
    ensures { IfOk result (λ bytes. bytes ≡ spec.entries_text context.now txns.now) }
{
    match txns.split_first() {
        None => Ok(Bytes::new(alloc)),
        Some((first, further)) => {
            let mut bytes = Vec::new(alloc);
            push_entry(alloc, &mut bytes, context, first)?;
            push_further(alloc, &mut bytes, context, further)?;
            Ok(Bytes::from_vec(bytes))
        }
    }
}

/// The edit that puts new entries behind a journal's text.
fn addition(
    alloc: Global,
    live: &Live,
    new: &[Txn],
    mark: Option<Latest>,
) -> Result<Option<Deed>, Memory>
    requires { live.now.year ≡ None }
    ensures { IfOk result (λ deed. deed ≡ spec.deed_for live.now.text new.now mark) }
{
    if new.is_empty() {
        return Ok(None);
    }
    let context = context_behind(alloc, None, live.items().as_slice())?;
    let entry = entries_text(alloc, &context, new)?;
    Ok(Some(Deed {
        edit: Edit::Add { entry },
        mark,
    }))
}

/// The edit that an import of some entries is under a name, unless none of them is new.
fn import_deed(
    alloc: Global,
    live: &Live,
    states: &[Latest],
    name: &Text,
    txns: List<Txn>,
) -> Result<Option<Deed>, Memory>
    requires year { live.now.year ≡ None }
    requires ordered { is_ordered txns ≡ true }
    requires few { length txns < 2 ^ 32 }
    ensures { IfOk result (λ deed. deed ≡ spec.new_deed live.now.text states.now name.now txns) }
{
    let (new, mark) = new_ones(alloc, state_named(states, name), name, txns)?;
    addition(alloc, live, new.as_slice(), mark)
}
