//! The sums that the assignments of a transaction want, each asked for once.
ghost use Rattle.std.specs.Prelude.{◌≡◌, ◌≤◌, ◌+◌, ◌++◌, IfOk, OnOk};
ghost use Rattle.book.specs.SumsBefore.{OnlyAsked};
ghost use Rattle.entry_check.specs.Asked.{AreTold, IsAnswer, answered, assigned_by, assigned_of, is_to, key_of, key_to, keys_of, sums_told, wanted_of};
ghost use Rattle.entry_check.specs.Asking.{making, nodes_making, own_nodes};

use book::{Assertion, Posting, Sums};
use hl_base::{Memory, Steps, Text};
use hl_num::Dec;
use std::alloc::Global;
use std::marker::Model;
use std::sync::ledger::Ledger;

/// The sum of an account in a symbol, as it was told; with `below` that of its subaccounts too.
#[derive(Drop)]
pub(crate) struct Answer {
    account: Text,
    symbol: Text,
    below: bool,
    sum: Dec,
}

/// Sums before a transaction. What its assignments want was asked for once, and is kept from their making until they are
/// judged; any other sum is asked for when it is wanted. Contracts see the sums that are asked, and what is kept.
#[derive(Drop)]
pub(crate) struct AskedSums<'a, S: Sums> {
    sums: &'a S,
    answers: Vec<Answer>,
}

impl<'a, S: Sums> Model for AskedSums<'a, S> {
    ghost use Rattle.std.specs.Prelude.{List};
    ghost use Rattle.entry_check.specs.Asked.{AreTold, Key, keys_of, sums_told};

    ghost Value = { S × List Key };

    ghost view = { λ s. (s.sums.now, keys_of s.answers.items) };

    ghost invariant = { λ s. AreTold (sums_told (S.txns s.sums.now) (S.place s.sums.now)) s.answers.items };
}

impl<'a, S: Sums> AskedSums<'a, S> {
    ghost use Rattle.std.specs.Prelude.{◌≡◌, ◌≤◌, ◌+◌, IfOk, OnOk};
    ghost use Rattle.book.specs.SumsBefore.{OnlyAsked};
    ghost use Rattle.entry_check.specs.Asked.{assigned_by};
    ghost use Rattle.entry_check.specs.Asking.{nodes_making};

    /// Asks for the sums that the assignments among some postings want.
    pub(crate) fn ask<L: Ledger>(
        alloc: Global,
        sums: &'a S,
        postings: &[Posting],
        steps: &mut Steps<L>,
    ) -> Result<AskedSums<'a, S>, Memory>
        ensures sums { IfOk result (λ asked. asked.0 ≡ sums.now) }
        ensures kept { IfOk result (λ asked. asked.1 ≡ assigned_by postings.now) }
        ensures steps { OnlyAsked steps.old steps.new }
        ensures few { OnOk result (steps.new.nodes ≤ steps.old.nodes
            + nodes_making (S.asks sums.now) postings.now) }
    {
        let answers = ask_each(alloc, sums, postings, steps)?;
        Ok(AskedSums { sums, answers })
    }
}

impl<'a, S: Sums> Sums for AskedSums<'a, S> {
    ghost use Rattle.entry_check.specs.Asked.{asks_on};

    ghost txns = { λ s. S.txns s.0 };

    ghost place = { λ s. S.place s.0 };

    ghost asks = { λ s. asks_on (S.asks s.0) s.1 };

    ghost asks_other = { λ s. S.asks_other s.0 };

    fn before<L: Ledger>(
        &self,
        account: &Text,
        symbol: &Text,
        below: bool,
        steps: &mut Steps<L>,
    ) -> Dec {
        match answered(self.answers.as_slice(), account, symbol, below) {
            Some(sum) => sum,
            None => self.sums.before(account, symbol, below, steps),
        }
    }

    fn other<L: Ledger>(
        &self,
        account: &Text,
        symbol: &Text,
        below: bool,
        steps: &mut Steps<L>,
    ) -> Option<&Text> {
        self.sums.other(account, symbol, below, steps)
    }
}

/// The first answer to what is asked, if one is kept.
fn answered(answers: &[Answer], account: &Text, symbol: &Text, below: bool) -> Option<Dec>
    ensures { result ≡ answered account.now symbol.now below answers.now }
{
    for answer in answers {
        if is_to(answer, account, symbol, below) {
            return Some(answer.sum);
        }
    }
    None
}

/// Whether an answer is to what is asked.
fn is_to(answer: &Answer, account: &Text, symbol: &Text, below: bool) -> bool
    ensures { result ≡ is_to account.now symbol.now below answer.now }
{
    answer.below == below
        && answer.symbol.as_bytes() == symbol.as_bytes()
        && answer.account.as_bytes() == account.as_bytes()
}

/// The answers to what the assignments among some postings want.
fn ask_each<S: Sums, L: Ledger>(
    alloc: Global,
    sums: &S,
    postings: &[Posting],
    steps: &mut Steps<L>,
) -> Result<Vec<Answer>, Memory>
    ensures told { IfOk result (λ answers.
        AreTold (sums_told (S.txns sums.now) (S.place sums.now)) answers.items) }
    ensures keys { IfOk result (λ answers. keys_of answers.items ≡ assigned_by postings.now) }
    ensures steps { OnlyAsked steps.old steps.new }
    ensures few { OnOk result (steps.new.nodes ≤ steps.old.nodes
        + nodes_making (S.asks sums.now) postings.now) }
{
    let mut answers = Vec::new(alloc);
    for posting in postings {
        ask_next(alloc, &mut answers, sums, posting, steps)?;
    }
    Ok(answers)
}

/// Adds the answer to what a posting wants that is an assignment.
fn ask_next<S: Sums, L: Ledger>(
    alloc: Global,
    answers: &mut Vec<Answer>,
    sums: &S,
    posting: &Posting,
    steps: &mut Steps<L>,
) -> Result<(), Memory>
    ensures told { OnOk result (AreTold (sums_told (S.txns sums.now) (S.place sums.now))
        answers.old.items
        → AreTold (sums_told (S.txns sums.now) (S.place sums.now)) answers.new.items) }
    ensures keys { OnOk result (keys_of answers.new.items ≡ keys_of answers.old.items
        ++ assigned_of posting.now) }
    ensures steps { OnlyAsked steps.old steps.new }
    ensures few { OnOk result (steps.new.nodes ≤ steps.old.nodes
        + making (S.asks sums.now) posting.now) }
{
    if posting.amount.is_some() {
        return Ok(());
    }
    ask_wanted(alloc, answers, sums, posting, steps)
}

/// Adds the answer to what a posting wants, if it wants anything.
fn ask_wanted<S: Sums, L: Ledger>(
    alloc: Global,
    answers: &mut Vec<Answer>,
    sums: &S,
    posting: &Posting,
    steps: &mut Steps<L>,
) -> Result<(), Memory>
    ensures told { OnOk result (AreTold (sums_told (S.txns sums.now) (S.place sums.now))
        answers.old.items
        → AreTold (sums_told (S.txns sums.now) (S.place sums.now)) answers.new.items) }
    ensures keys { OnOk result (keys_of answers.new.items
        ≡ keys_of answers.old.items ++ wanted_of posting.now.account posting.now.wanted) }
    ensures steps { OnlyAsked steps.old steps.new }
    ensures few { OnOk result (steps.new.nodes ≤ steps.old.nodes
        + own_nodes (S.asks sums.now) posting.now.account posting.now.wanted) }
{
    match &posting.wanted {
        Some(wanted) => {
            let answer = ask_one(alloc, sums, &posting.account, wanted.get(), steps)?;
            answers.push(answer)?;
            Ok(())
        }
        None => Ok(()),
    }
}

/// The answer to what an assertion or assignment of an account wants.
fn ask_one<S: Sums, L: Ledger>(
    alloc: Global,
    sums: &S,
    account: &Text,
    wanted: &Assertion,
    steps: &mut Steps<L>,
) -> Result<Answer, Memory>
    ensures told { IfOk result (λ answer.
        IsAnswer (sums_told (S.txns sums.now) (S.place sums.now)) answer) }
    ensures key { IfOk result (λ answer. key_of answer ≡ key_to account.now wanted.now) }
    ensures steps { OnlyAsked steps.old steps.new }
    ensures few { OnOk result (steps.new.nodes ≤ steps.old.nodes
        + S.asks sums.now account.now wanted.now.amount.symbol wanted.now.below) }
{
    let symbol = &wanted.amount.symbol;
    let sum = sums.before(account, symbol, wanted.below, steps);
    Ok(Answer {
        account: Text::copied(alloc, account.as_str())?,
        symbol: Text::copied(alloc, symbol.as_str())?,
        below: wanted.below,
        sum,
    })
}
