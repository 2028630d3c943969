//! The first name of a book that isn't declared and has to be.
ghost use Rattle.std.specs.Prelude.{◌≡◌};
ghost use Rattle.std.specs.List.{find, flat_map};
ghost use Rattle.std.specs.Option.{option_copied, option_map, option_to_list};
ghost use Rattle.book_care.specs.Uses as spec;

use crate::declarations::Declared;
use crate::faults::Check;
use book::{Amount, Posting, Tag, Txn};
use hl_base::Text;
use query::payee_of;
use std::marker::Model;

/// A name that is used in a line. Contracts see both.
#[derive(Drop)]
pub(crate) struct Use<'a> {
    line: u64,
    name: &'a str,
}

impl<'a> Model for Use<'a> {
    ghost use Rattle.std.specs.Prelude.{List, ℕ};

    ghost Value = { ℕ × List ℕ };

    ghost view = { λ u. (u.line, u.name.now) };
}

impl<'a> Use<'a> {
    ghost use Rattle.std.specs.Prelude.{◌≡◌};

    pub(crate) fn line(&self) -> u64
        ensures { result ≡ self.now.0 }
    {
        self.line
    }

    pub(crate) fn name(&self) -> &'a str
        ensures { result.now ≡ self.now.1 }
    {
        self.name
    }
}

/// The symbol of a posting's amount, where that is written.
fn amount_symbol(posting: &Posting) -> Option<&Text>
    ensures { option_copied result ≡ spec.amount_symbol posting.now }
{
    if posting.filled {
        return None;
    }
    match &posting.amount {
        Some(amount) => Some(&amount.symbol),
        None => None,
    }
}

/// The symbol of a posting's cost, where that is written.
fn cost_symbol(posting: &Posting) -> Option<&Text>
    ensures { option_copied result ≡ spec.cost_symbol posting.now }
{
    if posting.costed {
        return None;
    }
    match &posting.cost {
        Some(cost) => Some(&cost.get().amount().symbol),
        None => None,
    }
}

/// The symbol of a posting's assertion.
fn wanted_symbol(posting: &Posting) -> Option<&Text>
    ensures { option_copied result ≡ spec.wanted_symbol posting.now }
{
    match &posting.wanted {
        Some(wanted) => Some(&wanted.get().amount.symbol),
        None => None,
    }
}

/// A name, where it is there and lacks its declaration.
fn lacking<'a>(declared: &Declared, name: Option<&'a Text>) -> Option<&'a str>
    ensures { option_copied result
        ≡ find (spec.lacks declared.now) (option_to_list (option_copied name.entry)) }
{
    match name {
        Some(name) => {
            if declared.lacks(name.as_str()) {
                Some(name.as_str())
            } else {
                None
            }
        }
        None => None,
    }
}

/// The first symbol of a posting that lacks its declaration.
#[tactic(auto, using(crate::proofs::Loops::symbols_first, crate::proofs::Loops::symbols_second, crate::proofs::Loops::symbols_third))]
fn symbol_lacking<'a>(declared: &Declared, posting: &'a Posting) -> Option<&'a str>
    ensures { option_copied result ≡ find (spec.lacks declared.now) (spec.symbols_in posting.now) }
{
    if let Some(symbol) = lacking(declared, amount_symbol(posting)) {
        return Some(symbol);
    }
    if let Some(symbol) = lacking(declared, cost_symbol(posting)) {
        return Some(symbol);
    }
    lacking(declared, wanted_symbol(posting))
}

/// The first of some tags that lacks its declaration.
#[tactic(auto, using(crate::proofs::Loops::tag_here, crate::proofs::Loops::tag_more, crate::proofs::Loops::tag_none))]
fn tag_lacking<'a>(declared: &Declared, tags: &'a [Tag]) -> Option<&'a str>
    ensures { option_copied result ≡ find (spec.lacks declared.now) (spec.tag_names tags.now) }
{
    for tag in tags {
        if declared.lacks(tag.name.as_str()) {
            return Some(tag.name.as_str());
        }
    }
    None
}

/// The first name of a posting that lacks its declaration.
fn posting_lacking<'a>(declared: &Declared, posting: &'a Posting) -> Option<&'a str>
    ensures { option_copied result
        ≡ find (spec.lacks declared.now) (spec.posting_names declared.now.check posting.now) }
{
    match declared.check {
        Check::Accounts => lacking(declared, Some(&posting.account)),
        Check::Commodities => symbol_lacking(declared, posting),
        Check::Tags => tag_lacking(declared, posting.tags.as_slice()),
        Check::Payees | Check::OrderedDates => None,
    }
}

/// The first name in the head of a transaction that lacks its declaration.
fn head_lacking<'a>(declared: &Declared, txn: &'a Txn) -> Option<&'a str>
    ensures { option_copied result
        ≡ find (spec.lacks declared.now) (spec.head_names declared.now.check txn.now) }
{
    match declared.check {
        Check::Payees => {
            let payee = payee_of(&txn.description);
            if declared.lacks(payee) {
                Some(payee)
            } else {
                None
            }
        }
        Check::Tags => tag_lacking(declared, txn.tags.as_slice()),
        Check::Accounts | Check::Commodities | Check::OrderedDates => None,
    }
}

/// A name in a line, where there is one.
fn in_line<'a>(line: u64, name: Option<&'a str>) -> Option<Use<'a>>
    ensures { result ≡ option_map (λ name. (line, name)) (option_copied name.entry) }
{
    match name {
        Some(name) => Some(Use { line, name }),
        None => None,
    }
}

/// The first name of a posting that lacks its declaration, in its line.
fn posting_use<'a>(declared: &Declared, posting: &'a Posting) -> Option<Use<'a>>
    ensures { result ≡ find (spec.is_lacking declared.now)
        (spec.posting_uses declared.now.check posting.now) }
{
    in_line(posting.line, posting_lacking(declared, posting))
}

/// The first name in the head of a transaction that lacks its declaration, in its line.
fn head_use<'a>(declared: &Declared, txn: &'a Txn) -> Option<Use<'a>>
    ensures { result ≡ find (spec.is_lacking declared.now)
        (spec.in_line txn.now.line (spec.head_names declared.now.check txn.now)) }
{
    in_line(txn.line, head_lacking(declared, txn))
}

/// The first name of some postings that lacks its declaration.
#[tactic(auto, using(crate::proofs::Loops::posting_here, crate::proofs::Loops::posting_more, crate::proofs::Loops::posting_none))]
fn postings_use<'a>(declared: &Declared, postings: &'a [Posting]) -> Option<Use<'a>>
    ensures { result ≡ find (spec.is_lacking declared.now)
        (flat_map (spec.posting_uses declared.now.check) postings.now) }
{
    for posting in postings {
        if let Some(found) = posting_use(declared, posting) {
            return Some(found);
        }
    }
    None
}

/// The first name of a transaction that lacks its declaration.
#[tactic(auto, using(crate::proofs::Loops::uses_first, crate::proofs::Loops::uses_second))]
fn txn_use<'a>(declared: &Declared, txn: &'a Txn) -> Option<Use<'a>>
    ensures { result ≡ find (spec.is_lacking declared.now)
        (spec.uses_in declared.now.check txn.now) }
{
    if let Some(found) = head_use(declared, txn) {
        return Some(found);
    }
    postings_use(declared, txn.postings.as_slice())
}

/// The first name of some transactions that lacks its declaration.
#[tactic(auto, using(crate::proofs::Loops::txn_here, crate::proofs::Loops::txn_more, crate::proofs::Loops::txn_none))]
pub(crate) fn first_lacking<'a>(declared: &Declared, txns: &'a [Txn]) -> Option<Use<'a>>
    ensures { result ≡ find (spec.is_lacking declared.now)
        (spec.uses_of declared.now.check txns.now) }
{
    for txn in txns {
        if let Some(found) = txn_use(declared, txn) {
            return Some(found);
        }
    }
    None
}
