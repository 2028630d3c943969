//! The columns of the postings of a transaction.
ghost use Rattle.std.specs.Prelude.{◌≡◌, map};
ghost use Rattle.journal_printer.specs.Columns.{widest};
ghost use Rattle.journal_printer.specs.Layout as spec;

use crate::fields::Fields;

/// The columns of accounts and of amounts.
#[derive(Clone, Copy, Debug, PartialEq, Eq)]
pub struct Widths {
    pub account: usize,
    pub amount: usize,
}

/// The columns of the widest account, and of the widest amount, of some postings.
pub fn widths_of(fields: &[Fields]) -> Widths
    ensures { result ≡ spec.widths_of fields.now }
{
    Widths {
        account: widest_account(fields),
        amount: widest_amount(fields),
    }
}

/// The columns of the widest account.
#[tactic(auto, using(crate::proofs::Widest::widest_next))]
fn widest_account(fields: &[Fields]) -> usize
    ensures { result ≡ widest (map (λ f. f.account) fields.now) }
{
    let mut columns = 0;
    for posting in fields {
        columns = posting.account().columns().max(columns);
    }
    columns
}

/// The columns of the widest amount.
#[tactic(auto, using(crate::proofs::Widest::widest_next))]
fn widest_amount(fields: &[Fields]) -> usize
    ensures { result ≡ widest (map (λ f. f.amount) fields.now) }
{
    let mut columns = 0;
    for posting in fields {
        columns = posting.amount().columns().max(columns);
    }
    columns
}
