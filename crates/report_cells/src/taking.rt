//! What postings bring to a report.
use hl_base::Text;
use hl_num::Dec;
use hl_time::Day;
use std::marker::Model;

/// A value in a symbol. Contracts see the symbol with the value.
#[derive(Drop)]
pub struct Share<'a> {
    pub symbol: &'a Text,
    pub value: Dec,
}

impl<'a> Model for Share<'a> {
    ghost use Rattle.std.specs.Prelude.{List, ℕ};
    ghost use Rattle.hl_num.specs.Decimal.{Decimal};

    ghost Value = { List ℕ × Decimal };

    ghost view = { λ s. (s.symbol.now, s.value) };
}

/// What a posting brings to a report: its account as it is shown, its day, and its amount, if it has one. Contracts
/// see a `Taken`.
#[derive(Drop)]
pub struct Taking<'a> {
    pub account: &'a str,
    pub day: Day,
    pub amount: Option<Share<'a>>,
}

impl<'a> Model for Taking<'a> {
    ghost use Rattle.report_cells.specs.Taken.{Taken};

    ghost Value = { Taken };

    ghost view = { λ t. record { account = t.account.now; day = t.day.0; amount = t.amount } };
}
