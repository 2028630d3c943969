//! The shapes in which amounts are shown.
ghost use Rattle.std.specs.Prelude.{◌≡◌};
ghost use Rattle.book.specs.declared.amount.Amount.{Amount};
ghost use Rattle.book.specs.declared.amount.Written.{Written};
ghost use Rattle.journal_printer.specs.Journal.{styled};

use book::{Amount, Styles, Written};

/// Says in which shape each amount is shown.
pub trait Shapes {
    ghost shape_of: { Self → Amount → Written };

    fn shape_of(&self, amount: &Amount) -> Written
        ensures { result ≡ shape_of self.now amount.now };
}

/// Each amount in the shape of its symbol's style.
impl Shapes for Styles {
    ghost shape_of = { λ styles. styled styles };

    fn shape_of(&self, amount: &Amount) -> Written {
        self.style(&amount.symbol).shape
    }
}
