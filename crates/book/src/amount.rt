//! Amounts as they are written, with their costs and assertions.
ghost use Rattle.std.specs.Prelude.{◌≡◌};
ghost use Rattle.book.specs.Style.{cost_amount};

use hl_base::Text;
use hl_num::Dec;

/// How an amount is written: the side and spacing of its symbol, its decimal mark and group mark if it has
/// them, and the sizes of its rightmost group and of the groups left of that.
#[derive(Clone, Copy, Debug, PartialEq, Eq)]
pub struct Written {
    pub left: bool,
    pub spaced: bool,
    pub mark: Option<u8>,
    pub group: Option<u8>,
    pub first: u8,
    pub rest: u8,
}

/// A quantity of a symbol, as it is written. The number stands first, since it begins at each sixteenth byte.
#[derive(Debug, Drop)]
pub struct Amount {
    pub value: Dec,
    pub symbol: Text,
    pub shape: Written,
}

/// The cost of an amount: of one unit of it, or of all of it.
#[derive(Debug, Drop)]
pub enum Cost {
    Unit(Amount),
    Total(Amount),
}

impl Cost {
    /// The amount that a cost is written with.
    pub fn amount(&self) -> &Amount
        ensures { result.now ≡ cost_amount self.now }
    {
        match self {
            Cost::Unit(amount) => amount,
            Cost::Total(amount) => amount,
        }
    }
}

/// What a balance is claimed to be: of the amount's symbol, or with `only` of every symbol; of the account, or
/// with `below` of the accounts below it too.
#[derive(Debug, Drop)]
pub struct Assertion {
    pub amount: Amount,
    pub only: bool,
    pub below: bool,
}
