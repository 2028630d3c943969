//! Rates: fractions in lowest terms.
ghost use Rattle.std.specs.Prelude.{◌≡◌, ◌<◌, unsigned_abs};

use std::marker::Model;

/// What one unit is worth: `num / den` in lowest terms, with `den` above 0.
#[derive(Clone, Copy, Debug, PartialEq, Eq)]
pub struct Rate {
    pub num: i128,
    pub den: i128,
}

impl Model for Rate {
    ghost use Rattle.std.specs.Prelude.{◌<ℤ◌, pos};
    ghost use Rattle.prices.specs.Fraction.{Fraction};

    ghost Value = { Fraction };

    ghost view = { λ r. record { num = r.num; den = r.den } };

    ghost invariant = { λ r. pos 0 <ℤ r.den };

    ghost inverse = { λ v. record { num = v.num; den = v.den } };
}

impl Rate {
    pub(crate) fn numerator(self) -> i128
        ensures { result ≡ self.num }
    {
        self.num
    }

    pub(crate) fn denominator(self) -> u128
        ensures value { result ≡ unsigned_abs self.den }
        ensures above { 0 < result }
    {
        self.den.unsigned_abs()
    }

    /// The fraction, where it can't be multiplied further.
    pub(crate) fn as_range(self) -> RateRange
        ensures { result ≡ record { num = self.num; den = self.den } }
    {
        RateRange {
            num: self.num,
            den: self.den,
        }
    }
}

/// The fraction to which the next step of a chain couldn't be multiplied, since a product of two numerators or of
/// two denominators reaches 2^127.
#[derive(Clone, Copy, Debug, PartialEq, Eq)]
pub struct RateRange {
    pub num: i128,
    pub den: i128,
}
