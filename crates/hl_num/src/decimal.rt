//! Exact decimals of 127 bits and at most 36 places.
ghost use Rattle.std.specs.Prelude.{◌≡◌, ◌+◌, ◌-◌, ◌*◌, ◌^◌, ◌<◌, ◌≤◌, ◌+ℤ◌, ◌*ℤ◌, pos, max, unsigned_abs, int_lt, nat_lt, if◌then◌else◌, is_ok, is_some, IfOk, IfErr, IfSome, ◌↔◌, IsTrue, MatchOption};
ghost use Rattle.hl_num.specs.Decimal.{Decimal, IsInBounds, units_of, mantissa_at, sum_fits_at, add_fits, in_bounds, negated};

use std::marker::Model;

/// The number `mantissa / 10^places`. The mantissa's absolute value is below 2^127, and the places are at most 36.
#[derive(Clone, Copy, Debug, PartialEq, Eq)]
pub struct Dec {
    pub mantissa: i128,
    pub places: u8,
}

impl Model for Dec {
    ghost use Rattle.hl_num.specs.Decimal.{Decimal, IsInBounds};

    ghost Value = { Decimal };

    ghost view = { λ d. record { mantissa = d.mantissa; places = d.places } };

    ghost invariant = { λ d. IsInBounds d.mantissa d.places };

    ghost inverse = { λ v. record { mantissa = v.mantissa; places = v.places } };
}

impl Dec {
    /// Zero, with no places.
    pub fn zero() -> Dec
        ensures { result ≡ record { mantissa = pos 0; places = 0 } }
    {
        Dec {
            mantissa: 0,
            places: 0,
        }
    }

    /// A number of its mantissa and places, where these are within bounds.
    pub fn new(mantissa: i128, places: u8) -> Option<Dec>
        ensures { result ≡ (if in_bounds mantissa places
            then Some (record { mantissa = mantissa; places = places }) else None) }
    {
        if mantissa == i128::MIN || 36 < places {
            return None;
        }
        Some(Dec { mantissa, places })
    }

    /// Whether the value is zero.
    pub fn is_zero(self) -> bool
        ensures mantissa { IsTrue result ↔ (self.mantissa ≡ pos 0) }
        ensures value { IsTrue result ↔ (units_of self ≡ pos 0) }
    {
        self.mantissa == 0
    }

    /// Whether the value is below zero.
    pub fn is_negative(self) -> bool
        ensures mantissa { result ≡ int_lt self.mantissa (pos 0) }
        ensures value { result ≡ int_lt (units_of self) (pos 0) }
    {
        self.mantissa < 0
    }

    /// The number with the other sign.
    pub fn negated(self) -> Dec
        ensures { result ≡ negated self }
    {
        Dec {
            mantissa: -self.mantissa,
            places: self.places,
        }
    }

    /// The absolute value of the mantissa.
    pub fn magnitude(self) -> u128
        ensures value { result ≡ unsigned_abs self.mantissa }
        ensures bound { result < 2 ^ 127 }
    {
        self.mantissa.unsigned_abs()
    }

    /// The number of decimals.
    pub fn decimals(self) -> u8
        ensures value { result ≡ self.places }
        ensures bound { result ≤ 36 }
    {
        self.places
    }
}

/// The two terms of a sum, or factors of a product, that reach 2^127.
#[derive(Clone, Copy, Debug, PartialEq, Eq)]
pub struct Range {
    pub a: Dec,
    pub b: Dec,
}

/// `10^exponent`.
pub(crate) fn power_of_ten(exponent: u8) -> u128
    requires { exponent ≤ 38 }
    ensures value { result ≡ 10 ^ exponent }
    ensures above { 0 < result }
    ensures below { result < 2 ^ 127 }
{
    10_u128.pow(u32::from(exponent))
}

/// The number, where its absolute value is below 2^127.
fn bounded(number: i128) -> Option<i128>
    ensures { result ≡ (if nat_lt (unsigned_abs number) (2 ^ 127) then Some number else None) }
{
    if number == i128::MIN {
        None
    } else {
        Some(number)
    }
}

impl Dec {
    /// The mantissa at a number of places that is no less than its own, where it stays below 2^127.
    fn mantissa_at(self, places: u8) -> Option<i128>
        requires more { self.places ≤ places }
        requires few { places ≤ 36 }
        ensures { result ≡ (if nat_lt (unsigned_abs (mantissa_at self places)) (2 ^ 127)
            then Some (mantissa_at self places) else None) }
    {
        if places == self.places {
            return Some(self.mantissa);
        }
        bounded(
            self.mantissa
                .checked_mul(power_of_ten(places - self.places) as i128)?,
        )
    }

    /// The sum, with the greater number of places. `Range` comes exactly where a term or the sum reaches 2^127 in
    /// that unit.
    #[inline]
    pub fn add(self, other: Dec) -> Result<Dec, Range>
        ensures value { IfOk result (λ sum. units_of sum ≡ units_of self +ℤ units_of other) }
        ensures places { IfOk result (λ sum. sum.places ≡ max self.places other.places) }
        ensures fits { is_ok result ≡ add_fits self other }
        ensures range { IfErr result (λ range. range ≡ record { a = self; b = other }) }
    {
        let places = self.places.max(other.places);
        match self.sum_at(other, places) {
            Some(mantissa) => Ok(Dec { mantissa, places }),
            None => Err(Range { a: self, b: other }),
        }
    }

    /// The mantissa of the sum at a number of places. Most terms are written with the same places, and need no power of
    /// ten.
    #[inline]
    fn sum_at(self, other: Dec, places: u8) -> Option<i128>
        requires more { self.places ≤ places }
        requires more_still { other.places ≤ places }
        requires few { places ≤ 36 }
        ensures value { IfSome result (λ sum.
            sum ≡ mantissa_at self places +ℤ mantissa_at other places) }
        ensures fits { is_some result ≡ sum_fits_at self other places }
    {
        if self.places == places && other.places == places {
            self.sum_alike(other)
        } else {
            self.sum_scaled(other, places)
        }
    }

    /// The sum of the mantissas as they are.
    #[inline]
    fn sum_alike(self, other: Dec) -> Option<i128>
        ensures value { IfSome result (λ sum. sum ≡ self.mantissa +ℤ other.mantissa) }
        ensures fits { is_some result
            ≡ nat_lt (unsigned_abs (self.mantissa +ℤ other.mantissa)) (2 ^ 127) }
    {
        bounded(self.mantissa.checked_add(other.mantissa)?)
    }

    /// The sum of the mantissas at a number of places.
    #[inline(never)]
    fn sum_scaled(self, other: Dec, places: u8) -> Option<i128>
        requires more { self.places ≤ places }
        requires more_still { other.places ≤ places }
        requires few { places ≤ 36 }
        ensures value { IfSome result (λ sum.
            sum ≡ mantissa_at self places +ℤ mantissa_at other places) }
        ensures fits { is_some result ≡ sum_fits_at self other places }
    {
        let a = self.mantissa_at(places)?;
        let b = other.mantissa_at(places)?;
        bounded(a.checked_add(b)?)
    }
}
