//! Products, quotients, rounding and order of decimals.
ghost use Rattle.std.specs.Prelude.{◌≡◌, ◌+◌, ◌-◌, ◌*◌, ◌^◌, ◌<◌, ◌≤◌, ◌<ℤ◌, ◌+ℤ◌, ◌*ℤ◌, pos, unsigned_abs, int_lt, nat_lt, if◌then◌else◌, is_ok, IfOk, IfErr};
ghost use Rattle.std.specs.Int.{int_div_euclid, int_rem_euclid};
ghost use Rattle.std.specs.Ordering.{int_cmp};
ghost use Rattle.hl_num.specs.Decimal.{Decimal, units_of, mul_fits, IsTrimmed};
ghost use Rattle.hl_num.specs.Rounding.{half_even, with_sign, signed_half_even, rounded, IsNearest};
ghost use Rattle.hl_num.specs.Shortest.{trimmed};

use crate::decimal::{Dec, Range, power_of_ten};
use crate::rounding;
use std::cmp::Ordering;

/// The number and the divisor of a quotient, where the number reaches 2^127 in units of its last place.
#[derive(Clone, Copy, Debug, PartialEq, Eq)]
pub struct DivRange {
    pub num: i128,
    pub den: i128,
}

/// `num / den` with that many places, rounded half to even. `DivRange` comes exactly where `num * 10^places` reaches
/// 2^127.
pub fn div_round(num: i128, den: i128, places: u8) -> Result<Dec, DivRange>
    requires positive { pos 0 <ℤ den }
    requires few { places ≤ 18 }
    ensures { result ≡ (if nat_lt (unsigned_abs num * 10 ^ places) (2 ^ 127)
        then Ok (record {
          mantissa = signed_half_even (num *ℤ pos (10 ^ places)) (unsigned_abs den);
          places = places;
        })
        else Err (record { num = num; den = den })) }
{
    match num.unsigned_abs().checked_mul(power_of_ten(places)) {
        Some(scaled) if scaled < LIMIT => Ok(Dec {
            mantissa: signed(num < 0, rounding::half_even(scaled, den.unsigned_abs())),
            places,
        }),
        _ => Err(DivRange { num, den }),
    }
}

/// `2^127`.
const LIMIT: u128 = 0x8000_0000_0000_0000_0000_0000_0000_0000;

/// A magnitude with its sign.
fn signed(is_negative: bool, magnitude: u128) -> i128
    requires { magnitude < 2 ^ 127 }
    ensures { result ≡ with_sign is_negative magnitude }
{
    if is_negative {
        -(magnitude as i128)
    } else {
        magnitude as i128
    }
}

impl Dec {
    /// The nearest number with so many places, a half going to the even one. With enough places it is the number
    /// itself.
    pub fn round_half_even(self, places: u8) -> Dec
        ensures value { result ≡ rounded self places }
        ensures nearest { IsNearest self places result }
    {
        self.rounded(places)
    }

    fn rounded(self, places: u8) -> Dec
        ensures value { result ≡ rounded self places }
        ensures bound { self.places ≤ 36 }
    {
        if self.places <= places {
            return self;
        }
        let magnitude = rounding::half_even(self.magnitude(), power_of_ten(self.places - places));
        Dec {
            mantissa: signed(self.is_negative(), magnitude),
            places,
        }
    }

    /// The same value without zeros at the end of its decimals: no number of that value has fewer.
    pub fn trimmed(self) -> Dec
        ensures value { units_of result ≡ units_of self }
        ensures places { result.places ≤ self.places }
        ensures trimmed { IsTrimmed result }
        ensures shortest { result ≡ trimmed (units_of self) 36 }
    {
        let _places = self.decimals();
        self.without_zeros()
    }

    fn without_zeros(self) -> Dec
        ensures value { units_of result ≡ units_of self }
        ensures places { result.places ≤ self.places }
        ensures trimmed { IsTrimmed result }
    {
        let mut magnitude = self.magnitude();
        let mut places = self.places;
        while 0 < places && magnitude % 10 == 0 {
            magnitude /= 10;
            places -= 1;
        }
        Dec {
            mantissa: signed(self.is_negative(), magnitude),
            places,
        }
    }

    /// The product, without zeros at the end of its decimals. `Range` comes exactly where the product of the
    /// mantissas reaches 2^127, or the places sum past 36.
    pub fn mul(self, other: Dec) -> Result<Dec, Range>
        ensures value { IfOk result (λ product.
            units_of product *ℤ pos (10 ^ 36) ≡ units_of self *ℤ units_of other) }
        ensures trimmed { IfOk result IsTrimmed }
        ensures fits { is_ok result ≡ mul_fits self other }
        ensures range { IfErr result (λ range. range ≡ record { a = self; b = other }) }
    {
        let places = self.places + other.places;
        match self.mantissa.checked_mul(other.mantissa) {
            Some(mantissa) if mantissa != i128::MIN && places <= 36 => {
                Ok(Dec { mantissa, places }.without_zeros())
            }
            _ => Err(Range { a: self, b: other }),
        }
    }

    /// The order of the values, exactly.
    pub fn compare(self, other: Dec) -> Ordering
        ensures { result ≡ int_cmp (units_of self) (units_of other) }
    {
        if self.places == other.places {
            return self.mantissa.cmp(&other.mantissa);
        }
        match self.floor().cmp(&other.floor()) {
            Ordering::Equal => self.above_floor().cmp(&other.above_floor()),
            order => order,
        }
    }

    /// The greatest integer that is not above the value.
    fn floor(self) -> i128
        ensures { result ≡ int_div_euclid self.mantissa (pos (10 ^ self.places)) }
    {
        self.mantissa.div_euclid(power_of_ten(self.places) as i128)
    }

    /// How far the value is above that integer, in units of 10^-36.
    fn above_floor(self) -> u128
        ensures { result ≡ unsigned_abs (int_rem_euclid self.mantissa (pos (10 ^ self.places))) * 10
            ^ (36 - self.places) }
    {
        let rest = self.mantissa.rem_euclid(power_of_ten(self.places) as i128);
        rest.unsigned_abs() * power_of_ten(36 - self.places)
    }
}
