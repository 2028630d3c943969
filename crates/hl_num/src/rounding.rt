//! Quotients that are rounded to the nearest, a half going to the even one.
ghost use Rattle.std.specs.Prelude.{◌≡◌, ◌^◌, ◌<◌, ◌≤◌};
ghost use Rattle.hl_num.specs.Rounding.{half_even};

/// `number / divisor`, rounded half to even.
pub fn half_even(number: u128, divisor: u128) -> u128
    requires above { 0 < divisor }
    requires below { divisor < 2 ^ 127 }
    requires small { number < 2 ^ 127 }
    ensures value { result ≡ half_even number divisor }
    ensures bound { result ≤ number }
{
    let quotient = number / divisor;
    let rest = 2 * (number % divisor);
    if rest < divisor {
        quotient
    } else if divisor < rest {
        quotient + 1
    } else {
        quotient + quotient % 2
    }
}
