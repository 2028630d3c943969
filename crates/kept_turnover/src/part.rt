//! The amounts of a symbol with one number of decimals.
ghost use Rattle.std.specs.Prelude.{◌≡◌, ◌+◌, ◌*◌, ◌^◌, min, nat_lt, if◌then◌else◌, IfSome};
ghost use Rattle.std.specs.Bool.{OnTrue};
ghost use Rattle.kept_turnover.specs.Keeping.{no_part, part_with, part_without, sum_in};

/// `2^64`.
const HALF: u128 = 0x1_0000_0000_0000_0000;

/// `2^127`.
const LIMIT: u128 = 0x8000_0000_0000_0000_0000_0000_0000_0000;

/// How many amounts there are, the sum of the lower 64 bits of their mantissas, and the sum of what stands above these. The
/// signs don't count. So both sums have room for as many amounts as there can be.
#[derive(Clone, Copy)]
pub struct Part {
    pub(crate) count: u64,
    pub(crate) low: u128,
    pub(crate) high: u128,
}

impl Part {
    /// No amounts.
    pub(crate) fn none() -> Part
        ensures { result ≡ no_part }
    {
        Part {
            count: 0,
            low: 0,
            high: 0,
        }
    }

    /// Whether there are no amounts.
    pub(crate) fn is_none(self) -> bool
        ensures { OnTrue result (self ≡ no_part) }
    {
        self.count == 0 && self.low == 0 && self.high == 0
    }

    /// The amounts and one more, of a mantissa without its sign; nothing where there would be 2^64 of them.
    pub(crate) fn with_number(self, mantissa: u128) -> Option<Part>
        ensures { IfSome result (λ part. part ≡ part_with self mantissa) }
    {
        let count = self.count.checked_add(1)?;
        let low = self.low.checked_add(mantissa % HALF)?;
        let high = self.high.checked_add(mantissa / HALF)?;
        Some(Part { count, low, high })
    }

    /// The amounts without one of them.
    pub(crate) fn without_number(self, mantissa: u128) -> Part
        ensures { result ≡ part_without self mantissa }
    {
        Part {
            count: self.count.saturating_sub(1),
            low: self.low.saturating_sub(mantissa % HALF),
            high: self.high.saturating_sub(mantissa / HALF),
        }
    }

    /// The sum of the mantissas, or 2^127 where that is less.
    pub(crate) fn sum(self) -> u128
        ensures { result ≡ min (sum_in self) (2 ^ 127) }
    {
        let high = self.high.saturating_mul(HALF);
        high.saturating_add(self.low).min(LIMIT)
    }

    /// Ten times a sum and these amounts, or 2^127 where that is less.
    pub(crate) fn behind(&self, sum: u128) -> u128
        ensures { result ≡ min (sum * 10 + sum_in self.now) (2 ^ 127) }
    {
        sum.saturating_mul(10).saturating_add(self.sum()).min(LIMIT)
    }

    /// A sum where there are amounts, and another one where there are none.
    pub(crate) fn chosen(&self, sum: u128, other: u128) -> u128
        ensures { result ≡ (if nat_lt 0 self.now.count then sum else other) }
    {
        if 0 < self.count { sum } else { other }
    }
}

/// Whether a sum stays below 2^127.
pub(crate) fn is_within(sum: u128) -> bool
    ensures { result ≡ nat_lt sum (2 ^ 127) }
{
    sum < LIMIT
}
