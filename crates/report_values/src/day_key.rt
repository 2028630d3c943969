//! Days with symbols as keys of ordered maps.
ghost use Rattle.std.specs.Prelude.{◌≡◌};
ghost use Rattle.std.proofs.Common.{refl};
ghost use Rattle.std.specs.Cmp.{po, partial_equiv_from_equiv};
ghost use Rattle.std.specs.Ordering.{as_partial_cmp, eq_by_cmp};
ghost use Rattle.std.proofs.lemmas.Cmp.{eq_by_cmp_equiv};
ghost use Rattle.report_values.specs.DayKeys.{day_cmp, day_total};

use hl_base::Text;
use hl_time::Day;
use std::cmp::Ordering;
use std::marker::Model;

/// A day with a symbol, in the order of days and then of the symbols' bytes. Contracts see both.
#[derive(Drop)]
pub struct DayKey<'a> {
    day: u32,
    symbol: &'a Text,
}

impl<'a> Model for DayKey<'a> {
    ghost use Rattle.std.specs.Prelude.{List, ℕ};

    ghost Value = { ℕ × List ℕ };

    ghost view = { λ k. (k.day, k.symbol.now) };
}

impl<'a> DayKey<'a> {
    pub fn new(day: Day, symbol: &'a Text) -> DayKey<'a>
        ensures { result ≡ (day.0, symbol.now) }
    {
        DayKey { day: day.0, symbol }
    }

    fn compared(&self, other: &DayKey<'a>) -> Ordering
        ensures { result ≡ day_cmp self.now other.now }
    {
        match self.day.cmp(&other.day) {
            Ordering::Equal => self.symbol.as_str().cmp(other.symbol.as_str()),
            order => order,
        }
    }
}

impl<'a> PartialEq for DayKey<'a> {
    ghost eq = { eq_by_cmp day_cmp };

    ghost laws = { partial_equiv_from_equiv (eq_by_cmp_equiv day_total) };

    fn eq(&self, other: &DayKey<'a>) -> bool {
        self.compared(other).is_eq()
    }
}

impl<'a> Eq for DayKey<'a> {
    ghost laws = { eq_by_cmp_equiv day_total };
}

impl<'a> PartialOrd for DayKey<'a> {
    ghost partial_cmp = { as_partial_cmp day_cmp };

    ghost laws = { po day_total (λ a b. refl) };

    fn partial_cmp(&self, other: &DayKey<'a>) -> Option<Ordering> {
        Some(self.compared(other))
    }
}

impl<'a> Ord for DayKey<'a> {
    ghost cmp = { day_cmp };

    ghost total = { day_total };

    ghost matches_partial_cmp = { λ a b. refl };

    ghost matches_eq = { λ a b. refl };

    fn cmp(&self, other: &DayKey<'a>) -> Ordering {
        self.compared(other)
    }
}
