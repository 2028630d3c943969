//! Symbols as keys of an ordered set.
ghost use Rattle.std.specs.Prelude.{◌≡◌};
ghost use Rattle.std.proofs.Common.{refl};
ghost use Rattle.std.specs.Cmp.{po, partial_equiv_from_equiv};
ghost use Rattle.std.specs.Cmp.Lexicographic.{slice_cmp, nat_list_cmp_total};
ghost use Rattle.std.specs.Ordering.{as_partial_cmp, eq_by_cmp, nat_cmp};
ghost use Rattle.std.proofs.lemmas.Cmp.{eq_by_cmp_equiv};

use hl_base::Text;
use std::cmp::Ordering;
use std::marker::Model;

/// A symbol, in the order of its bytes. Contracts see the symbol.
#[derive(Drop)]
pub(crate) struct SymbolKey<'a> {
    symbol: &'a Text,
}

impl<'a> Model for SymbolKey<'a> {
    ghost use Rattle.std.specs.Prelude.{List, ℕ};

    ghost Value = { List ℕ };

    ghost view = { λ k. k.symbol.now };
}

impl<'a> SymbolKey<'a> {
    pub(crate) fn new(symbol: &'a Text) -> SymbolKey<'a>
        ensures { result ≡ symbol.now }
    {
        SymbolKey { symbol }
    }

    pub(crate) fn symbol(&self) -> &'a Text
        ensures { result.now ≡ self.now }
    {
        self.symbol
    }

    fn compared(&self, other: &SymbolKey<'a>) -> Ordering
        ensures { result ≡ slice_cmp nat_cmp self.now other.now }
    {
        self.symbol.as_str().cmp(other.symbol.as_str())
    }
}

impl<'a> PartialEq for SymbolKey<'a> {
    ghost eq = { eq_by_cmp (slice_cmp nat_cmp) };

    ghost laws = { partial_equiv_from_equiv (eq_by_cmp_equiv nat_list_cmp_total) };

    fn eq(&self, other: &SymbolKey<'a>) -> bool {
        self.compared(other).is_eq()
    }
}

impl<'a> Eq for SymbolKey<'a> {
    ghost laws = { eq_by_cmp_equiv nat_list_cmp_total };
}

impl<'a> PartialOrd for SymbolKey<'a> {
    ghost partial_cmp = { as_partial_cmp (slice_cmp nat_cmp) };

    ghost laws = { po nat_list_cmp_total (λ a b. refl) };

    fn partial_cmp(&self, other: &SymbolKey<'a>) -> Option<Ordering> {
        Some(self.compared(other))
    }
}

impl<'a> Ord for SymbolKey<'a> {
    ghost cmp = { slice_cmp nat_cmp };

    ghost total = { nat_list_cmp_total };

    ghost matches_partial_cmp = { λ a b. refl };

    ghost matches_eq = { λ a b. refl };

    fn cmp(&self, other: &SymbolKey<'a>) -> Ordering {
        self.compared(other)
    }
}
