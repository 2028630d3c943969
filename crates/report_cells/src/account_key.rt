//! Accounts as keys of ordered maps.
ghost use Rattle.std.specs.Prelude.{◌≡◌};
ghost use Rattle.std.proofs.Common.{refl};
ghost use Rattle.std.specs.Cmp.{po, partial_equiv_from_equiv};
ghost use Rattle.std.specs.Ordering.{as_partial_cmp, eq_by_cmp};
ghost use Rattle.std.proofs.lemmas.Cmp.{eq_by_cmp_equiv};
ghost use Rattle.book.specs.Accounts.{account_cmp};
ghost use Rattle.book.proofs.Accounts.{account_total};

use crate::compare::compare_names;
use std::cmp::Ordering;
use std::marker::Model;

/// The name of an account, in the order of accounts. Contracts see the name.
#[derive(Drop)]
pub(crate) struct AccountKey<'a> {
    account: &'a str,
}

impl<'a> Model for AccountKey<'a> {
    ghost use Rattle.std.specs.Prelude.{List, ℕ};

    ghost Value = { List ℕ };

    ghost view = { λ k. k.account.now };
}

impl<'a> AccountKey<'a> {
    pub(crate) fn new(account: &'a str) -> AccountKey<'a>
        ensures { result ≡ account.now }
    {
        AccountKey { account }
    }

    pub(crate) fn account(&self) -> &'a str
        ensures { result.now ≡ self.now }
    {
        self.account
    }
}

impl<'a> PartialEq for AccountKey<'a> {
    ghost eq = { eq_by_cmp account_cmp };

    ghost laws = { partial_equiv_from_equiv (eq_by_cmp_equiv account_total) };

    fn eq(&self, other: &AccountKey<'a>) -> bool {
        compare_names(self.account.as_bytes(), other.account.as_bytes()).is_eq()
    }
}

impl<'a> Eq for AccountKey<'a> {
    ghost laws = { eq_by_cmp_equiv account_total };
}

impl<'a> PartialOrd for AccountKey<'a> {
    ghost partial_cmp = { as_partial_cmp account_cmp };

    ghost laws = { po account_total (λ a b. refl) };

    fn partial_cmp(&self, other: &AccountKey<'a>) -> Option<Ordering> {
        Some(self.cmp(other))
    }
}

impl<'a> Ord for AccountKey<'a> {
    ghost cmp = { account_cmp };

    ghost total = { account_total };

    ghost matches_partial_cmp = { λ a b. refl };

    ghost matches_eq = { λ a b. refl };

    fn cmp(&self, other: &AccountKey<'a>) -> Ordering {
        compare_names(self.account.as_bytes(), other.account.as_bytes())
    }
}
