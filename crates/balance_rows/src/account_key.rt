//! Accounts as keys of ordered maps.
ghost use Rattle.std.specs.Prelude.{◌≡◌, IfOk};
ghost use Rattle.std.proofs.Common.{refl};
ghost use Rattle.std.specs.Cmp.{po, partial_equiv_from_equiv};
ghost use Rattle.std.specs.Ordering.{as_partial_cmp, eq_by_cmp};
ghost use Rattle.std.proofs.lemmas.Cmp.{eq_by_cmp_equiv};
ghost use Rattle.book.specs.Accounts.{account_cmp};
ghost use Rattle.book.proofs.Accounts.{account_total};

use book::compare_accounts;
use hl_base::{Memory, Text};
use std::alloc::Global;
use std::cmp::Ordering;
use std::marker::Model;

/// The name of an account, in the order of accounts. Contracts see the name.
#[derive(Drop)]
pub(crate) struct AccountKey {
    account: Text,
}

impl Model for AccountKey {
    ghost use Rattle.std.specs.Prelude.{List, ℕ};

    ghost Value = { List ℕ };

    ghost view = { λ k. k.account };
}

impl AccountKey {
    /// The key of a name.
    pub fn copied(alloc: Global, account: &str) -> Result<AccountKey, Memory>
        ensures { IfOk result (λ key. key ≡ account.now) }
    {
        let account = Text::copied(alloc, account)?;
        Ok(AccountKey { account })
    }

    pub fn into_account(self) -> Text
        ensures { result ≡ self }
    {
        self.account
    }
}

impl PartialEq for AccountKey {
    ghost eq = { eq_by_cmp account_cmp };

    ghost laws = { partial_equiv_from_equiv (eq_by_cmp_equiv account_total) };

    fn eq(&self, other: &AccountKey) -> bool {
        compare_accounts(&self.account, &other.account).is_eq()
    }
}

impl Eq for AccountKey {
    ghost laws = { eq_by_cmp_equiv account_total };
}

impl PartialOrd for AccountKey {
    ghost partial_cmp = { as_partial_cmp account_cmp };

    ghost laws = { po account_total (λ a b. refl) };

    fn partial_cmp(&self, other: &AccountKey) -> Option<Ordering> {
        Some(self.cmp(other))
    }
}

impl Ord for AccountKey {
    ghost cmp = { account_cmp };

    ghost total = { account_total };

    ghost matches_partial_cmp = { λ a b. refl };

    ghost matches_eq = { λ a b. refl };

    fn cmp(&self, other: &AccountKey) -> Ordering {
        compare_accounts(&self.account, &other.account)
    }
}
