//! Names of accounts in rules that speak of the matched account.
ghost use Rattle.std.specs.Prelude.{◌≡◌, ◌<◌, ◌++◌, ℕ, List, length, IfOk, IfSome, MatchOption};
ghost use Rattle.rule_entries.specs.Accounts as spec;

use hl_base::{Memory, Text};
use std::alloc::Global;

/// What stands before the first `%account` in a name and what stands behind it, if it is there.
fn around_word(name: &str) -> Option<(&str, &str)>
    ensures cut { MatchOption result ((matched : List ℕ)
        → spec.put_after matched 0 name.now ≡ name.now)
        (λ x. (matched : List ℕ) → spec.put_after matched 0 name.now
        ≡ x.0.now ++ (matched ++ spec.put_after matched 0 x.1.now)) }
    ensures shorter { IfSome result (λ x. length x.1.now < length name.now) }
{
    name.split_once("%account")
}

/// A name with the matched account in place of `%account`, wherever it stands.
pub fn account_for(alloc: Global, name: &str, matched: &str) -> Result<Text, Memory>
    ensures { IfOk result (λ account. account ≡ spec.account_for name.now matched.now) }
{
    let mut account = String::new(alloc);
    let mut rest = name;
    while let Some((before, after)) = around_word(rest) {
        account.push_str(before)?;
        account.push_str(matched)?;
        rest = after;
    }
    account.push_str(rest)?;
    Ok(Text::from_string(account))
}
