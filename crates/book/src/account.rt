//! The order of accounts.
ghost use Rattle.std.specs.Prelude.{◌≡◌, ◌++◌, ◌∷◌, []};
ghost use Rattle.std.specs.Bool.{nat_eq};
ghost use Rattle.std.specs.List.{starts_with};
ghost use Rattle.hl_base.specs.Ascii.{colon};
ghost use Rattle.book.specs.Accounts.{account_cmp, byte_order};

use hl_base::Text;
use std::cmp::Ordering;

/// How two names of accounts compare: part by part, each part by its bytes.
pub fn compare_accounts(a: &Text, b: &Text) -> Ordering
    ensures { result ≡ account_cmp a.now b.now }
{
    let left = a.as_bytes();
    let right = b.as_bytes();
    let shared = left.len().min(right.len());
    for i in 0..shared {
        if left[i] != right[i] {
            return byte_order(left[i], right[i]);
        }
    }
    if shared < left.len() {
        Ordering::Greater
    } else if shared < right.len() {
        Ordering::Less
    } else {
        Ordering::Equal
    }
}

/// How two different bytes of names compare: a colon stands below all others.
pub fn byte_order(a: u8, b: u8) -> Ordering
    ensures { result ≡ byte_order a b }
{
    if a == b':' {
        Ordering::Less
    } else if b == b':' {
        Ordering::Greater
    } else {
        a.cmp(&b)
    }
}

/// Whether a name goes on behind that of an account with a colon.
pub fn lies_below(account: &[u8], name: &[u8]) -> bool
    ensures { result ≡ starts_with nat_eq name.now (account.now ++ colon ∷ []) }
{
    if !name.starts_with(account) {
        return false;
    }
    let (_, rest) = name.split_at(account.len());
    rest.starts_with(b":")
}
