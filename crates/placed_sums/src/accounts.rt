//! Whether a name is that of an account or of one under it.
ghost use Rattle.std.specs.Prelude.{◌≡◌};
ghost use Rattle.std.specs.Str.{bytes_eq};
ghost use Rattle.book.specs.SumsBefore as names;

use book::lies_below;
use hl_base::Text;

/// Whether a name is that of an account or, with `below`, of one of its subaccounts.
pub(crate) fn is_of(account: &Text, below: bool, name: &Text) -> bool
    ensures { result ≡ names.is_of account.now below name.now }
{
    name.as_bytes() == account.as_bytes()
        || (below && lies_below(account.as_bytes(), name.as_bytes()))
}

pub(crate) fn is_same_text(a: &Text, b: &Text) -> bool
    ensures { result ≡ bytes_eq a.now b.now }
{
    a.as_bytes() == b.as_bytes()
}
