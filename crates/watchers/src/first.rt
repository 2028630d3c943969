//! The first watch that a change reaches.
ghost use Rattle.std.specs.Prelude.{◌≡◌, ◌<◌, length};
ghost use Rattle.watchers.specs.Reach.{earlier, earlier_of, is_kind, is_over, is_over_at, place_if, reaches, IsFirst};

use crate::watch::{Place, Sought, Watch, compare_kind};
use shared_set::SharedSet;
use std::cmp::Ordering;

/// The earlier of two places, where there are two.
pub(crate) fn earlier(a: Option<Place>, b: Option<Place>) -> Option<Place>
    ensures { result ≡ earlier a b }
{
    match a {
        None => b,
        Some(first) => match b {
            None => Some(first),
            Some(second) => Some(earlier_of(first, second)),
        },
    }
}

/// The earlier of two places.
fn earlier_of(a: Place, b: Place) -> Place
    ensures { result ≡ earlier_of a b }
{
    match b.compare(&a) {
        Ordering::Less => b,
        Ordering::Equal => a,
        Ordering::Greater => a,
    }
}

/// The place of a watch, if it is of an account, alone or with the accounts below it.
fn place_if(watch: &Watch, account: &[u8], below: bool) -> Option<Place>
    ensures { result ≡ place_if account.now below watch.now }
{
    match compare_kind(account, below, watch) {
        Ordering::Equal => Some(watch.place),
        Ordering::Less => None,
        Ordering::Greater => None,
    }
}

/// The first place after one of a watch of an account, alone or with the accounts below it.
pub(crate) fn first_of_kind(
    watches: &SharedSet<Watch>,
    account: &[u8],
    below: bool,
    after: Place,
) -> Option<Place>
    ensures { IsFirst (is_kind account.now below after) watches.now result }
{
    let sought = Sought {
        account,
        below,
        place: after,
    };
    match watches.above(&sought) {
        Some(watch) => place_if(watch, account, below),
        None => None,
    }
}

/// The first place after one of a watch of the accounts above an account.
fn first_above(watches: &SharedSet<Watch>, account: &[u8], after: Place) -> Option<Place>
    ensures { IsFirst (is_over account.now after) watches.now result }
{
    let mut first = None;
    for end in 0..account.len() {
        let next = first_at(watches, account, end, after);
        let sooner = earlier(first, next);
        first = sooner;
    }
    first
}

/// The first place after one of a watch of the account above whose name is so long, if there is one.
fn first_at(watches: &SharedSet<Watch>, account: &[u8], end: usize, after: Place) -> Option<Place>
    requires { end < length account.now }
    ensures { IsFirst (is_over_at account.now end after) watches.now result }
{
    if account[end] != b':' {
        return None;
    }
    let (name, _) = account.split_at(end);
    first_of_kind(watches, name, true, after)
}

/// The first place after one of a watch that a change of an account reaches.
pub(crate) fn first_reached(
    watches: &SharedSet<Watch>,
    account: &[u8],
    after: Place,
) -> Option<Place>
    ensures { IsFirst (reaches account.now after) watches.now result }
{
    let alone = first_of_kind(watches, account, false, after);
    let both = first_of_kind(watches, account, true, after);
    let own = earlier(alone, both);
    earlier(own, first_above(watches, account, after))
}
