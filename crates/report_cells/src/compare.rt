//! How names of accounts compare, by their bytes.
ghost use Rattle.std.specs.Prelude.{◌≡◌, ◌+◌, ◌≤◌, IsTrue, length, take, drop};
ghost use Rattle.book.specs.Accounts.{account_cmp};

use book::account::byte_order;
use std::cmp::Ordering;

/// How two names of accounts compare: part by part, each part by its bytes.
pub(crate) fn compare_names(left: &[u8], right: &[u8]) -> Ordering
    ensures { result ≡ account_cmp left.now right.now }
{
    let front = shared_front(left, right);
    compare_rests(&left[front..], &right[front..])
}

/// How many bytes at the front of two names are known to be the same. Names share long fronts, so these are passed eight
/// bytes at a time.
fn shared_front(left: &[u8], right: &[u8]) -> usize
    ensures same { account_cmp left.now right.now
        ≡ account_cmp (drop result left.now) (drop result right.now) }
    ensures left { result ≤ length left.now }
    ensures right { result ≤ length right.now }
{
    let steps = left.len().min(right.len()) / STEP;
    for step in 0..steps {
        let at = step * STEP;
        if !is_shared(left, right, at) {
            return at;
        }
    }
    steps * STEP
}

/// How many bytes are compared at once.
const STEP: usize = 8;

/// Whether two names have the same bytes from a place on, as many as are compared at once.
fn is_shared(left: &[u8], right: &[u8], at: usize) -> bool
    requires left { at + 8 ≤ length left.now }
    requires right { at + 8 ≤ length right.now }
    ensures { IsTrue result → take 8 (drop at left.now) ≡ take 8 (drop at right.now) }
{
    left[at..].starts_with(&right[at..at + STEP])
}

/// The same of what follows a front that they share.
fn compare_rests(left: &[u8], right: &[u8]) -> Ordering
    ensures { result ≡ account_cmp left.now right.now }
{
    let shared = left.len().min(right.len());
    for i in 0..shared {
        if left[i] != right[i] {
            return byte_order(left[i], right[i]);
        }
    }
    if shared < left.len() {
        Ordering::Greater
    } else if shared < right.len() {
        Ordering::Less
    } else {
        Ordering::Equal
    }
}
