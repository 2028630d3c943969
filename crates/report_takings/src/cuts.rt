//! Accounts that are cut to a depth.
ghost use Rattle.std.specs.Prelude.{◌≡◌, ◌≤◌, take};
ghost use Rattle.std.specs.List.{join_with_byte};
ghost use Rattle.std.specs.Str.{IsCharBoundary};
ghost use Rattle.hl_base.specs.Ascii.{colon};
ghost use Rattle.book.specs.Accounts.{parts_of};
ghost use Rattle.report_takings.specs.Cuts.{cut_to};
ghost use Rattle.report_takings.specs.Fronts.{front_length};

/// Where the first parts of a name end, of one part at least.
#[tactic(auto, using(crate::proofs::Parts::front_last, crate::proofs::Parts::front_all))]
fn front_length(name: &[u8], depth: u64) -> usize
    requires { 1 ≤ depth }
    ensures length { result ≡ front_length depth name.now }
    ensures boundary { IsCharBoundary name.now result }
{
    let mut left = depth;
    for i in 0..name.len() {
        if name[i] == b':' {
            if left == 1 {
                return i;
            }
            left -= 1;
        }
    }
    name.len()
}

/// A front of a text.
fn front(text: &str, end: usize) -> &str
    requires { IsCharBoundary text.now end }
    ensures { result.now ≡ take end text.now }
{
    &text[..end]
}

/// The first parts of an account, one at least.
#[tactic(auto, using(crate::proofs::Parts::front_of))]
fn first_parts(account: &str, depth: u64) -> &str
    requires { 1 ≤ depth }
    ensures { result.now ≡ join_with_byte colon (take depth (parts_of account.now)) }
{
    front(account, front_length(account.as_bytes(), depth))
}

/// The first parts of an account, as many as the depth says.
pub(crate) fn cut_to(account: &str, depth: Option<u64>) -> &str
    ensures { result.now ≡ cut_to depth account.now }
{
    match depth {
        None => account,
        Some(0) => "",
        Some(depth) => first_parts(account, depth),
    }
}
