//! Places in lists of entries that rise by their symbols.
ghost use Rattle.std.specs.Prelude.{◌≡◌, IfOk, IfErr, List, ℕ};
ghost use Rattle.std.specs.Ordering.{nat_cmp};
ghost use Rattle.std.specs.Cmp.Lexicographic.{slice_cmp};
ghost use Rattle.book.specs.Entries.{IsRising};
ghost use Rattle.book.specs.Places.{IsPlace, IsGap};

use hl_base::Text;
use std::cmp::Ordering;

/// Where the entry of a symbol stands, or where it would go.
pub(crate) fn place_of<V>(entries: &[(Text, V)], symbol: &Text) -> Result<usize, usize>
    requires { IsRising entries.now }
    ensures found { IfOk result (IsPlace entries.now symbol.now) }
    ensures absent { IfErr result (IsGap (slice_cmp nat_cmp) entries.now symbol.now) }
{
    let mut low = 0;
    let mut high = entries.len();
    while low < high {
        let middle = low + (high - low) / 2;
        match compared(&entries[middle].0, symbol) {
            Ordering::Less => low = middle + 1,
            Ordering::Equal => return Ok(middle),
            Ordering::Greater => high = middle,
        }
    }
    Err(low)
}

/// How a symbol compares with another, by their bytes.
fn compared(a: &Text, b: &Text) -> Ordering
    ensures { result ≡ slice_cmp nat_cmp a.now b.now }
{
    a.as_str().cmp(b.as_str())
}
