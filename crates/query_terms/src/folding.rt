//! Words sought in texts by simple folding.
ghost use Rattle.std.specs.Prelude.{◌≡◌, nat_eq};
ghost use Rattle.std.specs.List.{starts_with};
ghost use Rattle.std.specs.Str.{bytes_eq};
ghost use Rattle.query_terms.specs.Patterns.{folded, occurs};

use unicode::case::simple_fold;

/// Whether a text begins with a word.
fn begins_with(text: &str, word: &str) -> bool
    ensures { result ≡ starts_with nat_eq (folded text.now) (folded word.now) }
{
    let mut rest = text.chars();
    for c in word.chars() {
        match rest.next() {
            Some(d) => {
                if simple_fold(c) != simple_fold(d) {
                    return false;
                }
            }
            None => return false,
        }
    }
    true
}

/// Whether a word stands somewhere in a text.
pub(crate) fn occurs_in(text: &str, word: &str) -> bool
    ensures { result ≡ occurs (folded word.now) (folded text.now) }
{
    let mut rest = text.chars();
    loop {
        if begins_with(rest.as_str(), word) {
            return true;
        }
        match rest.next() {
            Some(_) => {}
            None => return false,
        }
    }
}

/// Whether a text is a word.
pub(crate) fn is_word(text: &str, word: &str) -> bool
    ensures { result ≡ bytes_eq (folded word.now) (folded text.now) }
{
    let mut rest = text.chars();
    for c in word.chars() {
        match rest.next() {
            Some(d) => {
                if simple_fold(c) != simple_fold(d) {
                    return false;
                }
            }
            None => return false,
        }
    }
    match rest.next() {
        Some(_) => false,
        None => true,
    }
}
