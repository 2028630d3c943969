//! Words that are a given text.
ghost use Rattle.std.specs.Prelude.{◌≡◌};
ghost use Rattle.std.specs.Str.{bytes_eq};
ghost use Rattle.report_options.specs.Names as spec;

pub(crate) fn is_same(a: &[u8], b: &[u8]) -> bool
    ensures { result ≡ bytes_eq a.now b.now }
{
    a == b
}

/// Whether a word is the short or the long name of something.
pub(crate) fn is_either(word: &[u8], short: &[u8], long: &[u8]) -> bool
    ensures { result ≡ spec.is_either word.now short.now long.now }
{
    is_same(word, short) || is_same(word, long)
}
