//! The words of a query that options stand for.
ghost use Rattle.std.specs.Prelude.{◌≡◌, ◌++◌, IfOk, OnOk};
ghost use Rattle.report_options.specs.Terms as spec;

use crate::options::Options;
use hl_base::{List, Memory, Text};
use std::alloc::Global;

/// Puts a word behind the others, if it is asked for.
fn push_asked(
    alloc: Global,
    words: &mut Vec<Text>,
    is_asked: bool,
    word: &str,
) -> Result<(), Memory>
    ensures { OnOk result (words.new.items ≡ words.old.items ++ spec.asked is_asked word.now) }
{
    if is_asked {
        words.push(Text::copied(alloc, word)?)?;
    }
    Ok(())
}

/// The word of a depth.
fn depth_word(alloc: Global, depth: u64) -> Result<Text, Memory>
    ensures { IfOk result (λ word. word ≡ spec.depth_word depth) }
{
    let mut word = String::from_str(alloc, "depth:")?;
    word.push_str(depth.to_string(alloc)?.as_str())?;
    Ok(Text::from_string(word))
}

/// Puts the word of a depth behind the others, if there is one.
fn push_depth(alloc: Global, words: &mut Vec<Text>, depth: Option<u64>) -> Result<(), Memory>
    ensures { OnOk result (words.new.items ≡ words.old.items ++ spec.depth_words depth) }
{
    if let Some(depth) = depth {
        words.push(depth_word(alloc, depth)?)?;
    }
    Ok(())
}

/// The words of a query that the options of a report stand for: its marks, `real:1` and its depth, in this order. A query is
/// made of them and the words of the query behind them.
pub fn option_terms(alloc: Global, options: &Options) -> Result<List<Text>, Memory>
    ensures { IfOk result (λ terms. terms ≡ spec.terms_of_options options.now) }
{
    let mut words = Vec::new(alloc);
    push_asked(alloc, &mut words, options.unmarked, "status:")?;
    push_asked(alloc, &mut words, options.pending, "status:!")?;
    push_asked(alloc, &mut words, options.cleared, "status:*")?;
    push_asked(alloc, &mut words, options.real_only, "real:1")?;
    push_depth(alloc, &mut words, options.depth)?;
    Ok(List::from_vec(words))
}
