//! What the words of `serve` ask for.
ghost use Rattle.std.specs.Prelude.{◌≡◌, IfOk};
ghost use Rattle.hl_base.specs.Gives.{Gives};
ghost use Rattle.serve_line.specs.Words as spec;
ghost use Rattle.serve_line.specs.declared.words.NoReading.TheVariants.{Memory as NoMemory};

use crate::matched::said_by;
use crate::values::asked_by;
use hl_base::{Memory, Text};
use serve_commands::Serving;
use std::alloc::Global;
use web_messages::page::Page;

/// Why the words of `serve` ask for nothing.
#[derive(Clone, Copy, Debug, PartialEq, Eq)]
pub enum NoReading {
    /// They have no reading.
    Usage,
    /// Memory ran out.
    Memory,
}

impl From<Memory> for NoReading {
    ghost from_gives = { λ _ e. e ≡ NoMemory };

    fn from(_memory: Memory) -> NoReading {
        NoReading::Memory
    }
}

/// The words as texts that are lent.
#[tactic(auto, using(crate::proofs::Lending::lent_more))]
fn lent_words<'a>(alloc: Global, words: &'a [Text]) -> Result<Vec<&'a str>, Memory>
    ensures { IfOk result (λ lent. spec.lent_texts lent.items ≡ words.now) }
{
    let mut lent = Vec::new(alloc);
    for word in words {
        lent.push(word.as_str())?;
    }
    Ok(lent)
}

/// What the words ask for.
fn read_lent<'a>(alloc: Global, page: &Page, words: &'a [&'a str]) -> Result<Serving, NoReading>
    ensures { Gives (λ asked. asked) spec.no_reading_cause result
        (spec.serve_read page.now (spec.lent_texts words.now)) }
{
    let said = said_by(alloc, words)?;
    asked_by(alloc, page, said)
}

/// What the words of `serve` ask for, the first of which is that word, of a program that has this page. After it stand one name of a
/// store, and `--host`, `--port`, `--allow`, `--workers` and `--connections`, each with a value and at most once, and `--page`, all of
/// them before or after the name; `clap` cuts the words.
/// A port is from 1 to 65,535, and 5000 where none is given; workers are from 1 to 16, and 4; the links of each are from 1 to
/// 4,294,967,295, and as many; numbers are decimal digits without a leading zero. What is allowed is `view`, `add` or `edit`, and
/// `add`; the host is `127.0.0.1`. The page is shown where `--page` is written.
pub fn read_serve(alloc: Global, page: &Page, words: &[Text]) -> Result<Serving, NoReading>
    ensures { Gives (λ asked. asked) spec.no_reading_cause result
        (spec.serve_read page.now words.now) }
{
    let lent = lent_words(alloc, words)?;
    read_lent(alloc, page, lent.as_slice())
}
