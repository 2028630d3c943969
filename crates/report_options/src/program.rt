//! The options of a report in the program's own words, which name the journal too.
ghost use Rattle.std.specs.Prelude.{◌≡◌, IfOk};
ghost use Rattle.hl_base.specs.Gives.{Gives};
ghost use Rattle.hl_time.specs.Calendar.{IsDay};
ghost use Rattle.report_options.specs.Items.{fault_cause};
ghost use Rattle.report_options.specs.Options.{IsValid};
ghost use Rattle.report_options.specs.Programs as spec;

use crate::command::Command;
use crate::fault::OptionFault;
use crate::items::Item;
use crate::names::{Name, Place};
use crate::options::Options;
use crate::reading::{judged_items, latest, options_of, query_words};
use crate::values::Value;
use hl_base::{List, Memory, Text};
use hl_time::Day;
use std::alloc::Global;

/// The journal that words name, as a file, as a store, or as neither.
#[derive(Debug, Drop)]
pub struct Given {
    /// The value of `-f`; `-` is the standard input.
    pub file: Option<Text>,
    /// The value of `--store`.
    pub store: Option<Text>,
}

/// The name behind the last of some options.
fn name_behind(alloc: Global, items: &[Item], names: &[Name]) -> Result<Option<Text>, Memory>
    ensures { IfOk result (λ name. name ≡ spec.name_behind items.now names.now) }
{
    match latest(items, names) {
        Some(item) => match &item.value {
            Value::Named(name) => Ok(Some(Text::copied(alloc, name.as_str())?)),
            _ => Ok(None),
        },
        None => Ok(None),
    }
}

/// The journal that the items name.
fn given_of(alloc: Global, items: &[Item]) -> Result<Given, Memory>
    ensures { IfOk result (λ given. given ≡ spec.given_of items.now) }
{
    let file = name_behind(alloc, items, &[Name::File])?;
    let store = name_behind(alloc, items, &[Name::Store])?;
    Ok(Given { file, store })
}

/// What the words of a report command behind the program's name say on a day, as `read_options`, and the journal that they
/// name: every command has `-f` and `--store` too, of each the last counts, and both together are a `Conflict`. Their value
/// is the next word, whatever that is, or that of `--store` stands behind `=`. `-f` has no long form.
#[tactic(auto, using(crate::proofs::Fields::program_read, crate::proofs::Fields::program_bad))]
pub fn read_program_options(
    alloc: Global,
    command: Command,
    words: &[Text],
    day: Day,
) -> Result<(Given, Options, List<Text>), OptionFault>
    requires { IsDay day.0 }
    ensures answer { Gives (λ read. read) fault_cause result
        (spec.program_reading command day.0 words.now) }
    ensures valid { IfOk result (λ read. IsValid read.1) }
{
    let items = judged_items(alloc, Place::Program, command, words, day)?;
    let given = given_of(alloc, &items)?;
    let options = options_of(alloc, command, &items)?;
    let query = query_words(alloc, &items)?;
    Ok((given, options, query))
}
