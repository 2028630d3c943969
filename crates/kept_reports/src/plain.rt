//! Which reports are answered from what is kept.
ghost use Rattle.std.specs.Prelude.{◌≡◌};
ghost use Rattle.kept_reports.specs.Served as spec;

use hl_base::{List, Text};
use plan_commands::asks_rules;
use report_commands::Asked;
use report_options::{Options, is_balance};

/// Whether a report is answered from what is kept: a balance without words of a query, of amounts as they are written, of
/// the accounts that have sums, and without entries that rules make.
pub fn is_from_kept(asked: &Asked) -> bool
    ensures { result ≡ spec.is_from_kept asked.now }
{
    is_bare(&asked.words)
        && is_balance(asked.options.command)
        && is_as_written(&asked.options)
        && !asked.options.empty
        && !asks_rules(&asked.options)
}

/// Whether a query has no words.
fn is_bare(words: &List<Text>) -> bool
    ensures { result ≡ spec.is_bare words.now }
{
    words.is_empty()
}

/// Whether amounts are neither valued nor taken at cost.
fn is_as_written(options: &Options) -> bool
    ensures { result ≡ spec.is_as_written options.now }
{
    !options.cost && options.value.is_none()
}
