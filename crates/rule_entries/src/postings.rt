//! The postings that an automated rule adds behind a matched one.
ghost use Rattle.std.specs.Prelude.{◌≡◌, IfOk};
ghost use Rattle.rule_entries.specs.Added as spec;

use crate::accounts::account_for;
use crate::amounts::{Worth, worth_of};
use book::{Posting, RulePosting, copied_tags};
use hl_base::{Memory, Text};
use std::alloc::Global;

/// The posting that one of a rule makes beside a matched one: on its day, with the account that the rule names, in which
/// `%account` is the matched one, and the amount that it writes or multiplies.
pub fn made_posting(alloc: Global, matched: &Posting, rule: &RulePosting) -> Result<Posting, Memory>
    ensures { IfOk result (λ posting. posting ≡ spec.made_posting matched.now rule.now) }
{
    let written = &rule.posting;
    let Worth {
        amount,
        cost,
        costed,
    } = worth_of(alloc, rule, matched)?;
    let account = account_for(alloc, written.account.as_str(), matched.account.as_str())?;
    let comment = Text::copied(alloc, written.comment.as_str())?;
    let tags = copied_tags(alloc, written.tags.as_slice())?;
    Ok(Posting {
        line: written.line,
        mark: written.mark,
        side: written.side,
        account,
        amount,
        cost,
        wanted: None,
        filled: false,
        costed,
        comment,
        tags,
        day: matched.day,
    })
}
