//! Files of rules.
ghost use Rattle.std.specs.Prelude.{◌≡◌};
ghost use Rattle.csv_rules.specs.Drafts.{progress_of};
ghost use Rattle.csv_rules.specs.Reading.{Reads, TakesLine};

use crate::building::build_form;
use crate::drafts::Draft;
use crate::faults::RulesFault;
use crate::kinds::Sheet;
use crate::lines::read_form;
use entry_reader::scan::cut_line;
use query_terms::{MakeFault, Maker};
use regex::Regex;
use std::alloc::Global;

/// A file of rules: what it says, and the regexes of its patterns.
#[derive(Drop)]
pub struct Rules {
    pub sheet: Sheet,
    pub regexes: Vec<Regex>,
}

/// Reads the next line, builds its pattern, and adds what it says.
fn take_line<M: Maker>(
    alloc: Global,
    line: u64,
    content: &[u8],
    draft: &mut Draft,
    regexes: &mut Vec<Regex>,
    maker: &mut M,
) -> Result<(), RulesFault>
    ensures { TakesLine line content.now (progress_of draft.old) (progress_of draft.new)
        regexes.old.items regexes.new.items (M.refusals maker.old) (M.refusals maker.new)
        (M.last_refused maker.old) (M.last_refused maker.new) result }
{
    let form = match read_form(alloc, draft.stage(), content) {
        Ok(Some(form)) => form,
        Ok(None) => return Err(RulesFault::BadRule { line }),
        Err(_) => return Err(RulesFault::Memory),
    };
    match build_form(alloc, &form, regexes, maker) {
        Ok(()) => {}
        Err(MakeFault::Memory) => return Err(RulesFault::Memory),
        Err(MakeFault::Refused) => return Err(RulesFault::PatternRefused { line }),
    }
    match draft.put(alloc, form) {
        Ok(()) => Ok(()),
        Err(_) => Err(RulesFault::Memory),
    }
}

impl Rules {
    /// The rules that a text is. Each line is judged by its form, and its pattern is then built; the first line that is
    /// refused decides. A pattern without special characters needs no maker.
    pub fn read<M: Maker>(alloc: Global, text: &[u8], maker: &mut M) -> Result<Rules, RulesFault>
        ensures { Reads text.now (M.refusals maker.old) (M.refusals maker.new)
            (M.last_refused maker.old) (M.last_refused maker.new) result }
    {
        let mut draft = Draft::new(alloc);
        let mut regexes = Vec::new(alloc);
        let mut rest = text;
        let mut line = 1;
        while !rest.is_empty() {
            let (content, after) = cut_line(rest);
            match take_line(alloc, line, content, &mut draft, &mut regexes, maker) {
                Ok(()) => {}
                Err(fault) => return Err(fault),
            }
            rest = after;
            line += 1;
        }
        match draft.finish(alloc) {
            Ok(Some(sheet)) => Ok(Rules { sheet, regexes }),
            Ok(None) => Err(RulesFault::BadRule { line }),
            Err(_) => Err(RulesFault::Memory),
        }
    }
}
