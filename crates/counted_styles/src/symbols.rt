//! The symbols of which something is kept.
ghost use Rattle.std.specs.Prelude.{OnOk};
ghost use Rattle.counted_styles.specs.Marks.{AreAmong, AreNamed};

use crate::mark::{Mark, first_mark, next_mark};
use hl_base::{Memory, Text};
use shared_set::SharedSet;
use std::alloc::Global;

/// Puts the symbols of marks behind others: one look-up for each.
pub(crate) fn put_symbols(
    alloc: Global,
    names: &mut Vec<Text>,
    marks: &SharedSet<Mark>,
) -> Result<(), Memory>
    ensures others { OnOk result (AreAmong names.old.items names.new.items) }
    ensures named { OnOk result (AreNamed names.new.items marks.now) }
{
    let mut next = first_mark(marks);
    while let Some(mark) = next {
        let symbol = Text::copied(alloc, mark.symbol.as_str())?;
        names.push(symbol)?;
        next = next_mark(marks, mark.symbol.as_bytes());
    }
    Ok(())
}
