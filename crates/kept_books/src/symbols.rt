//! Names that are kept.
ghost use Rattle.std.specs.Prelude.{◌≡◌, IfOk};

use hl_base::{List, Memory, Text};
use std::alloc::Global;

/// Copies of some names.
pub(crate) fn copied_names(alloc: Global, names: &[Text]) -> Result<List<Text>, Memory>
    ensures { IfOk result (λ copies. copies ≡ names.now) }
{
    let mut copies = Vec::with_capacity(alloc, names.len())?;
    for name in names {
        copies.push(Text::copied(alloc, name.as_str())?)?;
    }
    Ok(List::from_vec(copies))
}
