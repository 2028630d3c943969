//! One change of a text, and what is kept of an import.
ghost use Rattle.std.specs.Prelude.{◌≡◌, IfOk};

use crate::bytes::Bytes;
use crate::fault::Memory;
use crate::text::Text;
use std::alloc::Global;

/// The state of one import: the latest day of its entries, and how many entries of that day it took.
#[derive(Debug, Drop)]
pub struct Latest {
    pub name: Text,
    pub day: u32,
    pub count: u32,
}

impl Latest {
    /// A copy of the state.
    pub fn copied(&self, alloc: Global) -> Result<Latest, Memory>
        ensures { IfOk result (λ copy. copy ≡ self.now) }
    {
        Ok(Latest {
            name: Text::copied(alloc, self.name.as_str())?,
            day: self.day,
            count: self.count,
        })
    }
}

/// A change of a text: at a place in bytes, so many bytes are removed and others inserted.
#[derive(Debug, Drop)]
pub struct Splice {
    pub at: u64,
    pub removed: u64,
    pub inserted: Bytes,
}
