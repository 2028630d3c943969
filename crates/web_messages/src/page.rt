//! The page that a server shows, if it has one.
ghost use Rattle.std.specs.Prelude.{◌≡◌, IfOk};

use hl_base::{Bytes, Memory, Text};
use std::alloc::Global;

/// The page that a server shows at `/`, if it has one.
#[derive(Debug, Drop)]
pub enum Page {
    /// It has none, and its path leads nowhere.
    Absent,
    /// The bytes of the page, and what a browser may load for it: the value of the field `Content-Security-Policy`.
    Shown { text: Bytes, policy: Text },
}

/// A page of these bytes with this policy.
fn shown(alloc: Global, text: &[u8], policy: &str) -> Result<Page, Memory>
    ensures { IfOk result (λ page. page ≡ Page.Shown text.now policy.now) }
{
    let text = Bytes::copied(alloc, text)?;
    let policy = Text::copied(alloc, policy)?;
    Ok(Page::Shown { text, policy })
}

impl Page {
    /// A copy of the page, if there is one.
    pub fn copied(&self, alloc: Global) -> Result<Page, Memory>
        ensures { IfOk result (λ page. page ≡ self.now) }
    {
        match self {
            Page::Absent => Ok(Page::Absent),
            Page::Shown { text, policy } => shown(alloc, text.as_slice(), policy.as_str()),
        }
    }
}
