//! The page, with what a browser may load for it.
ghost use Rattle.std.specs.Prelude.{◌≡◌, IfOk};
ghost use Rattle.page_text.specs.Policies.{policy_of, IsBuilt};

use crate::pieces::{put_page, script_digest, style_digest};
use hl_base::{Bytes, Memory, Text};
use std::alloc::Global;
use web_messages::page::Page;

/// The bytes of the page.
fn page_bytes(alloc: Global) -> Result<Bytes, Memory> {
    let mut all = Vec::new(alloc);
    put_page(&mut all)?;
    Ok(Bytes::from_vec(all))
}

/// What a browser may load for a page whose one script and one style have these digests.
fn page_policy(alloc: Global, script: &str, style: &str) -> Result<Text, Memory>
    ensures { IfOk result (λ policy. policy ≡ policy_of script.now style.now) }
{
    let mut policy = String::from_str(
        alloc,
        "default-src 'none'; connect-src 'self'; script-src 'sha256-",
    )?;
    policy.push_str(script)?;
    policy.push_str("'; style-src 'sha256-")?;
    policy.push_str(style)?;
    policy.push_str("'; form-action 'none'; base-uri 'none'; frame-ancestors 'none'")?;
    Ok(Text::from_string(policy))
}

/// The page, with what a browser may load for it.
pub fn built_page(alloc: Global) -> Result<Page, Memory>
    ensures { IfOk result IsBuilt }
{
    let text = page_bytes(alloc)?;
    let policy = page_policy(alloc, script_digest(), style_digest())?;
    Ok(Page::Shown { text, policy })
}
