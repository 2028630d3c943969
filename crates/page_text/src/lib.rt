//! The page that the program shows in a browser. `tools/page` makes it of the files in `page/`; no clause says what its bytes
//! are.
#![tactic(auto)]

mod built;
mod pieces;

pub use built::built_page;
