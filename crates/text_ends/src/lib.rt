//! What is put behind the text of a journal, whatever the text ends with: how far the text's last piece goes on in it,
//! and what the rest says. Only what is put there is read.
#![tactic(auto)]

mod begins;
mod growing;
mod kept;
mod laws;
mod reading;
mod taking;

pub use kept::KeptEnd;
pub use laws::{bytes_go_behind, plain_bytes_are_told};
pub use reading::Grown;
