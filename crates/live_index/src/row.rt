//! Rows: an amount of an account on a day.

use hl_base::Text;
use hl_num::Dec;
use hl_time::Day;

/// What is added to an account in a symbol on a day.
#[derive(Debug, Drop)]
pub struct Row {
    pub account: Text,
    pub symbol: Text,
    pub day: Day,
    pub value: Dec,
}
