//! What the sums of a report are made of.
use book::Styles;
use prices::Prices;
use report_takings::Scope;

/// What the sums of a report are made of: its book, its query and its options, the prices of its text, and the styles
/// of symbols.
#[derive(Clone, Copy)]
pub struct Job<'a> {
    pub scope: Scope<'a>,
    pub prices: &'a Prices,
    pub styles: &'a Styles,
}
