//! What a budget is shown with.
use balance_rows::Layout;
use book::Styles;

/// What a budget is shown with: its layout, the styles of its amounts, and how many columns it has.
#[derive(Drop)]
pub(crate) struct Page<'a> {
    pub layout: &'a Layout,
    pub styles: &'a Styles,
    pub columns: usize,
}
