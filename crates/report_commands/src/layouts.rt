//! What the options of a report ask of its layout.
ghost use Rattle.std.specs.Prelude.{◌≡◌};
ghost use Rattle.report_commands.specs.Layouts as spec;

use balance_rows::{Basis, Layout, Order};
use report_options::{Options, Start};

/// What a column counts.
fn basis_of(start: Start) -> Basis
    ensures { result ≡ spec.basis_of start }
{
    match start {
        Start::Change => Basis::Changes,
        Start::Cumulative => Basis::Cumulative,
        Start::Historical => Basis::Historical,
    }
}

/// In which order rows stand.
fn order_of(options: &Options) -> Order
    ensures { result ≡ spec.order_of options.now }
{
    if options.tree {
        Order::Tree
    } else if options.sort_amount {
        Order::Amounts
    } else {
        Order::Accounts
    }
}

/// Whether a report is a table.
fn is_table(options: &Options) -> bool
    ensures { result ≡ spec.is_table options.now }
{
    options.bounds.interval.is_some() || options.budget
}

/// What is asked of rows of changes; those of ending balances have no totals.
fn of_changes(start: Start, asked: bool) -> bool
    ensures { result ≡ spec.of_changes start asked }
{
    match start {
        Start::Change => asked,
        Start::Cumulative | Start::Historical => false,
    }
}

/// What the options of a report ask of its layout.
pub fn layout_of(options: &Options) -> Layout
    ensures { result ≡ spec.layout_of options.now }
{
    Layout {
        basis: basis_of(options.start),
        order: order_of(options),
        table: is_table(options),
        empty: options.empty,
        no_total: options.no_total,
        row_total: of_changes(options.start, options.row_total),
        average: of_changes(options.start, options.average),
    }
}
