//! The texts of amounts and sums.
ghost use Rattle.std.specs.Prelude.{◌≡◌, Some, IfOk};
ghost use Rattle.book.specs.Styles.{style_in};
ghost use Rattle.register_report.specs.Lines.{amount_text};
ghost use Rattle.register_report.specs.Summed.{kept_text};

use book::{Styles, print_amount};
use hl_base::{Memory, Text};
use hl_num::Dec;
use report_cells::Share;
use std::alloc::Global;

/// An amount that is there, in its symbol's style; `0` where it is zero.
fn share_text(alloc: Global, share: &Share, styles: &Styles) -> Result<Text, Memory>
    ensures { IfOk result (λ text. text ≡ amount_text (style_in styles.now) (Some share.now)) }
{
    if share.value.magnitude() == 0 {
        return Text::copied(alloc, "0");
    }
    print_amount(
        alloc,
        share.symbol,
        share.value,
        &styles.style(share.symbol),
    )
}

/// An amount in its symbol's style; `0` where there is none or it is zero.
pub(crate) fn amount_text(
    alloc: Global,
    amount: &Option<Share>,
    styles: &Styles,
) -> Result<Text, Memory>
    ensures { IfOk result (λ text. text ≡ amount_text (style_in styles.now) amount.now) }
{
    match amount {
        Some(share) => share_text(alloc, share, styles),
        None => Text::copied(alloc, "0"),
    }
}

/// A sum in its symbol's style.
pub(crate) fn sum_text(alloc: Global, sum: &(Text, Dec), styles: &Styles) -> Result<Text, Memory>
    ensures { IfOk result (λ text. text ≡ kept_text (style_in styles.now) sum.now) }
{
    let style = styles.style(&sum.0);
    print_amount(alloc, &sum.0, sum.1, &style)
}
