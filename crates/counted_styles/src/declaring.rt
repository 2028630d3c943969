//! Directives that say how symbols are written.
ghost use Rattle.std.specs.Prelude.{◌≡◌, pos, IfOk};
ghost use Rattle.book.specs.Standing.{Numbered};
ghost use Rattle.book.specs.Styles.{style_standing};
ghost use Rattle.book.specs.declared.item.Item.{Item};
ghost use Rattle.counted_styles.specs.Directives.{declarations, declared};
ghost use Rattle.counted_styles.specs.Kept.{AreOf};

use crate::styles::CountedStyles;
use book::{Amount, Directive, Item, Placed, Style};
use hl_base::{Kind, Memory, Piece, Text};
use hl_num::Dec;
use std::alloc::Global;

/// An amount of nothing in a style. A number has no more decimals than a style has.
fn amount_in(alloc: Global, symbol: &Text, style: Style) -> Result<Amount, Memory>
    ensures { IfOk result (λ amount. amount ≡ record {
      value = record { mantissa = pos 0; places = style.places };
      symbol = symbol.now;
      shape = style.shape;
    }) }
{
    match Dec::new(0, style.places) {
        Some(value) => Ok(Amount {
            value,
            symbol: Text::copied(alloc, symbol.as_str())?,
            shape: style.shape,
        }),
        None => Err(Memory),
    }
}

/// The directive that says how a symbol is written. It stands in no text.
fn declare(alloc: Global, symbol: &Text, style: Style) -> Result<Placed, Memory>
    ensures { IfOk result (λ placed. placed ≡ declared symbol.now style) }
{
    let amount = amount_in(alloc, symbol, style)?;
    let name = Text::copied(alloc, symbol.as_str())?;
    Ok(Placed {
        piece: Piece {
            at: 0,
            len: 0,
            line: 0,
            kind: Kind::Head,
        },
        item: Item::Directive(Directive::Commodity(name, Some(amount))),
    })
}

/// Directives that say how some symbols are written.
pub(crate) fn declare_all(
    alloc: Global,
    styles: &CountedStyles,
    symbols: &[Text],
) -> Result<Vec<Placed>, Memory>
    ensures { IfOk result (λ items. (standing : Numbered Item) → AreOf standing styles.now
        → items.items ≡ declarations (style_standing standing) symbols.now) }
{
    let mut items = Vec::new(alloc);
    for symbol in symbols {
        let look = styles.style(symbol);
        let placed = declare(alloc, symbol, look)?;
        items.push(placed)?;
    }
    Ok(items)
}
