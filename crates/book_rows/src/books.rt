//! Styles of items that are added and removed; what numbers look like is in tests/journals/numbers.rows.
use crate::samples::amount;
use book::item::Item;
use book::{Directive, Price, Styles};
use hl_base::Text;
use hl_time::Day;
use std::test::Fail;

#[test]
fn styles_follow_their_items(rt: HostRuntime) -> Result<(), Fail> {
    let alloc = rt.alloc();
    let euro = Text::copied(alloc, "EUR")?;
    let mut styles = Styles::new(alloc);
    let price = Price {
        day: Day(1),
        symbol: Text::copied(alloc, "X")?,
        amount: amount(alloc, 12345, 3, "EUR")?,
    };
    styles.add_item(alloc, 0, &Item::Price(price))?;
    assert_eq!(rt; styles.style(&euro).places, 3);
    let usual = Directive::Default(amount(alloc, 100, 2, "EUR")?);
    styles.add_item(alloc, 3, &Item::Directive(usual))?;
    let copy = styles.copy(alloc)?;
    styles.remove_item(3);
    assert_eq!(rt; styles.style(&euro).places, 3);
    assert_eq!(rt; copy.style(&euro).places, 2);
    Ok(())
}
