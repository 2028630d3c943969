//! A text, worked out by hand from the rules of the format; other texts are in tests/journals.
ghost use Rattle.std.specs.Prelude.{◌≡◌};

use book::Item;
use hl_base::Steps;
use journal_reader::read_journal;
use std::alloc::Global;
use std::marker::Brand;
use std::process::Abort;
use std::sync::ledger::{Blank, Ledger};
use std::test::Fail;

/// A directive, two entries without a year, and a gap.
const TWO: &[u8] = b"apply account own\n1/5 x\n    a  1 EUR\n2/29 y\n    a  1 EUR\n \n";

/// The text's items with a year for its dates, and none without one.
fn each_text<L: Ledger, R: Abort>(
    rt: &R,
    alloc: Global,
    blank: Blank,
    text: &[u8],
) -> Result<(), Fail>
    requires name { blank.name ≡ L.name }
    requires parts { blank.parts ≡ L.parts }
    requires three { blank.parts ≡ 3 }
{
    let mut steps = Steps::<L>::start(blank);
    assert!(rt; text.len() < 100);
    assert!(rt; read_journal(alloc, text, None, &mut steps).is_err());
    match read_journal(alloc, text, Some(2024), &mut steps) {
        Ok(items) => match items.as_slice() {
            [_, second, _, _] => match &second.item {
                Item::Txn(txn) => match txn.postings.as_slice() {
                    [posting] => {
                        assert!(rt; txn.day.0 == 738_890);
                        assert!(rt; posting.account.as_str() == "own:a");
                    }
                    _ => return Err(Fail::new("a posting")),
                },
                _ => return Err(Fail::new("an entry")),
            },
            _ => return Err(Fail::new("four items")),
        },
        Err(_) => return Err(Fail::new("the text reads")),
    }
    Ok(())
}

#[test]
fn texts(rt: HostRuntime) -> Result<(), Fail> {
    each_text::<Brand, HostRuntime>(&rt, rt.alloc(), Blank::new(3), TWO)
}
