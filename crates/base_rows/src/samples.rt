//! The sample of two entries, worked out by hand.
use sample_text::{sample_line, sample_text};
use std::test::Fail;

const TWO: &[u8] =
    b"2024-01-01 sample 0\n    expenses:e7  559.19 EUR\n    assets:bank\n2024-01-01 sample 1\n    expenses:e2  354.20 EUR\n    assets:bank\n";

#[test]
fn a_sample_of_two(rt: HostRuntime) -> Result<(), Fail> {
    let text = sample_text(rt.alloc(), 2)?;
    assert_eq!(rt; text.as_slice(), TWO);
    let line = sample_line(rt.alloc(), 2, 128)?;
    assert_eq!(rt;
        line.as_slice(),
        b"transactions 2, bytes 128, accounts 3, bank -913.39 EUR\n".as_slice()
    );
    Ok(())
}
