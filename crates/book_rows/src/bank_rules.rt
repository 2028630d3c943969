//! What a file of rules holds; other files, and those that don't read, are in tests/commands/banks.rows.
use csv_rules::words::{field_named, value_of};
use csv_rules::{EntryField, Rules, Settings};
use query_terms::RegexMaker;
use std::test::Fail;

#[test]
fn lines_are_kept(rt: HostRuntime) -> Result<(), Fail> {
    let text =
        "skip 1\nskip 5\nseparator TAB\ndecimal-mark ,\nnewest-first\nfields Date, , Amount-Out,y\nif\n& ! %x b+\nc\n account1 d\n end\n\n";
    let rules = Rules::read(rt.alloc(), text.as_bytes(), &mut RegexMaker::new())?;
    assert_eq!(rt; rules.sheet.names.len(), 4);
    assert_eq!(rt; rules.sheet.assignments.len(), 2);
    assert_eq!(rt; rules.sheet.blocks.len(), 1);
    assert_eq!(rt; rules.regexes.len(), 1);
    let wanted = Settings {
        skipped: 5,
        separator: b'\t',
        mark: Some(b','),
        newest_first: true,
        reversed_days: false,
    };
    assert_eq!(rt; rules.sheet.settings, wanted);
    assert_eq!(rt; field_named(true, b"Date"), Some(EntryField::Date));
    assert_eq!(rt; value_of(b"0012"), 12);
    Ok(())
}
