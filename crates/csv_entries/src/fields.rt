//! The texts of a record's fields.
ghost use Rattle.std.specs.Prelude.{◌≡◌};
ghost use Rattle.csv_entries.specs.Places as spec;

use csv_rules::EntryField;
use hl_base::Text;

/// What the fields of an entry are given for a record; an empty text where nothing is given.
#[derive(Drop)]
pub struct Fields {
    pub date: Text,
    pub status: Text,
    pub code: Text,
    pub description: Text,
    pub comment: Text,
    pub account1: Text,
    pub account2: Text,
    pub amount: Text,
    pub amount_in: Text,
    pub amount_out: Text,
    pub amount2: Text,
    pub currency: Text,
}

/// A field's place among all.
fn place_of(field: EntryField) -> u8
    ensures { result ≡ spec.place_of field }
{
    match field {
        EntryField::Date => 0,
        EntryField::Status => 1,
        EntryField::Code => 2,
        EntryField::Description => 3,
        EntryField::Comment => 4,
        EntryField::Account1 => 5,
        EntryField::Account2 => 6,
        EntryField::Amount => 7,
        EntryField::AmountIn => 8,
        EntryField::AmountOut => 9,
        EntryField::Amount2 => 10,
        EntryField::Currency => 11,
    }
}

/// Whether two fields are the same.
pub(crate) fn is_field(a: EntryField, b: EntryField) -> bool
    ensures { result ≡ spec.is_field a b }
{
    place_of(a) == place_of(b)
}
