//! The field for which a record is refused.
ghost use Rattle.std.specs.Prelude.{◌≡◌, IfOk, ◌-◌, map, option_map, slice_get};
ghost use Rattle.csv.specs.Records.{fields_of};
ghost use Rattle.csv_entries.specs.Records.{rows_of};
ghost use Rattle.bank_explanations.specs.Parts as spec;

use book::Amount;
use csv::ByteRecord;
use csv_entries::ConvertFault;
use csv_entries::amounts::{amount_of, context_of, in_currency};
use csv_entries::blocks::{Row, applying, read_fields};
use csv_entries::fields::Fields;
use csv_entries::judging::joined;
use csv_entries::records::{read_columns, read_rows};
use csv_entries::skipping::text_after;
use csv_rules::{EntryField, Rules};
use entry_reader::{Context, ReadFault, read_account};
use hl_base::{Memory, Text};
use query_terms::cutting::bytes_of;
use query_terms::{Finder, status_of};
use std::alloc::Global;

/// A field of a record, and what it is given.
#[derive(Drop)]
pub(crate) struct Part {
    pub(crate) field: EntryField,
    pub(crate) text: Text,
}

/// What the fields of a record with these columns are given.
fn fields_by(alloc: Global, rules: &Rules, columns: &[Text]) -> Result<Fields, Memory>
    ensures { IfOk result (λ g. g ≡ spec.fields_by rules.now columns.now) }
{
    let mut finder = Finder::new(alloc, rules.regexes.as_slice())?;
    let whole = joined(alloc, columns)?;
    let row = Row {
        names: rules.sheet.names.as_slice(),
        columns,
        whole: whole.as_str(),
    };
    let blocks = applying(alloc, rules.sheet.blocks.as_slice(), row, &mut finder)?;
    read_fields(alloc, &rules.sheet, columns, blocks.as_slice())
}

/// What the fields of a record are given, where its columns are UTF-8.
fn fields_in(alloc: Global, rules: &Rules, row: &ByteRecord) -> Result<Option<Fields>, Memory>
    ensures { IfOk result (λ g. g ≡ spec.fields_in rules.now (fields_of row.now)) }
{
    match read_columns(alloc, row)? {
        Some(columns) => Ok(Some(fields_by(alloc, rules, columns.as_slice())?)),
        None => Ok(None),
    }
}

/// What the fields of one of some records are given.
fn fields_of_row(
    alloc: Global,
    rules: &Rules,
    rows: &[ByteRecord],
    place: u64,
) -> Result<Option<Fields>, Memory>
    ensures { IfOk result (λ g. g ≡ spec.fields_from rules.now (map fields_of rows.now) place) }
{
    match rows.get(place as usize) {
        Some(row) => fields_in(alloc, rules, row),
        None => Ok(None),
    }
}

/// What the fields of a record of a file are given, where there is such a record and its columns are UTF-8.
fn fields_at(alloc: Global, rules: &Rules, text: &[u8], n: u64) -> Result<Option<Fields>, Memory>
    ensures { IfOk result (λ g. g ≡ spec.fields_at rules.now text.now n) }
{
    let settings = rules.sheet.settings;
    let rest = text_after(text, settings.skipped);
    let rows = read_rows(alloc, settings.separator, rest)?;
    fields_of_row(alloc, rules, rows.as_slice(), n.saturating_sub(1))
}

/// What a field is given.
fn text_in(fields: &Fields, field: EntryField) -> &Text
    ensures { result.now ≡ spec.text_in fields.now field }
{
    match field {
        EntryField::Date => &fields.date,
        EntryField::Status => &fields.status,
        EntryField::Code => &fields.code,
        EntryField::Description => &fields.description,
        EntryField::Comment => &fields.comment,
        EntryField::Account1 => &fields.account1,
        EntryField::Account2 => &fields.account2,
        EntryField::Amount => &fields.amount,
        EntryField::AmountIn => &fields.amount_in,
        EntryField::AmountOut => &fields.amount_out,
        EntryField::Amount2 => &fields.amount2,
        EntryField::Currency => &fields.currency,
    }
}

/// Whether a field is empty.
fn is_empty(text: &Text) -> bool
    ensures { result ≡ spec.is_empty text.now }
{
    text.as_bytes().is_empty()
}

/// Whether a text is empty or reads as an amount.
fn is_amount(alloc: Global, context: &Context, text: &Text) -> Result<bool, Memory>
    ensures { IfOk result (λ valid. valid ≡ spec.is_amount context.now text.now) }
{
    if is_empty(text) {
        return Ok(true);
    }
    match amount_of(alloc, context, text)? {
        Some(_) => Ok(true),
        None => Ok(false),
    }
}

/// Whether a text is empty or reads as an account.
fn is_account(alloc: Global, text: &Text) -> Result<bool, Memory>
    ensures { IfOk result (λ valid. valid ≡ spec.is_account text.now) }
{
    if is_empty(text) {
        return Ok(true);
    }
    match read_account(alloc, bytes_of(text.as_str())) {
        Ok(_) => Ok(true),
        Err(ReadFault::Read(_)) => Ok(false),
        Err(ReadFault::Memory) => Err(Memory),
    }
}

/// Whether an amount can have the currency.
fn can_have(alloc: Global, currency: &Text, amount: Amount) -> Result<bool, Memory>
    ensures { IfOk result (λ valid. valid ≡ spec.can_have currency.now amount) }
{
    match in_currency(alloc, currency, amount)? {
        Some(_) => Ok(true),
        None => Ok(false),
    }
}

/// Whether the amount that a text writes, if it writes one, can have the currency.
fn fits(alloc: Global, context: &Context, currency: &Text, text: &Text) -> Result<bool, Memory>
    ensures { IfOk result (λ valid. valid ≡ spec.fits context.now currency.now text.now) }
{
    match amount_of(alloc, context, text)? {
        Some(amount) => can_have(alloc, currency, amount),
        None => Ok(true),
    }
}

/// Whether each amount that reads can have the currency.
fn fits_all(alloc: Global, context: &Context, fields: &Fields) -> Result<bool, Memory>
    ensures { IfOk result (λ valid. valid ≡ spec.fits_all context.now fields.now) }
{
    let amount = fits(alloc, context, &fields.currency, &fields.amount)?;
    let coming = fits(alloc, context, &fields.currency, &fields.amount_in)?;
    let going = fits(alloc, context, &fields.currency, &fields.amount_out)?;
    let other = fits(alloc, context, &fields.currency, &fields.amount2)?;
    Ok(amount && coming && going && other)
}

/// Whether a field of a record is valid.
fn is_valid(
    alloc: Global,
    context: &Context,
    fields: &Fields,
    field: EntryField,
) -> Result<bool, Memory>
    ensures { IfOk result (λ valid. valid ≡ spec.is_valid context.now fields.now field) }
{
    match field {
        EntryField::Status => Ok(status_of(fields.status.as_bytes()).is_some()),
        EntryField::Amount => is_amount(alloc, context, &fields.amount),
        EntryField::AmountIn => is_amount(alloc, context, &fields.amount_in),
        EntryField::AmountOut => is_amount(alloc, context, &fields.amount_out),
        EntryField::Amount2 => is_amount(alloc, context, &fields.amount2),
        EntryField::Currency => fits_all(alloc, context, fields),
        EntryField::Account1 => is_account(alloc, &fields.account1),
        EntryField::Account2 => is_account(alloc, &fields.account2),
        EntryField::Date | EntryField::Code | EntryField::Description | EntryField::Comment => Ok(
            true,
        ),
    }
}

/// The first of some fields that isn't valid.
#[tactic(auto, using(crate::proofs::Finding::not_this, crate::proofs::Finding::this_one, crate::proofs::Finding::no_more))]
fn first_bad(
    alloc: Global,
    context: &Context,
    fields: &Fields,
    judged: &[EntryField],
) -> Result<Option<EntryField>, Memory>
    ensures { IfOk result (λ field. field ≡ spec.first_bad context.now fields.now judged.now) }
{
    let mut rest = judged;
    while let Some((first, more)) = rest.split_first() {
        let valid = is_valid(alloc, context, fields, *first)?;
        if !valid {
            return Ok(Some(*first));
        }
        rest = more;
    }
    Ok(None)
}

/// The first field in the order of judging that isn't valid.
fn bad_field(
    alloc: Global,
    context: &Context,
    fields: &Fields,
) -> Result<Option<EntryField>, Memory>
    ensures { IfOk result (λ field. field ≡ spec.bad_field context.now fields.now) }
{
    let judged = [
        EntryField::Status,
        EntryField::Amount,
        EntryField::AmountIn,
        EntryField::AmountOut,
        EntryField::Currency,
        EntryField::Amount2,
        EntryField::Account1,
        EntryField::Account2,
    ];
    first_bad(alloc, context, fields, &judged)
}

/// A field of a record, and what it is given.
fn part_of(alloc: Global, fields: &Fields, field: EntryField) -> Result<Part, Memory>
    ensures { IfOk result (λ part. part ≡ spec.part_of fields.now field) }
{
    Ok(Part {
        field,
        text: Text::copied(alloc, text_in(fields, field).as_str())?,
    })
}

/// The first field that isn't valid.
fn bad_part(alloc: Global, context: &Context, fields: &Fields) -> Result<Option<Part>, Memory>
    ensures { IfOk result (λ part. part ≡ spec.bad_part context.now fields.now) }
{
    match bad_field(alloc, context, fields)? {
        Some(field) => Ok(Some(part_of(alloc, fields, field)?)),
        None => Ok(None),
    }
}

/// The date of a record, where its fields are known.
fn date_in(alloc: Global, fields: &Option<Fields>) -> Result<Option<Part>, Memory>
    ensures { IfOk result (λ part. part ≡ option_map spec.date_part fields.now) }
{
    match fields {
        Some(fields) => Ok(Some(part_of(alloc, fields, EntryField::Date)?)),
        None => Ok(None),
    }
}

/// The date of a record, of fields that are known or not.
fn date_of(alloc: Global, fields: Option<Fields>) -> Result<Option<Part>, Memory>
    ensures { IfOk result (λ part. part ≡ option_map spec.date_part fields) }
{
    date_in(alloc, &fields)
}

/// The first field that isn't valid, where a file has this decimal mark.
fn bad_by(alloc: Global, mark: Option<u8>, fields: &Fields) -> Result<Option<Part>, Memory>
    ensures { IfOk result (λ part. part ≡ spec.bad_by mark fields.now) }
{
    let context = context_of(alloc, mark)?;
    bad_part(alloc, &context, fields)
}

/// The first field of a record that isn't valid, where its fields are known.
fn bad_in(alloc: Global, mark: Option<u8>, fields: &Option<Fields>) -> Result<Option<Part>, Memory>
    ensures { IfOk result (λ part. part ≡ spec.bad_of mark fields.now) }
{
    match fields {
        Some(fields) => bad_by(alloc, mark, fields),
        None => Ok(None),
    }
}

/// The first field of a record that isn't valid, of fields that are known or not.
fn bad_of(alloc: Global, mark: Option<u8>, fields: Option<Fields>) -> Result<Option<Part>, Memory>
    ensures { IfOk result (λ part. part ≡ spec.bad_of mark fields) }
{
    bad_in(alloc, mark, &fields)
}

/// The field for which a record is refused, and what it is given; none where the cause isn't about one.
pub(crate) fn part_for(
    alloc: Global,
    rules: &Rules,
    text: &[u8],
    fault: ConvertFault,
) -> Result<Option<Part>, Memory>
    ensures { IfOk result (λ part. part ≡ spec.part_for rules.now text.now fault) }
{
    match fault {
        ConvertFault::NoDate { n } => date_of(alloc, fields_at(alloc, rules, text, n)?),
        ConvertFault::BadRecord { n } => {
            let fields = fields_at(alloc, rules, text, n)?;
            bad_of(alloc, rules.sheet.settings.mark, fields)
        }
        ConvertFault::NoAmount { .. }
        | ConvertFault::TwoAmounts { .. }
        | ConvertFault::CsvRefused { .. }
        | ConvertFault::Memory => Ok(None),
    }
}
