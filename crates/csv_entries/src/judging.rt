//! The entry that a record becomes, or why it becomes none.
ghost use Rattle.std.specs.Prelude.{◌≡◌, true, IfOk, option_map, map};
ghost use Rattle.std.specs.List.{join_with_byte};
ghost use Rattle.std.specs.Str.{is_utf8};
ghost use Rattle.std.specs.String.{string_bytes};
ghost use Rattle.entry_reader.specs.Tags.{tags_of};
ghost use Rattle.hl_base.specs.Gives.{Gives};
ghost use Rattle.query_terms.specs.Finders.{known_in};
ghost use Rattle.csv_entries.specs.Conversion.{cause_in};
ghost use Rattle.csv_entries.specs.Judging as spec;

use crate::amounts::{
    amount_of, context_of, in_currency, is_given, is_zero, negated_copy, negated_in,
};
use crate::blocks::{Row, applying, read_fields, some_end, some_skip};
use crate::dates::read_day;
use crate::faults::ConvertFault;
use crate::fields::Fields;
use book::{Amount, Mark, Posting, Side, Tag, Txn};
use csv_rules::Sheet;
use entry_reader::comment::append;
use entry_reader::scan::{after, before, has};
use entry_reader::tag::push_tags;
use entry_reader::{Context, ReadFault, read_account};
use hl_base::{List, Memory, Text};
use hl_time::Day;
use query_terms::cutting::bytes_of;
use query_terms::{Finder, status_of};
use std::alloc::Global;

/// What becomes of a record.
#[derive(Drop)]
pub enum Outcome {
    /// A block leaves it and all later ones out.
    Ends,
    /// A block leaves it out.
    LeftOut,
    Entry(Txn),
}

/// A line without the CR that belongs to its end.
#[tactic(auto, using(crate::proofs::Spaced::front_utf8))]
fn without_return(line: &[u8]) -> &[u8]
    ensures value { result.now ≡ spec.without_return line.now }
    ensures utf8 { is_utf8 line.now ≡ true → is_utf8 result.now ≡ true }
{
    if 0 < line.len() && line[line.len() - 1] == b'\r' {
        let (front, _) = line.split_at(line.len() - 1);
        front
    } else {
        line
    }
}

/// A text with its line ends as spaces.
#[tactic(auto, using(crate::proofs::Spaced::one_more, crate::proofs::Spaced::last_one, csv_rules::proofs::ColumnLaws::shorter))]
fn one_line(alloc: Global, text: &Text) -> Result<Text, Memory>
    ensures { IfOk result (λ line. line ≡ spec.one_line text.now) }
{
    let mut line = String::new(alloc);
    let mut rest = bytes_of(text.as_str());
    while has(rest, b'\n') {
        append(&mut line, without_return(before(rest, b'\n')))?;
        line.push_str(" ")?;
        rest = after(rest, b'\n');
    }
    append(&mut line, rest)?;
    Ok(Text::from_string(line))
}

/// Whether `amount` stands beside `amount-in` or `amount-out`.
fn has_both_kinds(fields: &Fields) -> bool
    ensures { result ≡ spec.has_both_kinds fields.now }
{
    is_given(fields.amount.as_bytes())
        && (is_given(fields.amount_in.as_bytes()) || is_given(fields.amount_out.as_bytes()))
}

fn is_nonzero(amount: &Option<Amount>) -> bool
    ensures { result ≡ spec.is_nonzero amount.now }
{
    match amount {
        Some(amount) => !is_zero(amount),
        None => false,
    }
}

/// Whether `amount-in` and `amount-out` are both other than zero.
fn has_both_ways(alloc: Global, context: &Context, fields: &Fields) -> Result<bool, Memory>
    ensures { IfOk result (λ both. both ≡ spec.has_both_ways context.now fields.now) }
{
    let coming = amount_of(alloc, context, &fields.amount_in)?;
    let going = amount_of(alloc, context, &fields.amount_out)?;
    Ok(is_nonzero(&coming) && is_nonzero(&going))
}

fn has_amount(fields: &Fields) -> bool
    ensures { result ≡ spec.has_amount fields.now }
{
    is_given(fields.amount.as_bytes())
        || is_given(fields.amount_in.as_bytes())
        || is_given(fields.amount_out.as_bytes())
}

/// Of the amounts of both ways the one that isn't zero, and of two zeros the first.
fn one_way(coming: Option<Amount>, going: Option<Amount>) -> Option<Amount>
    ensures { result ≡ spec.one_way coming going }
{
    match (coming, going) {
        (Some(coming), Some(going)) => {
            if is_zero(&coming) && !is_zero(&going) {
                negated_in(Some(going))
            } else {
                Some(coming)
            }
        }
        _ => None,
    }
}

/// The amount that a text writes, with the currency that is given.
fn amount_with(
    alloc: Global,
    context: &Context,
    currency: &Text,
    text: &Text,
) -> Result<Option<Amount>, Memory>
    ensures { IfOk result (λ found. found ≡ spec.amount_with context.now currency.now text.now) }
{
    match amount_of(alloc, context, text)? {
        Some(amount) => in_currency(alloc, currency, amount),
        None => Ok(None),
    }
}

/// The first amount; `amount-out` is negated.
fn first_amount(alloc: Global, context: &Context, fields: &Fields) -> Result<Option<Amount>, Memory>
    ensures { IfOk result (λ amount. amount ≡ spec.first_amount context.now fields.now) }
{
    if is_given(fields.amount.as_bytes()) {
        return amount_with(alloc, context, &fields.currency, &fields.amount);
    }
    if !is_given(fields.amount_out.as_bytes()) {
        return amount_with(alloc, context, &fields.currency, &fields.amount_in);
    }
    let going = amount_with(alloc, context, &fields.currency, &fields.amount_out)?;
    if !is_given(fields.amount_in.as_bytes()) {
        return Ok(negated_in(going));
    }
    let coming = amount_with(alloc, context, &fields.currency, &fields.amount_in)?;
    Ok(one_way(coming, going))
}

/// The second amount: the one that is written, else the first negated.
fn second_amount(
    alloc: Global,
    context: &Context,
    fields: &Fields,
    first: &Amount,
) -> Result<Option<Amount>, Memory>
    ensures { IfOk result (λ amount. amount ≡ spec.second_amount context.now fields.now first.now) }
{
    if is_given(fields.amount2.as_bytes()) {
        amount_with(alloc, context, &fields.currency, &fields.amount2)
    } else {
        Ok(Some(negated_copy(alloc, first)?))
    }
}

/// The account that isn't given.
fn unknown(alloc: Global, amount: &Amount) -> Result<(Side, Text), Memory>
    ensures { IfOk result (λ account. account ≡ spec.unknown amount.now) }
{
    let name = if amount.value.is_negative() {
        "income:unknown"
    } else {
        "expenses:unknown"
    };
    Ok((Side::Real, Text::copied(alloc, name)?))
}

/// The account of an amount's posting, where it reads.
fn account_in(alloc: Global, text: &Text, amount: &Amount) -> Result<Option<(Side, Text)>, Memory>
    ensures { IfOk result (λ account. account ≡ spec.account_in text.now amount.now) }
{
    let bytes = bytes_of(text.as_str());
    if !is_given(bytes) {
        return Ok(Some(unknown(alloc, amount)?));
    }
    match read_account(alloc, bytes) {
        Ok(account) => Ok(Some(account)),
        Err(ReadFault::Read(_)) => Ok(None),
        Err(ReadFault::Memory) => Err(Memory),
    }
}

/// The posting of an account and an amount, where the account reads.
fn posting_in(
    alloc: Global,
    line: u64,
    text: &Text,
    amount: Amount,
) -> Result<Option<Posting>, Memory>
    ensures { IfOk result (λ posting. posting ≡ spec.posting_in line text.now amount) }
{
    match account_in(alloc, text, &amount)? {
        Some((side, account)) => {
            let mut posting = Posting::plain(alloc, line, side, account);
            posting.amount = Some(amount);
            Ok(Some(posting))
        }
        None => Ok(None),
    }
}

/// Both postings of an entry, where the amounts and the accounts read.
fn postings_in(
    alloc: Global,
    context: &Context,
    fields: &Fields,
) -> Result<Option<(Posting, Posting)>, Memory>
    ensures { IfOk result (λ postings. postings ≡ spec.postings_in context.now fields.now) }
{
    let Some(amount) = first_amount(alloc, context, fields)? else {
        return Ok(None);
    };
    let Some(other) = second_amount(alloc, context, fields, &amount)? else {
        return Ok(None);
    };
    let Some(first) = posting_in(alloc, 2, &fields.account1, amount)? else {
        return Ok(None);
    };
    let Some(second) = posting_in(alloc, 3, &fields.account2, other)? else {
        return Ok(None);
    };
    Ok(Some((first, second)))
}

fn read_tags(alloc: Global, comment: &Text) -> Result<List<Tag>, Memory>
    ensures { IfOk result (λ tags. tags ≡ tags_of comment.now) }
{
    let mut tags = Vec::new(alloc);
    push_tags(alloc, &mut tags, bytes_of(comment.as_str()))?;
    Ok(List::from_vec(tags))
}

fn both(alloc: Global, first: Posting, second: Posting) -> Result<List<Posting>, Memory>
    ensures { IfOk result (λ postings. postings ≡ spec.both first second) }
{
    let mut postings = Vec::new(alloc);
    postings.push(first)?;
    postings.push(second)?;
    Ok(List::from_vec(postings))
}

/// An entry, with the lines that it would have alone.
fn entry(
    alloc: Global,
    day: Day,
    mark: Mark,
    fields: &Fields,
    postings: (Posting, Posting),
) -> Result<Txn, Memory>
    ensures { IfOk result (λ txn. txn ≡ spec.entry day.0 mark fields.now postings.0 postings.1) }
{
    let (first, second) = postings;
    let postings = both(alloc, first, second)?;
    let code = one_line(alloc, &fields.code)?;
    let description = one_line(alloc, &fields.description)?;
    let comment = one_line(alloc, &fields.comment)?;
    let tags = read_tags(alloc, &comment)?;
    Ok(Txn {
        line: 1,
        day,
        mark,
        code,
        description,
        comment,
        tags,
        postings,
    })
}

/// The entry of a day, where its mark, its amounts and its accounts read.
fn entry_on(
    alloc: Global,
    context: &Context,
    fields: &Fields,
    day: Day,
) -> Result<Option<Txn>, Memory>
    ensures { IfOk result (λ txn. txn ≡ spec.entry_on context.now fields.now day.0) }
{
    let Some(mark) = status_of(fields.status.as_bytes()) else {
        return Ok(None);
    };
    let Some(postings) = postings_in(alloc, context, fields)? else {
        return Ok(None);
    };
    Ok(Some(entry(alloc, day, mark, fields, postings)?))
}

/// The entry of a record with a day that no block leaves out.
fn judge_on(
    alloc: Global,
    n: u64,
    context: &Context,
    fields: &Fields,
    day: Option<Day>,
) -> Result<Txn, ConvertFault>
    ensures { Gives (λ txn. txn) cause_in result
        (spec.judged_on n context.now fields.now (option_map (λ d. d.0) day)) }
{
    let Some(day) = day else {
        return Err(ConvertFault::NoDate { n });
    };
    if has_both_kinds(fields) || has_both_ways(alloc, context, fields)? {
        return Err(ConvertFault::TwoAmounts { n });
    }
    if !has_amount(fields) {
        return Err(ConvertFault::NoAmount { n });
    }
    match entry_on(alloc, context, fields, day)? {
        Some(txn) => Ok(txn),
        None => Err(ConvertFault::BadRecord { n }),
    }
}

/// The entry of a record that no block leaves out.
fn judge(alloc: Global, n: u64, sheet: &Sheet, fields: &Fields) -> Result<Txn, ConvertFault>
    ensures { Gives (λ txn. txn) cause_in result (spec.judged n sheet.now fields.now) }
{
    let context = context_of(alloc, sheet.settings.mark)?;
    let day = read_day(&sheet.format, fields.date.as_bytes());
    judge_on(alloc, n, &context, fields, day)
}

/// The entry of what was read of a record that no block leaves out.
fn judge_read(alloc: Global, n: u64, sheet: &Sheet, fields: Fields) -> Result<Txn, ConvertFault>
    ensures { Gives (λ txn. txn) cause_in result (spec.judged n sheet.now fields) }
{
    judge(alloc, n, sheet, &fields)
}

/// The columns of a record between commas.
#[tactic(auto, using(crate::proofs::Joined::starts, crate::proofs::Joined::one_more, crate::proofs::Joined::all_done))]
pub fn joined(alloc: Global, columns: &[Text]) -> Result<String, Memory>
    ensures { IfOk result (λ whole. string_bytes whole ≡ join_with_byte 44 columns.now) }
{
    let mut whole = String::new(alloc);
    let Some((first, more)) = columns.split_first() else {
        return Ok(whole);
    };
    whole.push_str(first.as_str())?;
    for column in more {
        whole.push_str(",")?;
        whole.push_str(column.as_str())?;
    }
    Ok(whole)
}

/// What becomes of a record, by its columns.
pub(crate) fn judge_columns(
    alloc: Global,
    n: u64,
    sheet: &Sheet,
    columns: &[Text],
    finder: &mut Finder,
) -> Result<Outcome, ConvertFault>
    ensures outcome { Gives (λ outcome. outcome) cause_in result
        (spec.outcome_for (known_in finder.old) sheet.now n columns.now) }
    ensures same { known_in finder.new ≡ known_in finder.old }
{
    let whole = joined(alloc, columns)?;
    let row = Row {
        names: sheet.names.as_slice(),
        columns,
        whole: whole.as_str(),
    };
    let blocks = applying(alloc, sheet.blocks.as_slice(), row, finder)?;
    if some_end(blocks.as_slice()) {
        return Ok(Outcome::Ends);
    }
    if some_skip(blocks.as_slice()) {
        return Ok(Outcome::LeftOut);
    }
    let fields = read_fields(alloc, sheet, columns, blocks.as_slice())?;
    let txn = judge_read(alloc, n, sheet, fields)?;
    Ok(Outcome::Entry(txn))
}
