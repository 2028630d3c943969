//! The fields of a posting.
ghost use Rattle.std.specs.Prelude.{◌≡◌, ◌++◌, IfOk, OnOk, map};
ghost use Rattle.std.specs.String.{string_bytes};
ghost use Rattle.std.specs.Option.{option_copied};
ghost use Rattle.journal_printer.specs.Amounts.{amount_text};
ghost use Rattle.journal_printer.specs.Layout as spec;
ghost use Rattle.journal_printer.specs.declared.detail.Detail.TheVariants as detailed;
ghost use Rattle.journal_printer.specs.Texts.{account_text, posting_mark, in_brackets, cost_text, assertion_sign, assertion_text};

use crate::amount::amount_text;
use crate::detail::Detail;
use crate::measured::Measured;
use crate::shapes::Shapes;
use crate::shown::{amount_shown, are_of_one, cost_shown};
use book::{Amount, Assertion, Boxed, Cost, Mark, Posting, Side};
use hl_base::{Memory, Text};
use std::alloc::Global;
use std::marker::Model;

/// The fields of a posting: its mark and account, its amount, its cost and its assertion, whether an amount or an
/// assertion is shown, and its comment.
#[derive(Drop)]
pub struct Fields<'a> {
    account: Measured,
    amount: Measured,
    further: Text,
    is_aligned: bool,
    comment: &'a Text,
}

impl<'a> Model for Fields<'a> {
    ghost use Rattle.journal_printer.specs.Layout as spec;

    ghost Value = { spec.Fields };

    ghost view = { λ f. record { account = f.account; amount = f.amount; further = f.further; is_aligned = f.is_aligned; comment = f.comment.now } };
}

impl<'a> Fields<'a> {
    pub fn account(&self) -> &Measured
        ensures { result.now ≡ self.now.account }
    {
        &self.account
    }

    pub fn amount(&self) -> &Measured
        ensures { result.now ≡ self.now.amount }
    {
        &self.amount
    }

    pub fn further(&self) -> &[u8]
        ensures { result.now ≡ self.now.further }
    {
        self.further.as_bytes()
    }

    pub fn is_aligned(&self) -> bool
        ensures { result ≡ self.now.is_aligned }
    {
        self.is_aligned
    }

    pub fn comment(&self) -> &'a [u8]
        ensures { result.now ≡ self.now.comment }
    {
        self.comment.as_bytes()
    }
}

/// The fields of each posting that is shown.
pub fn fields_shown<'a, S: Shapes>(
    alloc: Global,
    shapes: &S,
    detail: Detail,
    postings: &'a [Posting],
) -> Result<Vec<Fields<'a>>, Memory>
    ensures { IfOk result (λ fields.
        fields.items ≡ map (spec.fields_of (S.shape_of shapes.now) detail)
        (spec.postings_shown detail postings.now)) }
{
    match detail {
        Detail::Written => fields_written(alloc, shapes, postings),
        Detail::Explicit => fields_of_all(alloc, shapes, postings),
    }
}

/// The fields of each posting.
fn fields_of_all<'a, S: Shapes>(
    alloc: Global,
    shapes: &S,
    postings: &'a [Posting],
) -> Result<Vec<Fields<'a>>, Memory>
    ensures { IfOk result (λ fields.
        fields.items ≡ map (spec.fields_of (S.shape_of shapes.now) detailed.Explicit)
        postings.now) }
{
    let mut all = Vec::new(alloc);
    for posting in postings {
        all.push(fields_of(alloc, shapes, Detail::Explicit, posting)?)?;
    }
    Ok(all)
}

/// The fields of each posting as it is written: those that one missing amount gave are one.
#[tactic(auto, using(crate::proofs::Written::written_next))]
fn fields_written<'a, S: Shapes>(
    alloc: Global,
    shapes: &S,
    postings: &'a [Posting],
) -> Result<Vec<Fields<'a>>, Memory>
    ensures { IfOk result (λ fields.
        fields.items ≡ map (spec.fields_of (S.shape_of shapes.now) detailed.Written)
        (spec.written_postings postings.now)) }
{
    let mut all = Vec::new(alloc);
    let Some((first, rest)) = postings.split_first() else {
        return Ok(all);
    };
    all.push(fields_of(alloc, shapes, Detail::Written, first)?)?;
    let mut before = first;
    for posting in rest {
        add_written(alloc, &mut all, shapes, before, posting)?;
        before = posting;
    }
    Ok(all)
}

/// Adds the fields of a posting after another, unless one missing amount gave both.
fn add_written<'a, S: Shapes>(
    alloc: Global,
    all: &mut Vec<Fields<'a>>,
    shapes: &S,
    before: &Posting,
    posting: &'a Posting,
) -> Result<(), Memory>
    ensures { OnOk result (all.new.items ≡ all.old.items
        ++ map (spec.fields_of (S.shape_of shapes.now) detailed.Written)
        (spec.unless_of_one before.now posting.now)) }
{
    if !are_of_one(before, posting) {
        all.push(fields_of(alloc, shapes, Detail::Written, posting)?)?;
    }
    Ok(())
}

/// The fields of a posting.
fn fields_of<'a, S: Shapes>(
    alloc: Global,
    shapes: &S,
    detail: Detail,
    posting: &'a Posting,
) -> Result<Fields<'a>, Memory>
    ensures { IfOk result (λ fields.
        fields ≡ spec.fields_of (S.shape_of shapes.now) detail posting.now) }
{
    let account = account_text(alloc, posting)?;
    let shown = amount_shown(detail, posting);
    let amount = amount_field(alloc, shapes, posting.filled, shown)?;
    let mut further = String::new(alloc);
    push_cost(
        alloc,
        &mut further,
        shapes,
        posting.costed,
        cost_shown(detail, posting),
    )?;
    push_assertion(alloc, &mut further, shapes, &posting.wanted)?;
    Ok(Fields {
        account: Measured::new(account),
        amount: Measured::new(amount),
        further: Text::from_string(further),
        is_aligned: shown.is_some() || posting.wanted.is_some(),
        comment: &posting.comment,
    })
}

/// The mark of a posting and its account in the brackets of its side.
fn account_text(alloc: Global, posting: &Posting) -> Result<Text, Memory>
    ensures { IfOk result (λ text. text ≡ account_text posting.now) }
{
    let mut text = String::new(alloc);
    push_mark(&mut text, posting.mark)?;
    push_account(&mut text, posting.side, posting.account.as_str())?;
    Ok(Text::from_string(text))
}

/// Puts the mark of a posting, if it has one.
fn push_mark(text: &mut String, mark: Mark) -> Result<(), Memory>
    ensures { OnOk result (string_bytes text.new ≡ string_bytes text.old ++ posting_mark mark) }
{
    match mark {
        Mark::Unmarked => Ok(()),
        Mark::Pending => Ok(text.push_str("! ")?),
        Mark::Cleared => Ok(text.push_str("* ")?),
    }
}

/// Puts an account in the brackets of its side.
fn push_account(text: &mut String, side: Side, account: &str) -> Result<(), Memory>
    ensures { OnOk result (string_bytes text.new ≡ string_bytes text.old
        ++ in_brackets side account.now) }
{
    match side {
        Side::Real => Ok(text.push_str(account)?),
        Side::Balanced => push_between(text, "[", account, "]"),
        Side::Free => push_between(text, "(", account, ")"),
    }
}

/// Puts a text between two brackets.
fn push_between(text: &mut String, open: &str, inner: &str, close: &str) -> Result<(), Memory>
    ensures { OnOk result (string_bytes text.new ≡ string_bytes text.old ++ «open».now ++ inner.now
        ++ close.now) }
{
    text.push_str(open)?;
    text.push_str(inner)?;
    text.push_str(close)?;
    Ok(())
}

/// An amount as it is shown, or nothing.
fn amount_field<S: Shapes>(
    alloc: Global,
    shapes: &S,
    is_found: bool,
    amount: Option<&Amount>,
) -> Result<Text, Memory>
    ensures { IfOk result (λ text.
        text ≡ spec.amount_field (S.shape_of shapes.now) is_found (option_copied amount.entry)) }
{
    match amount {
        Some(amount) => amount_text(alloc, amount, &shapes.shape_of(amount), is_found),
        None => Ok(Text::new(alloc)),
    }
}

/// Puts an amount behind a sign.
fn push_signed<S: Shapes>(
    alloc: Global,
    text: &mut String,
    shapes: &S,
    sign: &str,
    is_found: bool,
    amount: &Amount,
) -> Result<(), Memory>
    ensures { OnOk result (string_bytes text.new ≡ string_bytes text.old ++ sign.now
        ++ amount_text (S.shape_of shapes.now amount.now) is_found amount.now) }
{
    let shown = amount_text(alloc, amount, &shapes.shape_of(amount), is_found)?;
    text.push_str(sign)?;
    text.push_str(shown.as_str())?;
    Ok(())
}

/// Puts the cost of an amount, if there is one.
fn push_cost<S: Shapes>(
    alloc: Global,
    text: &mut String,
    shapes: &S,
    is_found: bool,
    cost: Option<&Cost>,
) -> Result<(), Memory>
    ensures { OnOk result (string_bytes text.new ≡ string_bytes text.old
        ++ cost_text (S.shape_of shapes.now) is_found (option_copied cost.entry)) }
{
    match cost {
        None => Ok(()),
        Some(Cost::Unit(amount)) => push_signed(alloc, text, shapes, " @ ", is_found, amount),
        Some(Cost::Total(amount)) => push_signed(alloc, text, shapes, " @@ ", is_found, amount),
    }
}

/// Puts an assertion, if there is one.
fn push_assertion<S: Shapes>(
    alloc: Global,
    text: &mut String,
    shapes: &S,
    wanted: &Option<Boxed<Assertion>>,
) -> Result<(), Memory>
    ensures { OnOk result (string_bytes text.new ≡ string_bytes text.old
        ++ assertion_text (S.shape_of shapes.now) wanted.now) }
{
    match wanted {
        None => Ok(()),
        Some(wanted) => {
            let wanted = wanted.get();
            let sign = assertion_sign(wanted.only, wanted.below);
            push_signed(alloc, text, shapes, sign, false, &wanted.amount)
        }
    }
}

/// The sign of an assertion: of one symbol or of all, of an account or of those below it too.
fn assertion_sign(only: bool, below: bool) -> &'static str
    ensures { result.now ≡ assertion_sign only below }
{
    match (only, below) {
        (false, false) => " = ",
        (false, true) => " =* ",
        (true, false) => " == ",
        (true, true) => " ==* ",
    }
}
