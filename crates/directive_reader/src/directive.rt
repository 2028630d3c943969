//! Reads the pieces that begin with a word or a mark: directives, prices and rules.
ghost use Rattle.std.specs.Prelude.{◌≡◌, ◌+◌, ◌<◌, ◌^◌, true, length};
ghost use Rattle.std.specs.Str.{is_utf8};
ghost use Rattle.hl_base.specs.Gives.{Gives};
ghost use Rattle.entry_reader.specs.Causes.{cause_in};
ghost use Rattle.entry_reader.specs.Lines.{contents_of};
ghost use Rattle.directive_reader.specs.Directives as spec;

use crate::commodity::{read_commodity, read_default};
use crate::declaration::{
    read_account_directive, read_alias, read_apply, read_decimal_mark, read_end_aliases,
    read_end_apply, read_payee, read_tag, read_year,
};
use crate::keyword::{Keyword, cut_keyword};
use crate::price::read_price;
use crate::rule::{read_auto, read_periodic};
use book::{Cause, Directive, Item};
use entry_reader::fault::fault_at;
use entry_reader::scan::cut_line;
use entry_reader::{Context, ReadFault};
use std::alloc::Global;

/// What a directive says that begins with a keyword.
fn read_directive(
    alloc: Global,
    context: &Context,
    keyword: Keyword,
    text: &[u8],
    lines: &[u8],
    line: u64,
) -> Result<Directive, ReadFault>
    requires text { is_utf8 text.now ≡ true }
    requires after { is_utf8 lines.now ≡ true }
    requires room { line + 1 + length (contents_of lines.now) < 2 ^ 64 }
    ensures { Gives (λ d. d) cause_in result
        (spec.directive_by keyword context.now line text.now (contents_of lines.now)) }
{
    match keyword {
        Keyword::Commodity => read_commodity(alloc, context, text, lines, line),
        Keyword::Default => read_default(alloc, context, text, lines, line),
        Keyword::Account => read_account_directive(alloc, context, text, lines, line),
        Keyword::Year => read_year(text, lines, line),
        Keyword::Apply => read_apply(alloc, text, lines, line),
        Keyword::EndApply => read_end_apply(context, text, lines, line),
        Keyword::Alias => read_alias(alloc, text, lines, line),
        Keyword::EndAliases => read_end_aliases(text, lines, line),
        Keyword::Payee => read_payee(alloc, text, lines, line),
        Keyword::Tag => read_tag(alloc, text, lines, line),
        Keyword::DecimalMark => read_decimal_mark(text, lines, line),
        Keyword::Price | Keyword::Auto | Keyword::Periodic | Keyword::Other => {
            Err(fault_at(line, Cause::Directive))
        }
    }
}

/// The item that begins with a keyword, of the text behind that and of the lines after it.
fn read_by(
    alloc: Global,
    context: &Context,
    keyword: Keyword,
    text: &[u8],
    lines: &[u8],
    line: u64,
) -> Result<Item, ReadFault>
    requires text { is_utf8 text.now ≡ true }
    requires after { is_utf8 lines.now ≡ true }
    requires room { line + 1 + length (contents_of lines.now) < 2 ^ 64 }
    ensures { Gives (λ item.
        item) cause_in result
        (spec.item_by keyword context.now line text.now (contents_of lines.now)) }
{
    match keyword {
        Keyword::Price => Ok(Item::Price(read_price(alloc, context, text, lines, line)?)),
        Keyword::Auto => Ok(Item::Auto(read_auto(alloc, context, text, lines, line)?)),
        Keyword::Periodic => Ok(Item::Periodic(read_periodic(alloc, context, text, lines, line)?)),
        _ => Ok(Item::Directive(read_directive(alloc, context, keyword, text, lines, line)?)),
    }
}

/// The item of a first line's content and of the lines after it.
#[tactic(auto, unfolding(crate::specs::Directives::item_with))]
fn read_with(
    alloc: Global,
    context: &Context,
    content: &[u8],
    lines: &[u8],
    line: u64,
) -> Result<Item, ReadFault>
    requires content { is_utf8 content.now ≡ true }
    requires after { is_utf8 lines.now ≡ true }
    requires room { line + 1 + length (contents_of lines.now) < 2 ^ 64 }
    ensures { Gives (λ item.
        item) cause_in result
        (spec.item_with context.now line content.now (contents_of lines.now)) }
{
    let (keyword, text) = cut_keyword(content);
    read_by(alloc, context, keyword, text, lines, line)
}

/// The directive, price or rule that the lines of a text say, of which the first is the `line`-th, in the context of the
/// items before it. The fault is that of the first place that isn't of its form: a line that begins with no word of a
/// directive, an end of names that aren't applied and an unknown type of an account are no directives; a period that
/// doesn't read, or that is bound to a day, is no date.
pub fn read_head_item(
    alloc: Global,
    bytes: &[u8],
    context: &Context,
    line: u64,
) -> Result<Item, ReadFault>
    requires utf8 { is_utf8 bytes.now ≡ true }
    requires lines { line + length (contents_of bytes.now) < 2 ^ 64 }
    ensures { Gives (λ item.
        item) cause_in result (spec.head_item context.now line (contents_of bytes.now)) }
{
    if bytes.is_empty() {
        return Err(fault_at(line, Cause::Form));
    }
    let (content, lines) = cut_line(bytes);
    read_with(alloc, context, content, lines, line)
}
