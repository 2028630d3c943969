//! Takings with what their amounts are worth.
ghost use Rattle.std.specs.Prelude.{◌≡◌, IfOk, IfErr, OnOk, None, option_and_then};
ghost use Rattle.std.specs.Option.{option_copied};
ghost use Rattle.report_values.specs.ValueDays.{day_by};
ghost use Rattle.report_values.specs.Known.{IsPrepared};
ghost use Rattle.report_values.specs.Refusals as spec;
ghost use Rattle.report_values.specs.Refusals.{IsRefused};
ghost use Rattle.report_values.specs.Worth.{priced_of, valued, worth};

use crate::dates::{Dates, day_by};
use crate::known::{Known, prepare, worth_by};
use crate::market::Market;
use crate::refusals::{first_out, lesser, lost, refused_by};
use hl_base::{Memory, Text};
use hl_time::Day;
use report_cells::{ReportFault, Share, Taking};
use std::alloc::Global;

/// What an amount is worth, if it is there.
fn worth_of<'a>(
    market: &Market<'a>,
    known: &Known<'a>,
    day: Day,
    amount: &Option<Share<'a>>,
) -> Option<Share<'a>>
    requires { IsPrepared (priced_of market.now) known.now day.0 amount.now }
    ensures { result ≡ option_and_then (worth (priced_of market.now) day.0) amount.now }
{
    match amount {
        Some(share) => worth_by(known, day, share),
        None => None,
    }
}

/// A taking with what its amount is worth.
fn value_one<'a>(
    market: &Market<'a>,
    known: &Known<'a>,
    dates: &Dates,
    taking: &Taking<'a>,
) -> Taking<'a>
    requires { IsPrepared (priced_of market.now) known.now
        (day_by dates.now taking.now.day) taking.now.amount }
    ensures { result ≡ valued (priced_of market.now) (day_by dates.now) taking.now }
{
    let day = day_by(dates, taking.day);
    Taking {
        account: taking.account,
        day: taking.day,
        amount: worth_of(market, known, day, &taking.amount),
    }
}

/// The symbol of a taking's amount that has no value.
fn lost_of<'a>(taking: &Taking<'a>, value: &Taking<'a>) -> Option<&'a Text>
    ensures { option_copied result ≡ spec.lost taking.now.amount value.now.amount }
{
    lost(&taking.amount, &value.amount)
}

/// Values, and the least symbol of an amount whose value is out of range.
#[derive(Drop)]
pub(crate) struct Values<'a> {
    pub takings: Vec<Taking<'a>>,
    pub lost: Option<&'a Text>,
}

/// Takings with what their amounts are worth.
pub(crate) fn value_each<'a>(
    alloc: Global,
    takings: &[Taking<'a>],
    dates: &Dates,
    market: &Market<'a>,
) -> Result<Values<'a>, Memory>
    ensures values { IfOk result (λ v. v.takings.items
        ≡ spec.values_of (priced_of market.now) (day_by dates.now) takings.now) }
    ensures lost { IfOk result (λ v. option_copied v.lost
        ≡ spec.first_lost (priced_of market.now) (day_by dates.now) takings.now) }
{
    let mut known = Known::new(alloc);
    let mut values = Vec::with_capacity(alloc, takings.len())?;
    let mut least = None;
    for taking in takings {
        let day = day_by(dates, taking.day);
        prepare(alloc, market, &mut known, day, &taking.amount)?;
        let value = value_one(market, &known, dates, taking);
        least = lesser(least, lost_of(taking, &value));
        values.push(value)?;
    }
    Ok(Values {
        takings: values,
        lost: least,
    })
}

/// Takings with what their amounts are worth, each on its day. `Range` comes exactly where the absolute amounts of a
/// symbol or the absolute values in one reach 2^127, in units of their greatest number of decimals, or the value of an
/// amount is out of range, and tells the least such symbol.
pub fn value_takings<'a>(
    alloc: Global,
    takings: &[Taking<'a>],
    dates: &Dates,
    market: &Market<'a>,
) -> Result<Vec<Taking<'a>>, ReportFault>
    ensures values { IfOk result (λ values. values.items
        ≡ spec.values_of (priced_of market.now) (day_by dates.now) takings.now) }
    ensures within { OnOk result
        (spec.first_refused (priced_of market.now) (day_by dates.now) takings.now ≡ None) }
    ensures fault { IfErr result
        (IsRefused (spec.first_refused (priced_of market.now) (day_by dates.now) takings.now)) }
{
    let plain = first_out(alloc, takings)?;
    let values = value_each(alloc, takings, dates, market)?;
    let out = first_out(alloc, &values.takings)?;
    let least = lesser(lesser(plain.as_ref(), values.lost), out.as_ref());
    refused_by(alloc, least)?;
    Ok(values.takings)
}
