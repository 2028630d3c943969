//! The report that is asked for over a text, with what its rules make.
ghost use Rattle.std.specs.Prelude.{◌≡◌, ℕ, List};
ghost use Rattle.book.specs.Style.{style_of};
ghost use Rattle.book.specs.Styles.{style_in};
ghost use Rattle.hl_time.specs.Calendar.{IsDay};
ghost use Rattle.query.specs.Made.{IsQueryOf};
ghost use Rattle.report_commands.specs.Jobs.{IsMaterialOf};
ghost use Rattle.report_options.specs.Options.{IsValid};
ghost use Rattle.plan_commands.specs.Plans.{IsPlan};
ghost use Rattle.plan_commands.specs.Reports.{asks_rules};
ghost use Rattle.plan_commands.specs.Telling.{Answers};

use crate::books::{planned, without_rules};
use crate::fault::PlanFault;
use crate::plan::Plan;
use book::{Book, Items};
use hl_base::Bytes;
use prices::Prices;
use query::{Maker, Query, Types, make_query};
use report_commands::{Asked, Loaded, Material};
use report_options::Options;
use std::alloc::Global;

/// What is asked over the items of a text and their book, by the patterns that a maker builds, with the entries that the rules
/// of the text make where they are asked for: the transactions of a forecast first, then the postings that automated rules add
/// to the text's and to these. Beside `--budget` stand goals, which periodic rules make within the days of the columns.
/// Faults come in this order: the first word that is no term; the first one with a pattern that is refused; why there is no
/// book with a forecast, with what automated rules add, of goals; too many columns; and the least symbol that is out of range.
pub fn report<M: Maker>(
    alloc: Global,
    asked: &Asked,
    loaded: &Loaded,
    maker: &mut M,
) -> Result<Bytes, PlanFault>
    requires day { IsDay loaded.now.day.0 }
    requires valid { IsValid asked.now.options }
    requires styles { (symbol : List ℕ)
        → style_in loaded.now.styles.now symbol ≡ style_of loaded.now.items.now symbol }
    ensures { Answers asked.now loaded.now.day.0 loaded.now.items.now loaded.now.book.now
        (M.refusals maker.old) (M.refusals maker.new) (M.last_refused maker.old)
        (M.last_refused maker.new) result }
{
    let types = Types::new(alloc, loaded.items)?;
    let prices = Prices::new(alloc, loaded.items)?;
    let material = Material {
        book: loaded.book,
        styles: loaded.styles,
        types: &types,
        prices: &prices,
        day: loaded.day,
    };
    report_of(alloc, asked, loaded.items, &material, maker)
}

/// Whether entries that rules make are asked for, or a budget: whether a report looks at the rules of its text.
pub fn asks_rules(options: &Options) -> bool
    ensures { result ≡ asks_rules options.now }
{
    options.auto || options.forecast.is_some() || options.budget
}

/// The same over the material that was made of the items.
pub fn report_of<M: Maker>(
    alloc: Global,
    asked: &Asked,
    items: &Items,
    material: &Material,
    maker: &mut M,
) -> Result<Bytes, PlanFault>
    requires day { IsDay material.now.day.0 }
    requires valid { IsValid asked.now.options }
    requires made { IsMaterialOf items.now material.now }
    ensures { Answers asked.now material.now.day.0 items.now material.now.book.now
        (M.refusals maker.old) (M.refusals maker.new) (M.last_refused maker.old)
        (M.last_refused maker.new) result }
{
    if asks_rules(&asked.options) {
        with_query(alloc, asked, items, material, maker)
    } else {
        without_rules(alloc, asked, material, maker)
    }
}

/// The same where they are: the query comes first, since its faults do.
fn with_query<M: Maker>(
    alloc: Global,
    asked: &Asked,
    items: &Items,
    material: &Material,
    maker: &mut M,
) -> Result<Bytes, PlanFault>
    requires day { IsDay material.now.day.0 }
    requires valid { IsValid asked.now.options }
    requires made { IsMaterialOf items.now material.now }
    ensures { Answers asked.now material.now.day.0 items.now material.now.book.now
        (M.refusals maker.old) (M.refusals maker.new) (M.last_refused maker.old)
        (M.last_refused maker.new) result }
{
    match make_query(alloc, asked.words.as_slice(), material.day, maker) {
        Ok(query) => by_query(alloc, asked, items, material, &query, maker),
        Err(fault) => Err(PlanFault::from(fault)),
    }
}

/// The same by the query of its words.
fn by_query<M: Maker>(
    alloc: Global,
    asked: &Asked,
    items: &Items,
    material: &Material,
    query: &Query,
    maker: &mut M,
) -> Result<Bytes, PlanFault>
    requires day { IsDay material.now.day.0 }
    requires valid { IsValid asked.now.options }
    requires made { IsMaterialOf items.now material.now }
    requires query { IsQueryOf material.now.day.0 asked.now.words query.now }
    ensures { Answers asked.now material.now.day.0 items.now material.now.book.now
        (M.refusals maker.old) (M.refusals maker.new) (M.last_refused maker.old)
        (M.last_refused maker.new) result }
{
    let plan = Plan {
        asked,
        items,
        query,
        types: material.types,
        styles: material.styles,
        prices: material.prices,
        day: material.day,
    };
    over_text(alloc, &plan, material.book, maker)
}

/// What a plan asks over the book of its text.
fn over_text<M: Maker>(
    alloc: Global,
    plan: &Plan,
    book: &Book,
    maker: &mut M,
) -> Result<Bytes, PlanFault>
    requires { IsPlan plan.now }
    ensures { Answers plan.now.asked.now plan.now.day.0 plan.now.items.now book.now
        (M.refusals maker.old) (M.refusals maker.new) (M.last_refused maker.old)
        (M.last_refused maker.new) result }
{
    planned(alloc, plan, book, maker)
}
