//! The report that is asked for over a book.
ghost use Rattle.std.specs.Prelude.{◌≡◌, ℕ, List};
ghost use Rattle.book.specs.declared.item.Placed.{Placed};
ghost use Rattle.hl_base.specs.Gives.{Gives};
ghost use Rattle.hl_time.specs.Calendar.{IsDay};
ghost use Rattle.query.specs.Made.{IsQueryOf};
ghost use Rattle.report_commands.specs.Commands.{words_cause};
ghost use Rattle.report_commands.specs.Jobs.{IsMadeFor, IsMaterialOf};
ghost use Rattle.report_commands.specs.Reports.{Answers, answer_over};
ghost use Rattle.report_options.specs.Options.{IsValid};

use crate::asked::Asked;
use crate::commands::text_by;
use crate::fault::WordsFault;
use book::{Book, Items, Styles};
use hl_base::Bytes;
use hl_time::Day;
use prices::Prices;
use query::{Maker, Query, Types, make_query};
use report_sums::Job;
use report_takings::Scope;
use std::alloc::Global;

/// What a report is made of: the items of a text, their book and styles, and the day that is handed in.
#[derive(Clone, Copy)]
pub struct Loaded<'a> {
    pub items: &'a Items,
    pub book: &'a Book,
    pub styles: &'a Styles,
    pub day: Day,
}

/// The same once the items aren't needed any more: their book, the styles, the types of accounts and the prices that they
/// say, and the day that is handed in.
#[derive(Clone, Copy)]
pub struct Material<'a> {
    pub book: &'a Book,
    pub styles: &'a Styles,
    pub types: &'a Types,
    pub prices: &'a Prices,
    pub day: Day,
}

/// What is asked over the items of a text and their book, by the patterns that a maker builds, over the material that was
/// made of the items. Faults come in this order: the first word that is no term; the first one with a pattern that is
/// refused; too many columns; and the least symbol that is out of range.
pub fn report_of<M: Maker>(
    alloc: Global,
    asked: &Asked,
    material: &Material,
    maker: &mut M,
) -> Result<Bytes, WordsFault>
    requires day { IsDay material.now.day.0 }
    requires valid { IsValid asked.now.options }
    ensures { (items : List Placed) → IsMaterialOf items material.now
        → Answers asked.now material.now.day.0 items material.now.book.now
        (M.refusals maker.old) (M.refusals maker.new) (M.last_refused maker.old)
        (M.last_refused maker.new) result }
{
    match make_query(alloc, asked.words.as_slice(), material.day, maker) {
        Ok(query) => answer(alloc, asked, material, &query),
        Err(fault) => Err(WordsFault::from(fault)),
    }
}

/// What is asked by the query of its words.
fn answer(
    alloc: Global,
    asked: &Asked,
    material: &Material,
    query: &Query,
) -> Result<Bytes, WordsFault>
    requires valid { IsValid asked.now.options }
    requires query { IsQueryOf material.now.day.0 asked.now.words query.now }
    ensures { (items : List Placed) → IsMaterialOf items material.now
        → Gives (λ text. text) words_cause result
        (answer_over asked.now material.now.day.0 items material.now.book.now) }
{
    let scope = Scope {
        book: material.book,
        query,
        types: material.types,
        options: &asked.options,
        day: material.day,
    };
    let job = Job {
        scope,
        prices: material.prices,
        styles: material.styles,
    };
    answer_job(alloc, asked, &job)
}

/// The same by what its sums are made of.
fn answer_job(alloc: Global, asked: &Asked, job: &Job) -> Result<Bytes, WordsFault>
    requires valid { IsValid asked.now.options }
    requires options { job.now.scope.options.now ≡ asked.now.options }
    ensures { (items : List Placed) → IsMadeFor asked.now items job.now
        → Gives (λ text. text) words_cause result
        (answer_over asked.now job.now.scope.day.0 items job.now.scope.book.now) }
{
    Ok(text_by(alloc, job)?)
}
