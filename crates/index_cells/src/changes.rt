//! What an edit of a book changes of what is kept.
ghost use Rattle.std.specs.Prelude.{◌≡◌, List, true, unwrap_or, IfOk};
ghost use Rattle.book.specs.declared.transaction.Txn.{Txn};
ghost use Rattle.report_cells.specs.Taken.{Taken};
ghost use Rattle.index_cells.specs.Changed.{IsFor, IsMadeOf, put_in};
ghost use Rattle.index_cells.specs.Exchange.{CanBecome, CanChange};
ghost use Rattle.index_cells.specs.Keeps.{Keeps};
ghost use Rattle.index_cells.specs.Names.{NamesOf};
ghost use Rattle.index_cells.specs.Posted.{posted_in};
ghost use Rattle.index_cells.specs.Staying.{no_name_goes};

use crate::amounts::exchanged_amounts;
use crate::kept::Kept;
use crate::names::{new_accounts, new_symbols};
use crate::posted::posted_in;
use crate::staying::no_name_goes;
use book::Txn;
use hl_base::{List, Memory, Text};
use live_index::Prepared;
use report_cells::Taking;
use std::alloc::Global;

/// What was prepared for what is kept: rows that are put in, all accounts and all symbols where one is new, and whether
/// no name goes with what is gone.
#[derive(Drop)]
pub struct ChangedKept {
    sums: Prepared,
    accounts: Option<List<Text>>,
    symbols: Option<List<Text>>,
    pub names_stay: bool,
}

impl Kept {
    /// Takes all the memory that it takes to keep a book in which some transactions are gone and others are put in,
    /// wherever they stand. What is kept stays as it is. What is prepared keeps any book that comes of the kept one so,
    /// no symbol of which is out of range. Where no name goes it names what the new book names and nothing else, as
    /// `keep_book` of it does: each posting that is gone has names that are kept, and in its place stands one that is
    /// put in, of the same account and symbol.
    pub fn prepare(
        &mut self,
        alloc: Global,
        gone: &[Txn],
        more: &[Txn],
    ) -> Result<ChangedKept, Memory>
        requires room { (before : List Txn) × ((after : List Txn)
            × CanChange self.old before gone.now more.now after) }
        ensures made { IfOk result (λ changed. IsFor changed self.old) }
        ensures keeps { IfOk result (λ changed. (before after : List Txn)
            → CanChange self.old before gone.now more.now after
            → Keeps (posted_in after) (put_in changed self.old)) }
        ensures still { IfOk result (λ changed. changed.names_stay
            ≡ no_name_goes self.old (posted_in gone.now) (posted_in more.now)) }
        ensures names { IfOk result (λ changed. (before after : List Txn)
            → CanChange self.old before gone.now more.now after → changed.names_stay ≡ true
            → NamesOf (posted_in before) self.old
            → NamesOf (posted_in after) (put_in changed self.old)) }
        ensures stays { self.new ≡ self.old }
    {
        let gone = posted_in(alloc, gone)?;
        let more = posted_in(alloc, more)?;
        let changed = change(alloc, self, &gone, &more)?;
        Ok(changed)
    }

    /// Puts in what was prepared after the last change. It takes no memory.
    pub fn put(&mut self, changed: ChangedKept)
        requires { IsFor changed self.old }
        ensures { self.new ≡ put_in changed self.old }
    {
        let ChangedKept {
            sums,
            accounts,
            symbols,
            names_stay: _,
        } = changed;
        self.sums.put(sums);
        replace_names(&mut self.accounts, accounts);
        replace_names(&mut self.symbols, symbols);
    }
}

/// Takes other names, where there are some.
fn replace_names(names: &mut List<Text>, new: Option<List<Text>>)
    ensures { names.new ≡ unwrap_or new names.old }
{
    match new {
        Some(new) => *names = new,
        None => {}
    }
}

/// What some takings that are gone and others that are put in change.
fn change(
    alloc: Global,
    kept: &mut Kept,
    gone: &[Taking],
    more: &[Taking],
) -> Result<ChangedKept, Memory>
    requires room { (before : List Taken) × ((after : List Taken)
        × CanBecome kept.old before gone.now more.now after) }
    ensures made { IfOk result (IsMadeOf gone.now more.now kept.old) }
    ensures stays { kept.new ≡ kept.old }
{
    let names_stay = no_name_goes(alloc, kept, gone, more)?;
    let accounts = new_accounts(alloc, kept.accounts.as_slice(), more)?;
    let symbols = new_symbols(alloc, kept.symbols.as_slice(), more)?;
    let amounts = exchanged_amounts(alloc, gone, more)?;
    let sums = kept.sums.prepare(&amounts)?;
    Ok(ChangedKept {
        sums,
        accounts,
        symbols,
        names_stay,
    })
}
