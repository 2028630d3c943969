//! An edit of a store among the files of a shelf.
ghost use Rattle.std.specs.Prelude.{◌≡◌, IfOk};
ghost use Rattle.hl_time.specs.Calendar.{IsDay};
ghost use Rattle.store_text.specs.Shelved.{second_name as second_name_of};
ghost use Rattle.store_commands.specs.Asking.{EditsStore, told_by};
ghost use Rattle.store_commands.specs.Replacing.{ReplacesStore};
ghost use Rattle.store_commands.specs.Replies.{IsEdit, IsEditReply};

use crate::asking::{ask_disks, replace_in_disks};
use desk::{Reply, Request};
use hl_base::{Bytes, Shelf, Steps, Text};
use hl_time::Day;
use query::Maker;
use std::alloc::Global;
use std::sync::ledger::Ledger;
use store_making::{JournalRefusal, of_store};
use store_text::{give_back_disks, second_name, take_disks};

/// What is asked of the store of a name, on a day.
#[derive(Drop)]
pub struct StoreEdit {
    pub store: Text,
    pub request: Request,
    pub day: Day,
}

/// Asks the store, whose second file has the other name.
fn edit_beside<S: Shelf, M: Maker, L: Ledger>(
    alloc: Global,
    edit: &StoreEdit,
    beside: &Text,
    shelf: &mut S,
    maker: &mut M,
    steps: &mut Steps<L>,
) -> Result<Reply, JournalRefusal>
    requires day { IsDay edit.now.day.0 }
    requires edit { IsEdit edit.now.request }
    requires name { beside.now ≡ second_name_of edit.now.store }
    ensures { EditsStore S.Shelf S.Disk.Disk edit.now.store edit.now.request edit.now.day
        (told_by M.Maker maker.old maker.new) shelf.old shelf.new result }
{
    match take_disks(alloc, shelf, &edit.store, beside, false) {
        Ok((first, second)) => {
            let (first, second, asked) = ask_disks(alloc, first, second, edit, maker, steps);
            give_back_disks(shelf, &edit.store, beside, first, second);
            asked
        }
        Err(refusal) => Err(of_store(refusal)),
    }
}

/// Asks a store for an edit, with permission to edit, on a day: one step of the machine from the store's image, whose reply is
/// the answer. Both disks are taken from the shelf and come back; the second file is made where it is absent. It is refused
/// before that step where the first file is absent, where the files are no store or one of a later edition, where its text makes
/// no journal, where a disk couldn't be taken, where a call of a disk failed, and where memory ran out.
pub fn edit_store<S: Shelf, M: Maker, L: Ledger>(
    alloc: Global,
    edit: &StoreEdit,
    shelf: &mut S,
    maker: &mut M,
    steps: &mut Steps<L>,
) -> Result<Reply, JournalRefusal>
    requires day { IsDay edit.now.day.0 }
    requires edit { IsEdit edit.now.request }
    ensures edits { EditsStore S.Shelf S.Disk.Disk edit.now.store edit.now.request edit.now.day
        (told_by M.Maker maker.old maker.new) shelf.old shelf.new result }
    ensures kind { IfOk result IsEditReply }
{
    let Ok(beside) = second_name(alloc, &edit.store) else {
        return Err(JournalRefusal::Memory);
    };
    edit_beside(alloc, edit, &beside, shelf, maker, steps)
}

/// A text that replaces a store's, on a day. Its base is the revision that the sender saw; where none is given it is the store's.
#[derive(Drop)]
pub struct Replacement {
    pub text: Bytes,
    pub base: Option<u64>,
    pub day: Day,
}

/// The names of a store's two files.
#[derive(Clone, Copy)]
struct Names<'a> {
    first: &'a Text,
    second: &'a Text,
}

/// Replaces the text of the store whose files have these names.
fn replace_beside<S: Shelf, M: Maker, L: Ledger>(
    alloc: Global,
    names: &Names,
    what: Replacement,
    shelf: &mut S,
    maker: &mut M,
    steps: &mut Steps<L>,
) -> Result<Reply, JournalRefusal>
    requires day { IsDay what.day.0 }
    requires name { names.now.second.now ≡ second_name_of names.now.first.now }
    ensures { ReplacesStore S.Shelf S.Disk.Disk names.now.first.now what.text what.base what.day
        (told_by M.Maker maker.old maker.new) shelf.old shelf.new result }
{
    match take_disks(alloc, shelf, names.first, names.second, false) {
        Ok((first, second)) => {
            let (first, second, asked) = replace_in_disks(alloc, first, second, what, maker, steps);
            give_back_disks(shelf, names.first, names.second, first, second);
            asked
        }
        Err(refusal) => Err(of_store(refusal)),
    }
}

/// Replaces the text of a store, as `edit_store` makes an edit. With a base it is refused where the store has another revision.
pub fn replace_store<S: Shelf, M: Maker, L: Ledger>(
    alloc: Global,
    store: &Text,
    what: Replacement,
    shelf: &mut S,
    maker: &mut M,
    steps: &mut Steps<L>,
) -> Result<Reply, JournalRefusal>
    requires { IsDay what.day.0 }
    ensures replaces { ReplacesStore S.Shelf S.Disk.Disk store.now what.text what.base what.day
        (told_by M.Maker maker.old maker.new) shelf.old shelf.new result }
    ensures kind { IfOk result IsEditReply }
{
    let Ok(beside) = second_name(alloc, store) else {
        return Err(JournalRefusal::Memory);
    };
    let names = Names {
        first: store,
        second: &beside,
    };
    replace_beside(alloc, &names, what, shelf, maker, steps)
}
