//! All that is made of a text.
ghost use Rattle.std.specs.Prelude.{◌≡◌, [], Option, ℕ};
ghost use Rattle.std.specs.Prelude as lists;
ghost use Rattle.book.specs.Bounds.{TurnoverFits};
ghost use Rattle.book.specs.Postings.{postings_of};
ghost use Rattle.loaded_texts.specs.Keeping.{IsLoaded};

use additions::BookEnd;
use book::{Book, Items};
use hl_base::List;
use kept_books::KeptBook;
use kept_texts::KeptText;
use std::alloc::Global;
use std::mem::replace;
use walked_texts::Open;

/// What is made of a text: its items and its book; and what is kept of both, so that an edit costs what it touches.
#[derive(Drop)]
pub struct Loaded {
    pub items: Items,
    pub book: Book,
    pub text: KeptText,
    pub end: BookEnd,
    pub kept: KeptBook,
}

/// Takes the items and the book out of what is loaded.
pub(crate) fn taken(alloc: Global, loaded: &mut Loaded) -> Open
    ensures items { result.items.items ≡ loaded.old.items }
    ensures book { result.book.items ≡ loaded.old.book.txns }
    ensures rest { loaded.new ≡ record loaded.old { items = []; book = record { txns = [] } } }
{
    let items = replace(&mut loaded.items, List::new(alloc));
    let txns = replace(&mut loaded.book.txns, List::new(alloc));
    Open {
        items: items.into_vec(),
        book: txns.into_vec(),
    }
}

/// Puts items and a book back into what is loaded.
pub(crate) fn given_back(loaded: &mut Loaded, open: Open)
    ensures { loaded.new ≡ record loaded.old
        { items = open.items.items; book = record { txns = open.book.items } } }
{
    let Open { items, book } = open;
    loaded.items = List::from_vec(items);
    loaded.book.txns = List::from_vec(book);
}

/// Keeps the sums of what is loaded for plain reports, if none are kept yet and there is memory for them.
pub fn keep_sums(alloc: Global, loaded: &mut Loaded)
    requires { TurnoverFits (postings_of loaded.old.book.txns) }
    ensures { (year : Option ℕ) (text : lists.List ℕ) → IsLoaded year text loaded.old
        → IsLoaded year text loaded.new }
{
    loaded.kept.keep_sums(alloc, loaded.book.txns.as_slice());
}
