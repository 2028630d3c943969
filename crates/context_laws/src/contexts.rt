//! The context before an item, as the reader keeps it and as a filter.
ghost use Rattle.std.specs.Prelude.{◌≡◌, ℕ, List, Option};
ghost use Rattle.book.specs.declared.item.Item.{Item};
ghost use Rattle.context_laws.specs.Filters.{context_before, last_mark};
ghost use Rattle.entry_reader.specs.Contexts.{context_of, latest_mark};

/// Laws for callers; it does nothing. The context that the reader keeps after any items, item by item, is the filter of their
/// directives (`context`). The decimal mark that it finds for a symbol is that of the symbol's last `commodity` directive
/// (`latest`).
pub fn contexts_are_filters()
    ensures context { (year : Option ℕ) (items : List Item)
        → context_of year items ≡ context_before year items }
    ensures latest { (marks : List (List ℕ × Option ℕ)) (symbol : List ℕ)
        → latest_mark marks symbol ≡ last_mark symbol marks }
{}
