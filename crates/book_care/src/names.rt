//! Names that are looked up.
ghost use Rattle.std.specs.Prelude.{◌≡◌, false, ◌||◌, ℕ, List, OnOk};
ghost use Rattle.std.specs.Str.{bytes_eq};

use hl_base::{Memory, Text};
use std::alloc::Global;
use std::collections::HashSet;

/// Some names, each once.
#[derive(Drop)]
pub(crate) struct Names {
    pub(crate) texts: HashSet<String>,
}

impl Names {
    ghost use Rattle.book_care.specs.Names.{has};

    /// No names.
    pub(crate) fn new(alloc: Global) -> Names
        ensures { (q : List ℕ) → has result q ≡ false }
    {
        Names {
            texts: HashSet::new(alloc),
        }
    }

    /// Whether a name is among them.
    pub(crate) fn has(&self, name: &str) -> bool
        ensures { result ≡ has self.now name.now }
    {
        self.texts.contains(name)
    }

    /// Adds a name, which takes memory only where it is new.
    pub(crate) fn add(&mut self, alloc: Global, name: &Text) -> Result<(), Memory>
        ensures { OnOk result ((q : List ℕ)
            → has self.new q ≡ (bytes_eq q name.now || has self.old q)) }
    {
        if self.has(name.as_str()) {
            return Ok(());
        }
        self.put(alloc, name)
    }

    #[tactic(auto, using(std::proofs::lemmas::Map::Text::text_keys))]
    fn put(&mut self, alloc: Global, name: &Text) -> Result<(), Memory>
        ensures { OnOk result ((q : List ℕ)
            → has self.new q ≡ (bytes_eq q name.now || has self.old q)) }
    {
        let key = String::from_str(alloc, name.as_str())?;
        self.texts.insert(key)?;
        Ok(())
    }
}
