//! What the text of a sample is loaded to, and what its line says of that.
ghost use Rattle.std.specs.Prelude.{◌≤◌, ℕ, Option};
ghost use Rattle.sample_journals.specs.Journal.{IsTold, Loads};

/// The text of each sample, of at most 100,000 entries, is within the limits of a journal and loads, whatever year is handed
/// in: to a transaction for each entry, in which an expense is paid by the bank, whose assertions all hold.
pub fn samples_load()
    ensures { (year : Option ℕ) (count : ℕ) → count ≤ 100000 → Loads year count }
{}

/// Of that book the line of a sample says how many transactions and accounts it has, and what the bank holds.
pub fn samples_tell()
    ensures { (count : ℕ) → 1 ≤ count → IsTold count }
{}
