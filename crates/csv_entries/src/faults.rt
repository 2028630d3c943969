//! Why a file becomes no entries.
ghost use Rattle.std.specs.Prelude.{◌≡◌};
ghost use Rattle.csv_entries.specs.declared.faults.ConvertFault.TheVariants as faults;

/// Why a file becomes no entries. `n` is the number of the first record that is refused, counted from 1
/// behind the lines that are cut off. A record is judged in the order `CsvRefused`, `NoDate`,
/// `TwoAmounts`, `NoAmount`, `BadRecord`; one that a block leaves out is judged by the first alone.
#[derive(Clone, Copy, Debug, PartialEq, Eq)]
pub enum ConvertFault {
    /// An amount, the mark or an account doesn't read, the currency is no symbol, or it is given for an
    /// amount that has one.
    BadRecord { n: u64 },
    /// The date is empty or doesn't read.
    NoDate { n: u64 },
    /// `amount`, `amount-in` and `amount-out` are all empty.
    NoAmount { n: u64 },
    /// `amount` is given beside `amount-in` or `amount-out`, or both of these are other than zero.
    TwoAmounts { n: u64 },
    /// A column isn't UTF-8.
    CsvRefused { n: u64 },
    Memory,
}

impl From<hl_base::Memory> for ConvertFault {
    ghost from_gives = { λ _ e. e ≡ faults.Memory };

    fn from(_error: hl_base::Memory) -> ConvertFault {
        ConvertFault::Memory
    }
}
