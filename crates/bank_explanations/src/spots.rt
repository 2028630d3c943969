//! Where a byte of a file of comma separated values is.
ghost use Rattle.std.specs.Prelude.{◌≡◌, ◌-◌};
ghost use Rattle.csv.specs.Machine as machine;
ghost use Rattle.csv_entries.specs.Records.{config_of};
ghost use Rattle.bank_explanations.specs.Begun as spec;

/// What came before a byte.
#[derive(Clone, Copy, Debug, PartialEq, Eq)]
pub(crate) enum Spot {
    /// The end of a record, or nothing.
    Start,
    /// The end of a column.
    Field,
    /// A part of a column that has no quotes.
    Plain,
    /// A part of a column in quotes.
    Quoted,
    /// A quote in a column in quotes.
    Quote,
    /// A carriage return that ends a record.
    Return,
}

/// Where the next byte is, behind one of a column that has no quotes.
fn in_field(separator: u8, byte: u8) -> Spot
    ensures { spec.state_of result ≡ (machine.in_field (config_of separator) byte).0 }
{
    if byte == separator {
        Spot::Field
    } else if byte == b'\r' {
        Spot::Return
    } else if byte == b'\n' {
        Spot::Start
    } else {
        Spot::Plain
    }
}

/// Where the next byte is, behind the first one of a column.
fn start_field(separator: u8, byte: u8) -> Spot
    ensures { spec.state_of result ≡ (machine.start_field (config_of separator) byte).0 }
{
    if byte == b'"' {
        Spot::Quoted
    } else {
        in_field(separator, byte)
    }
}

/// Where the next byte is, behind the first one of a record or a line end before it.
fn start_record(separator: u8, byte: u8) -> Spot
    ensures { spec.state_of result ≡ (machine.start_record (config_of separator) byte).0 }
{
    if byte == b'\r' || byte == b'\n' {
        Spot::Start
    } else {
        start_field(separator, byte)
    }
}

/// Where the next byte is, behind one that follows a quote in a column in quotes.
fn after_quote(separator: u8, byte: u8) -> Spot
    ensures { spec.state_of result
        ≡ (machine.step (config_of separator) (spec.state_of Spot.Quote) byte).0 }
{
    if byte == b'"' {
        Spot::Quoted
    } else {
        in_field(separator, byte)
    }
}

/// Where the next byte is, behind one that follows a carriage return.
fn after_return(separator: u8, byte: u8) -> Spot
    ensures { spec.state_of result
        ≡ (machine.step (config_of separator) (spec.state_of Spot.Return) byte).0 }
{
    if byte == b'\n' {
        Spot::Start
    } else {
        start_record(separator, byte)
    }
}

/// Where the next byte is.
fn next_spot(spot: Spot, separator: u8, byte: u8) -> Spot
    ensures { spec.state_of result
        ≡ (machine.step (config_of separator) (spec.state_of spot) byte).0 }
{
    match spot {
        Spot::Start => start_record(separator, byte),
        Spot::Field => start_field(separator, byte),
        Spot::Plain => in_field(separator, byte),
        Spot::Quoted => {
            if byte == b'"' {
                Spot::Quote
            } else {
                Spot::Quoted
            }
        }
        Spot::Quote => after_quote(separator, byte),
        Spot::Return => after_return(separator, byte),
    }
}

/// Whether no record is open.
fn is_between(spot: Spot) -> bool
    ensures { result ≡ spec.is_between (spec.state_of spot) }
{
    match spot {
        Spot::Start | Spot::Return => true,
        Spot::Field | Spot::Plain | Spot::Quoted | Spot::Quote => false,
    }
}

/// Whether a byte opens a record.
fn opens(before: Spot, behind: Spot) -> bool
    ensures { result ≡ spec.opens (spec.state_of before) (spec.state_of behind) }
{
    is_between(before) && !is_between(behind)
}

/// How many records are left to find, behind a byte.
fn left_behind(left: u64, before: Spot, behind: Spot) -> u64
    ensures { result
        ≡ left - spec.one_if (spec.opens (spec.state_of before) (spec.state_of behind)) }
{
    if opens(before, behind) {
        left.saturating_sub(1)
    } else {
        left
    }
}

/// Where the text behind a line is, and how many records are left to find there.
#[tactic(auto, using(crate::proofs::Walking::spot_more, crate::proofs::Walking::left_more, crate::proofs::Walking::spot_done, crate::proofs::Walking::left_done))]
pub(crate) fn past_line(separator: u8, spot: Spot, left: u64, line: &[u8]) -> (Spot, u64)
    ensures spot { spec.state_of result.0
        ≡ spec.after (config_of separator) (spec.state_of spot) line.now }
    ensures left { result.1 ≡ left - spec.begun (config_of separator) (spec.state_of spot) line.now }
{
    let mut rest = line;
    let mut here = spot;
    let mut left = left;
    while let Some((first, more)) = rest.split_first() {
        let next = next_spot(here, separator, *first);
        left = left_behind(left, here, next);
        here = next;
        rest = more;
    }
    (here, left)
}
