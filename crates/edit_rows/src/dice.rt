//! Numbers that look random, and texts that are chosen by them.
ghost use Rattle.std.specs.Prelude.{◌<◌};

use std::alloc::Global;
use std::test::Fail;

/// Numbers that follow from each other and look random.
#[derive(Drop)]
pub(crate) struct Dice {
    state: u64,
}

impl Dice {
    /// The numbers that follow from a first one.
    pub(crate) fn from(seed: u64) -> Dice {
        Dice { state: seed }
    }

    /// A number below so many.
    pub(crate) fn roll(&mut self, sides: u64) -> u64
        requires { 0 < sides }
        ensures { result < sides }
    {
        let next = self
            .state
            .wrapping_mul(6_364_136_223_846_793_005)
            .wrapping_add(1_442_695_040_888_963_407);
        self.state = next;
        (next >> 33) % sides
    }

    /// One of some texts.
    pub(crate) fn one_of(&mut self, texts: &[&'static [u8]]) -> Result<&'static [u8], Fail> {
        if texts.len() == 0 {
            return Err(Fail::new("some texts"));
        }
        let number = self.roll(texts.len() as u64);
        match texts.get(number as usize) {
            Some(text) => Ok(*text),
            None => Err(Fail::new("a text")),
        }
    }
}

/// Accounts of which two lie below others.
const ACCOUNTS: &[&[u8]] = &[
    b"bank",
    b"bank:till",
    b"bank:till:a",
    b"cash",
    b"food",
    b"even",
    b"equity",
];

const NUMBERS: &[&[u8]] = &[
    b"1", b"2.5", b"0.25", b"-3", b"10.00", b"0", b"-0.125", b"7", b"-2.50",
];

/// Symbols, of which one is mostly taken; the last amounts have none, or that of a directive.
const SYMBOLS: &[&[u8]] = &[
    b" EUR", b" EUR", b" EUR", b" EUR", b" EUR", b" EUR", b" PEN", b" PEN", b" USD", b"",
];

/// Days of three months, in any order.
const DAYS: &[&[u8]] = &[
    b"2023-12-31",
    b"2024-01-01",
    b"2024-01-02",
    b"2024-01-05",
    b"2024-01-10",
    b"2024-01-20",
    b"2024-01-31",
    b"2024-02-01",
    b"2024-02-05",
    b"2024-02-10",
    b"2024-02-20",
    b"2024-02-29",
];

/// Puts bytes behind a text.
pub(crate) fn push(out: &mut Vec<u8>, text: &[u8]) -> Result<(), Fail> {
    out.extend_from_slice(text)?;
    Ok(())
}

/// Puts a form behind a text, with a day in the place of `%d`, an account in that of `%a`, a number in that of `%n` and a symbol
/// in that of `%s`; `%x` is one account throughout, and `%y` one number.
pub(crate) fn push_form(out: &mut Vec<u8>, form: &[u8], dice: &mut Dice) -> Result<(), Fail> {
    let account = dice.one_of(ACCOUNTS)?;
    let number = dice.one_of(NUMBERS)?;
    let mut is_named = false;
    for byte in form {
        if is_named {
            let text = match *byte {
                b'd' => dice.one_of(DAYS)?,
                b'a' => dice.one_of(ACCOUNTS)?,
                b'n' => dice.one_of(NUMBERS)?,
                b's' => dice.one_of(SYMBOLS)?,
                b'x' => account,
                _ => number,
            };
            push(out, text)?;
            is_named = false;
        } else if *byte == b'%' {
            is_named = true;
        } else {
            out.push(*byte)?;
        }
    }
    Ok(())
}

/// A form of some, filled.
pub(crate) fn filled(
    alloc: Global,
    forms: &[&'static [u8]],
    dice: &mut Dice,
) -> Result<Vec<u8>, Fail> {
    let mut out = Vec::new(alloc);
    let form = dice.one_of(forms)?;
    push_form(&mut out, form, dice)?;
    Ok(out)
}
