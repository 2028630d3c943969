//! The two statements, and what each of their sections shows.
ghost use Rattle.std.specs.Prelude.{◌≡◌};
ghost use Rattle.statements.specs.Described.{first_of, has_account, has_letter, is_turned, name_of, second_of, title_of};

/// A statement.
#[derive(Clone, Copy, Debug, PartialEq, Eq)]
pub enum Statement {
    Income,
    Sheet,
}

/// A section of a statement.
#[derive(Clone, Copy, Debug, PartialEq, Eq)]
pub enum Part {
    Revenues,
    Expenses,
    Assets,
    Liabilities,
}

impl Statement {
    /// What stands before the days in its title.
    pub fn title(self) -> &'static str
        ensures { result.now ≡ title_of self }
    {
        match self {
            Statement::Income => "Income Statement ",
            Statement::Sheet => "Balance Sheet ",
        }
    }

    pub fn first(self) -> Part
        ensures { result ≡ first_of self }
    {
        match self {
            Statement::Income => Part::Revenues,
            Statement::Sheet => Part::Assets,
        }
    }

    pub fn second(self) -> Part
        ensures { result ≡ second_of self }
    {
        match self {
            Statement::Income => Part::Expenses,
            Statement::Sheet => Part::Liabilities,
        }
    }
}

impl Part {
    pub fn name(self) -> &'static str
        ensures { result.now ≡ name_of self }
    {
        match self {
            Part::Revenues => "Revenues",
            Part::Expenses => "Expenses",
            Part::Assets => "Assets",
            Part::Liabilities => "Liabilities",
        }
    }

    /// Whether its amounts are shown with the other sign.
    pub fn is_turned(self) -> bool
        ensures { result ≡ is_turned self }
    {
        match self {
            Part::Revenues => true,
            Part::Expenses => false,
            Part::Assets => false,
            Part::Liabilities => true,
        }
    }

    /// Whether accounts of a letter are its own.
    fn has_letter(self, letter: u8) -> bool
        ensures { result ≡ has_letter self letter }
    {
        match self {
            Part::Revenues => letter == b'R',
            Part::Expenses => letter == b'X',
            Part::Assets => letter == b'A' || letter == b'C',
            Part::Liabilities => letter == b'L',
        }
    }

    /// Whether an account with such a letter, or without one, is its own.
    pub fn has(self, letter: Option<u8>) -> bool
        ensures { result ≡ has_account self letter }
    {
        match letter {
            Some(letter) => self.has_letter(letter),
            None => false,
        }
    }
}
