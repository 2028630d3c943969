//! Words of a report behind the name of a file.
ghost use Rattle.std.specs.Prelude.{◌≡◌, ℕ, List, ◌∷◌, Some, None, Ok, Err, IfOk, IfErr, codes};
ghost use Rattle.std.specs.List.{AllByRecursion};
ghost use Rattle.report_options.specs.Options.{reading};
ghost use Rattle.report_options.specs.Programs.{NamesNoJournal, program_reading};
ghost use Rattle.report_options.specs.declared.command.Command.{Command};

/// Words that a request reads say the same behind the program's name, with `-f` and a name in front of them, of the file of that name.
pub fn words_of_a_file()
    ensures { (command : Command) (day : ℕ) (name : List ℕ) (those : List (List ℕ))
        → IfOk (reading command day those) (λ read.
        program_reading command day (codes "-f" ∷ name ∷ those)
        ≡ Ok (record { file = Some name; store = None }, read.0, read.1)) }
{}

/// And words that it refuses, of which none names a journal, are refused so.
pub fn refused_words_of_a_file()
    ensures { (command : Command) (day : ℕ) (name : List ℕ) (those : List (List ℕ))
        → AllByRecursion NamesNoJournal those
        → IfErr (reading command day those) (λ fault.
        program_reading command day (codes "-f" ∷ name ∷ those) ≡ Err fault) }
{}
