//! What becomes of the entries that `close` writes, behind the text of which they are made.
ghost use Rattle.std.specs.Prelude.{◌≡◌, ◌<◌, ℕ, true, List, Option, Ok};
ghost use Rattle.std.specs.Str.{is_utf8};
ghost use Rattle.hl_time.specs.Calendar.{IsDay, last_day};
ghost use Rattle.refusals.specs.Outcomes.{written};
ghost use Rattle.book_commands.specs.Works.{judge};
ghost use Rattle.book_commands.specs.declared.work.CloseAsked.{CloseAsked};
ghost use Rattle.book_commands.specs.declared.work.Entries.TheVariants as entries;
ghost use Rattle.book_commands.specs.declared.work.Work.TheVariants as works;
ghost use Rattle.closed_journals.specs.Added.{IsClosed, IsEmptied, IsEnded, IsJoined, IsOpened, IsOpenedBehind};

/// Where `close` writes both entries for a text that is empty or ends with a line's end, outside a comment block, that text
/// with it behind it loads to the book of the text and the two entries behind it. Behind the first each closed account is
/// empty, and behind both every account has what it had. Or the whole is refused, since an entry is out of range or over
/// 65,536 bytes. The day is one of the calendar, and not its last.
pub fn closing_loads()
    ensures { (day : ℕ) (year : Option ℕ) (asked : CloseAsked) (text output : List ℕ)
        → asked.entries ≡ entries.Both → IsDay asked.on → asked.on < last_day
        → is_utf8 asked.into ≡ true → IsEnded text
        → judge day year (works.Close asked) text ≡ Ok (written output)
        → IsClosed day year asked text output }
{}

/// The same for any text, where what is written is added to it as an entry is: behind a line's end where its last line lacks
/// one, the end of a comment block that it leaves open, and an empty line. Then there is one more cause of a refusal: its last
/// item has 65,536 bytes and no line's end, and is too long with one.
pub fn closing_joins()
    ensures { (day : ℕ) (year : Option ℕ) (asked : CloseAsked) (text output : List ℕ)
        → asked.entries ≡ entries.Both → IsDay asked.on → asked.on < last_day
        → is_utf8 asked.into ≡ true
        → judge day year (works.Close asked) text ≡ Ok (written output)
        → IsJoined day year asked text output }
{}

/// Where `close --close` writes the closing entry for a text that is empty or ends with a line's end, outside a comment block, that
/// text with it behind it loads to the book of the text and the entry behind it, and then each closed account is empty. Or the
/// whole is refused, since an entry is out of range or over 65,536 bytes. The day is one of the calendar, and not its last.
pub fn closing_empties()
    ensures { (day : ℕ) (year : Option ℕ) (asked : CloseAsked) (text output : List ℕ)
        → asked.entries ≡ entries.Closing → IsDay asked.on → asked.on < last_day
        → is_utf8 asked.into ≡ true → IsEnded text
        → judge day year (works.Close asked) text ≡ Ok (written output)
        → IsEmptied day year asked text output }
{}

/// The opening entry that `close --open` writes loads behind any text that loads, has no posting after the entry's day, is empty or
/// ends with a line's end outside a comment block, and whose directives make an entry at its end read as at the closed text's end.
/// The whole loads to that text's book and the opening entry, which gives each closed account its balance of the closed text. Or
/// the whole is refused, since an entry is out of range or over 65,536 bytes. Where the closed text has no directives, the empty
/// text meets these conditions. Where `close --open` writes nothing, the closed accounts are empty.
pub fn opening_loads()
    ensures { (day : ℕ) (year : Option ℕ) (asked : CloseAsked) (text output : List ℕ)
        → asked.entries ≡ entries.Opening → IsDay asked.on → asked.on < last_day
        → is_utf8 asked.into ≡ true
        → judge day year (works.Close asked) text ≡ Ok (written output)
        → IsOpenedBehind day year asked text output }
{}

/// Where `close --open` writes something, it is the opening entry, as `print` lays it out; and in a journal of this entry
/// alone each closed account has the balance that it has in the text. Where it writes nothing, these accounts are empty.
pub fn opening_carries()
    ensures { (day : ℕ) (year : Option ℕ) (asked : CloseAsked) (text output : List ℕ)
        → asked.entries ≡ entries.Opening
        → judge day year (works.Close asked) text ≡ Ok (written output)
        → IsOpened day year asked text output }
{}
