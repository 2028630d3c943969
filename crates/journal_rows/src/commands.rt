//! Sessions of commands, each run beside the files that those before it left.
ghost use Rattle.std.specs.Prelude.{◌≡◌};

use crate::case::{Seen, status_of, words_of};
use crate::runs::expect;
use command_line::{Outside, Streams};
use hl_base::{Bytes, List, MemShelf, MemSink, MemSource, Memory, Steps, Text};
use query::ListMaker;
use std::alloc::Global;
use std::marker::Brand;
use std::process::Abort;
use std::sync::Wait;
use std::sync::ledger::{Blank, Ledger};
use std::test::Fail;
use std::thread::Threads;

/// The room of each output and file, in bytes.
const ROOM: u64 = 65536;

/// An entry of 68 bytes.
const BREAD: &[u8] = b"2024-01-05 bread\n    expenses:food  10 EUR\n    assets:cash  -10 EUR\n";

/// An account is given an amount.
const SET: &[u8] = b"2024-01-10 set\n    assets:cash  = 100 EUR\n    equity:start\n";

/// The same, and a later assertion of its counterpart.
const PROOF: &[u8] =
    b"2024-01-10 set\n    assets:cash  = 100 EUR\n    equity:start\n\n2024-01-31 proof\n    equity:start  0 EUR = -100 EUR\n    equity:other  0 EUR\n";

/// An entry of a day before them.
const GIFT: &[u8] = b"2024-01-05 gift\n    assets:cash  30 EUR\n    income:gifts  -30 EUR\n";

/// The balance of the text in which an account is given an amount.
const SET_BALANCE: &[u8] =
    b"             100 EUR  assets:cash\n            -100 EUR  equity:start\n--------------------\n                   0  \n";

/// The same after the entry before it.
const GIFT_BALANCE: &[u8] =
    b"             100 EUR  assets:cash\n             -70 EUR  equity:start\n             -30 EUR  income:gifts\n--------------------\n                   0  \n";

/// The empty text at revision 0 in a store with a limit of 1048576 bytes.
const EMPTY: &[u8] =
    b"HLSTORE\x02\0\0\x10\0\0\0\0\0\x01\0\0\0\0\0\0\0\0\0\0\0\0\0\0\0\x01C\x04\0\0\0\0\0\0\0\0\0\0\0\0";

/// The same in an older store.
const OLDER: &[u8] = b"HLSTORE\x01\0\0\x10\0\0\0\0\0\x01T\0\0\0\0\0\0\0\0\0";

/// The first half of a store with a limit of 250 bytes, in which the entry was added and deleted.
const DELETED: &[u8] =
    b"HLSTORE\x02\xfa\0\0\0\0\0\0\0\x01\0\0\0\0\0\0\0\0\0\0\0\0\0\0\0\x01C\x04\0\0\0\0\0\0\0\0\0\0\0\x01ST\0\0\0\0\0\0\0\0\0\0\0\0\0\0\0\0\0\0\0\0\0\0\x002024-01-05 bread\n    expenses:food  10 EUR\n    assets:cash  -10 EUR\n\x01S\x10\0\0\0\0\0\0\0\0\0\0\0\0\0\0\0D\0\0\0\0\0\0\0\0";

/// Its second half, begun at revision 2, to which the entry was added again.
const ADDED_AGAIN: &[u8] =
    b"HLSTORE\x02\xfa\0\0\0\0\0\0\0\x02\0\0\0\0\0\0\0\x02\0\0\0\0\0\0\0\x01C\x04\0\0\0\0\0\0\0\0\0\0\0\x01ST\0\0\0\0\0\0\0\0\0\0\0\0\0\0\0\0\0\0\0\0\0\0\x002024-01-05 bread\n    expenses:food  10 EUR\n    assets:cash  -10 EUR\n\0";

/// A bank's rules.
const RULES: &[u8] = b"fields date, description, x\namount %x EUR\naccount1 assets:bank\n";

/// A bank's records.
const RECORDS: &[u8] =
    b"2024-03-01,rent,-500\n2024-03-02,shop,-20\n2024-03-03,pay,900\n2024-03-05,shop,-7\n2024-03-05,cafe,-3\n";

/// A request that deletes the first item at revision 1.
const DELETE: &[u8] = b"POST /edit HTTP/1.1\r\nContent-Length: 19\r\n\r\nbase=1&item=1&text=";

/// A request that imports the records and one more of their last day.
const IMPORT: &[u8] =
    b"POST /import HTTP/1.1\r\nContent-Length: 253\r\n\r\nname=pay.csv&rules=fields+date%2C+description%2C+x%0Aamount+%25x+EUR%0Aaccount1+assets%3Abank%0A&csv=2024-03-01%2Crent%2C-500%0A2024-03-02%2Cshop%2C-20%0A2024-03-03%2Cpay%2C900%0A2024-03-05%2Cshop%2C-7%0A2024-03-05%2Ccafe%2C-3%0A2024-03-05%2Cbar%2C-4%0A";

/// An edit that is there at revision 2.
const DONE_2: &[u8] =
    b"HTTP/1.1 200 OK\r\nContent-Type: text/plain; charset=utf-8\r\nX-Revision: 2\r\nContent-Length: 11\r\n\r\nrevision 2\n";

/// A command and its input, and the status, the output and the error line that it has.
#[derive(Clone, Copy)]
struct Command<'a> {
    words: &'a [&'a str],
    input: &'a [u8],
    status: u8,
    output: &'a [u8],
    error: &'a [u8],
}

/// A name, and the bytes under it.
#[derive(Clone, Copy)]
struct File<'a> {
    name: &'a str,
    bytes: &'a [u8],
}

/// Files, the numbers of the loads and takes that fail, commands that are run one after another, and what some files are
/// then.
#[derive(Clone, Copy)]
struct Session<'a> {
    before: &'a [File<'a>],
    fails: &'a [u64],
    commands: &'a [Command<'a>],
    after: &'a [File<'a>],
}

// A command of status 0.
fn said<'a>(words: &'a [&'a str], input: &'a [u8], output: &'a [u8]) -> Command<'a> {
    Command {
        words,
        input,
        status: 0,
        output,
        error: b"",
    }
}

// A command that is refused.
fn refused<'a>(words: &'a [&'a str], input: &'a [u8], status: u8, error: &'a [u8]) -> Command<'a> {
    Command {
        words,
        input,
        status,
        output: b"",
        error,
    }
}

fn file_of<'a>(name: &'a str, bytes: &'a [u8]) -> File<'a> {
    File { name, bytes }
}

// A shelf with the files of a session.
fn shelf_of(alloc: Global, session: &Session) -> Result<MemShelf, Memory> {
    let mut files = Vec::new(alloc);
    for before in session.before {
        let name = Text::copied(alloc, before.name)?;
        let bytes = Bytes::copied(alloc, before.bytes)?;
        files.push((name, bytes))?;
    }
    let files = List::from_vec(files);
    MemShelf::new(alloc, files, ROOM, None, session.fails, &[])
}

/// The objects in memory that commands are run in.
type Memories = Outside<MemSource, MemSink, MemSink, MemShelf, ListMaker>;

// One command has its status, its output and its error line.
fn answers<L: Ledger, W: Abort + Threads + Wait + Sync>(
    rt: &W,
    alloc: Global,
    command: &Command,
    outside: &mut Memories,
    steps: &mut Steps<L>,
) -> Result<(), Memory> {
    outside.streams = Streams {
        input: MemSource::new(alloc, command.input, &[])?,
        output: MemSink::new(alloc, ROOM, &[])?,
    };
    outside.err = MemSink::new(alloc, ROOM, &[])?;
    let words = words_of(alloc, command.words)?;
    let status = status_of(rt, alloc, words.as_slice(), outside, steps);
    let seen = Seen {
        status,
        output: Bytes::copied(alloc, outside.streams.output.as_slice())?,
        error: Bytes::copied(alloc, outside.err.as_slice())?,
    };
    let what = match command.words {
        [] => "nothing",
        [word, ..] => *word,
    };
    expect(
        rt,
        &seen,
        command.status,
        command.output,
        command.error,
        what,
    );
    Ok(())
}

// A file that a command gave back has these bytes.
fn stands(shelf: &MemShelf, wanted: &File) -> Result<(), Fail> {
    let Some(disk) = shelf.disk(wanted.name.as_bytes()) else {
        return Err(Fail::new("a file that was given back"));
    };
    if disk.as_slice() != wanted.bytes {
        return Err(Fail::new("the bytes of a file"));
    }
    Ok(())
}

fn counted<L: Ledger, W: Abort + Threads + Wait + Sync>(
    rt: &W,
    alloc: Global,
    blank: Blank,
    session: &Session,
) -> Result<(), Fail>
    requires name { blank.name ≡ L.name }
    requires parts { blank.parts ≡ L.parts }
    requires three { blank.parts ≡ 3 }
{
    let mut outside = Outside {
        streams: Streams {
            input: MemSource::new(alloc, b"", &[])?,
            output: MemSink::new(alloc, ROOM, &[])?,
        },
        err: MemSink::new(alloc, ROOM, &[])?,
        shelf: shelf_of(alloc, session)?,
        maker: ListMaker::new(List::new(alloc)),
    };
    let mut steps = Steps::<L>::start(blank);
    for command in session.commands {
        answers(rt, alloc, command, &mut outside, &mut steps)?;
    }
    for after in session.after {
        stands(&outside.shelf, after)?;
    }
    Ok(())
}

// The commands of a session answer so, and leave such files.
fn holds<W: Abort + Threads + Wait + Sync>(
    rt: &W,
    alloc: Global,
    session: &Session,
) -> Result<(), Fail> {
    counted::<Brand, W>(rt, alloc, Blank::new(3), session)
}

// An edit before the day of an assigned amount changes what it assigns, and is refused where a later assertion fails then.
fn assigns_again<W: Abort + Threads + Wait + Sync>(rt: &W, alloc: Global) -> Result<(), Fail> {
    let before = [file_of("set", SET), file_of("proof", PROOF)];
    let commands = [
        said(&["init", "home", "-f", "set"], b"", b""),
        said(&["balance", "--store=home"], b"", SET_BALANCE),
        said(&["add", "home"], GIFT, b"revision 1\n"),
        said(&["balance", "--store=home"], b"", GIFT_BALANCE),
        said(&["init", "later", "-f", "proof"], b"", b""),
        refused(
            &["add", "later"],
            GIFT,
            1,
            b"error: line 6: assertion: wanted -100 EUR, found -70 EUR\n",
        ),
        said(&["export", "later"], b"", PROOF),
    ];
    let session = Session {
        before: &before,
        fails: &[],
        commands: &commands,
        after: &[],
    };
    holds(rt, alloc, &session)
}

// Stores are made within their limits, an older one is opened beside itself, and a store goes on in its second file.
fn fills_files<W: Abort + Threads + Wait + Sync>(rt: &W, alloc: Global) -> Result<(), Fail> {
    let before = [file_of("old", OLDER)];
    let commands = [
        said(&["init", "home", "--limit=1048576"], b"", b""),
        refused(&["init", "home"], b"", 8, b"error: exists: 47\n"),
        said(&["export", "old"], b"", b""),
        said(&["init", "tight", "--limit=141"], b"", b""),
        said(&["add", "tight"], BREAD, b"revision 1\n"),
        said(&["init", "full", "--limit=140"], b"", b""),
        refused(&["add", "full"], BREAD, 7, b"error: full: 141 of 140\n"),
        said(&["init", "two", "--limit=250"], b"", b""),
        said(&["add", "two"], BREAD, b"revision 1\n"),
        said(&["talk", "--store=two", "--allow=edit"], DELETE, DONE_2),
        said(&["add", "two"], BREAD, b"revision 3\n"),
    ];
    let after = [
        file_of("home", EMPTY),
        file_of("old", OLDER),
        file_of("old.2", EMPTY),
        file_of("two", DELETED),
        file_of("two.2", ADDED_AGAIN),
    ];
    let session = Session {
        before: &before,
        fails: &[],
        commands: &commands,
        after: &after,
    };
    holds(rt, alloc, &session)
}

// A posting that is assigned an amount has no day of its own, and a sample tells its bank.
fn reads_days<W: Abort + Threads + Wait + Sync>(rt: &W, alloc: Global) -> Result<(), Fail> {
    let commands = [
        refused(
            &["init", "home"],
            b"2024-01-01 x\n    a  = 5 EUR  ; date:2024-01-02\n    b\n",
            1,
            b"error: line 1: not allowed\n",
        ),
        refused(
            &["init", "home"],
            b"2024-01-01 x\n    a  = 5 EUR  ; date:soon\n    b\n",
            1,
            b"error: line 2: date\n",
        ),
        said(
            &["init", "home"],
            b"2024-01-01 x\n    a  = 5 EUR  ; day:2024-01-02\n    b\n",
            b"",
        ),
        said(
            &["sample", "2"],
            b"",
            b"transactions 2, bytes 128, accounts 3, bank -913.39 EUR\n",
        ),
    ];
    let session = Session {
        before: &[],
        fails: &[],
        commands: &commands,
        after: &[],
    };
    holds(rt, alloc, &session)
}

// What was imported isn't imported again, but for what its last day has more.
fn imports<W: Abort + Threads + Wait + Sync>(rt: &W, alloc: Global) -> Result<(), Fail> {
    let before = [file_of("pay.csv", RECORDS), file_of("pay.csv.rules", RULES)];
    let commands = [
        said(&["init", "home"], b"", b""),
        said(&["import", "home", "pay.csv"], b"", b"revision 1\n"),
        said(
            &["import", "home", "pay.csv"],
            b"",
            b"unchanged, revision 1\n",
        ),
        said(&["talk", "--store=home", "--allow=edit"], IMPORT, DONE_2),
        said(
            &["print", "--store=home", "desc:bar"],
            b"",
            b"2024-03-05 bar\n    assets:bank       -4 EUR\n    expenses:unknown   4 EUR\n\n",
        ),
        said(
            &["balance", "-N", "--store=home", "income"],
            b"",
            b"            -900 EUR  income:unknown\n",
        ),
    ];
    let session = Session {
        before: &before,
        fails: &[],
        commands: &commands,
        after: &[],
    };
    holds(rt, alloc, &session)
}

// An import of which a load or a take fails leaves the store as it was: the next one makes the first revision.
fn import_fails<W: Abort + Threads + Wait + Sync>(
    rt: &W,
    alloc: Global,
    call: u64,
) -> Result<(), Fail> {
    let before = [
        file_of("home", EMPTY),
        file_of("bank.csv", RECORDS),
        file_of("bank.rules", RULES),
    ];
    let words = ["import", "home", "bank.csv", "--rules=bank.rules"];
    let commands = [
        refused(&words, b"", 3, b"error: read fault\n"),
        said(&["export", "home"], b"", b""),
        said(&words, b"", b"revision 1\n"),
    ];
    let fails = [call];
    let session = Session {
        before: &before,
        fails: &fails,
        commands: &commands,
        after: &[],
    };
    holds(rt, alloc, &session)
}

#[test]
fn stores_are_made_and_edited(rt: HostRuntime) -> Result<(), Fail> {
    assigns_again(&rt, rt.alloc())?;
    fills_files(&rt, rt.alloc())?;
    reads_days(&rt, rt.alloc())
}

#[test]
fn stores_are_imported_into_and_served(rt: HostRuntime) -> Result<(), Fail> {
    imports(&rt, rt.alloc())?;
    for call in [1, 2, 3, 4] {
        import_fails(&rt, rt.alloc(), call)?;
    }
    Ok(())
}
