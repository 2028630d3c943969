//! What the program says of itself.
ghost use Rattle.std.specs.Prelude.{◌≡◌};
ghost use Rattle.command_line.specs.Help as spec;

use command_words::{Chore, Subject};
use report_options::Command;

/// The commands and options, a line each.
#[tactic(auto, unfolding(crate::specs::Help::help_text))]
fn help_text() -> &'static str
    ensures { result.now ≡ spec.help_text }
{
    "nibcactus: plain text accounting\n\nnibcactus COMMAND [OPTIONS] [QUERY] < JOURNAL\nnibcactus COMMAND -f FILE [OPTIONS] [QUERY]\n\nReports\n  balance, bal          each account's sums, and the total\n  register, reg         the postings by day, with a running total\n  incomestatement, is   revenues and expenses\n  balancesheet, bs      assets and liabilities at the end of each period\n  print                 the transactions by day\n  accounts              the names of the accounts\n  check                 nothing, or the journal's first fault\n\nOthers over a text\n  strict NAME ..        accounts, commodities, payees, tags, ordereddates: what isn't declared\n  close --on=DAY        the entries that close accounts and open them again\n  explain [FILE]        the first fault of the journal, or of a bank's file, and how\n                        it is mended; --rules=NAME, else FILE.rules\n  hours                 the hours of a time log, as a journal\n\nStores\n  init STORE            a store of the journal; --limit=N: bytes of each file\n  add STORE             adds the entry on standard input\n  import STORE FILE     adds a bank's file; --rules=NAME, else FILE.rules\n  export STORE          the text of a store\n  items STORE           the number, line, day and first line of each item\n  replace STORE         replaces its text with the journal; --base=N: only at that revision\n  serve STORE           over HTTP, to several people; --host, --port, --workers=N,\n                        --connections=N, --allow=LEVEL: view, add (the default) or edit;\n                        --page: with a page for browsers\n  feed STORE            its records, as frames\n  follow REPLICA        a store that keeps the frames on standard input; --limit=N\n\nOthers\n  talk                  one HTTP connection over standard input and output\n                        --allow=LEVEL: view, add (the default) or edit\n  sample N              loads a journal of N entries, and says how long it is\n  --help [COMMAND]      this text, or the help of a command\n  --version             the version\n\nThe journal\n  -f FILE               read it from a file; - is standard input, the default\n  --store=NAME          read it from a store\n\nPeriods and intervals\n  -b, --begin DAY       from that day on\n  -e, --end DAY         before that day\n  -p, --period PERIOD   both, and the interval\n  -D -W -M -Q -Y        columns of days, weeks, months, quarters, years\n\nPostings\n  -U -P -C              unmarked, pending, cleared\n  -R, --real            no virtual ones\n  --depth=N             accounts cut to N parts\n  -E, --empty           sums of zero too\n\nValues\n  -B, --cost            at cost\n  -V, --market          in the default currency, at the end of each period\n  -X, --exchange SYM    in that symbol\n  --value=WHEN[,SYM]    cost, then, end, now or a day\n\nRules\n  --auto                what automated rules add\n  --forecast[=PERIOD]   transactions of periodic rules that are to come\n  --budget              balance: amounts beside the goals of periodic rules\n\nLayout\n  -H, --cumulative, --change   where the sums begin\n  -l, --flat; -t, --tree       a list or a tree\n  -A, -T, -N, -S               average, row total, no total, by amount\n  -x, --explicit               print: all amounts\n\nBank files\n  --name=NAME           the name under which a file is remembered; else FILE\n  --dry-run             writes the entries that would be added, and stores nothing\n\nClosing entries and time logs\n  --on=DAY              the day of the closing entry\n  --into=ACCOUNT        what takes the balances; else equity:closing\n  --close               close: the closing entry only\n  --open                close: the opening entry only\n  --dot                 the log is timedot, else timeclock\n\nA query has words of account names, and terms: acct:, desc:, payee:, note:,\ncode:, date:, status:, real:, amt:, cur:, tag:, type:, depth:, not:.\n"
}

/// The program's name and version.
#[tactic(auto, unfolding(crate::specs::Help::version_text))]
pub fn version_text() -> &'static str
    ensures { result.now ≡ spec.version_text }
{
    "nibcactus 0.2.0\n"
}

/// The help of `balance`.
#[tactic(auto, unfolding(crate::specs::Help::balance_help))]
fn balance_help() -> &'static str
    ensures { result.now ≡ spec.balance_help }
{
    "nibcactus balance: each account's sums, and the total\n\nnibcactus balance [OPTIONS] [QUERY] < JOURNAL\nnibcactus bal [OPTIONS] [QUERY] < JOURNAL\n\nThe journal\n  -f FILE               read it from a file; - is standard input, the default\n  --store=NAME          read it from a store\n\nPeriods and intervals\n  -b, --begin DAY       from that day on\n  -e, --end DAY         before that day\n  -p, --period PERIOD   both, and the interval\n  -D -W -M -Q -Y        columns of days, weeks, months, quarters, years\n\nPostings\n  -U -P -C              unmarked, pending, cleared\n  -R, --real            no virtual ones\n  --depth=N             accounts cut to N parts\n  -E, --empty           sums of zero too\n\nValues\n  -B, --cost            at cost\n  -V, --market          in the default currency, at the end of each period\n  -X, --exchange SYM    in that symbol\n  --value=WHEN[,SYM]    cost, then, end, now or a day\n\nRules\n  --auto                what automated rules add\n  --forecast[=PERIOD]   transactions of periodic rules that are to come\n  --budget              amounts beside the goals of periodic rules\n\nLayout\n  -H, --cumulative, --change   where the sums begin\n  -l, --flat; -t, --tree       a list or a tree\n  -A, -T, -N, -S               average, row total, no total, by amount\n\nA query has words of account names, and terms: acct:, desc:, payee:, note:,\ncode:, date:, status:, real:, amt:, cur:, tag:, type:, depth:, not:.\n"
}

/// The help of `register`.
#[tactic(auto, unfolding(crate::specs::Help::register_help))]
fn register_help() -> &'static str
    ensures { result.now ≡ spec.register_help }
{
    "nibcactus register: the postings by day, with a running total\n\nnibcactus register [OPTIONS] [QUERY] < JOURNAL\nnibcactus reg [OPTIONS] [QUERY] < JOURNAL\n\nThe journal\n  -f FILE               read it from a file; - is standard input, the default\n  --store=NAME          read it from a store\n\nPeriods\n  -b, --begin DAY       from that day on\n  -e, --end DAY         before that day\n  -p, --period PERIOD   both\n\nPostings\n  -U -P -C              unmarked, pending, cleared\n  -R, --real            no virtual ones\n  --depth=N             accounts cut to N parts\n\nValues\n  -B, --cost            at cost\n  -V, --market          in the default currency, at the end of each period\n  -X, --exchange SYM    in that symbol\n  --value=WHEN[,SYM]    cost, then, end, now or a day\n\nRules\n  --auto                what automated rules add\n  --forecast[=PERIOD]   transactions of periodic rules that are to come\n\nLayout\n  -H, --historical      the total begins with what was before\n\nA query has words of account names, and terms: acct:, desc:, payee:, note:,\ncode:, date:, status:, real:, amt:, cur:, tag:, type:, depth:, not:.\n"
}

/// The help of `incomestatement`.
#[tactic(auto, unfolding(crate::specs::Help::income_help))]
fn income_help() -> &'static str
    ensures { result.now ≡ spec.income_help }
{
    "nibcactus incomestatement: revenues and expenses\n\nnibcactus incomestatement [OPTIONS] [QUERY] < JOURNAL\nnibcactus is [OPTIONS] [QUERY] < JOURNAL\n\nThe journal\n  -f FILE               read it from a file; - is standard input, the default\n  --store=NAME          read it from a store\n\nPeriods and intervals\n  -b, --begin DAY       from that day on\n  -e, --end DAY         before that day\n  -p, --period PERIOD   both, and the interval\n  -D -W -M -Q -Y        columns of days, weeks, months, quarters, years\n\nPostings\n  -U -P -C              unmarked, pending, cleared\n  -R, --real            no virtual ones\n  --depth=N             accounts cut to N parts\n  -E, --empty           sums of zero too\n\nValues\n  -B, --cost            at cost\n  -V, --market          in the default currency, at the end of each period\n  -X, --exchange SYM    in that symbol\n  --value=WHEN[,SYM]    cost, then, end, now or a day\n\nRules\n  --auto                what automated rules add\n  --forecast[=PERIOD]   transactions of periodic rules that are to come\n\nLayout\n  -l, --flat; -t, --tree       a list or a tree\n  -A, -T, -N, -S               average, row total, no total, by amount\n\nA query has words of account names, and terms: acct:, desc:, payee:, note:,\ncode:, date:, status:, real:, amt:, cur:, tag:, type:, depth:, not:.\n"
}

/// The help of `balancesheet`.
#[tactic(auto, unfolding(crate::specs::Help::sheet_help))]
fn sheet_help() -> &'static str
    ensures { result.now ≡ spec.sheet_help }
{
    "nibcactus balancesheet: assets and liabilities at the end of each period\n\nnibcactus balancesheet [OPTIONS] [QUERY] < JOURNAL\nnibcactus bs [OPTIONS] [QUERY] < JOURNAL\n\nThe journal\n  -f FILE               read it from a file; - is standard input, the default\n  --store=NAME          read it from a store\n\nPeriods and intervals\n  -b, --begin DAY       from that day on\n  -e, --end DAY         before that day\n  -p, --period PERIOD   both, and the interval\n  -D -W -M -Q -Y        columns of days, weeks, months, quarters, years\n\nPostings\n  -U -P -C              unmarked, pending, cleared\n  -R, --real            no virtual ones\n  --depth=N             accounts cut to N parts\n  -E, --empty           sums of zero too\n\nValues\n  -B, --cost            at cost\n  -V, --market          in the default currency, at the end of each period\n  -X, --exchange SYM    in that symbol\n  --value=WHEN[,SYM]    cost, then, end, now or a day\n\nRules\n  --auto                what automated rules add\n  --forecast[=PERIOD]   transactions of periodic rules that are to come\n\nLayout\n  -l, --flat; -t, --tree       a list or a tree\n  -N, -S                       no total, by amount\n\nA query has words of account names, and terms: acct:, desc:, payee:, note:,\ncode:, date:, status:, real:, amt:, cur:, tag:, type:, depth:, not:.\n"
}

/// The help of `print`.
#[tactic(auto, unfolding(crate::specs::Help::print_help))]
fn print_help() -> &'static str
    ensures { result.now ≡ spec.print_help }
{
    "nibcactus print: the transactions by day\n\nnibcactus print [OPTIONS] [QUERY] < JOURNAL\n\nThe journal\n  -f FILE               read it from a file; - is standard input, the default\n  --store=NAME          read it from a store\n\nPeriods\n  -b, --begin DAY       from that day on\n  -e, --end DAY         before that day\n  -p, --period PERIOD   both\n\nPostings\n  -U -P -C              unmarked, pending, cleared\n  -R, --real            no virtual ones\n\nRules\n  --auto                what automated rules add\n  --forecast[=PERIOD]   transactions of periodic rules that are to come\n\nLayout\n  -x, --explicit        all amounts\n\nA query has words of account names, and terms: acct:, desc:, payee:, note:,\ncode:, date:, status:, real:, amt:, cur:, tag:, type:, depth:, not:.\n"
}

/// The help of `accounts`.
#[tactic(auto, unfolding(crate::specs::Help::accounts_help))]
fn accounts_help() -> &'static str
    ensures { result.now ≡ spec.accounts_help }
{
    "nibcactus accounts: the names of the accounts\n\nnibcactus accounts [OPTIONS] [QUERY] < JOURNAL\n\nThe journal\n  -f FILE               read it from a file; - is standard input, the default\n  --store=NAME          read it from a store\n\nPeriods\n  -b, --begin DAY       from that day on\n  -e, --end DAY         before that day\n  -p, --period PERIOD   both\n\nPostings\n  -U -P -C              unmarked, pending, cleared\n  -R, --real            no virtual ones\n  --depth=N             accounts cut to N parts\n\nRules\n  --auto                what automated rules add\n  --forecast[=PERIOD]   transactions of periodic rules that are to come\n\nA query has words of account names, and terms: acct:, desc:, payee:, note:,\ncode:, date:, status:, real:, amt:, cur:, tag:, type:, depth:, not:.\n"
}

/// The help of `check`.
#[tactic(auto, unfolding(crate::specs::Help::check_help))]
fn check_help() -> &'static str
    ensures { result.now ≡ spec.check_help }
{
    "nibcactus check: nothing, or the journal's first fault\n\nnibcactus check [OPTIONS] [QUERY] < JOURNAL\n\nThe journal\n  -f FILE               read it from a file; - is standard input, the default\n  --store=NAME          read it from a store\n\nA query has words of account names, and terms: acct:, desc:, payee:, note:,\ncode:, date:, status:, real:, amt:, cur:, tag:, type:, depth:, not:.\n"
}

/// The help of `hours`.
#[tactic(auto, unfolding(crate::specs::Help::hours_help))]
fn hours_help() -> &'static str
    ensures { result.now ≡ spec.hours_help }
{
    "nibcactus hours: the hours of a time log, as a journal\n\nnibcactus hours [OPTIONS] < LOG\n\nThe log\n  -f FILE               read it from a file; - is standard input, the default\n  --dot                 it is timedot, else timeclock\n"
}

/// The help of `strict`.
#[tactic(auto, unfolding(crate::specs::Help::strict_help))]
fn strict_help() -> &'static str
    ensures { result.now ≡ spec.strict_help }
{
    "nibcactus strict: checks of a journal that loads\n\nnibcactus strict CHECK .. [OPTIONS] < JOURNAL\n\nChecks\n  accounts              each account of a posting is declared\n  commodities           each symbol is declared\n  payees                each payee is declared\n  tags                  each tag but date is declared\n  ordereddates          no entry is before the one above it\n\nThe journal\n  -f FILE               read it from a file; - is standard input, the default\n  --store=NAME          read it from a store\n"
}

/// The help of `close`.
#[tactic(auto, unfolding(crate::specs::Help::close_help))]
fn close_help() -> &'static str
    ensures { result.now ≡ spec.close_help }
{
    "nibcactus close: the entries that close accounts and open them again\n\nnibcactus close --on=DAY [OPTIONS] [QUERY] < JOURNAL\n\nThe entries\n  --on=DAY              the day of the closing entry\n  --into=ACCOUNT        what takes the balances; else equity:closing\n  --close               the closing entry only\n  --open                the opening entry only\n  QUERY                 the accounts that are closed; else type:AL\n\nThe journal\n  -f FILE               read it from a file; - is standard input, the default\n  --store=NAME          read it from a store\n\nA query has words of account names, and terms: acct:, desc:, payee:, note:,\ncode:, date:, status:, real:, amt:, cur:, tag:, type:, depth:, not:.\n"
}

/// The help of `explain`.
#[tactic(auto, unfolding(crate::specs::Help::explain_help))]
fn explain_help() -> &'static str
    ensures { result.now ≡ spec.explain_help }
{
    "nibcactus explain: the first fault of a journal or of a bank's file, and how it is mended\n\nnibcactus explain [OPTIONS] < JOURNAL\nnibcactus explain -f JOURNAL\nnibcactus explain FILE [--rules=NAME]\n\nThe journal\n  -f FILE               read it from a file; - is standard input, the default\n  --store=NAME          read it from a store\n\nA bank's file\n  FILE                  why import refuses it, or the line of its rules\n  --rules=NAME          the file of its rules; else FILE.rules\n"
}

/// The help of `init`.
#[tactic(auto, unfolding(crate::specs::Help::init_help))]
fn init_help() -> &'static str
    ensures { result.now ≡ spec.init_help }
{
    "nibcactus init: a store of a journal\n\nnibcactus init STORE [OPTIONS] < JOURNAL\n\nOptions\n  -f FILE               read the journal from a file; - is standard input, the default\n  --limit=N             the most bytes of each of the store's two files; else 1099511627776\n"
}

/// The help of `add`.
#[tactic(auto, unfolding(crate::specs::Help::add_help))]
fn add_help() -> &'static str
    ensures { result.now ≡ spec.add_help }
{
    "nibcactus add: adds the entries on standard input to a store\n\nnibcactus add STORE < ENTRIES\n"
}

/// The help of `import`.
#[tactic(auto, unfolding(crate::specs::Help::import_help))]
fn import_help() -> &'static str
    ensures { result.now ≡ spec.import_help }
{
    "nibcactus import: adds the new entries of a bank's file to a store\n\nnibcactus import STORE FILE [OPTIONS]\n\nOptions\n  --rules=NAME          the file of its rules; else FILE.rules\n  --name=NAME           the name under which it is remembered; else FILE\n  --dry-run             writes the entries that would be added, and stores nothing\n"
}

/// The help of `replace`.
#[tactic(auto, unfolding(crate::specs::Help::replace_help))]
fn replace_help() -> &'static str
    ensures { result.now ≡ spec.replace_help }
{
    "nibcactus replace: replaces the text of a store with a journal\n\nnibcactus replace STORE [OPTIONS] < JOURNAL\n\nOptions\n  -f FILE               read the journal from a file; - is standard input, the default\n  --base=N              only while the store has revision N\n"
}

/// The help of `export`.
#[tactic(auto, unfolding(crate::specs::Help::export_help))]
fn export_help() -> &'static str
    ensures { result.now ≡ spec.export_help }
{
    "nibcactus export: the text of a store\n\nnibcactus export STORE\n"
}

/// The help of `items`.
#[tactic(auto, unfolding(crate::specs::Help::items_help))]
fn items_help() -> &'static str
    ensures { result.now ≡ spec.items_help }
{
    "nibcactus items: the items of a store's journal, a line each\n\nnibcactus items STORE\n\nA line has the item's number, which /edit takes, the number of its first line, the\nday of a transaction, and the first line, with tabs between them.\n"
}

/// The help of `serve`.
#[tactic(auto, unfolding(crate::specs::Help::serve_help))]
fn serve_help() -> &'static str
    ensures { result.now ≡ spec.serve_help }
{
    "nibcactus serve: a store over HTTP, to several people\n\nnibcactus serve STORE [OPTIONS]\n\nOptions\n  --host=HOST           the address of this machine; else 127.0.0.1\n  --port=PORT           the port; else 5000\n  --allow=LEVEL         what requests may do: view, add (the default) or edit\n  --workers=N           N requests at once, 1 to 16; else 4\n  --connections=N       each worker ends after N connections\n  --page                a page at / that shows and edits the journal\n"
}

/// The help of `feed`.
#[tactic(auto, unfolding(crate::specs::Help::feed_help))]
fn feed_help() -> &'static str
    ensures { result.now ≡ spec.feed_help }
{
    "nibcactus feed: the records of a store, as frames\n\nnibcactus feed STORE\n"
}

/// The help of `follow`.
#[tactic(auto, unfolding(crate::specs::Help::follow_help))]
fn follow_help() -> &'static str
    ensures { result.now ≡ spec.follow_help }
{
    "nibcactus follow: a store that keeps the frames on standard input\n\nnibcactus follow REPLICA [OPTIONS] < FRAMES\n\nOptions\n  --limit=N             the most bytes of each of its two files; else 1099511627776\n"
}

/// The help of `talk`.
#[tactic(auto, unfolding(crate::specs::Help::talk_help))]
fn talk_help() -> &'static str
    ensures { result.now ≡ spec.talk_help }
{
    "nibcactus talk: one HTTP connection over standard input and output\n\nnibcactus talk [OPTIONS]\n\nOptions\n  -f FILE               a journal in memory that begins as the text of a file; else it is empty\n  --store=NAME          the journal of a store\n  --allow=LEVEL         what requests may do: view, add (the default) or edit\n"
}

/// The help of `sample`.
#[tactic(auto, unfolding(crate::specs::Help::sample_help))]
fn sample_help() -> &'static str
    ensures { result.now ≡ spec.sample_help }
{
    "nibcactus sample: loads a journal of N entries, and says how long it is\n\nnibcactus sample N\n\nN is from 1 to 100000.\n"
}

/// The help of a report.
fn report_help(command: Command) -> &'static str
    ensures { result.now ≡ spec.report_help command }
{
    match command {
        Command::Balance => balance_help(),
        Command::Register => register_help(),
        Command::IncomeStatement => income_help(),
        Command::BalanceSheet => sheet_help(),
        Command::Print => print_help(),
        Command::Accounts => accounts_help(),
        Command::Check => check_help(),
    }
}

/// The help of a command that is no report.
fn chore_help(chore: Chore) -> &'static str
    ensures { result.now ≡ spec.chore_help chore }
{
    match chore {
        Chore::Hours => hours_help(),
        Chore::Strict => strict_help(),
        Chore::Close => close_help(),
        Chore::Explain => explain_help(),
        Chore::Init => init_help(),
        Chore::Add => add_help(),
        Chore::Import => import_help(),
        Chore::Replace => replace_help(),
        Chore::Export => export_help(),
        Chore::Items => items_help(),
        Chore::Feed => feed_help(),
        Chore::Follow => follow_help(),
        Chore::Talk => talk_help(),
        Chore::Sample => sample_help(),
    }
}

/// The help of the program, or of a command.
pub fn help_of(subject: Subject) -> &'static str
    ensures { result.now ≡ spec.help_of subject }
{
    match subject {
        Subject::Program => help_text(),
        Subject::Report(command) => report_help(command),
        Subject::Other(chore) => chore_help(chore),
        Subject::Serve => serve_help(),
    }
}
