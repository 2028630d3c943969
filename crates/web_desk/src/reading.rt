//! The laws that a connection follows the messages of its stream, and that pages of other sites only read.
ghost use Rattle.std.specs.Prelude.{◌≡◌, ℕ, List, true};
ghost use Rattle.desk.specs.Entries.{Entry};
ghost use Rattle.web_desk.specs.declared.conn_end.ConnEnd.{ConnEnd};
ghost use Rattle.web_desk.specs.Courses.{FollowsCourse};
ghost use Rattle.web_desk.specs.Calls.{OnlyReads};
ghost use Rattle.web_desk.specs.Served.{Served, asks};
ghost use Rattle.web_messages.specs.Fields.{fields_of};
ghost use Rattle.web_messages.specs.Origins.{is_cross_origin};
ghost use Rattle.web_messages.specs.Streams.{Message};
ghost use Rattle.web_messages.specs.declared.page.Page.{Page};

/// A connection followed the one reading of its stream, however its link cut the bytes into reads. Where it came to the
/// end of the stream, its end is the one of that reading, its entries are of the requests that the messages ask, in
/// order, and the bytes sent are the answers in order and what belongs to the end. Where it broke off before, this holds
/// of a front of the messages. It does nothing; its contract is the law.
pub fn one_course()
    ensures { (page : Page) (bytes : List ℕ) (end : ConnEnd) (entries : List Entry) (text : List ℕ)
        → Served page bytes end entries text → FollowsCourse page bytes end entries text }
{}

/// A cross-origin request asks for a report or the text of the journal, or the journal isn't asked, and the reply is the page
/// or a refusal. So a page of another site makes no edit, and no dry run of one. It does nothing; its contract is the law.
pub fn other_sites_only_read()
    ensures { (page : Page) (m : Message) → is_cross_origin (fields_of m.head) ≡ true
        → OnlyReads (asks page m) }
{}
