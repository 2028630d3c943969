//! What is said of a source that was followed, and of one that couldn't be read; `tests/commands/following.rows` has the refusals that
//! a command can show.

use follow_commands::Tally;
use follower::FrameFault;
use hl_base::Text;
use std::test::Fail;
use store_following::{FollowRefusal, Followed, follow_line, follow_status, followed_line};

#[test]
fn what_was_followed_and_a_read_that_failed_are_said(rt: HostRuntime) -> Result<(), Fail> {
    let tally = Tally {
        taken: 2,
        old: 0,
        gaps: 13,
    };
    let followed = Followed { revision: 1, tally };
    let line = followed_line(rt.alloc(), &followed)?;
    assert_eq!(rt;
        line.as_slice(),
        b"revision 1, taken 2, old 0, gaps 13\n".as_slice()
    );
    let name = Text::copied(rt.alloc(), "replica")?;
    let unread = FollowRefusal::Unread(FrameFault::ReadFault);
    let said = follow_line(rt.alloc(), &name, unread)?;
    assert_eq!(rt; said.as_slice(), b"error: read fault\n".as_slice());
    assert_eq!(rt; follow_status(unread), 3);
    Ok(())
}
