//! How often frames were taken.
ghost use Rattle.std.specs.Prelude.{◌≡◌, Ok};
ghost use Rattle.follow_commands.specs.Tallies.{one_more, tallied};

use follower::Accepted;

/// How many frames were taken, how many were old, and how many stood behind a gap. A count stays at 2^64 - 1 once it is there.
#[derive(Clone, Copy, Debug, PartialEq, Eq)]
pub struct Tally {
    pub taken: u64,
    pub old: u64,
    pub gaps: u64,
}

// One more, at most 2^64 - 1.
fn one_more(count: u64) -> u64
    ensures { result ≡ one_more count }
{
    count.saturating_add(1)
}

impl Tally {
    /// The counts with one more frame.
    pub fn counting(&self, accepted: Accepted) -> Tally
        ensures { result ≡ tallied self.now (Ok accepted) }
    {
        match accepted {
            Accepted::Taken { .. } => {
                let taken = one_more(self.taken);
                let old = self.old;
                let gaps = self.gaps;
                Tally { taken, old, gaps }
            }
            Accepted::Old { .. } => {
                let taken = self.taken;
                let old = one_more(self.old);
                let gaps = self.gaps;
                Tally { taken, old, gaps }
            }
            Accepted::Gap { .. } => {
                let taken = self.taken;
                let old = self.old;
                let gaps = one_more(self.gaps);
                Tally { taken, old, gaps }
            }
        }
    }
}
