//! What the seconds of a session's days sum to.
ghost use Rattle.std.specs.Prelude.{◌≡◌, ℕ, List, Ok};
ghost use Rattle.std.specs.List.{AllByRecursion};
ghost use Rattle.time_logs.specs.Days.{IsWhole};
ghost use Rattle.time_logs.specs.Sessions.{sessions_in};
ghost use Rattle.time_logs.specs.declared.sessions.Session.{Session};

/// The seconds of each session's days sum to its whole.
#[tactic(auto, using(crate::proofs::Whole::sessions_whole))]
pub fn seconds_sum()
    ensures { (lines : List (List ℕ)) (sessions : List Session) → sessions_in lines ≡ Ok sessions
        → AllByRecursion IsWhole sessions }
{}
