//! What the check of one transaction answers in a journal.
ghost use Rattle.std.specs.Prelude.{◌≡◌, ℕ, true, List, map, None, Some, Result};
ghost use Rattle.std.specs.List.{slice_get};
ghost use Rattle.book.specs.declared.fault.Fault.{Fault};
ghost use Rattle.book.specs.declared.transaction.Txn.{Txn};
ghost use Rattle.balancing.specs.Assigned.{shortened};
ghost use Rattle.balancing.specs.Faults.{IsFaultBy, fault_of};
ghost use Rattle.balancing.specs.Solves.{HaveFew, Solves};
ghost use Rattle.balancing.specs.declared.fault.CheckFault.{CheckFault};
ghost use Rattle.check_laws.specs.Upto.{IsCheckedIn, IsUpto};
ghost use Rattle.check_laws.specs.Valued.{IsAnswer};
ghost use Rattle.entry_balance.specs.Entry.{settled};
ghost use Rattle.placed_checks.specs.Unmixed.{is_unmixed};

use placed_checks::a_placed_check;

/// Laws for callers; it does nothing. A transaction that isn't mixed is checked by the sums of a book that has the same
/// postings before its place. Where a book solves the journal, the check answers the transaction as that book has it
/// (`solved`). Where the journal has a fault, and the transaction's group is the first that has one, the check answers
/// that fault (`fault`). Whatever other groups have, it answers the fault of the transaction's group, or the solved
/// transaction where this group has none (`group`). Faults are compared by value, and what is moved up to the group stays in
/// range, since no check of one transaction sees a whole journal's turnover. A check may always answer that memory is wanting.
pub fn checks_answer_by_value()
    ensures solved { (one written book : List Txn) (n : ℕ) (t solved : Txn)
        (answer : Result Txn CheckFault)
        → Solves written book → slice_get written n ≡ Some t → slice_get book n ≡ Some solved
        → is_unmixed solved ≡ true → HaveFew book → IsCheckedIn one book n t answer
        → IsAnswer None solved answer }
    ensures fault { (one written : List Txn) (n : ℕ) (t m : Txn) (own : Fault)
        (answer : Result Txn CheckFault) (f : IsFaultBy shortened written own)
        → f.group ≡ (t.day.0, n) → IsUpto written f.made n t m
        → IsCheckedIn one (map settled f.made) n t answer
        → IsAnswer (Some own) (settled m) answer }
    ensures group { (one written made : List Txn) (n : ℕ) (t m : Txn)
        (answer : Result Txn CheckFault) → IsUpto written made n t m
        → IsCheckedIn one (map settled made) n t answer
        → IsAnswer (fault_of written made (t.day.0, n)) (settled m) answer }
{
    a_placed_check()
}
