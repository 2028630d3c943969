//! Laws about histories of the machine.
ghost use Rattle.std.specs.Prelude.{ℕ, List, ◌∷◌, ◌++◌};
ghost use Rattle.desk.specs.Entries.{Entry};
ghost use Rattle.desk.specs.Histories.{AddsNothing, IsRepeated, Legal};
ghost use Rattle.desk.specs.States.{State};

/// An import that was done and is repeated, with no import of its name between, adds nothing: the text stays as it is, a
/// pattern of its rules is refused, or memory ran out. It does nothing; its contract is the law.
pub fn import_again()
    ensures { (old new : State) (faults faults_now : ℕ) (earlier between later : List Entry)
        (first again : Entry) (name rules csv : List ℕ)
        → Legal old faults (earlier ++ (first ∷ between ++ again ∷ later)) new faults_now
        → IsRepeated name rules csv first between again → AddsNothing rules again }
{}
