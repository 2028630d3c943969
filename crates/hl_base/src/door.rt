//! Where connections come from.
ghost use Rattle.std.specs.Prelude.{◌≡◌, ℕ, List, Option, IsOk};
ghost use Rattle.std.specs.Option.{option_map};
ghost use Rattle.hl_base.specs.Causes.{HasCause};
ghost use Rattle.hl_base.specs.Door.{Visit, Comes, IfCame, answered, come_back, with_visit};

use crate::link::Link;

/// What a door answers where it is asked for the next connection.
#[derive(Drop)]
pub enum Knock<K> {
    /// A connection came.
    Link(K),
    /// No connection comes any more.
    End,
    /// The call failed.
    Failed,
}

/// Hands out connections one after another, and takes them back.
pub trait Door {
    type Link: Link + Drop + Send;

    /// The connections still to come, where it tells them.
    ghost coming: { Self → Option (List Self.Link) };

    /// The connections that it handed out, in order, where it tells them.
    ghost given: { Self → Option (List Visit) };

    /// How many of its calls failed.
    ghost faults: { Self → ℕ };

    /// None of its calls fails from now on.
    ghost IsSound: { Self → Type 0 };

    /// Waits for the next connection, which comes with no fault counted.
    fn next(&mut self) -> Knock<Self::Link>
        ensures comes { Comes (coming self.old) (coming self.new) result }
        ensures given { given self.new ≡ with_visit Self.Link.coming (given self.old) result }
        ensures fresh { IfCame result (λ link. (Self.Link.read_faults link ≡ 0)
            × (Self.Link.write_faults link ≡ 0)) }
        ensures cause { HasCause (faults self.old) (faults self.new) (answered result) }
        ensures sound { IsSound self.old → (IsOk (answered result)) × (IsSound self.new) };

    /// Takes a connection back: of those that are out, the one that was handed out first.
    fn give_back(&mut self, link: Self::Link)
        ensures given { given self.new ≡ option_map (come_back (record {
          left = Self.Link.coming link;
          sent = Self.Link.sent link;
          read_faults = Self.Link.read_faults link;
          write_faults = Self.Link.write_faults link;
        })) (given self.old) }
        ensures coming { coming self.new ≡ coming self.old }
        ensures faults { faults self.new ≡ faults self.old }
        ensures sound { IsSound self.old → IsSound self.new };
}
