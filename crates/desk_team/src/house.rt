//! Where the kits of workers come from.
ghost use Rattle.std.specs.Prelude.{◌<◌, IfOk};
ghost use Rattle.desk_team.specs.Houses.{Binds, HandsOut, HouseTold, IsFresh, IsOneOut, TakesBack};
ghost use Rattle.shared_desk.specs.declared.kit.Kit.{Kit};

use hl_base::{Clock, Door, Failed, Text};
use query::Maker;
use shared_desk::Kit;

/// Makes the kits of workers, whose doors share one address.
pub trait House {
    type Door: Door + Drop + Send;

    type Clock: Clock + Drop + Send;

    type Maker: Maker + Drop + Send;

    /// What it tells: the kits that are still to come, those that it handed out and those that came back, in order, where
    /// it tells them; how many more workers serve before any call of it or of their doors may fail; how often it was asked
    /// to bind, and the last host and port; how many of its binds and workers failed and of its doors came back with a
    /// fault; and how many patterns the makers of the kits that came back refused.
    ghost told: { Self → HouseTold (Kit Self.Door Self.Clock Self.Maker) };

    /// Takes an address, at which the doors of its kits are.
    fn bind(&mut self, host: Text, port: u16) -> Result<(), Failed>
        ensures { Binds (told self.old) (told self.new) host port result };

    /// Hands out the kit of one more worker, the first of those that are to come: no fault and no refusal is counted of it,
    /// and its door gave no link.
    fn worker(&mut self) -> Result<Kit<Self::Door, Self::Clock, Self::Maker>, Failed>
        ensures hands_out { HandsOut (told self.old) (told self.new) result }
        ensures fresh { IfOk result (λ kit.
            IsFresh (Self.Door.given kit.door) (Self.Door.faults kit.door)
            (Self.Maker.refusals kit.maker)) }
        ensures sound { 0 < (told self.old).faultless
            → IfOk result (λ kit. Self.Door.IsSound kit.door) };

    /// Takes a kit back: of those that are out, the one that was handed out first.
    fn give_back(&mut self, kit: Kit<Self::Door, Self::Clock, Self::Maker>)
        requires { IsOneOut (told self.old) }
        ensures { TakesBack (told self.old) (told self.new) kit
            (Self.Door.faults kit.door) (Self.Maker.refusals kit.maker) };
}
