//! Why a machine isn't made or opened.
ghost use Rattle.std.specs.Prelude.{◌≡◌};

use live_journal::OpenFault;
use text_store::StoreFault;

/// Why a machine isn't made or opened.
#[derive(Debug, Drop)]
pub enum DeskFault {
    /// The store refused.
    Store(StoreFault),
    /// The text makes no journal.
    Load(OpenFault),
    /// Memory ran out.
    Memory,
}
