//! How a machine is made, and how it is opened.
ghost use Rattle.std.specs.Prelude.{◌≡◌};
ghost use Rattle.desk.specs.Openings.{load_refusal, store_refusal};

use crate::desk::Desk;
use crate::fault::DeskFault;
use crate::request::Allow;
use hl_base::{Disk, List, Steps};
use live_journal::{Live, OpenFault};
use std::alloc::Global;
use std::sync::ledger::Ledger;
use text_store::{Store, StoreFault};

/// Why a text makes no machine.
fn load_refusal(fault: OpenFault) -> DeskFault
    ensures { result ≡ load_refusal fault }
{
    match fault {
        OpenFault::Memory => DeskFault::Memory,
        OpenFault::Load(fault) => DeskFault::Load(OpenFault::Load(fault)),
        OpenFault::TooLarge { limit, size } => DeskFault::Load(OpenFault::TooLarge { limit, size }),
    }
}

/// Why a store makes no machine.
fn store_refusal(fault: StoreFault) -> DeskFault
    ensures { result ≡ store_refusal fault }
{
    match fault {
        StoreFault::Memory => DeskFault::Memory,
        StoreFault::DiskFault => DeskFault::Store(StoreFault::DiskFault),
        StoreFault::NotAStore { at } => DeskFault::Store(StoreFault::NotAStore { at }),
        StoreFault::Newer { version } => DeskFault::Store(StoreFault::Newer { version }),
        StoreFault::Full { size, limit } => DeskFault::Store(StoreFault::Full { size, limit }),
        StoreFault::Exists { len } => DeskFault::Store(StoreFault::Exists { len }),
    }
}

impl<D: Disk> Desk<D> {
    ghost use Rattle.std.specs.Prelude.{◌≡◌, ◌≤◌, [], None, Ok, IfOk, IfErr, OnOk, max, length};
    ghost use Rattle.live_journal.specs.Loading.{fault_of};
    ghost use Rattle.text_store.specs.Files.{fresh, WhileMade, WhileOpened, file_in_use, opened_limit, opened_size};
    ghost use Rattle.text_store.specs.Image.{image};
    ghost use Rattle.text_store.specs.Edits.{whole_size};
    ghost use Rattle.text_store.specs.Refusals.{ImageStays, Told};
    ghost use Rattle.text_store.specs.Stores.{disks, Keeps, Tell, Throughout, bounds, fault_count, limit_of};
    ghost use Rattle.desk.specs.Desks.{counts_of, faults_of, shown_by, state_of};
    ghost use Rattle.desk.specs.Openings.{MakingRefused, OpeningRefused, disks_of};
    ghost use Rattle.desk.specs.Stands.{Stands};
    ghost use Rattle.desk.specs.States.{State};

    /// Makes a machine of a text in two empty disks, with a limit of each disk's length in bytes. The text is loaded
    /// first, and where that fails nothing is written.
    pub fn create<L: Ledger>(
        alloc: Global,
        first: D,
        second: D,
        text: &[u8],
        limit: u64,
        allow: Allow,
        steps: &mut Steps<L>,
    ) -> Result<Desk<D>, (D, D, DeskFault)>
        ensures state { IfOk result (λ desk. state_of desk ≡ record {
          text = text.now;
          latest = [];
          revision = 0;
          allowed = allow;
          size = whole_size (fresh text.now);
          limit = limit;
        }) }
        ensures made { IfOk result (λ desk. Told D.Disk (first, second) (λ f s.
            (f ≡ []) × (s ≡ []) × Stands desk.store (shown_by desk) None)) }
        ensures loads { IfOk result (λ desk. fault_of None (state_of desk).text ≡ None) }
        ensures counts { IfOk result (λ desk. counts_of desk ≡ (0, 0)) }
        ensures cause { IfErr result (λ e.
            MakingRefused D.Disk (first, second) (e.0, e.1) text.now limit e.2) }

        // A crash at any moment leaves files that it might have left before, files without an image, or the store.
        ensures any_moment { Told D.Disk (first, second) (λ _ _. Tell D.Disk (first, second)
            → Throughout D.Disk (first, second) (disks_of (λ desk. disks desk.store) result)
            (WhileMade D.Disk (first, second) (fresh text.now))) }
        ensures keeps { Keeps D.Disk (first, second) (disks_of (λ desk. disks desk.store) result)
            (limit, limit) }
        ensures no_fault { IfOk result (λ desk.
            faults_of desk ≡ fault_count D.Disk (first, second)) }
    {
        let live = match Live::open(alloc, text, None, 0, steps) {
            Ok(live) => live,
            Err(fault) => return Err((first, second, load_refusal(fault))),
        };
        match Store::create(alloc, first, second, text, limit) {
            Ok(store) => Ok(Desk {
                store,
                live,
                latest: List::new(alloc),
                allow,
                requests: 0,
                refused: 0,
            }),
            Err((first, second, fault)) => Err((first, second, store_refusal(fault))),
        }
    }

    /// Opens two disks as a machine: the store's image, of which the text is loaded. What stands behind the last
    /// acknowledged edit is cut off.
    pub fn open<L: Ledger>(
        alloc: Global,
        first: D,
        second: D,
        allow: Allow,
        steps: &mut Steps<L>,
    ) -> Result<Desk<D>, (D, D, DeskFault)>
        ensures opened { IfOk result (λ desk. Told D.Disk (first, second) (λ f s.
            (image f s ≡ Ok (shown_by desk)) × Stands desk.store (shown_by desk) None
            × ((state_of desk).limit ≡ opened_limit f s))) }
        ensures allowed { IfOk result (λ desk. (state_of desk).allowed ≡ allow) }
        ensures loads { IfOk result (λ desk. fault_of None (state_of desk).text ≡ None) }

        // Its size is that of the half that the files showed, and the length that the half in use has then.
        ensures half { IfOk result (λ desk. Told D.Disk (first, second) (λ f s.
            (state_of desk).size ≡ opened_size f s)) }
        ensures size { IfOk result (λ desk. Told D.Disk (first, second) (λ _ _.
            Told D.Disk (disks desk.store) (λ f s.
            (state_of desk).size ≡ length (file_in_use f s)))) }
        ensures counts { IfOk result (λ desk. counts_of desk ≡ (0, 0)) }
        ensures cause { IfErr result (λ e. OpeningRefused D.Disk (first, second) (e.0, e.1) e.2) }

        // Where it isn't opened, the disks read as files with the image, or the want of one, that they had.
        ensures stays { IfErr result (λ e. ImageStays D.Disk (first, second) (e.0, e.1)) }

        // A crash at any moment leaves files that it might have left before, or files with the image, or the want of one,
        // of those that the disks read as.
        ensures any_moment { Told D.Disk (first, second) (λ f s. Tell D.Disk (first, second)
            → Throughout D.Disk (first, second) (disks_of (λ desk. disks desk.store) result)
            (WhileOpened D.Disk (first, second) f s)) }
        ensures keeps { Told D.Disk (first, second) (λ f s.
            Keeps D.Disk (first, second) (disks_of (λ desk. disks desk.store) result)
            (max (opened_limit f s) (length f), max (opened_limit f s) (length s))) }

        // No call since reaches further than the limit, or than the length that the file had.
        ensures bounds { IfOk result (λ desk. Told D.Disk (first, second) (λ f s.
            ((bounds desk.store).0 ≤ max (limit_of desk.store) (length f))
            × ((bounds desk.store).1 ≤ max (limit_of desk.store) (length s)))) }
        ensures no_fault { IfOk result (λ desk.
            faults_of desk ≡ fault_count D.Disk (first, second)) }
    {
        let (store, image) = match Store::open(alloc, first, second) {
            Ok(opened) => opened,
            Err((first, second, fault)) => return Err((first, second, store_refusal(fault))),
        };
        match Live::open(alloc, image.text.as_slice(), None, image.revision, steps) {
            Ok(live) => Ok(Desk {
                store,
                live,
                latest: image.latest,
                allow,
                requests: 0,
                refused: 0,
            }),
            Err(fault) => {
                let (first, second) = store.close();
                Err((first, second, load_refusal(fault)))
            }
        }
    }
}
