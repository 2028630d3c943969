//! Whether two files are empty.
ghost use Rattle.std.specs.Prelude.{◌≡◌, IfOk, IfSome, OnErr, OnOk};
ghost use Rattle.hl_base.specs.Causes.{HasCause, Rose};
ghost use Rattle.text_store.specs.Refusals.{Told};
ghost use Rattle.text_store.specs.Rest.{IsReadOn};
ghost use Rattle.text_store.specs.Stores.{fault_count};
ghost use Rattle.store_following.specs.Lengths.{IsEmpty};
ghost use Rattle.store_following.specs.Replicas.{AreEmpty};

use hl_base::{Disk, Failed};

/// Whether a file has no byte.
fn is_empty<D: Disk>(device: &mut D) -> Result<bool, Failed>
    ensures empty { IfOk result (λ empty. IfSome (D.seen device.old) (IsEmpty empty)) }
    ensures reads { IsReadOn D.Disk device.old device.new }
    ensures cause { HasCause (D.failures device.old) (D.failures device.new) result }
{
    let len = device.len()?;
    Ok(len == 0)
}

/// Whether both files have none. Nothing is written.
pub(crate) fn are_empty<D: Disk>(first: &mut D, second: &mut D) -> Result<bool, Failed>
    ensures empty { IfOk result (λ empty. Told D.Disk (first.old, second.old) (AreEmpty empty)) }
    ensures reads { IsReadOn D.Disk first.old first.new × IsReadOn D.Disk second.old second.new }
    ensures rose { OnErr result (Rose (fault_count D.Disk (first.old, second.old))
        (fault_count D.Disk (first.new, second.new))) }
    ensures same { OnOk result (fault_count D.Disk (first.new, second.new)
        ≡ fault_count D.Disk (first.old, second.old)) }
{
    let of_first = is_empty(first)?;
    let of_second = is_empty(second)?;
    Ok(of_first && of_second)
}
