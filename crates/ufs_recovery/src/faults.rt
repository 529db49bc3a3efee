ghost use Rattle.std.specs.Prelude.{ℕ, ◌≡◌, Ok, IfOk, IfErr, OnOk};
ghost use Rattle.ufs_base.specs.Faults.{HasCause};
ghost use Rattle.ufs_metadata.specs.Faults.{HasFaultCause, IsOutside, LacksMemory};

use ufs_disk::Fault;
use ufs_metadata::RecoverFault;

/// The end of a step over the disk, as a recovery tells it.
pub(crate) fn of_device(done: Result<(), Fault>) -> Result<(), RecoverFault>
    ensures done { IfOk result (λ end. done ≡ Ok end) }
    ensures passed { (before now : ℕ) → HasCause before now done → OnOk result (now ≡ before) }
    ensures cause { (before now : ℕ) → HasCause before now done → IfErr done (λ fault. fault.number ≡ now) → IfErr result (HasFaultCause before now) }
    ensures outside { IfErr result IsOutside }
    ensures memory { IfErr result LacksMemory }
{
    match done {
        Ok(()) => Ok(()),
        Err(fault) => Err(RecoverFault::Device {
            fault: fault.number,
        }),
    }
}
