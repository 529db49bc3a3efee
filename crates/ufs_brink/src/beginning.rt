// Why no session begins.
ghost use Rattle.std.specs.Prelude.{ℕ, ◌≡◌, IsTrue};
ghost use Rattle.ufs_metadata.specs.Faults.{HasFaultCause, IsOutside};
ghost use Rattle.ufs_metadata.specs.declared.fault.RecoverFault.{RecoverFault};
ghost use Rattle.ufs_base.specs.declared.lack.Lack.{Lack};
ghost use Rattle.ufs_store.specs.Ends.{IsMemory};
ghost use Rattle.ufs_store.specs.Refusals.{IsTold};
ghost use Rattle.ufs_store.specs.Refusals as refusals;
ghost use Rattle.ufs_store.specs.declared.fault.StoreFault.TheVariants as store_fault;

use ufs_base::Lack;
use ufs_disk::Disk;
use ufs_metadata::RecoverFault;
use ufs_start::StartFault;
use ufs_store::StoreFault;

/// No session begins: the disk, and why.
#[derive(Drop)]
pub struct Unbegun<D: Disk> {
    pub disk: D,
    pub fault: StartFault,
}

/// Why a store wasn't mounted, as a refusal of its image: the device's fault, or the lack of memory.
pub fn why_unmounted(fault: StoreFault) -> RecoverFault
    requires own { IsTrue (refusals.is_own fault) }
    requires lack { (w : Lack) → fault ≡ store_fault.Lack w → IsMemory w }
    ensures cause { (before now : ℕ) → IsTold before now (refusals.fault_of fault) → HasFaultCause before now result }
    ensures outside { IsOutside result }
{
    match fault {
        StoreFault::Device { fault } => RecoverFault::Device { fault },
        StoreFault::Lack(lack) => RecoverFault::Lack(lack),
        StoreFault::Stopped { .. } | StoreFault::NoSpace { .. } => unreachable!(),
    }
}
