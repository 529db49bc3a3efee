// Places of files, by their numbers.
ghost use Rattle.std.specs.Prelude.{◌≡◌, ◌+◌, ◌≤◌, IfErr, OnErr, OnOk, OnSome};
ghost use Rattle.std.specs.BTreeMap.{btree_map_len};
ghost use Rattle.std.specs.FinMap as fin;
ghost use Rattle.ufs_worker.specs.Worker.{filled};

use std::collections::BTreeMap;
use ufs_base::Memory;
use ufs_held::Parcel;
use ufs_joint::Naming;

/// A file gets a place. At want of memory it comes back.
pub(crate) fn make_place<N: Naming>(
    places: &mut BTreeMap<u32, Option<Parcel<N>>>,
    parcel: Parcel<N>,
) -> Result<(), (Memory, Parcel<N>)>
    ensures made { OnOk result (filled places.new.entries ≡ fin.insert (filled places.old.entries) parcel.value.file.file parcel) }
    ensures len { OnOk result (btree_map_len places.new ≤ btree_map_len places.old + 1) }
    ensures back { IfErr result (λ back. back.1 ≡ parcel) }
    ensures kept { OnErr result (places.new.entries ≡ places.old.entries) }
{
    let number = parcel.number();
    if let Err(failed) = places.insert(number, Some(parcel)) {
        let (memory, (_number, place)) = Memory::beside(failed);
        let Some(parcel) = place else { unreachable!() };
        return Err((memory, parcel));
    }
    Ok(())
}

/// The file of this number, whose place goes. Takes no memory.
pub(crate) fn take_place<N: Naming>(
    places: &mut BTreeMap<u32, Option<Parcel<N>>>,
    file: u32,
) -> Option<Parcel<N>>
    ensures taken { result ≡ fin.get (filled places.old.entries) file }
    ensures gone { filled places.new.entries ≡ fin.remove (filled places.old.entries) file }
    ensures less { OnSome result (btree_map_len places.new + 1 ≡ btree_map_len places.old) }
{
    // For the prover alone: the keys ascend.
    let _count = places.len();
    match places.remove(&file) {
        Some(place) => place,
        None => None,
    }
}
