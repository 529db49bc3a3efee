// Files come, go to workers, and are asked for.
ghost use Rattle.std.specs.Prelude.{ℕ, ◌≡◌, ◌≤◌, ◌≢◌, ◌<◌, ◌⊎◌, [], IfErr, IfOk, IfSome, IsSome, IsTrue, None, OnErr, OnOk, Some, is_some, length, not, true, false};
ghost use Rattle.std.proofs.Common.{inl, inr};
ghost use Rattle.std.specs.FinMap as fin;
ghost use Rattle.ufs_home.specs.Home.{come_on, home_of, is_waited, onward, sent};
ghost use Rattle.ufs_home.specs.Letters.{Boxes, posted};
ghost use Rattle.ufs_home.specs.Moves.{IfLack, IsMoved, IsOrdered, moved_from, moved_here};
ghost use Rattle.ufs_home.specs.Owning.{AreKnown};
ghost use Rattle.ufs_home.specs.Places.{Places, file_here, with_place};
ghost use Rattle.ufs_home.specs.declared.moved.Moved.TheVariants as moved;
ghost use Rattle.ufs_joint.specs.Cells.{FileCell};
ghost use Rattle.ufs_owner.specs.Lacks.{IsLackOut};
ghost use Rattle.ufs_owner.specs.Owners.{is_coming, is_out, note_at, owner_at, recalled, waiting_at, with_owner};
ghost use Rattle.ufs_owner.specs.declared.owner.Owner.TheVariants.{Coming, Going, Primary};
ghost use Rattle.ufs_held.specs.Parcel.{IsOut};

use crate::at_home::AtHome;
use crate::leaving::Leaving;
use crate::mailbox::{Mailbox, post_to};
use crate::moved::Moved;
use crate::shelf::Shelf;
use std::alloc::Global;
use ufs_base::{Lack, Memory};
use ufs_held::{HeldFile, Parcel};
use ufs_joint::Naming;
use ufs_owner::{Owner, OwnerTable};

/// A file that was coming is here, and goes on where a worker is noted and nobody waits for it. Answers the worker, or 0. It comes back
/// where it wasn't coming, or its number is here, or where there is no room for it.
pub(crate) fn settle<N: Naming>(
    shelf: &mut Shelf<N>,
    owners: &mut OwnerTable,
    boxes: &mut Vec<Mailbox<N>>,
    parcel: Parcel<N>,
) -> Result<u8, (Option<Lack>, Parcel<N>)>
    requires there { note_at owners.old.files parcel.value.file.file ≤ length boxes.old.items }
    ensures come { IfOk result (λ to. home_of shelf.new owners.new.files boxes.new.items ≡ come_on (home_of shelf.old owners.old.files boxes.old.items) parcel to) }
    ensures to { IfOk result (λ to. to ≡ onward owners.old.files parcel.value.file.file) }
    ensures coming { OnOk result (is_coming (owner_at owners.old.files parcel.value.file.file) ≡ true) }
    ensures back { IfErr result (λ x. x.1 ≡ parcel) }
    ensures refused { IfErr result (λ x. x.0 ≡ None → (is_coming (owner_at owners.old.files parcel.value.file.file) ≡ false) ⊎ IsSome (file_here shelf.old parcel.value.file.file)) }
    ensures lack { IfErr result (λ x. IfSome x.0 (IsLackOut owners.old.files)) }
    ensures wanting { IfErr result (λ x. IsSome x.0 → is_coming (owner_at owners.old.files parcel.value.file.file) ≡ true) }
    ensures err { OnErr result (home_of shelf.new owners.new.files boxes.new.items ≡ home_of shelf.old owners.old.files boxes.old.items) }
{
    let number = parcel.number();
    if !is_coming(owners.owner_of(number)) {
        return Err((None, parcel));
    }
    if shelf.has(number) {
        return Err((None, parcel));
    }
    let to = goes_on_to(owners, number);
    if to == 0 {
        return take_in(shelf, owners, parcel);
    }
    pass_on(shelf, owners, boxes, parcel, to)
}

// The worker to which a file goes on that came, or 0.
fn goes_on_to(owners: &OwnerTable, file: u32) -> u8
    ensures { result ≡ onward owners.now.files file }
{
    if owners.waiting(file) {
        return 0;
    }
    owners.note_of(file)
}

// A file that was coming is here.
fn take_in<N: Naming>(
    shelf: &mut Shelf<N>,
    owners: &mut OwnerTable,
    parcel: Parcel<N>,
) -> Result<u8, (Option<Lack>, Parcel<N>)>
    requires coming { is_coming (owner_at owners.old.files parcel.value.file.file) ≡ true }
    requires away { file_here shelf.old parcel.value.file.file ≡ None }
    ensures come { OnOk result ((boxes : Boxes) → home_of shelf.new owners.new.files boxes ≡ come_on (home_of shelf.old owners.old.files boxes) parcel 0) }
    ensures to { IfOk result (λ to. to ≡ 0) }
    ensures back { IfErr result (λ x. x.1 ≡ parcel) }
    ensures some { IfErr result (λ x. IsSome x.0) }
    ensures lack { IfErr result (λ x. IfSome x.0 (IsLackOut owners.old.files)) }
    ensures err { OnErr result ((shelf.new ≡ shelf.old) × (owners.new.files ≡ owners.old.files)) }
{
    let number = parcel.number();
    match shelf.add(parcel) {
        Ok(()) => {
            owners.settle(number);
            Ok(0)
        }
        Err((memory, back)) => Err((Some(Lack::from(memory)), back)),
    }
}

// There is a place for the file, and it can be sent. Answers whether the place was made.
fn make_room<N: Naming>(
    shelf: &mut Shelf<N>,
    owners: &mut OwnerTable,
    file: u32,
) -> Result<bool, Lack>
    ensures place { OnOk result (shelf.new ≡ with_place shelf.old file) }
    ensures made { IfOk result (λ made. made ≡ not (is_some (fin.get shelf.old file))) }
    ensures spare { OnOk result (0 < owners.new.spare) }
    ensures err { OnErr result (shelf.new ≡ shelf.old) }
    ensures lack { IfErr result (IsLackOut owners.old.files) }
    ensures files { owners.new.files ≡ owners.old.files }
{
    owners.reserve()?;
    let made = shelf.make_place(file)?;
    Ok(made)
}

// A file that was coming goes on, behind the letters to the worker. Its place stays.
fn pass_on<N: Naming>(
    shelf: &mut Shelf<N>,
    owners: &mut OwnerTable,
    boxes: &mut Vec<Mailbox<N>>,
    parcel: Parcel<N>,
    to: u8,
) -> Result<u8, (Option<Lack>, Parcel<N>)>
    requires coming { is_coming (owner_at owners.old.files parcel.value.file.file) ≡ true }
    requires away { file_here shelf.old parcel.value.file.file ≡ None }
    requires nobody { waiting_at owners.old.files parcel.value.file.file ≡ [] }
    requires there { (1 ≤ to) × (to ≤ length boxes.old.items) }
    ensures come { OnOk result (home_of shelf.new owners.new.files boxes.new.items ≡ come_on (home_of shelf.old owners.old.files boxes.old.items) parcel to) }
    ensures to { IfOk result (λ made. made ≡ to) }
    ensures back { IfErr result (λ x. x.1 ≡ parcel) }
    ensures some { IfErr result (λ x. IsSome x.0) }
    ensures lack { IfErr result (λ x. IfSome x.0 (IsLackOut owners.old.files)) }
    ensures err { OnErr result (home_of shelf.new owners.new.files boxes.new.items ≡ home_of shelf.old owners.old.files boxes.old.items) }
{
    let number = parcel.number();
    let made = match make_room(shelf, owners, number) {
        Ok(made) => made,
        Err(lack) => return Err((Some(lack), parcel)),
    };
    match post_to(boxes, to, Leaving::with_file(parcel)) {
        Ok(()) => {
            owners.settle(number);
            go(owners, number, to);
            Ok(to)
        }
        Err((memory, letter)) => {
            shelf.unmake_place(number, made);
            Err((Some(Lack::from(memory)), letter.into_parcel()))
        }
    }
}

fn is_coming(owner: Owner) -> bool
    ensures { result ≡ is_coming owner }
{
    match owner {
        Owner::Coming { .. } => true,
        _ => false,
    }
}

/// Asks the worker that has the file, or is to have it, for it; it is to go to `to` then, 0 for the primary.
pub(crate) fn recall<N: Naming>(
    owners: &mut OwnerTable,
    boxes: &mut Vec<Mailbox<N>>,
    file: u32,
    worker: u8,
    to: u8,
) -> Result<(), Memory>
    requires out { IsTrue (is_out (owner_at owners.old.files file)) }
    requires from { recalled (owner_at owners.old.files file) ≡ Coming worker }
    requires there { (1 ≤ worker) × (worker ≤ length boxes.old.items) }
    ensures ok { OnOk result ((owners.new.files ≡ with_owner owners.old.files file (Coming worker) to) × (boxes.new.items ≡ posted boxes.old.items worker (inr file))) }
    ensures err { OnErr result ((owners.new.files ≡ owners.old.files) × (boxes.new.items ≡ boxes.old.items)) }
{
    match post_to(boxes, worker, Leaving::recall(file)) {
        Ok(()) => {
            owners.begin_recall(file, to);
            Ok(())
        }
        Err((memory, _letter)) => Err(memory),
    }
}

// A file that was spared for goes to the worker.
fn go(owners: &mut OwnerTable, file: u32, to: u8)
    requires here { owner_at owners.old.files file ≡ Primary }
    requires nobody { waiting_at owners.old.files file ≡ [] }
    requires spare { 0 < owners.old.spare }
    ensures { owners.new.files ≡ with_owner owners.old.files file (Going to) 0 }
{
    match owners.send(file, to) {
        Ok(()) => {}
        Err(_) => unreachable!(),
    }
}

// The file, which was lent, goes behind the letters to the worker. Where there is no memory for that it is back in its place.
fn post_file<N: Naming>(
    shelf: &mut Shelf<N>,
    owners: &mut OwnerTable,
    boxes: &mut Vec<Mailbox<N>>,
    held: HeldFile<N>,
    file: u32,
    to: u8,
) -> Result<(), Memory>
    requires out { IsOut held }
    requires number { held.value.file.file ≡ file }
    requires empty { fin.get shelf.old file ≡ Some None }
    requires here { owner_at owners.old.files file ≡ Primary }
    requires nobody { waiting_at owners.old.files file ≡ [] }
    requires spare { 0 < owners.old.spare }
    requires there { (1 ≤ to) × (to ≤ length boxes.old.items) }
    ensures sent { OnOk result (home_of shelf.new owners.new.files boxes.new.items ≡ home_of shelf.old (with_owner owners.old.files file (Going to) 0) (posted boxes.old.items to (inl held))) }
    ensures kept { OnErr result (home_of shelf.new owners.new.files boxes.new.items ≡ home_of (fin.insert shelf.old file (Some held)) owners.old.files boxes.old.items) }
{
    match post_to(boxes, to, Leaving::with_file(Parcel::new(held))) {
        Ok(()) => {
            go(owners, file, to);
            Ok(())
        }
        Err((memory, letter)) => {
            shelf.fill(AtHome::of_parcel(letter.into_parcel()));
            Err(memory)
        }
    }
}

/// Sends the file, which is here, behind the letters to the worker. Where there is no room for that nothing is done.
pub(crate) fn send<N: Naming>(
    shelf: &mut Shelf<N>,
    owners: &mut OwnerTable,
    boxes: &mut Vec<Mailbox<N>>,
    alloc: Global,
    file: u32,
    to: u8,
) -> Result<(), Lack>
    requires here { (c : FileCell) × (file_here shelf.old file ≡ Some c) × (c.born ≡ true) }
    requires owner { owner_at owners.old.files file ≡ Primary }
    requires nobody { waiting_at owners.old.files file ≡ [] }
    requires there { (1 ≤ to) × (to ≤ length boxes.old.items) }
    ensures sent { OnOk result ((c : FileCell) × (file_here shelf.old file ≡ Some c) × (home_of shelf.new owners.new.files boxes.new.items ≡ sent (home_of shelf.old owners.old.files boxes.old.items) file c to)) }
    ensures kept { OnErr result (home_of shelf.new owners.new.files boxes.new.items ≡ home_of shelf.old owners.old.files boxes.old.items) }
    ensures lack { IfErr result (IsLackOut owners.old.files) }
{
    owners.reserve()?;
    let held = shelf.lend(file, alloc)?;
    post_file(shelf, owners, boxes, held, file, to)?;
    Ok(())
}

// Whether an order sends the file, which is at the primary.
fn goes_out(owners: &OwnerTable, file: u32, to: u8) -> bool
    ensures yes { result ≡ true → (to ≢ 0) × (waiting_at owners.now.files file ≡ []) × (moved_here to (is_waited owners.now.files file) ≡ moved.Sent) }
    ensures no { result ≡ false → moved_here to (is_waited owners.now.files file) ≡ moved.Nothing }
{
    if to == 0 {
        return false;
    }
    !owners.waiting(file)
}

/// The file, which is at the primary, is to go to this worker, or to stay for 0.
pub(crate) fn order_here<N: Naming>(
    shelf: &mut Shelf<N>,
    owners: &mut OwnerTable,
    boxes: &mut Vec<Mailbox<N>>,
    alloc: Global,
    file: u32,
    to: u8,
) -> Moved
    requires here { to ≢ 0 → waiting_at owners.old.files file ≡ [] → (c : FileCell) × (file_here shelf.old file ≡ Some c) × (c.born ≡ true) }
    requires owner { owner_at owners.old.files file ≡ Primary }
    requires there { to ≤ length boxes.old.items }
    ensures answer { IsOrdered (moved_here to (is_waited owners.old.files file)) result }
    ensures moved { IsMoved (home_of shelf.old owners.old.files boxes.old.items) (home_of shelf.new owners.new.files boxes.new.items) file to result }
    ensures lack { IfLack result (IsLackOut owners.old.files) }
{
    if !goes_out(owners, file, to) {
        return Moved::Nothing;
    }
    match send(shelf, owners, boxes, alloc, file, to) {
        Ok(()) => Moved::Sent,
        Err(lack) => Moved::Lack(lack),
    }
}

/// The file, which that worker has or is to have, is to go to this one, or to the primary for 0.
pub(crate) fn order_out<N: Naming>(
    owners: &mut OwnerTable,
    boxes: &mut Vec<Mailbox<N>>,
    file: u32,
    worker: u8,
    to: u8,
) -> Moved
    requires out { IsTrue (is_out (owner_at owners.old.files file)) }
    requires from { recalled (owner_at owners.old.files file) ≡ Coming worker }
    requires there { (1 ≤ worker) × (worker ≤ length boxes.old.items) }
    ensures answer { IsOrdered (moved_from worker to) result }
    ensures moved { (places : Places) → IsMoved (home_of places owners.old.files boxes.old.items) (home_of places owners.new.files boxes.new.items) file to result }
    ensures lack { IfLack result (IsLackOut owners.old.files) }
{
    if worker == to {
        return Moved::Nothing;
    }
    match recall(owners, boxes, file, worker, to) {
        Ok(()) => Moved::Recalled,
        Err(memory) => Moved::Lack(Lack::from(memory)),
    }
}
