// The file that a request of the names touches, while it is served.
ghost use Rattle.std.specs.Prelude.{ℕ, ◌≡◌, ◌≢◌, ◌<◌, ◌≤◌, ◌+◌, ◌*◌, ◌^◌, IfNone, IfOk, IfSome, IsSome, None, OnErr, Some};
ghost use Rattle.std.specs.FinMap as fin;
ghost use Rattle.ufs_bitmap.specs.Blocks.{BlockSet};
ghost use Rattle.ufs_joint.specs.FirstHand.{HasPoolAlone, pool_of};
ghost use Rattle.ufs_held_names.specs.Asked.{IsNeeded, number_of};
ghost use Rattle.ufs_home.specs.Places.{file_here};
ghost use Rattle.ufs_layout.specs.Areas.{IsGeometry};
ghost use Rattle.ufs_model.specs.Asks.{file_in};
ghost use Rattle.ufs_at_primary.specs.Kinds.{IsByNames};
ghost use Rattle.ufs_at_primary.specs.Served.{IsStill, back_in, emptied, lent_with, made_in};

use ufs_base::Memory;
use ufs_held::HeldFile;
use ufs_held_names::{HeldNames, Newborn};
use ufs_home::Home;
use ufs_joint::{Hand, HandTable, Naming};
use ufs_layout::Geometry;
use ufs_msg::Request;
use ufs_serving::{lend_pool, pool_number, take_pool};

/// By a look: each file that the request touches, or is on, is live; each live one has a lower number than the next; and that is low still.
pub(crate) fn see_request<N: Naming>(
    table: &HandTable<N>,
    names: &mut HeldNames<N>,
    right: &mut Hand<N>,
    request: Request<N>,
) -> Request<N>
    requires pool { (pool : BlockSet) × HasPoolAlone (pool_of 0) pool right.old }
    ensures pool { (pool : BlockSet) → HasPoolAlone (pool_of 0) pool right.old → HasPoolAlone (pool_of 0) pool right.new }
    ensures names { names.new ≡ names.old }
    ensures still { IsStill request result }
    ensures needed { (file : ℕ) → IsNeeded names.old.value request.ask (Some file) → IsSome (fin.get names.old.value.held file) }
    ensures opened { (file : ℕ) → file_in request.ask.desc ≡ Some file → IsSome (fin.get names.old.value.held file) }
    ensures below { (file : ℕ) → IsSome (fin.get names.old.value.held file) → file < names.old.value.next }
    ensures few { names.old.value.next ≤ N.start.tree.next + 16 * 65536 }
    ensures later { request.hand.seen ≤ result.hand.seen }
{
    let (client, ask, leases_back) = request.into_parts();
    let mut guest = lend_pool(table, right, client);
    names.see(table, &ask, &mut guest);
    let client = take_pool(table, right, guest, pool_number(0));
    Request::new(client, ask, leases_back)
}

/// Which live file the request touches, if it does one.
pub(crate) fn ask_needed<N: Naming>(
    names: &HeldNames<N>,
    request: Request<N>,
) -> (Request<N>, Result<Option<u32>, Memory>)
    requires kind { IsByNames request.ask }
    ensures same { result.0 ≡ request }
    ensures needed { IfOk result.1 (IsNeeded names.now.value request.ask) }
{
    let (client, ask, leases_back) = request.into_parts();
    let needed = names.needed(&ask);
    (Request::new(client, ask, leases_back), needed)
}

// The next file number. No file is here under that: it would be live, and each live one has a lower number.
fn free_number<N: Naming>(
    table: &HandTable<N>,
    names: &mut HeldNames<N>,
    geometry: &Geometry,
    home: &mut Home<N>,
) -> Result<u32, Memory>
    requires formed { IsGeometry geometry.now }
    requires its { geometry.now ≡ N.start.geometry }
    requires below { (file : ℕ) → IsSome (fin.get names.old.value.held file) → file < names.old.value.next }
    ensures names { names.new ≡ names.old }
    ensures home { home.new ≡ home.old }
    ensures next { IfOk result (λ n. n ≡ names.old.value.next) }
    ensures free { IfOk result (λ n. file_here home.old.places n ≡ None) }
{
    let next = names.next_number();
    if home.has(next) {
        let mut held = home.lend(next)?;
        names.tell_born(table, &mut held, geometry);
        unreachable!();
    }
    Ok(next)
}

/// The file, if it isn't here.
pub(crate) fn missing<N: Naming>(home: &Home<N>, file: Option<u32>) -> Option<u32>
    ensures away { IfSome result (λ f. (file ≡ Some f) × (file_here home.now.places f ≡ None)) }
    ensures here { IfNone result (IfSome file (λ f. IsSome (file_here home.now.places f))) }
{
    let number = file?;
    if home.has(number) {
        return None;
    }
    Some(number)
}

// The file, if there is one, is lent.
fn lend_one<N: Naming>(home: &mut Home<N>, file: Option<u32>) -> Result<Option<HeldFile<N>>, Memory>
    requires { IfSome file (λ f. IsSome (file_here home.old.places f)) }
    ensures number { IfOk result (λ held. number_of held ≡ file) }
    ensures here { IfOk result (λ held. IfSome held (λ c. file_here home.old.places c.value.file.file ≡ Some c)) }
    ensures low { IfOk result (λ held. IfSome held (λ c. c.value.file.file < 2 ^ 31)) }
    ensures lent { IfOk result (λ held. home.new ≡ record home.old { places = emptied home.old.places held }) }
    ensures kept { OnErr result (home.new ≡ home.old) }
{
    match file {
        Some(file) => {
            let held = home.lend(file)?;
            Ok(Some(held))
        }
        None => Ok(None),
    }
}

// A file that was lent is back.
fn give_back<N: Naming>(home: &mut Home<N>, held: Option<HeldFile<N>>)
    requires { IfSome held (λ c. (fin.get home.old.places c.value.file.file ≡ Some None) × (c.value.file.file < 2 ^ 31)) }
    ensures some { IfSome held (λ c. home.new ≡ record home.old { places = fin.insert home.old.places c.value.file.file (Some c) }) }
    ensures none { IfNone held (home.new ≡ home.old) }
{
    match held {
        Some(held) => home.put_back(held),
        None => {}
    }
}

// The file, if there is one, is lent, and there is a place for a new file. Where memory for that is wanting all is as it was.
fn lend_for<N: Naming>(
    home: &mut Home<N>,
    file: Option<u32>,
    next: u32,
) -> Result<Option<HeldFile<N>>, Memory>
    requires { IfSome file (λ f. IsSome (file_here home.old.places f)) }
    ensures number { IfOk result (λ held. number_of held ≡ file) }
    ensures here { IfOk result (λ held. IfSome held (λ c. file_here home.old.places c.value.file.file ≡ Some c)) }
    ensures low { IfOk result (λ held. IfSome held (λ c. c.value.file.file < 2 ^ 31)) }
    ensures lent { IfOk result (λ held. home.new ≡ record home.old { places = lent_with home.old.places held next }) }
    ensures kept { OnErr result (home.new ≡ home.old) }
{
    let held = lend_one(home, file)?;
    if let Err(memory) = home.make_place(next) {
        give_back(home, held);
        return Err(memory);
    }
    Ok(held)
}

/// The same with the next file number, which comes with the file. Where memory is wanting all is as it was.
pub(crate) fn lend_touched<N: Naming>(
    table: &HandTable<N>,
    names: &mut HeldNames<N>,
    geometry: &Geometry,
    home: &mut Home<N>,
    file: Option<u32>,
) -> Result<(u32, Option<HeldFile<N>>), Memory>
    requires formed { IsGeometry geometry.now }
    requires its { geometry.now ≡ N.start.geometry }
    requires below { (file : ℕ) → IsSome (fin.get names.old.value.held file) → file < names.old.value.next }
    requires here { IfSome file (λ f. IsSome (file_here home.old.places f)) }
    ensures names { names.new ≡ names.old }
    ensures next { IfOk result (λ lent. lent.0 ≡ names.old.value.next) }
    ensures free { IfOk result (λ lent. file_here home.old.places lent.0 ≡ None) }
    ensures number { IfOk result (λ lent. number_of lent.1 ≡ file) }
    ensures here { IfOk result (λ lent. IfSome lent.1 (λ c. file_here home.old.places c.value.file.file ≡ Some c)) }
    ensures low { IfOk result (λ lent. IfSome lent.1 (λ c. c.value.file.file < 2 ^ 31)) }
    ensures lent { IfOk result (λ lent. home.new ≡ record home.old { places = lent_with home.old.places lent.1 lent.0 }) }
    ensures kept { OnErr result (home.new ≡ home.old) }
{
    let next = free_number(table, names, geometry, home)?;
    let held = lend_for(home, file, next)?;
    Ok((next, held))
}

// The file that the request made goes to the place that was made for it.
fn put_made<N: Naming>(home: &mut Home<N>, next: u32, made: Option<Newborn<N>>)
    requires number { IfSome made (λ c. next ≡ c.value.file.file) }
    requires low { next < 2 ^ 31 }
    requires free { fin.get home.old.places next ≡ Some None }
    ensures { home.new ≡ record home.old { places = made_in made next home.old.places } }
{
    match made {
        Some(newborn) => home.put_newborn(next, newborn),
        None => {}
    }
}

// The touched file is back, or its place goes.
fn put_still<N: Naming>(home: &mut Home<N>, file: Option<u32>, still: Option<HeldFile<N>>)
    requires lent { IfSome file (λ f. fin.get home.old.places f ≡ Some None) }
    requires same { IfSome still (λ c. (file ≡ Some c.value.file.file) × (c.value.file.file < 2 ^ 31)) }
    ensures { home.new ≡ record home.old { places = back_in still file home.old.places } }
{
    if let Some(held) = still {
        home.put_back(held);
        return;
    }
    if let Some(file) = file {
        home.forget(file);
    }
}

/// What the request left of its files goes to its places.
pub(crate) fn put_after<N: Naming>(
    home: &mut Home<N>,
    file: Option<u32>,
    still: Option<HeldFile<N>>,
    next: u32,
    made: Option<Newborn<N>>,
)
    requires number { IfSome made (λ c. next ≡ c.value.file.file) }
    requires low { next < 2 ^ 31 }
    requires free { fin.get home.old.places next ≡ Some None }
    requires lent { IfSome file (λ f. (fin.get home.old.places f ≡ Some None) × (f ≢ next)) }
    requires same { IfSome still (λ c. (file ≡ Some c.value.file.file) × (c.value.file.file < 2 ^ 31)) }
    ensures { home.new ≡ record home.old { places = back_in still file (made_in made next home.old.places) } }
{
    put_made(home, next, made);
    put_still(home, file, still);
}
