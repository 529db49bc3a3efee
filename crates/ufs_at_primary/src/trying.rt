// A request is served, or it is said why not.
ghost use Rattle.std.specs.Prelude.{ℕ, ◌≡◌, ◌≢◌, ◌<◌, ◌≤◌, ◌^◌, Bool, IfNone, IfSome, None, length, true, is_some};
ghost use Rattle.ufs_baton.specs.Baton.{IsToldSince};
ghost use Rattle.ufs_bitmap.specs.Blocks.{BlockSet};
ghost use Rattle.ufs_joint.specs.FirstHand.{HasPoolAlone, pool_of};
ghost use Rattle.ufs_held.specs.Stopping.{Rests};
ghost use Rattle.ufs_held_names.specs.SyncAll.{AreAllLive};
ghost use Rattle.ufs_joint.specs.Cells.{FileCell, NamesCell};
ghost use Rattle.ufs_layout.specs.Areas.{IsGeometry};
ghost use Rattle.ufs_model.specs.declared.data.Actor.TheVariants.{Worker};
ghost use Rattle.ufs_model.specs.declared.data.Op.TheVariants as op;
ghost use Rattle.ufs_msg.specs.Answers.{Told};
ghost use Rattle.ufs_msg.specs.There.{is_by_hint};
ghost use Rattle.ufs_msg.specs.declared.answer.Answer.TheVariants as says;
ghost use Rattle.ufs_owner.specs.Owners.{owner_at};
ghost use Rattle.ufs_owner.specs.declared.owner.Owner.TheVariants as owner;
ghost use Rattle.ufs_at_primary.specs.All.{IsAllSynced};
ghost use Rattle.ufs_at_primary.specs.Excused.{IsOpened};
ghost use Rattle.ufs_at_primary.specs.Kinds.{IsOnFile};
ghost use Rattle.ufs_at_primary.specs.Served.{IsAnsweredHere};
ghost use Rattle.ufs_at_primary.specs.Stock.{stock_of};
ghost use Rattle.ufs_hand_laws.specs.Owned.{Has};

use crate::all::serve_sync_all;
use crate::dirs::serve_dir;
use crate::excusing::excuse;
use crate::here::serve_here;
use crate::kinds::{Kind, kind_asked};
use crate::named::{NamesAnswered, serve_named};
use crate::stock::Stock;
use crate::touching::{ask_needed, lend_touched, missing, put_after, see_request};
use crate::tried::Tried;
use ufs_base::Memory;
use ufs_held::{HeldFile, see_files};
use ufs_held_names::HeldNames;
use ufs_home::Home;
use ufs_joint::{Hand, HandTable, Naming};
use ufs_layout::Geometry;
use ufs_model::Actor;
use ufs_msg::{Answer, Redirected, Request};
use ufs_names::notes_are_beside;
use ufs_owner::{Owner, no_file_is_out};
use ufs_turns::Turns;

// The worker that has the file, where the request goes by a hint.
fn worker_for<N: Naming>(home: &Home<N>, file: u32, hinted: bool) -> Option<u8>
    ensures hinted { IfSome result (λ worker. hinted ≡ true) }
    ensures has { IfSome result (λ worker. owner_at home.now.owners file ≡ owner.Worker worker) }
    ensures none { IfNone result (hinted ≡ true → (worker : ℕ) → owner_at home.now.owners file ≢ owner.Worker worker) }
{
    if !hinted {
        return None;
    }
    match home.owner_of(file) {
        Owner::Worker(worker) => Some(worker),
        _ => None,
    }
}

// A request by a hint, whose file a worker has, is sent on to that.
fn redirect<N: Naming>(home: &Home<N>, request: Request<N>, file: u32, worker: u8) -> Answer<N>
    requires kind { IsOnFile request.ask file }
    requires hinted { is_by_hint request.ask.op ≡ true }
    requires has { owner_at home.now.owners file ≡ owner.Worker worker }
    ensures { result ≡ says.Redirect (record { request = request; to = Worker worker }) }
{
    // For the prover alone: a worker that the table names is there.
    let _server = home.server_of(file);
    Answer::Redirect(Redirected::new(request, Actor::Worker(worker)))
}

// A `sync`, with every live file.
fn sync_lent<N: Naming, T: Turns<N>>(
    table: &HandTable<N>,
    names: &mut HeldNames<N>,
    geometry: &Geometry,
    files: &mut Vec<HeldFile<N>>,
    request: Request<N>,
    right: &mut Hand<N>,
    door: &mut T,
) -> Answer<N>
    requires formed { IsGeometry geometry.now }
    requires its { geometry.now ≡ N.start.geometry }
    requires pool { (pool : BlockSet) × HasPoolAlone (pool_of 0) pool right.old }
    requires sync { request.ask.op ≡ op.Sync }
    requires all { AreAllLive names.old.value files.old.items }
    requires low { (c : FileCell) → Has c files.old.items → c.value.file.file < 2 ^ 31 }
    ensures pool { (pool : BlockSet) → HasPoolAlone (pool_of 0) pool right.old → HasPoolAlone (pool_of 0) pool right.new }
    ensures served { (told : Told) × (result ≡ says.Served told) × IsAllSynced N.start.is_visible (T.tells door.old) (T.tells door.new) names.old names.new files.old.items files.new.items request.ask told }
    ensures drawn { IsToldSince request.hand.seen result }
    ensures telling { is_some (T.tells door.new) ≡ is_some (T.tells door.old) }
    ensures few { length files.old.items ≤ N.start.geometry.inodes }
{
    let slice = files.as_mut_slice();
    // For the prover alone: a commit of each of them raises the store's numbers by no more than there are inodes.
    see_files(table, slice, right);
    serve_sync_all(table, names, geometry, slice, request, right, door)
}

// A request is excused for want of memory, or, where it asks for a commit, since the store has stopped.
fn lacking<N: Naming, T: Turns<N>>(
    table: &HandTable<N>,
    home: &Home<N>,
    right: &mut Hand<N>,
    request: Request<N>,
    memory: Memory,
    door: &mut T,
) -> Answer<N>
    requires pool { (pool : BlockSet) × HasPoolAlone (pool_of 0) pool right.old }
    requires opened { IsOpened request.ask }
    ensures pool { (pool : BlockSet) → HasPoolAlone (pool_of 0) pool right.old → HasPoolAlone (pool_of 0) pool right.new }
    ensures answered { (visible : Bool) (names : NamesCell) (pool : BlockSet) → IsAnsweredHere visible (T.tells door.old) (T.tells door.new) (stock_of names home.now pool) (stock_of names home.now pool) request result }
    ensures drawn { IsToldSince request.hand.seen result }
    ensures telling { is_some (T.tells door.new) ≡ is_some (T.tells door.old) }
    ensures rests { Rests (T.tells door.old) (T.tells door.new) None }
{
    excuse(table, home, request, memory, right, door)
}

impl<N: Naming> Stock<N> {
    ghost use Rattle.std.specs.Prelude.{ℕ, ◌≡◌, ◌<◌, ◌^◌, Bool, IfSome, IsSome, None, Option, true, is_some};
    ghost use Rattle.std.specs.FinMap as fin;
    ghost use Rattle.ufs_held.specs.Stopping.{Raises};
    ghost use Rattle.ufs_held_names.specs.Asked.{IsNeeded};
    ghost use Rattle.ufs_home.specs.Places.{file_here};
    ghost use Rattle.ufs_joint.specs.Cells.{View};
    ghost use Rattle.ufs_model.specs.declared.data.Op.TheVariants as op;
    ghost use Rattle.ufs_msg.specs.There.{is_by_hint};
    ghost use Rattle.ufs_at_primary.specs.Kinds.{IsByNames, IsOnFile};
    ghost use Rattle.ufs_baton.specs.Baton.{IsToldSince};
    ghost use Rattle.ufs_at_primary.specs.Served.{IsAnsweredHere, IsTried, IsTriedSince};
    ghost use Rattle.ufs_told.specs.Numbers.{most_raised};

    // A request on a file that isn't here.
    fn send_on(
        &mut self,
        table: &HandTable<N>,
        request: Request<N>,
        file: u32,
        hinted: bool,
    ) -> Tried<N>
        requires kind { IsOnFile request.ask file }
        requires hinted { is_by_hint request.ask.op ≡ hinted }
        requires away { file_here self.old.home.places file ≡ None }
        ensures tried { (visible : Bool) (tells : Option View) → IsTried visible tells tells self.old self.new request result }
        ensures drawn { IsTriedSince request.hand.seen result }
    {
        if let Some(worker) = worker_for(&self.home, file, hinted) {
            let answer = redirect(&self.home, request, file, worker);
            return Tried::Redirected { answer, file };
        }
        let request = see_request(table, &mut self.names, &mut self.right, request);
        Tried::Away { request, file }
    }

    // A request on a file that is here.
    fn serve_at_hand<T: Turns<N>>(
        &mut self,
        table: &HandTable<N>,
        request: Request<N>,
        file: u32,
        door: &mut T,
    ) -> Answer<N>
        requires kind { IsOnFile request.ask file }
        requires here { IsSome (file_here self.old.home.places file) }
        ensures answered { IsAnsweredHere N.start.is_visible (T.tells door.old) (T.tells door.new) self.old self.new request result }
        ensures drawn { IsToldSince request.hand.seen result }
        ensures telling { is_some (T.tells door.new) ≡ is_some (T.tells door.old) }
    {
        let held = match self.home.lend(file) {
            Ok(held) => held,
            Err(memory) => {
                return lacking(table, &self.home, &mut self.right, request, memory, door);
            }
        };
        let (held, answer) = serve_here(
            table,
            &mut self.names,
            &self.geometry,
            held,
            request,
            &mut self.pool,
            &mut self.right,
            door,
        );
        self.home.put_back(held);
        answer
    }

    // A request on a file. Where it would lengthen that, and blocks are wanting, what was dropped comes back first.
    fn serve_on_file<T: Turns<N>>(
        &mut self,
        table: &HandTable<N>,
        request: Request<N>,
        file: u32,
        hinted: bool,
        door: &mut T,
    ) -> Tried<N>
        requires kind { IsOnFile request.ask file }
        requires hinted { is_by_hint request.ask.op ≡ hinted }
        ensures tried { IsTried N.start.is_visible (T.tells door.old) (T.tells door.new) self.old self.new request result }
        ensures drawn { IsTriedSince request.hand.seen result }
        ensures telling { is_some (T.tells door.new) ≡ is_some (T.tells door.old) }
        ensures raised { Raises (T.tells door.old) (T.tells door.new) (most_raised N.start.geometry) }
    {
        if !self.home.has(file) {
            return self.send_on(table, request, file, hinted);
        }
        let (request, wanted) = self.measure(file, request);
        self.make_space(table, wanted, door);
        Tried::Answered(self.serve_at_hand(table, request, file, door))
    }

    // A `sync`.
    fn serve_all<T: Turns<N>>(
        &mut self,
        table: &HandTable<N>,
        request: Request<N>,
        door: &mut T,
    ) -> Tried<N>
        requires sync { request.ask.op ≡ op.Sync }
        ensures tried { IsTried N.start.is_visible (T.tells door.old) (T.tells door.new) self.old self.new request result }
        ensures drawn { IsTriedSince request.hand.seen result }
        ensures telling { is_some (T.tells door.new) ≡ is_some (T.tells door.old) }
        ensures raised { Raises (T.tells door.old) (T.tells door.new) (most_raised N.start.geometry) }
    {
        no_file_is_out();
        if let Some(file) = self.home.some_out() {
            return Tried::Away { request, file };
        }
        let mut files = match self.home.lend_all() {
            Ok(files) => files,
            Err(memory) => {
                return Tried::Answered(lacking(
                    table,
                    &self.home,
                    &mut self.right,
                    request,
                    memory,
                    door,
                ));
            }
        };
        let answer = sync_lent(
            table,
            &mut self.names,
            &self.geometry,
            &mut files,
            request,
            &mut self.right,
            door,
        );
        self.home.put_back_all(files);
        Tried::Answered(answer)
    }

    // A request of the names, with the file that it touches, which is here.
    fn serve_touching<T: Turns<N>>(
        &mut self,
        table: &HandTable<N>,
        request: Request<N>,
        needed: Option<u32>,
        door: &mut T,
    ) -> Answer<N>
        requires kind { IsByNames request.ask }
        requires needed { IsNeeded self.old.names.value request.ask needed }
        requires here { IfSome needed (λ file. IsSome (file_here self.old.home.places file)) }
        requires below { (file : ℕ) → IsSome (fin.get self.old.names.value.held file) → file < self.old.names.value.next }
        requires low { self.old.names.value.next < 2 ^ 31 }
        ensures answered { IsAnsweredHere N.start.is_visible (T.tells door.old) (T.tells door.new) self.old self.new request result }
        ensures drawn { IsToldSince request.hand.seen result }
        ensures telling { is_some (T.tells door.new) ≡ is_some (T.tells door.old) }
    {
        let lent = lend_touched(
            table,
            &mut self.names,
            &self.geometry,
            &mut self.home,
            needed,
        );
        let (next, held) = match lent {
            Ok(lent) => lent,
            Err(memory) => {
                return lacking(table, &self.home, &mut self.right, request, memory, door);
            }
        };
        let NamesAnswered { answer, file, made } = serve_named(
            table,
            &mut self.names,
            &self.geometry,
            &self.home,
            held,
            request,
            &mut self.pool,
            &mut self.right,
            door,
        );
        put_after(&mut self.home, needed, file, next, made);
        answer
    }

    // A request of the names. Room for it is made where the file that it touches is here.
    fn serve_by_names<T: Turns<N>>(
        &mut self,
        table: &HandTable<N>,
        request: Request<N>,
        door: &mut T,
    ) -> Tried<N>
        requires kind { IsByNames request.ask }
        ensures tried { IsTried N.start.is_visible (T.tells door.old) (T.tells door.new) self.old self.new request result }
        ensures drawn { IsTriedSince request.hand.seen result }
        ensures telling { is_some (T.tells door.new) ≡ is_some (T.tells door.old) }
        ensures raised { Raises (T.tells door.old) (T.tells door.new) (most_raised N.start.geometry) }
    {
        let request = see_request(table, &mut self.names, &mut self.right, request);
        let (request, needed) = ask_needed(&self.names, request);
        let needed = match needed {
            Ok(needed) => needed,
            Err(memory) => {
                return Tried::Answered(lacking(
                    table,
                    &self.home,
                    &mut self.right,
                    request,
                    memory,
                    door,
                ));
            }
        };
        if let Some(file) = missing(&self.home, needed) {
            return Tried::Away { request, file };
        }
        if let Err(memory) = self.make_room(table, door) {
            return Tried::Answered(self.excuse(table, request, memory, door));
        }
        // For the prover alone: the file that the request touches is the same, whatever is noted.
        notes_are_beside();
        Tried::Answered(self.serve_touching(table, request, needed, door))
    }

    /// Serves the request with what is here, or excuses it for want of memory. Where it isn't served all is as it was.
    pub fn serve<T: Turns<N>>(
        &mut self,
        table: &HandTable<N>,
        request: Request<N>,
        door: &mut T,
    ) -> Tried<N>
        ensures tried { IsTried N.start.is_visible (T.tells door.old) (T.tells door.new) self.old self.new request result }
        ensures drawn { IsTriedSince request.hand.seen result }
        ensures telling { is_some (T.tells door.new) ≡ is_some (T.tells door.old) }
        ensures raised { Raises (T.tells door.old) (T.tells door.new) (most_raised N.start.geometry) }
    {
        let (request, kind) = kind_asked(request);
        match kind {
            Kind::OnFile { file, hinted } => {
                self.serve_on_file(table, request, file, hinted, door)
            }
            Kind::Names => self.serve_by_names(table, request, door),
            Kind::OnNone => {
                let names = &mut self.names;
                Tried::Answered(serve_dir(table, names, request, &mut self.right, door))
            }
            Kind::All => self.serve_all(table, request, door),
        }
    }
}
