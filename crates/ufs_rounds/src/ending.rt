// A session is played by turns, and ends.
ghost use Rattle.std.specs.List.{AllByRecursion};
ghost use Rattle.std.specs.Prelude.{ℕ, ◌≡◌, ◌<◌, ◌↔◌, [], Err, IfErr, IfOk, IsOk, List, OnErr, Some, map, OnOk, true};
ghost use Rattle.ufs_caller.specs.Callers.{entries_in};
ghost use Rattle.ufs_brink.specs.Closes.{closing_fault};
ghost use Rattle.ufs_brink.specs.declared.closing.CloseFault.TheVariants as cause;
ghost use Rattle.ufs_client.specs.Played.{IsMerged};
ghost use Rattle.ufs_gathered.specs.Ended.{AnswerFirst};
ghost use Rattle.ufs_disk.specs.Moments.{reads};
ghost use Rattle.ufs_gathered.specs.Finished.{ClosesBy, HasFinished};
ghost use Rattle.ufs_gathered.specs.Gathered.{AreHome};
ghost use Rattle.ufs_joint.specs.FirstHand.{Beginning, start_first};
ghost use Rattle.ufs_layout.specs.Areas.{IsGeometry};
ghost use Rattle.ufs_model.specs.declared.data.Entry.{Entry};
ghost use Rattle.ufs_rounds.specs.Alone.{ServesAlone};
ghost use Rattle.ufs_rounds.specs.Back.{AreBackHere};
ghost use Rattle.ufs_rounds.specs.Dealing.{HaveAskedNothing};
ghost use Rattle.ufs_rounds.specs.Made.{AreAllMadeThere};
ghost use Rattle.ufs_rounds.specs.Numbers.{IsThere};
ghost use Rattle.ufs_rounds.specs.Played.{AreInTurn, HasPlayed, IsPlayedOut, TellsToEnd};
ghost use Rattle.ufs_rounds.specs.Rest.{IsAtRest, IsPlayed};
ghost use Rattle.ufs_rounds.specs.Scripts.{lists_of, scripts_of};
ghost use Rattle.ufs_rounds.specs.View.{global_of};
ghost use Rattle.ufs_store.specs.Refusals.{IsTold};
ghost use Rattle.ufs_store.specs.State.{StoreState, geometry_of_store};
ghost use Rattle.ufs_primary.specs.OfTurns.{stop_in, tally_in};

use crate::gathering::AtRest;
use crate::rounds::Unfinished;
use crate::session::Session;
use std::alloc::Global;
use std::sync::ledger::{Ledger, Share};
use ufs_base::Memory;
use ufs_brink::CloseFault;
use ufs_caller::Told;
use ufs_disk::Disk;
use ufs_gathered::{Actors, Finished, Remains, finish, leave};
use ufs_joint::{HandTable, Naming};
use ufs_layout::Geometry;
use ufs_model::Actor;
use ufs_primary::{Direct, HeldStore};
use ufs_store::Store;

/// A session that was played and has ended.
#[derive(Drop)]
pub struct Played<D: Disk> {
    /// What each client was answered, client 0 first.
    pub told: Vec<Vec<Told>>,
    /// How many entries it has.
    pub tickets: u64,
    /// How large all files are together at the end; want of memory where it was wanting to commit anything.
    pub bytes: Result<u128, Memory>,
    pub disk: D,
    /// Whether everything was committed, and the image made clean.
    pub ended: Result<(), CloseFault>,
}

/// A session that couldn't be ended, since a request or a file is still under way. It comes back, and may go on.
pub struct Unended<N: Naming, D: Disk, L: Ledger> {
    pub session: Session<N, D, L>,
    pub why: Unfinished,
}

// All hands go to the end of the session. Where there is no memory for a list of the files nothing is committed.
fn finish_rest<N: Naming, D: Disk, L: Ledger>(
    alloc: Global,
    table: HandTable<N>,
    geometry: &Geometry,
    rest: AtRest<N>,
    store: HeldStore<N, Store<D>, L>,
    share: Share<L>,
) -> (Vec<Vec<Told>>, Finished<D>)
    requires formed { IsGeometry geometry.now }
    requires its { geometry.now ≡ N.start.geometry }
    requires share { 0 < share.parts }
    requires home { (lists : List (List Entry)) × AreHome lists rest.clients.items }
    requires back { AreBackHere N.start rest.names rest.home rest.pools rest.clients.items }
    ensures told { result.0 ≡ rest.told }
    ensures finished { (lists : List (List Entry)) → AreHome lists rest.clients.items
        → HasFinished N.start N.origin D.keeps result.1.tickets lists result.1.bytes (D.size result.1.disk) (D.faults result.1.disk) (D.moments result.1.disk) result.1.ended }
    ensures stopped { (fault : ℕ) → (result.1.ended ≡ Err (cause.Stopped fault)) ↔ (stop_in store.store ≡ Some fault) }
    ensures counted { IsTold (tally_in store.store).faults (D.faults result.1.disk) (closing_fault result.1.ended) }
    ensures raised { N.start.is_visible ≡ true → OnOk result.1.ended (ClosesBy (tally_in store.store).epoch (tally_in store.store).number N.start.geometry.inodes (reads (D.moments result.1.disk))) }
{
    let AtRest {
        names,
        mut home,
        mut pools,
        clients,
        told,
    } = rest;
    match home.lend_all() {
        Ok(files) => {
            let actors = Actors {
                names,
                files,
                store,
                pools,
                clients,
            };
            (told, finish(alloc, table, geometry, actors, share))
        }
        Err(memory) => {
            home.join_all(&table, &mut pools);
            let remains = Remains {
                names,
                store,
                rest: pools,
                clients,
            };
            (told, leave(table, remains, memory))
        }
    }
}

impl<N: Naming, D: Disk, L: Ledger> Session<N, D, L> {
    // Ends the session, which is at rest.
    fn end(self, alloc: Global) -> Played<D>
        requires start { (b : Beginning) × (s : StoreState) × (N.start ≡ start_first b s) }
        requires rest { IsAtRest self.participants.clients.items self.participants.primary }
        ensures finished { HasFinished N.start N.origin D.keeps result.tickets (lists_of self.participants.clients.items) result.bytes (D.size result.disk) (D.faults result.disk) (D.moments result.disk) result.ended }
        ensures told { map (λ t. entries_in t.items) result.told.items ≡ lists_of self.participants.clients.items }
        ensures made { AreAllMadeThere N.start (map (λ t. t.items) result.told.items) }
        ensures stopped { (fault : ℕ) → (result.ended ≡ Err (cause.Stopped fault)) ↔ (stop_in self.store.store ≡ Some fault) }
        ensures counted { IsTold (tally_in self.store.store).faults (D.faults result.disk) (closing_fault result.ended) }
        ensures raised { N.start.is_visible ≡ true → OnOk result.ended (ClosesBy (tally_in self.store.store).epoch (tally_in self.store.store).number N.start.geometry.inodes (reads (D.moments result.disk))) }
    {
        let Session {
            table,
            geometry,
            participants,
            store,
            share,
            room,
        } = self;
        let rest = participants.gather(&table, room);
        let (told, finished) = finish_rest(alloc, table, &geometry, rest, store, share);
        let Finished {
            tickets,
            bytes,
            disk,
            ended,
        } = finished;
        Played {
            told,
            tickets,
            bytes,
            disk,
            ended,
        }
    }

    /// Ends the session where no request is under way and no file is out: everything is committed, and the image is made clean. The
    /// transcripts are those of one history, of which the disk keeps its promise. The end tells one fault of the device at most, by which
    /// alone the count goes on. Else the session comes back, and may go on.
    pub fn finish(self, alloc: Global) -> Result<Played<D>, Session<N, D, L>>
        requires start { (b : Beginning) × (s : StoreState) × (N.start ≡ start_first b s) }
        ensures finished { IfOk result (λ p. HasFinished N.start N.origin D.keeps p.tickets (lists_of self.participants.clients.items) p.bytes (D.size p.disk) (D.faults p.disk) (D.moments p.disk) p.ended) }
        ensures told { IfOk result (λ p. map (λ t. entries_in t.items) p.told.items ≡ lists_of self.participants.clients.items) }
        ensures made { IfOk result (λ p. AreAllMadeThere N.start (map (λ t. t.items) p.told.items)) }
        ensures stopped { IfOk result (λ p. (fault : ℕ) → (p.ended ≡ Err (cause.Stopped fault)) ↔ (stop_in self.store.store ≡ Some fault)) }
        ensures counted { IfOk result (λ p. IsTold (tally_in self.store.store).faults (D.faults p.disk) (closing_fault p.ended)) }
        ensures raised { IfOk result (λ p. N.start.is_visible ≡ true → OnOk p.ended (ClosesBy (tally_in self.store.store).epoch (tally_in self.store.store).number N.start.geometry.inodes (reads (D.moments p.disk)))) }
        ensures under_way { OnErr result (IsAtRest self.participants.clients.items self.participants.primary → ⊥) }
        ensures back { IfErr result (λ s. s ≡ self) }
    {
        if self.participants.is_at_rest() {
            Ok(self.end(alloc))
        } else {
            Err(self)
        }
    }

    /// Plays the session by turns, and ends it: by the schedule, one turn a word; then by rounds until nothing is under way; then each
    /// client in order asks what it has left. Where rounds come to no rest the session comes back. Where the primary serves alone, as it
    /// does without a worker, they always come to rest (`ended`); the entries tell each fault of the device, and how far the store's epoch and
    /// next commit number rose (`told`); and without a schedule each client asks all that it was given before the next one does (`in_turn`).
    pub fn play(self, alloc: Global, schedule: &[Actor]) -> Result<Played<D>, Unended<N, D, L>>
        requires start { (b : Beginning) × (s : StoreState) × (N.start ≡ start_first b s) }
        requires there { AllByRecursion (IsThere N.start) schedule.now }
        ensures played { IfOk result (λ p. HasPlayed N.start N.origin D.keeps (scripts_of self.participants.clients.items) p.tickets (map (λ t. entries_in t.items) p.told.items) p.bytes (D.size p.disk) (D.faults p.disk) (D.moments p.disk) p.ended) }
        ensures made { IfOk result (λ p. AreAllMadeThere N.start (map (λ t. t.items) p.told.items)) }
        ensures turns { IfOk result (λ p. IsPlayedOut N.start schedule.now (global_of self.participants (Some self.store)) (map (λ t. entries_in t.items) p.told.items) (D.faults p.disk) (D.moments p.disk) p.ended) }
        ensures in_turn { ServesAlone N.start (global_of self.participants (Some self.store)) → HaveAskedNothing self.participants.clients.items → schedule.now ≡ [] → IfOk result (λ p. AreInTurn (map (λ t. entries_in t.items) p.told.items)) }
        ensures told { ServesAlone N.start (global_of self.participants (Some self.store)) → HaveAskedNothing self.participants.clients.items → (s : StoreState) → geometry_of_store s ≡ N.start.geometry
            → IfOk result (λ p. (history : List Entry) → IsMerged (map (λ t. entries_in t.items) p.told.items) history → TellsToEnd N.start s self.store history (D.faults p.disk) (D.moments p.disk) p.ended) }
        ensures ended { ServesAlone N.start (global_of self.participants (Some self.store)) → IsOk result }
        ensures under_way { IfErr result (λ u. IsAtRest u.session.participants.clients.items u.session.participants.primary → ⊥) }
        ensures so_far { IfErr result (λ u. IsPlayed N.start schedule.now (global_of self.participants (Some self.store)) (global_of u.session.participants (Some u.session.store)) (Err u.why)) }
        ensures first { IfErr result (λ u. AnswerFirst (scripts_of self.participants.clients.items) (lists_of u.session.participants.clients.items)) }
        ensures scripts { IfErr result (λ u. scripts_of u.session.participants.clients.items ≡ scripts_of self.participants.clients.items) }
    {
        let Session {
            table,
            geometry,
            mut participants,
            store,
            share,
            room,
        } = self;
        let mut door = Direct {
            table: &table,
            held: store,
            share,
        };
        let played = participants.play(&table, &mut door, schedule);
        let Direct {
            table: _,
            held: store,
            share,
        } = door;
        let session = Session {
            table,
            geometry,
            participants,
            store,
            share,
            room,
        };
        match played {
            Ok(()) => Ok(session.end(alloc)),
            Err(why) => Err(Unended { session, why }),
        }
    }
}
