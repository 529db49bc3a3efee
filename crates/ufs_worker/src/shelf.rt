// The files that a worker holds, and those that it sent to the primary and that are on their way.
ghost use Rattle.std.specs.Prelude.{◌≡◌};
ghost use Rattle.ufs_joint.specs.Cells.{FileCell};

use crate::requests::serve_in;
use crate::room::{make_place, take_place};
use crate::sending::send_kept;
use std::alloc::Global;
use std::collections::{BTreeMap, VecDeque};
use std::marker::Model;
use ufs_base::Memory;
use ufs_bitmap::Pool;
use ufs_held::Parcel;
use ufs_joint::{Hand, HandTable, Naming};
use ufs_msg::{Answer, Letter, Request, ServerPost};
use ufs_turns::Turns;

/// Files by their numbers, and letters to the primary in their order. A file that comes brings the room that it needs to go.
#[derive(Drop)]
pub(crate) struct Shelf<N: Naming> {
    places: BTreeMap<u32, Option<Parcel<N>>>,
    leaving: VecDeque<Parcel<N>>,
}

impl<N: Naming> Model for Shelf<N> {
    ghost use Rattle.std.specs.Prelude.{◌+◌, ◌≤◌};
    ghost use Rattle.std.specs.BTreeMap.{btree_map_len};
    ghost use Rattle.std.specs.VecDeque.{deque_capacity, deque_len};
    ghost use Rattle.ufs_worker.specs.Worker.{AreNumbered, ShelfState, filled, shelf_code};

    ghost Value = { ShelfState };

    ghost coded = { shelf_code };

    ghost view = { λ s. record { files = filled s.places.entries; letters = s.leaving.items } };

    ghost invariant = { λ s. AreNumbered (filled s.places.entries) × (deque_len s.leaving + btree_map_len s.places ≤ deque_capacity s.leaving) };
}

impl<N: Naming> Shelf<N> {
    ghost use Rattle.std.specs.Prelude.{◌≡◌, ◌≤◌, ◌++◌, [], ◌∷◌, IfErr, IsSome, OnErr, OnOk, Some, is_some};
    ghost use Rattle.std.specs.FinMap as fin;
    ghost use Rattle.std.specs.FinSet as set;
    ghost use Rattle.ufs_baton.specs.Baton.{IsToldSince};
    ghost use Rattle.ufs_joint.specs.Cells.{FileCell};
    ghost use Rattle.ufs_model.specs.Asks.{file_in};
    ghost use Rattle.ufs_model.specs.declared.data.Actor.TheVariants.{Primary, Worker};
    ghost use Rattle.ufs_msg.specs.Answers.{Told};
    ghost use Rattle.ufs_msg.specs.There.{IsByHint, IsServerThere};
    ghost use Rattle.ufs_msg.specs.declared.answer.Answer.TheVariants as answer;
    ghost use Rattle.ufs_msg.specs.declared.letter.Letter.TheVariants as letter;
    ghost use Rattle.ufs_joint.specs.FirstHand.{HasPoolAlone, pool_of};
    ghost use Rattle.ufs_serving.specs.Pools.{most_at_rest};
    ghost use Rattle.ufs_serving.specs.Sending.{GoInOrder};
    ghost use Rattle.ufs_serving.specs.Serving.{IsServedBy};

    /// No file, and no letter. Takes no memory.
    pub(crate) fn new(alloc: Global) -> Shelf<N>
        ensures { result ≡ record { files = fin.empty; letters = [] } }
    {
        Shelf {
            places: BTreeMap::new(alloc),
            leaving: VecDeque::new(alloc),
        }
    }

    /// Whether the file is held.
    pub(crate) fn has(&self, file: u32) -> bool
        ensures { result ≡ is_some (fin.get self.now.files file) }
    {
        match self.places.get(&file) {
            Some(place) => place.is_some(),
            None => false,
        }
    }

    /// A file comes to the others. At want of memory it comes back.
    pub(crate) fn take_in(&mut self, parcel: Parcel<N>) -> Result<(), (Memory, Parcel<N>)>
        ensures taken { OnOk result (self.new ≡ record self.old { files = fin.insert self.old.files parcel.value.file.file parcel }) }
        ensures back { IfErr result (λ back. back.1 ≡ parcel) }
        ensures kept { OnErr result (self.new ≡ self.old) }
    {
        match self.leaving.reserve(self.places.len() + 1) {
            Ok(()) => make_place(&mut self.places, parcel),
            Err(refused) => Err((Memory::from(refused), parcel)),
        }
    }

    /// The file goes behind the letters. Takes no memory.
    pub(crate) fn let_go(&mut self, file: u32)
        requires here { IsSome (fin.get self.old.files file) }
        ensures { (c : FileCell) → fin.get self.old.files file ≡ Some c → self.new ≡ record { files = fin.remove self.old.files file; letters = self.old.letters ++ c ∷ [] } }
    {
        let parcel = match take_place(&mut self.places, file) {
            Some(parcel) => parcel,
            None => unreachable!(),
        };
        self.leaving.push_back_reserved(parcel);
    }

    /// Sends the letters in order, until all went or one comes back.
    pub(crate) fn send_letters<Q: ServerPost<N, Letter<Parcel<N>>>>(&mut self, post: &mut Q)
        ensures gone { GoInOrder (λ p c q. Q.sends p Primary (letter.Parcel c) q) Q.same (λ p c. Q.letters_full p Primary) self.old.letters self.new.letters post.old post.new }
        ensures files { self.new ≡ record self.old { letters = self.new.letters } }
        ensures me { Q.me post.new ≡ Q.me post.old }
    {
        send_kept(&mut self.leaving, post);
    }

    /// Serves a request on a file that is held.
    pub(crate) fn serve<T: Turns<N>>(
        &mut self,
        table: &HandTable<N>,
        request: Request<N>,
        file: u32,
        me: u8,
        pool: &mut Pool,
        right: &mut Hand<N>,
        door: &mut T,
    ) -> Answer<N>
        requires pool { HasPoolAlone (pool_of me) pool.old right.old }
        requires few { set.len pool.old ≤ most_at_rest }
        requires there { IsServerThere N.start (Worker me) }
        requires hinted { IsByHint request.ask }
        requires named { file_in request.ask.desc ≡ Some file }
        requires here { IsSome (fin.get self.old.files file) }
        ensures pool { HasPoolAlone (pool_of me) pool.new right.new }
        ensures few { set.len pool.new ≤ most_at_rest }
        ensures served { (c : FileCell) → fin.get self.old.files file ≡ Some c → (d : FileCell) × (told : Told) × (result ≡ answer.Served told)
            × IsServedBy N.start.is_visible (T.tells door.old) (T.tells door.new) (Worker me) c d pool.old pool.new request.ask told × (self.new ≡ record self.old { files = fin.insert self.old.files file d }) }
        ensures drawn { IsToldSince request.hand.seen result }
        ensures telling { is_some (T.tells door.new) ≡ is_some (T.tells door.old) }
    {
        match self.places.get_mut(&file) {
            Some(place) => serve_in(table, place, request, me, pool, right, door),
            None => unreachable!(),
        }
    }
}
