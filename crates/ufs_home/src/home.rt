// The files of the primary.
use crate::at_home::AtHome;
use crate::lent::{lend_all, put_back_all};
use crate::mailbox::{Mailbox, no_letters};
use crate::moved::Moved;
use crate::moving::{order_here, order_out, recall, settle};
use crate::sending::send_boxes;
use crate::shelf::Shelf;
use std::alloc::Global;
use std::marker::Model;
use ufs_base::{Lack, Memory};
use ufs_held::{HeldFile, Parcel};
use ufs_held_names::Newborn;
use ufs_joint::{Hand, HandTable, Naming};
use ufs_model::Actor;
use ufs_msg::{Letter, ServerPost};
use ufs_owner::{Owner, OwnerTable};

/// The files of session `N` that are at the primary, each with the right to its cell; who has each other one, and who waits for it; and
/// letters to workers whose rings were full. A file is found by its number.
#[derive(Drop)]
pub struct Home<N: Naming> {
    alloc: Global,
    workers: u8,
    shelf: Shelf<N>,
    owners: OwnerTable,
    boxes: Vec<Mailbox<N>>,
}

impl<N: Naming> Model for Home<N> {
    ghost use Rattle.ufs_home.specs.Home.{HomeState, IsHome, home_code};

    ghost Value = { HomeState };

    ghost coded = { home_code };

    ghost view = { λ h. record { places = h.shelf; owners = h.owners.files; letters = h.boxes.items } };

    ghost invariant = { λ h. IsHome N.start h.workers h.owners.files h.boxes.items };
}

impl<N: Naming> Home<N> {
    ghost use Rattle.std.specs.Prelude.{ℕ, ◌≡◌, ◌≢◌, ◌⊎◌, ◌≤◌, ◌<◌, ◌^◌, ◌++◌, ◌∷◌, [], eqb, IfErr, IfOk, IfSome, IsSome, MatchOption, None, OnErr, OnOk, Some, filter, false, is_some, replicate, true};
    ghost use Rattle.std.specs.FinMap as fin;
    ghost use Rattle.ufs_home.specs.Home.{HomeState, IsSendable, called_for, come_on, is_waited, onward};
    ghost use Rattle.ufs_home.specs.Moves.{IfLack, IsMoved, IsOrdered, order_of};
    ghost use Rattle.ufs_held.specs.Together.{HasThemToo, under_numbers};
    ghost use Rattle.ufs_home.specs.Lending.{AreAway, AreLent, files_in, put_all};
    ghost use Rattle.ufs_home.specs.Letters.{RingsGo, letter_of};
    ghost use Rattle.ufs_home.specs.Owning.{server_named};
    ghost use Rattle.ufs_home.specs.Places.{file_here, with_place};
    ghost use Rattle.ufs_joint.specs.Cells.{FileCell};
    ghost use Rattle.ufs_model.specs.declared.data.Actor.TheVariants.{Worker};
    ghost use Rattle.ufs_msg.specs.There.{IsServerThere, worker_count};
    ghost use Rattle.ufs_owner.specs.Clients.{is_another};
    ghost use Rattle.ufs_owner.specs.Lacks.{IsLackOut};
    ghost use Rattle.ufs_owner.specs.Owners.{count_out, is_coming, note_at, owner_at, waiting_at, with_waiting};
    ghost use Rattle.ufs_owner.specs.declared.owner.Owner.TheVariants.{Primary};
    ghost use Rattle.ufs_hand_laws.specs.Owned.{Has, count};

    /// No file, and each worker's letters. Only this call takes memory for the workers.
    pub fn make(alloc: Global, workers: u8) -> Result<Home<N>, Memory>
        requires { workers ≡ worker_count N.start }
        ensures { IfOk result (λ h. h ≡ record { places = fin.empty; owners = fin.empty; letters = replicate workers [] }) }
    {
        let boxes = no_letters(alloc, workers)?;
        Ok(Home {
            alloc,
            workers,
            shelf: Shelf::new(alloc),
            owners: OwnerTable::new(alloc),
            boxes,
        })
    }

    /// Which server has the file.
    pub fn owner_of(&self, file: u32) -> Owner
        ensures { result ≡ owner_at self.now.owners file }
    {
        self.owners.owner_of(file)
    }

    /// The server that an answer names as the file's owner: the worker that has it or to which it goes, and else the primary.
    pub fn server_of(&self, file: u32) -> Actor
        ensures is { result ≡ server_named (owner_at self.now.owners file) }
        ensures there { IsServerThere N.start result }
    {
        match self.owners.owner_of(file) {
            Owner::Primary => Actor::Primary,
            Owner::Worker(worker) => Actor::Worker(worker),
            Owner::Coming { .. } => Actor::Primary,
            Owner::Going { to } => Actor::Worker(to),
        }
    }

    /// Whether a client waits for the file.
    pub fn is_waited(&self, file: u32) -> bool
        ensures { result ≡ is_waited self.now.owners file }
    {
        self.owners.waiting(file)
    }

    /// The worker that is to have the file once it has come, 0 for the primary and for a file that isn't coming.
    pub fn note_of(&self, file: u32) -> u8
        ensures { result ≡ note_at self.now.owners file }
    {
        self.owners.note_of(file)
    }

    /// How many files aren't at the primary.
    pub fn count_out(&self) -> u32
        ensures { result ≡ count_out self.now.owners }
    {
        self.owners.count_out()
    }

    /// A file that isn't at the primary, if there is one. Where none is it takes constant time, and else at most that of a walk over the
    /// files that aren't at the primary or for which a client waits.
    pub fn some_out(&self) -> Option<u32>
        ensures { MatchOption result (count_out self.now.owners ≡ 0) (λ file. owner_at self.now.owners file ≢ Primary) }
    {
        self.owners.some_out()
    }

    /// Whether the file is here.
    pub fn has(&self, file: u32) -> bool
        ensures { result ≡ is_some (file_here self.now.places file) }
    {
        self.shelf.has(file)
    }

    /// There is a place for the file, as it was if there was one, and else empty.
    pub fn make_place(&mut self, file: u32) -> Result<(), Memory>
        ensures ok { OnOk result (self.new ≡ record self.old { places = with_place self.old.places file }) }
        ensures err { OnErr result (self.new ≡ self.old) }
    {
        self.shelf.make_place(file)?;
        Ok(())
    }

    /// The place of a file that is no more, or wasn't made, goes.
    pub fn forget(&mut self, file: u32)
        requires { file_here self.old.places file ≡ None }
        ensures { self.new ≡ record self.old { places = fin.remove self.old.places file } }
    {
        self.shelf.forget(file);
    }

    /// The file, for a request; its place stays. Where no memory was found for what is known of the commits of a new file all is as it
    /// was.
    pub fn lend(&mut self, file: u32) -> Result<HeldFile<N>, Memory>
        requires { IsSome (file_here self.old.places file) }
        ensures file { IfOk result (λ held. file_here self.old.places file ≡ Some held) }
        ensures number { IfOk result (λ held. held.value.file.file ≡ file) }
        ensures low { IfOk result (λ held. held.value.file.file < 2 ^ 31) }
        ensures lent { OnOk result (self.new ≡ record self.old { places = fin.insert self.old.places file None }) }
        ensures kept { OnErr result (self.new ≡ self.old) }
    {
        self.shelf.lend(file, self.alloc)
    }

    /// A file that was lent is back in its place.
    pub fn put_back(&mut self, held: HeldFile<N>)
        requires empty { fin.get self.old.places held.value.file.file ≡ Some None }
        requires low { held.value.file.file < 2 ^ 31 }
        ensures { self.new ≡ record self.old { places = fin.insert self.old.places held.value.file.file (Some held) } }
    {
        self.shelf.fill(AtHome::of_held(held));
    }

    /// Each file that is here, for a request that touches all; their places stay. Where memory is wanting all is as it was.
    pub fn lend_all(&mut self) -> Result<Vec<HeldFile<N>>, Memory>
        ensures lent { IfOk result (λ files. AreLent self.old.places self.new.places files.items) }
        ensures all { IfOk result (λ files. (file : ℕ) → IsSome (file_here self.old.places file) → (c : FileCell) × Has c files.items × (c.value.file.file ≡ file)) }
        ensures low { IfOk result (λ files. (c : FileCell) → Has c files.items → c.value.file.file < 2 ^ 31) }
        ensures rest { self.new ≡ record self.old { places = self.new.places } }
        ensures kept { OnErr result (self.new ≡ self.old) }
    {
        lend_all(&mut self.shelf, self.alloc)
    }

    /// Files that were lent are back, each in its place. Takes no memory.
    pub fn put_back_all(&mut self, files: Vec<HeldFile<N>>)
        requires { AreAway self.old.places files.items }
        ensures { self.new ≡ record self.old { places = put_all self.old.places files.items } }
    {
        put_back_all(&mut self.shelf, files);
    }

    /// The right to each file that is here comes to the hand. The files themselves are let go, and letters that are kept. Takes no memory.
    pub fn join_all(self, table: &HandTable<N>, hand: &mut Hand<N>)
        ensures joined { HasThemToo (files_in self.places) hand.old hand.new }
        ensures each { (file : ℕ) → IsSome (file_here self.places file) → 1 ≤ count eqb file (under_numbers (files_in self.places)) }
    {
        self.shelf.join_all(table, hand);
    }

    /// A file that a request made goes to the place that was made for it.
    pub fn put_newborn(&mut self, file: u32, newborn: Newborn<N>)
        requires number { file ≡ newborn.value.file.file }
        requires low { file < 2 ^ 31 }
        requires empty { fin.get self.old.places file ≡ Some None }
        ensures { self.new ≡ record self.old { places = fin.insert self.old.places file (Some newborn) } }
    {
        self.shelf.fill(AtHome::of_newborn(file, newborn));
    }

    /// A file that was coming is here; where a worker is noted, and nobody waits for it, it goes on, behind the letters to that. Answers
    /// that worker, or 0. It comes back where it wasn't coming, or its number is here, or with what is lacking, where there is no room
    /// for it: all is as it was then.
    pub fn come(&mut self, parcel: Parcel<N>) -> Result<u8, (Option<Lack>, Parcel<N>)>
        ensures ok { IfOk result (λ to. self.new ≡ come_on self.old parcel to) }
        ensures to { IfOk result (λ to. to ≡ onward self.old.owners parcel.value.file.file) }
        ensures coming { OnOk result (is_coming (owner_at self.old.owners parcel.value.file.file) ≡ true) }
        ensures back { IfErr result (λ x. x.1 ≡ parcel) }
        ensures refused { IfErr result (λ x. x.0 ≡ None → (is_coming (owner_at self.old.owners parcel.value.file.file) ≡ false) ⊎ IsSome (file_here self.old.places parcel.value.file.file)) }
        ensures lack { IfErr result (λ x. IfSome x.0 (IsLackOut self.old.owners)) }
        ensures wanting { IfErr result (λ x. IsSome x.0 → is_coming (owner_at self.old.owners parcel.value.file.file) ≡ true) }
        ensures err { OnErr result (self.new ≡ self.old) }
    {
        settle(&mut self.shelf, &mut self.owners, &mut self.boxes, parcel)
    }

    /// The client waits for the file, behind those that wait already.
    pub fn wait(&mut self, file: u32, client: u8) -> Result<(), Memory>
        ensures ok { OnOk result (self.new ≡ record self.old { owners = with_waiting self.old.owners file (waiting_at self.old.owners file ++ client ∷ []) }) }
        ensures err { OnErr result (self.new ≡ self.old) }
    {
        self.owners.wait(file, client)
    }

    /// The client waits for the file no more; the others keep their order. Takes no memory.
    pub fn unwait(&mut self, file: u32, client: u8)
        ensures { self.new ≡ record self.old { owners = with_waiting self.old.owners file (filter (is_another client) (waiting_at self.old.owners file)) } }
    {
        self.owners.unwait(file, client);
    }

    /// A request wants the file: where a worker has it, or is to have it, it is asked for it, and nobody is to have it then. Where it is
    /// here, or is coming, nothing is done.
    pub fn call_for(&mut self, file: u32) -> Result<(), Memory>
        ensures ok { OnOk result (self.new ≡ called_for self.old file) }
        ensures err { OnErr result (self.new ≡ self.old) }
    {
        match self.owners.owner_of(file) {
            Owner::Primary => Ok(()),
            Owner::Coming { .. } => Ok(()),
            Owner::Worker(worker) => recall(&mut self.owners, &mut self.boxes, file, worker, 0),
            Owner::Going { to } => recall(&mut self.owners, &mut self.boxes, file, to, 0),
        }
    }

    /// The file is to go to this worker, or to the primary for 0.
    pub fn order(&mut self, file: u32, to: u8) -> Moved
        requires there { to ≤ worker_count N.start }
        requires sendable { IsSendable self.old file to }
        ensures answer { IsOrdered (order_of (owner_at self.old.owners file) (is_waited self.old.owners file) to) result }
        ensures moved { IsMoved self.old self.new file to result }
        ensures lack { IfLack result (IsLackOut self.old.owners) }
    {
        match self.owners.owner_of(file) {
            Owner::Primary => order_here(
                &mut self.shelf,
                &mut self.owners,
                &mut self.boxes,
                self.alloc,
                file,
                to,
            ),
            Owner::Worker(worker) => {
                order_out(&mut self.owners, &mut self.boxes, file, worker, to)
            }
            Owner::Going { to: worker } => {
                order_out(&mut self.owners, &mut self.boxes, file, worker, to)
            }
            Owner::Coming { .. } => {
                self.owners.renote(file, to);
                Moved::Renoted
            }
        }
    }

    /// Letters that are kept go, worker by worker, as far as there is room. A file that was going and went is the worker's.
    pub fn send_letters<Q: ServerPost<N, Letter<Parcel<N>>>>(&mut self, post: &mut Q)
        ensures gone { RingsGo (λ w p m q. Q.sends p (Worker w) (letter_of m) q) Q.same (λ p w. Q.letters_full p (Worker w)) (worker_count N.start) self.old.letters self.new.letters self.old.owners self.new.owners post.old post.new }
        ensures places { self.new.places ≡ self.old.places }
        ensures me { Q.me post.new ≡ Q.me post.old }
    {
        send_boxes(&mut self.boxes, self.workers, &mut self.owners, post);
    }
}
