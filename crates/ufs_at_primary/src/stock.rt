// What the primary serves with.
use crate::excusing::excuse;
use crate::ordered::Ordered;
use crate::ordering::order_file;
use std::marker::Model;
use ufs_base::{Lack, Memory};
use ufs_bitmap::Pool;
use ufs_held::Parcel;
use ufs_held_names::HeldNames;
use ufs_home::Home;
use ufs_joint::{Hand, HandTable, Naming};
use ufs_layout::Geometry;
use ufs_msg::{Answer, Letter, Request, ServerPost};
use ufs_owner::Owner;
use ufs_turns::Turns;

/// The names, the files and the pool of the primary of session `N`, each with its hand, and the session's form.
#[derive(Drop)]
pub struct Stock<N: Naming> {
    pub(crate) geometry: Geometry,
    pub(crate) names: HeldNames<N>,
    pub(crate) home: Home<N>,
    pub(crate) pool: Pool,
    pub(crate) right: Hand<N>,
}

impl<N: Naming> Model for Stock<N> {
    ghost use Rattle.ufs_at_primary.specs.Stock.{AreHeld, StockState, stock_code, stock_of};

    ghost Value = { StockState };

    ghost coded = { stock_code };

    ghost view = { λ h. stock_of h.names h.home h.pool };

    ghost invariant = { λ h. AreHeld N.start h.geometry h.names h.home h.pool h.right };
}

impl<N: Naming> Stock<N> {
    ghost use Rattle.std.specs.Prelude.{◌≡◌, ◌≤◌, ◌⊎◌, IfErr, IfOk, IfSome, IsSome, None, OnErr, OnOk, false, is_some, true};
    ghost use Rattle.std.specs.FinSet as set;
    ghost use Rattle.ufs_baton.specs.Baton.{IsToldSince};
    ghost use Rattle.ufs_joint.specs.FirstHand.{HasPoolAlone, pool_of};
    ghost use Rattle.ufs_home.specs.Home.{called_for, come_on, onward};
    ghost use Rattle.ufs_home.specs.Letters.{RingsGo, letter_of};
    ghost use Rattle.ufs_home.specs.Places.{file_here};
    ghost use Rattle.ufs_layout.specs.Areas.{IsGeometry};
    ghost use Rattle.ufs_model.specs.declared.data.Actor.TheVariants.{Worker};
    ghost use Rattle.ufs_msg.specs.Answers.{Told};
    ghost use Rattle.ufs_msg.specs.There.{worker_count};
    ghost use Rattle.ufs_msg.specs.declared.answer.Answer.TheVariants as answer;
    ghost use Rattle.ufs_owner.specs.Lacks.{IsLackOut};
    ghost use Rattle.ufs_owner.specs.Owners.{count_out, is_coming, is_primary, owner_at};
    ghost use Rattle.ufs_at_primary.specs.Excused.{IsExcusedHere, IsOpened};
    ghost use Rattle.ufs_at_primary.specs.Noted.{IsUnnoted, unwaited, waited_for};
    ghost use Rattle.ufs_at_primary.specs.Orders.{IsFileOrdered, dropped_by};
    ghost use Rattle.ufs_at_primary.specs.Stock.{AreHere, HasNumbers, stock_of};
    ghost use Rattle.ufs_serving.specs.Pools.{most_at_rest};
    ghost use Rattle.ufs_turns.specs.Lent.{AreTold, Runs, StopsByFault};

    /// What is at the primary, with the hand of its pool's cell. Takes no memory.
    pub fn new(
        geometry: Geometry,
        names: HeldNames<N>,
        home: Home<N>,
        pool: Pool,
        right: Hand<N>,
    ) -> Stock<N>
        requires formed { IsGeometry geometry }
        requires its { geometry ≡ N.start.geometry }
        requires numbers { HasNumbers N.start }
        requires hand { HasPoolAlone (pool_of 0) pool right }
        requires few { set.len pool ≤ most_at_rest }
        requires here { AreHere names home }
        ensures { result ≡ stock_of names home pool }
    {
        Stock {
            geometry,
            names,
            home,
            pool,
            right,
        }
    }

    /// The names, the files that are here, the pool and that one's hand, for who closes the session.
    pub fn into_parts(self) -> (HeldNames<N>, Home<N>, Pool, Hand<N>)
        ensures parts { stock_of result.0 result.1 result.2 ≡ self }
        ensures hand { HasPoolAlone (pool_of 0) result.2 result.3 }
        ensures few { set.len result.2 ≤ most_at_rest }
        ensures here { AreHere result.0 result.1 }
    {
        (self.names, self.home, self.pool, self.right)
    }

    /// How many files aren't at the primary.
    pub fn count_out(&self) -> u32
        ensures { result ≡ count_out self.now.home.owners }
    {
        self.home.count_out()
    }

    /// Whether the file is at the primary.
    pub fn has_come(&self, file: u32) -> bool
        ensures { result ≡ is_primary (owner_at self.now.home.owners file) }
    {
        match self.home.owner_of(file) {
            Owner::Primary => true,
            _ => false,
        }
    }

    /// Excuses the request for want of memory, or, where it asks for a commit, since the store has stopped.
    pub fn excuse<T: Turns<N>>(
        &mut self,
        table: &HandTable<N>,
        request: Request<N>,
        memory: Memory,
        door: &mut T,
    ) -> Answer<N>
        requires opened { IsOpened request.ask }
        ensures excused { (told : Told) × (result ≡ answer.Served told) × IsExcusedHere (T.tells door.old) (T.tells door.new) self.old.home.owners request.ask told }
        ensures rest { self.new ≡ self.old }
        ensures drawn { IsToldSince request.hand.seen result }
        ensures telling { is_some (T.tells door.new) ≡ is_some (T.tells door.old) }
    {
        excuse(table, &self.home, request, memory, &mut self.right, door)
    }

    /// Letters to workers that are kept go, as far as there is room.
    pub fn send_letters<Q: ServerPost<N, Letter<Parcel<N>>>>(&mut self, post: &mut Q)
        ensures gone { RingsGo (λ w p m q. Q.sends p (Worker w) (letter_of m) q) Q.same (λ p w. Q.letters_full p (Worker w)) (worker_count N.start) self.old.home.letters self.new.home.letters self.old.home.owners self.new.home.owners post.old post.new }
        ensures rest { self.new ≡ record self.old { home = record self.old.home { owners = self.new.home.owners; letters = self.new.home.letters } } }
        ensures me { Q.me post.new ≡ Q.me post.old }
    {
        self.home.send_letters(post);
    }

    /// A file that was coming is here; where a worker is noted, and nobody waits for it, it goes on. Answers that worker, or 0. It comes
    /// back where it wasn't coming, or its number is here, or with what is lacking, where there is no room for it: all is as it was then.
    pub fn come(&mut self, parcel: Parcel<N>) -> Result<u8, (Option<Lack>, Parcel<N>)>
        ensures ok { IfOk result (λ to. self.new.home ≡ come_on self.old.home parcel to) }
        ensures to { IfOk result (λ to. to ≡ onward self.old.home.owners parcel.value.file.file) }
        ensures coming { OnOk result (is_coming (owner_at self.old.home.owners parcel.value.file.file) ≡ true) }
        ensures back { IfErr result (λ x. x.1 ≡ parcel) }
        ensures refused { IfErr result (λ x. x.0 ≡ None → (is_coming (owner_at self.old.home.owners parcel.value.file.file) ≡ false) ⊎ IsSome (file_here self.old.home.places parcel.value.file.file)) }
        ensures lack { IfErr result (λ x. IfSome x.0 (IsLackOut self.old.home.owners)) }
        ensures wanting { IfErr result (λ x. IsSome x.0 → is_coming (owner_at self.old.home.owners parcel.value.file.file) ≡ true) }
        ensures err { OnErr result (self.new.home ≡ self.old.home) }
        ensures rest { self.new ≡ record self.old { home = self.new.home } }
    {
        self.home.come(parcel)
    }

    /// The file is asked for, where it is elsewhere, and the client waits for it, behind those that do already.
    pub fn await_file(&mut self, file: u32, client: u8) -> Result<(), Memory>
        ensures ok { OnOk result (self.new.home ≡ waited_for (called_for self.old.home file) file client) }
        ensures err { OnErr result (IsUnnoted self.old.home self.new.home file) }
        ensures rest { self.new ≡ record self.old { home = self.new.home } }
    {
        self.home.call_for(file)?;
        self.home.wait(file, client)
    }

    /// The client waits for the file no more, if it did.
    pub fn unwait(&mut self, file: u32, client: u8)
        ensures { self.new ≡ record self.old { home = unwaited self.old.home file client } }
    {
        self.home.unwait(file, client);
    }

    /// The file is to go to this worker, or to the primary for 0. Where it goes from here, and its birth isn't known as committed, the
    /// names are committed first; where that is refused nothing is done. One that is called to the primary has no turn of the store.
    pub fn order<T: Turns<N>>(
        &mut self,
        table: &HandTable<N>,
        door: &mut T,
        file: u32,
        to: u8,
    ) -> Ordered
        requires { to ≤ worker_count N.start }
        ensures ordered { IsFileOrdered N.start.is_visible self.old self.new file to result }
        ensures free { AreTold (T.tells door.old) (T.tells door.new) (λ had has. has ≡ had) }
        ensures telling { is_some (T.tells door.new) ≡ is_some (T.tells door.old) }
        ensures halts { StopsByFault (T.tells door.old) (T.tells door.new) (dropped_by result) }
        ensures ran { Runs (T.tells door.old) (T.tells door.new) (dropped_by result) 1 1 }
        ensures called { to ≡ 0 → T.tells door.new ≡ T.tells door.old }
    {
        order_file(
            table,
            &mut self.names,
            &self.geometry,
            &mut self.home,
            file,
            to,
            &mut self.right,
            door,
        )
    }
}
