// The primary and its turn.
use crate::answering::serve_next;
use crate::letters::take_letter;
use crate::room::Room;
use crate::turn::PrimaryTurn;
use crate::waiting::Waiting;
use std::collections::VecDeque;
use std::marker::Model;
use ufs_at_primary::{Baton, HeldNames, Home, Ordered, Parcel, Stock, Turns, send_answers};
use ufs_bitmap::Pool;
use ufs_joint::{Hand, HandTable, Naming};
use ufs_layout::Geometry;
use ufs_msg::{Answer, Letter, ServerPost};

/// The primary of session `N`: what is at it, which it serves with; a file that came and found no room; answers that found no room in a
/// ring; and requests that wait.
#[derive(Drop)]
pub struct Primary<N: Naming> {
    stock: Stock<N>,
    coming: Option<Parcel<N>>,
    answers: VecDeque<Answer<N>>,
    waiting: VecDeque<Waiting<N>>,
}

impl<N: Naming> Model for Primary<N> {
    ghost use Rattle.std.specs.Prelude.{◌≤◌};
    ghost use Rattle.std.specs.VecDeque.{deque_capacity, deque_len};
    ghost use Rattle.ufs_msg.specs.There.{client_count};
    ghost use Rattle.ufs_primary.specs.Primary.{HasRoom, PrimaryState, primary_code, primary_of};
    ghost use Rattle.ufs_at_primary.specs.OfServing.{all_said};

    ghost Value = { PrimaryState };

    ghost coded = { primary_code };

    ghost view = { λ p. primary_of p.stock p.coming (all_said p.answers.items) p.waiting.items };

    ghost invariant = { λ p. HasRoom (client_count N.start) (deque_len p.answers) (deque_capacity p.answers) × HasRoom (client_count N.start) (deque_len p.waiting) (deque_capacity p.waiting) };
}

impl<N: Naming> Primary<N> {
    ghost use Rattle.std.specs.Prelude.{◌≡◌, ◌≢◌, ◌≤◌, [], None, is_some};
    ghost use Rattle.std.specs.FinSet as set;
    ghost use Rattle.ufs_at_primary.specs.OfHeld.{Raises};
    ghost use Rattle.ufs_joint.specs.FirstHand.{HasPoolAlone, pool_of};
    ghost use Rattle.ufs_at_primary.specs.OfHome.{letter_of};
    ghost use Rattle.ufs_layout.specs.Areas.{IsGeometry};
    ghost use Rattle.ufs_model.specs.declared.data.Actor.TheVariants.{Primary as primary, Worker};
    ghost use Rattle.ufs_msg.specs.There.{client_count, worker_count};
    ghost use Rattle.ufs_owner.specs.Owners.{count_out};
    ghost use Rattle.ufs_at_primary.specs.Orders.{IsFileOrdered, dropped_by};
    ghost use Rattle.ufs_at_primary.specs.Stock.{AreHere, HasNumbers, stock_of};
    ghost use Rattle.ufs_primary.specs.Primary.{primary_of};
    ghost use Rattle.ufs_primary.specs.Turns.{IsTurn};
    ghost use Rattle.ufs_primary.specs.declared.turn.PrimaryTurn.TheVariants as turn;
    ghost use Rattle.ufs_at_primary.specs.OfServing.{most_at_rest};
    ghost use Rattle.ufs_told.specs.Numbers.{most_raised};
    ghost use Rattle.ufs_at_primary.specs.OfTurns.{AreTold, Runs, StopsByFault};

    /// A primary that keeps nothing, with the hand of its pool's cell. So few files were made before the session that each one made in it
    /// has a number.
    pub fn make(
        room: Room<N>,
        geometry: Geometry,
        names: HeldNames<N>,
        home: Home<N>,
        pool: Pool,
        right: Hand<N>,
    ) -> Primary<N>
        requires formed { IsGeometry geometry }
        requires its { geometry ≡ N.start.geometry }
        requires numbers { HasNumbers N.start }
        requires hand { HasPoolAlone (pool_of 0) pool right }
        requires few { set.len pool ≤ most_at_rest }
        requires here { AreHere names home }
        ensures { result ≡ primary_of (stock_of names home pool) None [] [] }
    {
        let (answers, waiting) = room.into_queues();
        Primary {
            stock: Stock::new(geometry, names, home, pool, right),
            coming: None,
            answers,
            waiting,
        }
    }

    /// The names, the files that are at it, its pool and that one's hand, for who closes the session. What it keeps is dropped.
    pub fn into_parts(self) -> (HeldNames<N>, Home<N>, Pool, Hand<N>)
        ensures parts { stock_of result.0 result.1 result.2 ≡ self.stock }
        ensures hand { HasPoolAlone (pool_of 0) result.2 result.3 }
        ensures few { set.len result.2 ≤ most_at_rest }
        ensures here { AreHere result.0 result.1 }
    {
        self.stock.into_parts()
    }

    /// How many files aren't at the primary.
    pub fn count_out(&self) -> u32
        ensures { result ≡ count_out self.now.stock.home.owners }
    {
        self.stock.count_out()
    }

    /// One turn. First what is kept goes, as far as rings have room: the letters in order, then the answers. Then the front letter is
    /// done: a file that was coming is here, or goes on; else the oldest request that waits and whose files have come, or else the front
    /// one: it is served with what is here, or sent on to the worker that has its file, or waits for that, or is excused.
    pub fn poll<Q: ServerPost<N, Letter<Parcel<N>>>, T: Turns<N>>(
        &mut self,
        table: &HandTable<N>,
        baton: &mut Baton<N>,
        post: &mut Q,
        door: &mut T,
    ) -> PrimaryTurn
        requires mine { Q.me post.old ≡ primary }
        ensures mine { Q.me post.new ≡ Q.me post.old }
        ensures turn { IsTurn (λ w p m q. Q.sends p (Worker w) (letter_of m) q) (λ p w. Q.letters_full p (Worker w)) Q.answers Q.answers_full Q.same (worker_count N.start) (client_count N.start) Q.gets_letter Q.letters_empty Q.gets_ask Q.asks_empty
            N.start.is_visible (T.tells door.old) (T.tells door.new) baton.old baton.new self.old self.new post.old post.new result }
        // no other turn comes to the store
        ensures store { result ≢ turn.Served → T.tells door.new ≡ T.tells door.old }
        // no other turn draws an entry
        ensures seen { result ≢ turn.Served → baton.new ≡ baton.old }
        ensures telling { is_some (T.tells door.new) ≡ is_some (T.tells door.old) }
        // everything may be committed, a checkpoint made, and the names be committed before and behind
        ensures raised { Raises (T.tells door.old) (T.tells door.new) (most_raised N.start.geometry) }
    {
        self.stock.send_letters(post);
        send_answers(&mut self.answers, post);
        if let Some(turn) = take_letter(&mut self.stock, &mut self.coming, post) {
            return turn;
        }
        serve_next(
            table,
            baton,
            &mut self.stock,
            &mut self.answers,
            &mut self.waiting,
            post,
            door,
        )
    }

    /// The file is to go to this worker, or to the primary for 0. Where it goes from here, and its birth isn't known as committed, the
    /// names are committed first; where that is refused nothing is done. One that is called to the primary has no turn of the store.
    pub fn order<T: Turns<N>>(
        &mut self,
        table: &HandTable<N>,
        door: &mut T,
        file: u32,
        to: u8,
    ) -> Ordered
        requires { to ≤ worker_count N.start }
        ensures ordered { IsFileOrdered N.start.is_visible self.old.stock self.new.stock file to result }
        ensures rest { self.new ≡ record self.old { stock = self.new.stock } }
        ensures free { AreTold (T.tells door.old) (T.tells door.new) (λ had has. has ≡ had) }
        ensures telling { is_some (T.tells door.new) ≡ is_some (T.tells door.old) }
        ensures halts { StopsByFault (T.tells door.old) (T.tells door.new) (dropped_by result) }
        ensures ran { Runs (T.tells door.old) (T.tells door.new) (dropped_by result) 1 1 }
        ensures called { to ≡ 0 → T.tells door.new ≡ T.tells door.old }
    {
        self.stock.order(table, door, file, to)
    }
}
