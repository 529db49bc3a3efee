// A worker and its turn.

use crate::answers::redirect;
use crate::shelf::Shelf;
use crate::turn::WorkerTurn;
use std::alloc::Global;
use std::collections::VecDeque;
use std::marker::Model;
use ufs_base::Memory;
use ufs_baton::Baton;
use ufs_bitmap::Pool;
use ufs_held::Parcel;
use ufs_joint::{Hand, HandTable, Naming};
use ufs_msg::{Answer, Letter, ServerPost};
use ufs_serving::{file_asked, send_answers};
use ufs_turns::Turns;

/// Worker `number` of session `N`: the files that it holds, each with the right to its cell, its pool with its own, and what found no
/// room in a ring yet.
#[derive(Drop)]
pub struct Worker<N: Naming> {
    number: u8,
    shelf: Shelf<N>,
    coming: Option<Parcel<N>>,
    pool: Pool,
    right: Hand<N>,
    answers: VecDeque<Answer<N>>,
}

impl<N: Naming> Model for Worker<N> {
    ghost use Rattle.std.specs.Prelude.{◌≤◌};
    ghost use Rattle.std.specs.VecDeque.{deque_capacity, deque_len};
    ghost use Rattle.ufs_serving.specs.Posts.{all_said};
    ghost use Rattle.ufs_worker.specs.Worker.{IsWorker, WorkerState, worker_code, worker_of};

    ghost Value = { WorkerState };

    ghost coded = { worker_code };

    ghost view = { λ w. worker_of w.number w.shelf w.coming w.pool (all_said w.answers.items) };

    ghost invariant = { λ w. IsWorker N.start w.number w.pool w.right × (deque_len w.answers ≤ deque_capacity w.answers) };
}

impl<N: Naming> Worker<N> {
    ghost use Rattle.std.specs.Prelude.{◌≡◌, ◌≢◌, ◌≤◌, [], None, is_some};
    ghost use Rattle.std.specs.FinMap as fin;
    ghost use Rattle.std.specs.FinSet as set;
    ghost use Rattle.ufs_model.specs.declared.data.Actor.TheVariants.{Primary, Worker as worker};
    ghost use Rattle.ufs_msg.specs.There.{IsServerThere};
    ghost use Rattle.ufs_msg.specs.declared.letter.Letter.TheVariants as letter;
    ghost use Rattle.ufs_bitmap.specs.Blocks.{BlockSet};
    ghost use Rattle.ufs_joint.specs.FirstHand.{HasPoolAlone, pool_of};
    ghost use Rattle.ufs_serving.specs.Pools.{most_at_rest};
    ghost use Rattle.ufs_worker.specs.Turns.{IsAskDone, IsFrontDone, IsLetterDone, IsNextDone, IsObeyed, IsTaken, IsTurn, KeptGoes};
    ghost use Rattle.ufs_worker.specs.declared.turn.WorkerTurn.TheVariants as turn;

    /// A worker without a file, with the hand of its pool's cell. Takes no memory.
    pub fn new(alloc: Global, number: u8, pool: Pool, right: Hand<N>) -> Worker<N>
        requires there { IsServerThere N.start (worker number) }
        requires hand { HasPoolAlone (pool_of number) pool right }
        requires few { set.len pool ≤ most_at_rest }
        ensures { result ≡ record { number = number; files = fin.empty; letters = []; coming = None; pool = pool; answers = [] } }
    {
        Worker {
            number,
            shelf: Shelf::new(alloc),
            coming: None,
            pool,
            right,
            answers: VecDeque::new(alloc),
        }
    }

    /// The pool with its hand, once nothing is left.
    pub fn into_pool(self) -> (Pool, Hand<N>)
        requires files { self.files ≡ fin.empty }
        requires letters { self.letters ≡ [] }
        requires coming { self.coming ≡ None }
        requires answers { self.answers ≡ [] }
        ensures pool { result.0 ≡ self.pool }
        ensures hand { HasPoolAlone (pool_of self.number) result.0 result.1 }
        ensures few { set.len result.0 ≤ most_at_rest }
    {
        (self.pool, self.right)
    }

    /// The hand of its pool, whatever else it has. A session ends by it.
    pub fn into_hand(self) -> Hand<N>
        ensures { (pool : BlockSet) × HasPoolAlone (pool_of self.number) pool result }
    {
        self.right
    }

    /// One turn. First what is kept goes, as far as rings have room: the letters in order, then the answers. Then the front letter is
    /// done: a file is taken in, or goes back to the primary; else the front request: on a file that is held it is served, on another
    /// it is redirected to the primary.
    pub fn poll<Q: ServerPost<N, Letter<Parcel<N>>>, T: Turns<N>>(
        &mut self,
        table: &HandTable<N>,
        baton: &mut Baton<N>,
        post: &mut Q,
        door: &mut T,
    ) -> WorkerTurn
        requires mine { Q.me post.old ≡ worker self.old.number }
        ensures mine { Q.me post.new ≡ Q.me post.old }
        ensures number { self.new.number ≡ self.old.number }
        ensures turn { IsTurn (λ p c q. Q.sends p Primary (letter.Parcel c) q) (λ p c. Q.letters_full p Primary) Q.answers Q.answers_full Q.same Q.gets_letter Q.letters_empty Q.gets_ask Q.asks_empty
            N.start.is_visible (T.tells door.old) (T.tells door.new) baton.old baton.new self.old self.new post.old post.new result }
        // no other turn comes to the store
        ensures store { result ≢ turn.Served → T.tells door.new ≡ T.tells door.old }
        // no other turn draws an entry
        ensures seen { result ≢ turn.Served → baton.new ≡ baton.old }
        ensures telling { is_some (T.tells door.new) ≡ is_some (T.tells door.old) }
    {
        self.send_kept(post);
        match self.take_letter(post) {
            Some(turn) => turn,
            None => self.serve_front(table, baton, post, door),
        }
    }

    // What is kept goes.
    fn send_kept<Q: ServerPost<N, Letter<Parcel<N>>>>(&mut self, post: &mut Q)
        ensures kept { KeptGoes (λ p c q. Q.sends p Primary (letter.Parcel c) q) (λ p c. Q.letters_full p Primary) Q.answers Q.answers_full Q.same self.old self.new post.old post.new }
        ensures mine { Q.me post.new ≡ Q.me post.old }
        ensures number { self.new.number ≡ self.old.number }
    {
        self.shelf.send_letters(post);
        send_answers(&mut self.answers, post);
    }

    // The front letter is done, if there is one.
    fn take_letter<Q: ServerPost<N, Letter<Parcel<N>>>>(
        &mut self,
        post: &mut Q,
    ) -> Option<WorkerTurn>
        ensures letter { IsFrontDone (λ p c q. Q.sends p Primary (letter.Parcel c) q) Q.same (λ p c. Q.letters_full p Primary) Q.gets_letter Q.letters_empty self.old.coming self.old self.new post.old post.new result }
        ensures mine { Q.me post.new ≡ Q.me post.old }
        ensures number { self.new.number ≡ self.old.number }
    {
        match self.coming.take() {
            Some(parcel) => self.take_in(parcel),
            None => self.take_next(post),
        }
    }

    // The front letter of the ring is done, if there is one.
    fn take_next<Q: ServerPost<N, Letter<Parcel<N>>>>(&mut self, post: &mut Q) -> Option<WorkerTurn>
        requires none { self.old.coming ≡ None }
        ensures next { IsNextDone (λ p c q. Q.sends p Primary (letter.Parcel c) q) Q.same (λ p c. Q.letters_full p Primary) Q.gets_letter Q.letters_empty self.old self.new post.old post.new result }
        ensures mine { Q.me post.new ≡ Q.me post.old }
        ensures number { self.new.number ≡ self.old.number }
    {
        let came = post.take_letter()?;
        self.read_letter(post, came)
    }

    // What the letter is for is done. A report isn't for a worker.
    fn read_letter<Q: ServerPost<N, Letter<Parcel<N>>>>(
        &mut self,
        post: &mut Q,
        came: Letter<Parcel<N>>,
    ) -> Option<WorkerTurn>
        requires none { self.old.coming ≡ None }
        ensures done { IsLetterDone (λ p c q. Q.sends p Primary (letter.Parcel c) q) Q.same (λ p c. Q.letters_full p Primary) self.old self.new came post.old post.new result }
        ensures mine { Q.me post.new ≡ Q.me post.old }
        ensures number { self.new.number ≡ self.old.number }
    {
        match came {
            Letter::Parcel(parcel) => self.take_in(parcel),
            Letter::Recall { file } => self.obey(post, file),
            Letter::Report { .. } => None,
        }
    }

    // A file comes. It waits while one of its number is held, which never is: no two hands have one cell.
    fn take_in(&mut self, parcel: Parcel<N>) -> Option<WorkerTurn>
        requires { self.old.coming ≡ None }
        ensures taken { IsTaken self.old self.new parcel result }
        ensures number { self.new.number ≡ self.old.number }
    {
        if self.shelf.has(parcel.number()) {
            self.coming = Some(parcel);
            return None;
        }
        match self.shelf.take_in(parcel) {
            Ok(()) => Some(WorkerTurn::Took),
            Err((memory, parcel)) => {
                self.coming = Some(parcel);
                Some(WorkerTurn::Memory(memory))
            }
        }
    }

    // The primary wants a file back.
    fn obey<Q: ServerPost<N, Letter<Parcel<N>>>>(
        &mut self,
        post: &mut Q,
        file: u32,
    ) -> Option<WorkerTurn>
        ensures obeyed { IsObeyed (λ p c q. Q.sends p Primary (letter.Parcel c) q) Q.same (λ p c. Q.letters_full p Primary) (fin.get self.old.files file) self.old self.new file post.old post.new result }
        ensures mine { Q.me post.new ≡ Q.me post.old }
        ensures number { self.new.number ≡ self.old.number }
    {
        if !self.shelf.has(file) {
            return None;
        }
        self.shelf.let_go(file);
        self.shelf.send_letters(post);
        Some(WorkerTurn::Gave)
    }

    // The front request is done, if there is one. Room for its answer is taken first.
    fn serve_front<Q: ServerPost<N, Letter<Parcel<N>>>, T: Turns<N>>(
        &mut self,
        table: &HandTable<N>,
        baton: &mut Baton<N>,
        post: &mut Q,
        door: &mut T,
    ) -> WorkerTurn
        requires mine { Q.me post.old ≡ worker self.old.number }
        ensures mine { Q.me post.new ≡ Q.me post.old }
        ensures number { self.new.number ≡ self.old.number }
        ensures done { IsAskDone Q.answers Q.same Q.answers_full Q.gets_ask Q.asks_empty N.start.is_visible (T.tells door.old) (T.tells door.new) baton.old baton.new self.old self.new post.old post.new result }
        ensures store { result ≢ turn.Served → T.tells door.new ≡ T.tells door.old }
        ensures seen { result ≢ turn.Served → baton.new ≡ baton.old }
        ensures telling { is_some (T.tells door.new) ≡ is_some (T.tells door.old) }
    {
        if let Err(refused) = self.answers.reserve(1) {
            return WorkerTurn::Memory(Memory::from(refused));
        }
        let Some(request) = post.take_ask() else {
            return WorkerTurn::Idle;
        };
        let (request, file) = file_asked(request);
        if self.shelf.has(file) {
            let request = baton.lend(table, request);
            let answer = self.shelf.serve(
                table,
                request,
                file,
                self.number,
                &mut self.pool,
                &mut self.right,
                door,
            );
            let answer = baton.follow(table, answer);
            self.answers.push_back_reserved(answer);
            send_answers(&mut self.answers, post);
            return WorkerTurn::Served;
        }
        self.answers.push_back_reserved(redirect(request));
        send_answers(&mut self.answers, post);
        WorkerTurn::Redirected { file }
    }
}
