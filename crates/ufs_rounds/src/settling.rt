// Files are called back, and rounds of turns go on until nothing is under way.
ghost use Rattle.std.specs.Prelude.{◌≡◌, ◌+◌, ◌-◌, ◌^◌, ◌||◌, ◌<◌, OnErr, OnOk, false, length, true};
ghost use Rattle.ufs_hand_laws.specs.Owned.{one};
ghost use Rattle.ufs_msg.specs.There.{worker_count};
ghost use Rattle.ufs_rounds.specs.Moves as moves;
ghost use Rattle.ufs_rounds.specs.Rest.{AreIdle, ClientsHad, HasCalled, HasSettled, IsAtRest, IsSomeAsking, NobodyAsked, WorkersHad, rounds_for};
ghost use Rattle.ufs_rounds.specs.Rounds.{MakesRound, MakesTurns};
ghost use Rattle.ufs_rounds.specs.Scripts.{scripts_of};
ghost use Rattle.ufs_rounds.specs.View.{global_of};

use crate::moves::{RoundEnd, first_of, is_called, order_lack, why};
use crate::participants::Participants;
use crate::rounds::Unfinished;
use ufs_base::Lack;
use ufs_caller::Client;
use ufs_joint::{HandTable, Naming};
use ufs_model::Actor;
use ufs_primary::{Ordered, Turns};

// Whether one of these has a request under way.
fn some_asks<N: Naming>(clients: &[Client<N>]) -> bool
    ensures yes { result ≡ true → IsSomeAsking clients.now }
    ensures no { result ≡ false → AreIdle clients.now }
{
    for client in clients {
        if client.is_asking() {
            return true;
        }
    }
    false
}

// How many files were found elsewhere, with this one.
fn count_called(called: u32, ordered: Ordered) -> u32
    requires { called < 2 ^ 32 - 1 }
    ensures { result ≡ called + one (moves.is_called ordered) }
{
    if is_called(ordered) {
        called + 1
    } else {
        called
    }
}

// Whether somebody did something in one of the last two rounds.
fn goes_on(before: bool, moved: bool) -> bool
    ensures { result ≡ (before || moved) }
{
    before || moved
}

// How many rounds there are at most until nothing is under way.
fn rounds_at_most(out: u32) -> u64
    ensures { result ≡ rounds_for out }
{
    512 + 96 * u64::from(out)
}

impl<N: Naming> Participants<N> {
    /// Whether a client has a request under way.
    pub fn is_asking(&self) -> bool
        ensures yes { result ≡ true → IsSomeAsking self.now.clients.items }
        ensures no { result ≡ false → AreIdle self.now.clients.items }
    {
        some_asks(&self.clients)
    }

    /// Whether no request is under way, and each file is at the primary.
    pub fn is_at_rest(&self) -> bool
        ensures yes { result ≡ true → IsAtRest self.now.clients.items self.now.primary }
        ensures no { result ≡ false → IsAtRest self.now.clients.items self.now.primary → ⊥ }
    {
        !self.is_asking() && self.primary.count_out() == 0
    }

    // Each worker gets a turn, in order.
    fn turns_of_workers<T: Turns<N>>(
        &mut self,
        table: &HandTable<N>,
        door: &mut T,
        round: &mut RoundEnd,
    )
        ensures turns { MakesTurns N.start (WorkersHad (worker_count N.start)) (global_of self.old (T.tells door.old)) (global_of self.new (T.tells door.new)) round.old round.new }
        ensures scripts { scripts_of self.new.clients.items ≡ scripts_of self.old.clients.items }
    {
        for place in 0..self.workers.len() {
            round.note(self.turn(table, door, Actor::Worker(place as u8 + 1)));
        }
    }

    // Each client that has a request under way gets a turn.
    fn turns_of_clients<T: Turns<N>>(
        &mut self,
        table: &HandTable<N>,
        door: &mut T,
        round: &mut RoundEnd,
    )
        ensures turns { MakesTurns N.start (ClientsHad (length self.new.clients.items) self.new.clients.items) (global_of self.old (T.tells door.old)) (global_of self.new (T.tells door.new)) round.old round.new }
        ensures scripts { scripts_of self.new.clients.items ≡ scripts_of self.old.clients.items }
    {
        for place in 0..self.clients.len() {
            if !self.clients[place].is_asking() {
                continue;
            }
            round.note(self.turn(table, door, Actor::Client(place as u8)));
        }
    }

    // One round: the workers, the primary, and the clients that have a request under way.
    fn round<T: Turns<N>>(&mut self, table: &HandTable<N>, door: &mut T) -> RoundEnd
        ensures round { MakesRound N.start (global_of self.old (T.tells door.old)) (global_of self.new (T.tells door.new)) result }
        ensures scripts { scripts_of self.new.clients.items ≡ scripts_of self.old.clients.items }
    {
        let mut round = RoundEnd::new();
        self.turns_of_workers(table, door, &mut round);
        round.note(self.turn(table, door, Actor::Primary));
        self.turns_of_clients(table, door, &mut round);
        round
    }

    // Each file that is out is called to the primary, by rising number. Files are numbered as they are made, so it takes the time of a look
    // at each up to the last of them.
    fn call_back<T: Turns<N>>(&mut self, table: &HandTable<N>, door: &mut T) -> Option<Lack>
        ensures called { HasCalled N.start (global_of self.old (T.tells door.old)) (global_of self.new (T.tells door.new)) result }
        ensures clients { self.new.clients.items ≡ self.old.clients.items }
    {
        let out = self.primary.count_out();
        let mut called = 0;
        let mut lack = None;
        for file in 0..u32::MAX {
            if called == out {
                return lack;
            }
            let ordered = self.primary.order(table, door, file, 0);
            lack = first_of(lack, order_lack(ordered));
            called = count_called(called, ordered);
        }
        lack
    }

    /// Calls each file that is out to the primary, and goes on by rounds until no request is under way and each file is there. No client
    /// asks a new request. Where in two rounds nobody did anything it says what lacked.
    pub fn settle<T: Turns<N>>(
        &mut self,
        table: &HandTable<N>,
        door: &mut T,
    ) -> Result<(), Unfinished>
        ensures rest { OnOk result (IsAtRest self.new.clients.items self.new.primary) }
        ensures under_way { OnErr result (IsAtRest self.new.clients.items self.new.primary → ⊥) }
        ensures asked { NobodyAsked self.old.clients.items self.new.clients.items }
        ensures settled { HasSettled N.start (global_of self.old (T.tells door.old)) (global_of self.new (T.tells door.new)) result }
        ensures scripts { scripts_of self.new.clients.items ≡ scripts_of self.old.clients.items }
    {
        let rounds = rounds_at_most(self.primary.count_out());
        let lack = self.call_back(table, door);
        let mut before = true;
        let mut last = RoundEnd {
            moved: true,
            lack: None,
        };
        for _made in 0..rounds {
            if self.is_at_rest() {
                return Ok(());
            }
            if !goes_on(before, last.moved) {
                return Err(why(first_of(lack, last.lack)));
            }
            before = last.moved;
            last = self.round(table, door);
        }
        if self.is_at_rest() {
            Ok(())
        } else {
            Err(Unfinished::Stuck)
        }
    }
}
