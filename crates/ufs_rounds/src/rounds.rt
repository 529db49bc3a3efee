// A session is played: by a schedule, and then until each client has asked all that it was given.
ghost use Rattle.std.specs.List.{AllByRecursion};
ghost use Rattle.std.specs.Prelude.{ℕ, ◌≡◌, ◌<◌, OnErr, OnOk, true, false};
ghost use Rattle.ufs_gathered.specs.Ended.{AnswerAll, AnswerFirst};
ghost use Rattle.ufs_model.specs.declared.data.Actor.TheVariants as actor;
ghost use Rattle.ufs_rounds.specs.Numbers.{IsThere};
ghost use Rattle.ufs_rounds.specs.Rest.{AreOver, GoesOn, HaveTurns, IsAtRest, IsOverAt, IsPlayed, StaysBut};
ghost use Rattle.ufs_rounds.specs.Scripts.{lists_of, scripts_of};
ghost use Rattle.ufs_rounds.specs.View.{global_of};

use crate::moves::says_done;
use crate::participants::Participants;
use ufs_base::Lack;
use ufs_joint::{HandTable, Naming};
use ufs_model::Actor;
use ufs_primary::Turns;

/// Why rounds came to no rest.
#[derive(Clone, Copy, Debug, PartialEq, Eq)]
pub enum Unfinished {
    /// In two rounds nobody did anything, and this was lacking.
    Lack(Lack),
    /// In two rounds nobody did anything, and nothing was lacking; or more was done than there are steps to do. That it never comes is
    /// proved only where the primary serves alone.
    Stuck,
}

impl<N: Naming> Participants<N> {
    // The client asks what it has left, and each request is answered before the next one.
    fn serve_client<T: Turns<N>>(
        &mut self,
        table: &HandTable<N>,
        door: &mut T,
        client: u8,
    ) -> Result<(), Unfinished>
        requires there { IsThere N.start (actor.Client client) }
        requires rest { IsAtRest self.old.clients.items self.old.primary }
        requires before { (place : ℕ) → place < client → IsOverAt place self.old.clients.items }
        ensures rest { OnOk result (IsAtRest self.new.clients.items self.new.primary) }
        ensures under_way { OnErr result (IsAtRest self.new.clients.items self.new.primary → ⊥) }
        ensures over { OnOk result (IsOverAt client self.new.clients.items) }
        ensures others { StaysBut client self.old.clients.items self.new.clients.items }
        ensures goes { GoesOn N.start (global_of self.old (T.tells door.old)) (global_of self.new (T.tells door.new)) result }
        ensures scripts { scripts_of self.new.clients.items ≡ scripts_of self.old.clients.items }
    {
        loop {
            if says_done(self.turn(table, door, Actor::Client(client))) {
                return Ok(());
            }
            self.settle(table, door)?;
        }
    }

    // Each client in order asks what it has left.
    fn serve_left<T: Turns<N>>(
        &mut self,
        table: &HandTable<N>,
        door: &mut T,
    ) -> Result<(), Unfinished>
        requires rest { IsAtRest self.old.clients.items self.old.primary }
        ensures rest { OnOk result (IsAtRest self.new.clients.items self.new.primary) }
        ensures under_way { OnErr result (IsAtRest self.new.clients.items self.new.primary → ⊥) }
        ensures over { OnOk result (AreOver self.new.clients.items) }
        ensures goes { GoesOn N.start (global_of self.old (T.tells door.old)) (global_of self.new (T.tells door.new)) result }
        ensures scripts { scripts_of self.new.clients.items ≡ scripts_of self.old.clients.items }
    {
        for place in 0..self.clients.len() {
            self.serve_client(table, door, place as u8)?;
        }
        Ok(())
    }

    // Each actor of the schedule has a turn, in order.
    fn turns_of<T: Turns<N>>(&mut self, table: &HandTable<N>, door: &mut T, schedule: &[Actor])
        requires there { AllByRecursion (IsThere N.start) schedule.now }
        ensures turns { HaveTurns N.start schedule.now (global_of self.old (T.tells door.old)) (global_of self.new (T.tells door.new)) }
        ensures scripts { scripts_of self.new.clients.items ≡ scripts_of self.old.clients.items }
    {
        for who in schedule {
            self.turn(table, door, *who);
        }
    }

    /// Gives turns by the schedule, one a word. Then files that are out are called back and rounds go on until nothing is under way, and
    /// each client in order asks what it has left, each request once the one before it is answered.
    pub fn play<T: Turns<N>>(
        &mut self,
        table: &HandTable<N>,
        door: &mut T,
        schedule: &[Actor],
    ) -> Result<(), Unfinished>
        requires there { AllByRecursion (IsThere N.start) schedule.now }
        ensures rest { OnOk result (IsAtRest self.new.clients.items self.new.primary) }
        ensures over { OnOk result (AreOver self.new.clients.items) }
        ensures under_way { OnErr result (IsAtRest self.new.clients.items self.new.primary → ⊥) }
        ensures played { IsPlayed N.start schedule.now (global_of self.old (T.tells door.old)) (global_of self.new (T.tells door.new)) result }
        ensures scripts { scripts_of self.new.clients.items ≡ scripts_of self.old.clients.items }
        ensures first { AnswerFirst (scripts_of self.old.clients.items) (lists_of self.new.clients.items) }
        ensures all { OnOk result (AnswerAll (scripts_of self.old.clients.items) (lists_of self.new.clients.items)) }
    {
        self.turns_of(table, door, schedule);
        self.settle(table, door)?;
        self.serve_left(table, door)
    }
}
