// What one turn hands on to the next: how many tickets were seen.
use std::marker::Model;
use ufs_joint::{Hand, HandTable, Naming};
use ufs_model::PartName;
use ufs_msg::{Answer, Request, Served};

/// A hand without a cell. Whoever has a turn has it. Contracts see how many tickets it has seen.
#[derive(Drop)]
pub struct Baton<N: Naming> {
    hand: Hand<N>,
}

impl<N: Naming> Model for Baton<N> {
    ghost use Rattle.std.specs.Coded.{coded_ℕ};
    ghost use Rattle.std.specs.Prelude.{ℕ};
    ghost use Rattle.ufs_baton.specs.Baton.{HasNothing};

    ghost Value = { ℕ };

    ghost coded = { coded_ℕ };

    ghost view = { λ b. b.hand.seen };

    ghost invariant = { λ b. HasNothing b.hand };
}

impl<N: Naming> Baton<N> {
    ghost use Rattle.std.specs.Prelude.{◌≡◌, ◌≤◌, []};
    ghost use Rattle.ufs_baton.specs.Baton.{IsToldOf};
    ghost use Rattle.ufs_msg.specs.Answers.{Told};
    ghost use Rattle.ufs_msg.specs.declared.answer.Answer.TheVariants as says;

    /// Out of a hand without the store's cell, which stays as it is.
    pub fn of(table: &HandTable<N>, hand: &mut Hand<N>) -> Baton<N>
        requires { hand.old.store ≡ [] }
        ensures seen { result ≡ hand.old.seen }
        ensures same { hand.new ≡ hand.old }
    {
        Baton {
            hand: hand.split(table, PartName::Store),
        }
    }

    /// The hand has seen what the baton has.
    pub fn tell(&mut self, table: &HandTable<N>, hand: &mut Hand<N>)
        ensures same { self.new ≡ self.old }
        ensures told { IsToldOf self.old hand.old hand.new }
    {
        let none = self.hand.split(table, PartName::Store);
        hand.join(table, none);
    }

    /// The baton has seen what the hand has.
    pub fn see(&mut self, table: &HandTable<N>, hand: &mut Hand<N>)
        requires { hand.old.store ≡ [] }
        ensures seen { hand.old.seen ≤ self.new }
        ensures more { self.old ≤ self.new }
        ensures same { hand.new ≡ hand.old }
    {
        let none = hand.split(table, PartName::Store);
        self.hand.join(table, none);
    }

    /// The request's hand has seen what the baton has: an entry that it draws gets no lower ticket.
    pub fn lend(&mut self, table: &HandTable<N>, request: Request<N>) -> Request<N>
        ensures same { self.new ≡ self.old }
        ensures ask { result.ask ≡ request.ask }
        ensures leases_back { result.leases_back ≡ request.leases_back }
        ensures hand { IsToldOf self.old request.hand result.hand }
    {
        let (mut hand, ask, leases_back) = request.into_parts();
        self.tell(table, &mut hand);
        Request::new(hand, ask, leases_back)
    }

    /// The baton has seen what the answer's hand has, so its entry too.
    pub fn follow(&mut self, table: &HandTable<N>, answer: Answer<N>) -> Answer<N>
        ensures same { result ≡ answer }
        ensures seen { (told : Told) → answer ≡ says.Served told → told.hand.seen ≤ self.new }
        ensures more { self.old ≤ self.new }
    {
        match answer {
            Answer::Served(served) => Answer::Served(self.follow_served(table, served)),
            Answer::Redirect(redirected) => Answer::Redirect(redirected),
        }
    }

    fn follow_served(&mut self, table: &HandTable<N>, served: Served<N>) -> Served<N>
        ensures same { result ≡ served }
        ensures seen { served.hand.seen ≤ self.new }
        ensures more { self.old ≤ self.new }
    {
        let (mut hand, entry, desc, owner, lease) = served.into_parts();
        self.see(table, &mut hand);
        Served::new(hand, entry, desc, owner, lease)
    }
}
