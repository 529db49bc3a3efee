// How an actor reaches the others.
ghost use Rattle.std.specs.Prelude.{◌≡◌, IfNone, IfSome, IsSome, MatchOption, MatchResult};
ghost use Rattle.ufs_model.specs.declared.data.Actor.{Actor};
ghost use Rattle.ufs_msg.specs.Addressed.{IsAnswerTo};
ghost use Rattle.ufs_msg.specs.There.{IsClientThere, IsServerThere, MayServe};

use crate::{Answer, Request};
use ufs_joint::Naming;
use ufs_model::Actor;

/// A client's way to the servers of session `N`. No call takes memory.
pub trait ClientPost<N: Naming> {
    ghost use Rattle.std.specs.Prelude.{ℕ};
    ghost use Rattle.ufs_model.specs.declared.data.Actor.{Actor};
    ghost use Rattle.ufs_msg.specs.Requests.{Asked};
    ghost use Rattle.ufs_msg.specs.declared.answer.Answer.{Answer};

    /// Whose it is.
    ghost me: { Self → ℕ };

    /// The request went to the ring of this server, which has room for 16, behind all others; nothing else came or went.
    ghost asks: { Self → Actor → Asked → Self → Type 0 };

    /// The answer stood in this client's ring, which has room for one, and is gone; nothing else came or went.
    ghost gets: { Self → Answer N → Self → Type 0 };

    /// Nothing came and nothing went.
    ghost same: { Self → Self → Type 0 };

    /// Where a request to this server may come back.
    ghost was_full: { Self → Actor → Type 0 };

    /// Where there may be no answer.
    ghost was_empty: { Self → Type 0 };

    /// Sends the request that is there. It stays only where that ring was full at a moment of the call.
    fn ask(&mut self, to: Actor, request: &mut Option<Request<N>>)
        requires there { IsServerThere N.start to }
        requires is { IsSome request.old }
        requires may { IfSome request.old (λ r. MayServe to r.ask) }
        ensures went { IfSome request.old (λ r. IfNone request.new (asks self.old to r self.new)) }
        ensures stays { IfSome request.new (λ _. (request.new ≡ request.old) × same self.old self.new × was_full self.old to) }
        ensures me { me self.new ≡ me self.old };

    /// The answer that came. There is none only where the ring was empty at a moment of the call.
    fn take_answer(&mut self) -> Option<Answer<N>>
        ensures mine { IfSome result (IsAnswerTo (me self.old)) }
        ensures taken { MatchOption result (same self.old self.new × was_empty self.old) (λ x. gets self.old x self.new) }
        ensures rings { (to : Actor) → was_full self.new to → was_full self.old to }
        ensures me { me self.new ≡ me self.old };
}

/// A server's way to the clients and the other servers. No call takes memory.
pub trait ServerPost<N: Naming, L> {
    ghost use Rattle.std.specs.Prelude.{ℕ};
    ghost use Rattle.ufs_model.specs.declared.data.Actor.{Actor};
    ghost use Rattle.ufs_msg.specs.Requests.{Asked};
    ghost use Rattle.ufs_msg.specs.declared.answer.Answer.{Answer};

    /// Whose it is.
    ghost me: { Self → Actor };

    /// The answer went to the ring of this client, which has room for one; nothing else came or went.
    ghost answers: { Self → ℕ → Answer N → Self → Type 0 };

    /// The letter went to the ring of moves of this server, which has room for 64, behind all others; nothing else came or went.
    ghost sends: { Self → Actor → L → Self → Type 0 };

    /// The request stood in front of this server's ring, which has room for 16, and is gone; nothing else came or went.
    ghost gets_ask: { Self → Asked → Self → Type 0 };

    /// The letter stood in front of this server's ring of moves, and is gone; nothing else came or went.
    ghost gets_letter: { Self → L → Self → Type 0 };

    /// Nothing came and nothing went.
    ghost same: { Self → Self → Type 0 };

    /// Where an answer to this client, and a letter to this server, may come back.
    ghost answers_full: { Self → ℕ → Type 0 };

    ghost letters_full: { Self → Actor → Type 0 };

    /// Where there may be no request, and no letter.
    ghost asks_empty: { Self → Type 0 };

    ghost letters_empty: { Self → Type 0 };

    /// Sends the answer that is there. It stays only where that ring was full at a moment of the call.
    fn answer(&mut self, client: u8, answer: &mut Option<Answer<N>>)
        requires there { IsClientThere N.start client }
        requires is { IsSome answer.old }
        requires of { IfSome answer.old (IsAnswerTo client) }
        ensures went { IfSome answer.old (λ x. IfNone answer.new (answers self.old client x self.new)) }
        ensures stays { IfSome answer.new (λ _. (answer.new ≡ answer.old) × same self.old self.new × answers_full self.old client) }
        ensures me { me self.new ≡ me self.old };

    /// Sends the letter. It comes back only where that ring was full at a moment of the call.
    fn send(&mut self, to: Actor, letter: L) -> Result<(), L>
        requires there { IsServerThere N.start to }
        ensures sent { MatchResult result (λ _. sends self.old to letter self.new) (λ x. (x ≡ letter) × same self.old self.new × letters_full self.old to) }
        ensures me { me self.new ≡ me self.old };

    /// The front request: a worker's goes by a hint. There is none only where the ring was empty at a moment of the call.
    fn take_ask(&mut self) -> Option<Request<N>>
        ensures may { IfSome result (λ r. MayServe (me self.old) r.ask) }
        ensures taken { MatchOption result (same self.old self.new × asks_empty self.old) (λ r. gets_ask self.old r self.new) }
        ensures me { me self.new ≡ me self.old };

    /// The front letter. There is none only where the ring was empty at a moment of the call.
    fn take_letter(&mut self) -> Option<L>
        ensures taken { MatchOption result (same self.old self.new × letters_empty self.old) (λ x. gets_letter self.old x self.new) }
        ensures me { me self.new ≡ me self.old };
}
