// Letters to one worker.
ghost use Rattle.std.specs.Prelude.{◌≡◌, ◌≤◌, [], IfOk, MatchResult, length, replicate};
ghost use Rattle.ufs_home.specs.Letters.{posted};

use crate::leaving::Leaving;
use crate::sending::send_kept;
use std::alloc::Global;
use std::collections::VecDeque;
use std::marker::Model;
use ufs_base::Memory;
use ufs_held::Parcel;
use ufs_joint::Naming;
use ufs_msg::{Letter, ServerPost};
use ufs_owner::OwnerTable;

/// Letters to one worker that are kept, of which the first goes first.
#[derive(Drop)]
pub(crate) struct Mailbox<N: Naming> {
    letters: VecDeque<Leaving<N>>,
}

impl<N: Naming> Model for Mailbox<N> {
    ghost use Rattle.std.specs.Prelude.{List, ◌≤◌};
    ghost use Rattle.std.specs.Coded.{coded_list};
    ghost use Rattle.std.specs.VecDeque.{deque_capacity, deque_len};
    ghost use Rattle.ufs_home.specs.Letters.{Mailed, mailed_code};

    ghost Value = { List Mailed };

    ghost coded = { coded_list mailed_code };

    ghost view = { λ b. b.letters.items };

    ghost invariant = { λ b. deque_len b.letters ≤ deque_capacity b.letters };
}

impl<N: Naming> Mailbox<N> {
    ghost use Rattle.std.specs.Prelude.{ℕ, ◌≡◌, ◌++◌, ◌∷◌, [], MatchResult};
    ghost use Rattle.ufs_home.specs.Letters.{LettersGo, letter_of};
    ghost use Rattle.ufs_home.specs.Owning.{AreKnown};
    ghost use Rattle.ufs_model.specs.declared.data.Actor.TheVariants.{Worker};
    ghost use Rattle.ufs_msg.specs.There.{IsServerThere};

    /// No letter. Takes no memory.
    pub(crate) fn new(alloc: Global) -> Mailbox<N>
        ensures { result ≡ [] }
    {
        Mailbox {
            letters: VecDeque::new(alloc),
        }
    }

    /// The letter stands behind all others. It comes back where there is no memory for it.
    pub(crate) fn push(&mut self, letter: Leaving<N>) -> Result<(), (Memory, Leaving<N>)>
        ensures { MatchResult result (λ _. self.new ≡ self.old ++ letter ∷ []) (λ x. (x.1 ≡ letter) × (self.new ≡ self.old)) }
    {
        match self.letters.reserve(1) {
            Ok(()) => {
                self.letters.push_back_reserved(letter);
                Ok(())
            }
            Err(refused) => Err((Memory::from(refused), letter)),
        }
    }

    /// Sends the letters in order, until all went or one comes back. A file that was going and went is the worker's.
    pub(crate) fn send<Q: ServerPost<N, Letter<Parcel<N>>>>(
        &mut self,
        owners: &mut OwnerTable,
        to: u8,
        post: &mut Q,
    )
        requires { IsServerThere N.start (Worker to) }
        ensures gone { LettersGo (λ p m q. Q.sends p (Worker to) (letter_of m) q) Q.same (λ p. Q.letters_full p (Worker to)) self.old self.new owners.old.files owners.new.files post.old post.new }
        ensures known { (workers : ℕ) → AreKnown workers owners.old.files → AreKnown workers owners.new.files }
        ensures me { Q.me post.new ≡ Q.me post.old }
    {
        send_kept(&mut self.letters, owners, to, post);
    }
}

/// No letters to so many workers.
pub(crate) fn no_letters<N: Naming>(alloc: Global, workers: u8) -> Result<Vec<Mailbox<N>>, Memory>
    ensures { IfOk result (λ boxes. boxes.items ≡ replicate workers []) }
{
    let mut boxes = Vec::new(alloc);
    for _place in 0..workers {
        boxes.push(Mailbox::new(alloc))?;
    }
    Ok(boxes)
}

/// The letter stands behind all others to this worker. It comes back where there is no memory for it.
pub(crate) fn post_to<N: Naming>(
    boxes: &mut Vec<Mailbox<N>>,
    worker: u8,
    letter: Leaving<N>,
) -> Result<(), (Memory, Leaving<N>)>
    requires { (1 ≤ worker) × (worker ≤ length boxes.old.items) }
    ensures { MatchResult result (λ _. boxes.new.items ≡ posted boxes.old.items worker letter) (λ x. (x.1 ≡ letter) × (boxes.new.items ≡ boxes.old.items)) }
{
    boxes[usize::from(worker) - 1].push(letter)
}
