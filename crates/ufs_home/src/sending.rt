// Letters go to workers, as far as their rings have room.
ghost use Rattle.std.specs.Prelude.{ℕ, ◌≡◌, ◌≤◌, MatchResult, length};
ghost use Rattle.std.specs.VecDeque.{deque_capacity, deque_len};
ghost use Rattle.ufs_home.specs.Letters.{LettersGo, RingsGo, left_by, letter_of};
ghost use Rattle.ufs_home.specs.Owning.{AreKnown};
ghost use Rattle.ufs_model.specs.declared.data.Actor.TheVariants.{Worker};
ghost use Rattle.ufs_msg.specs.There.{IsServerThere, worker_count};

use crate::leaving::Leaving;
use crate::mailbox::Mailbox;
use crate::owning::leave;
use std::collections::VecDeque;
use ufs_held::Parcel;
use ufs_joint::Naming;
use ufs_model::Actor;
use ufs_msg::{Letter, ServerPost};
use ufs_owner::OwnerTable;

// Sends the letter. A file that was going, and goes with it, is the worker's.
fn send_one<N: Naming, Q: ServerPost<N, Letter<Parcel<N>>>>(
    letter: Leaving<N>,
    owners: &mut OwnerTable,
    to: u8,
    post: &mut Q,
) -> Result<(), Leaving<N>>
    requires { IsServerThere N.start (Worker to) }
    ensures sent { MatchResult result (λ _. Q.sends post.old (Worker to) (letter_of letter) post.new × (owners.new.files ≡ left_by owners.old.files letter)) (λ x. (x ≡ letter) × (owners.new.files ≡ owners.old.files) × Q.same post.old post.new × Q.letters_full post.old (Worker to)) }
    ensures known { (workers : ℕ) → AreKnown workers owners.old.files → AreKnown workers owners.new.files }
    ensures me { Q.me post.new ≡ Q.me post.old }
{
    let file = letter.file();
    let goes = letter.has_file();
    match post.send(Actor::Worker(to), letter.into_letter()) {
        Ok(()) => {
            leave(owners, file, goes);
            Ok(())
        }
        Err(back) => Err(Leaving::of_letter(back)),
    }
}

/// Sends the letters in order, until all went or one comes back, which stays in front.
pub(crate) fn send_kept<N: Naming, Q: ServerPost<N, Letter<Parcel<N>>>>(
    letters: &mut VecDeque<Leaving<N>>,
    owners: &mut OwnerTable,
    to: u8,
    post: &mut Q,
)
    requires there { IsServerThere N.start (Worker to) }
    requires room { deque_len letters.old ≤ deque_capacity letters.old }
    ensures gone { LettersGo (λ p m q. Q.sends p (Worker to) (letter_of m) q) Q.same (λ p. Q.letters_full p (Worker to)) letters.old.items letters.new.items owners.old.files owners.new.files post.old post.new }
    ensures room { deque_len letters.new ≤ deque_capacity letters.new }
    ensures known { (workers : ℕ) → AreKnown workers owners.old.files → AreKnown workers owners.new.files }
    ensures me { Q.me post.new ≡ Q.me post.old }
{
    while let Some(letter) = letters.pop_front() {
        if let Err(back) = send_one(letter, owners, to, post) {
            letters.push_front_reserved(back);
            return;
        }
    }
}

/// Sends the letters of each worker in turn, from the first on.
pub(crate) fn send_boxes<N: Naming, Q: ServerPost<N, Letter<Parcel<N>>>>(
    boxes: &mut Vec<Mailbox<N>>,
    workers: u8,
    owners: &mut OwnerTable,
    post: &mut Q,
)
    requires there { workers ≡ worker_count N.start }
    requires each { length boxes.old.items ≡ workers }
    ensures gone { RingsGo (λ w p m q. Q.sends p (Worker w) (letter_of m) q) Q.same (λ p w. Q.letters_full p (Worker w)) workers boxes.old.items boxes.new.items owners.old.files owners.new.files post.old post.new }
    ensures each { length boxes.new.items ≡ workers }
    ensures known { (n : ℕ) → AreKnown n owners.old.files → AreKnown n owners.new.files }
    ensures me { Q.me post.new ≡ Q.me post.old }
{
    for place in 0..workers {
        boxes[usize::from(place)].send(owners, place + 1, post);
    }
}
