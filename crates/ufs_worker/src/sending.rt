// Files that go to the primary.
ghost use Rattle.std.specs.Prelude.{◌≡◌, ◌+◌, ◌≤◌, ◌<◌, ◌∷◌};
ghost use Rattle.std.specs.VecDeque.{deque_capacity, deque_len};
ghost use Rattle.ufs_joint.specs.Cells.{FileCell};
ghost use Rattle.ufs_model.specs.declared.data.Actor.TheVariants.{Primary};
ghost use Rattle.ufs_msg.specs.declared.letter.Letter.TheVariants as letter;
ghost use Rattle.ufs_serving.specs.Sending.{GoInOrder};

use std::collections::VecDeque;
use ufs_held::Parcel;
use ufs_joint::Naming;
use ufs_model::Actor;
use ufs_msg::{Letter, ServerPost};

/// Sends the files in order, until all went or one comes back, which stays in front.
pub(crate) fn send_kept<N: Naming, Q: ServerPost<N, Letter<Parcel<N>>>>(
    leaving: &mut VecDeque<Parcel<N>>,
    post: &mut Q,
)
    requires room { deque_len leaving.old ≤ deque_capacity leaving.old }
    ensures gone { GoInOrder (λ p c q. Q.sends p Primary (letter.Parcel c) q) Q.same (λ p c. Q.letters_full p Primary) leaving.old.items leaving.new.items post.old post.new }
    ensures fewer { deque_len leaving.new ≤ deque_len leaving.old }
    ensures capacity { deque_capacity leaving.new ≡ deque_capacity leaving.old }
    ensures me { Q.me post.new ≡ Q.me post.old }
{
    while let Some(parcel) = leaving.pop_front() {
        if let Err(back) = post.send(Actor::Primary, Letter::Parcel(parcel)) {
            keep_front(leaving, back);
            return;
        }
    }
}

// The letter that came back stands in front again, where it stood.
fn keep_front<N: Naming>(leaving: &mut VecDeque<Parcel<N>>, back: Letter<Parcel<N>>)
    requires room { deque_len leaving.old < deque_capacity leaving.old }
    requires parcel { (c : FileCell) × (back ≡ letter.Parcel c) }
    ensures front { (c : FileCell) → back ≡ letter.Parcel c → leaving.new.items ≡ c ∷ leaving.old.items }
    ensures len { deque_len leaving.new ≡ deque_len leaving.old + 1 }
    ensures capacity { deque_capacity leaving.new ≡ deque_capacity leaving.old }
{
    let Letter::Parcel(parcel) = back else {
        unreachable!()
    };
    leaving.push_front_reserved(parcel);
}
