// What a server answers, and how the answers go.
ghost use Rattle.std.specs.Prelude.{◌≡◌, ◌≤◌, IfNone, IfSome, Some, None};
ghost use Rattle.std.specs.VecDeque.{deque_capacity, deque_len};
ghost use Rattle.ufs_msg.specs.Answers.{IsTold};
ghost use Rattle.ufs_msg.specs.declared.answer.Answer.TheVariants as says;
ghost use Rattle.ufs_serving.specs.Posts.{AnswersGo, IsFullFor, IsSaid, all_said, said};

use std::collections::VecDeque;
use ufs_joint::{Hand, Naming};
use ufs_model::{Actor, Desc, Entry};
use ufs_msg::{Answer, Served, ServerPost};

/// The entry of a request on a file that the server has, which it tells as the owner.
pub fn served_answer<N: Naming>(
    hand: Hand<N>,
    entry: Entry,
    desc: Option<Desc>,
    by: Actor,
) -> Answer<N>
    requires { IsTold N.start entry desc (Some by) None hand }
    ensures { result ≡ says.Served (record { hand = hand; entry = entry; desc = desc; owner = Some by; lease = None }) }
{
    Answer::Served(Served::new(hand, entry, desc, Some(by), None))
}

/// Sends the answers that are kept in order, until all went or one comes back, which stays in front.
pub fn send_answers<N: Naming, L, Q: ServerPost<N, L>>(kept: &mut VecDeque<Answer<N>>, post: &mut Q)
    requires room { deque_len kept.old ≤ deque_capacity kept.old }
    ensures goes { AnswersGo Q.answers Q.same Q.answers_full (all_said kept.old.items) (all_said kept.new.items) post.old post.new }
    ensures fewer { deque_len kept.new ≤ deque_len kept.old }
    ensures capacity { deque_capacity kept.new ≡ deque_capacity kept.old }
    ensures me { Q.me post.new ≡ Q.me post.old }
{
    while let Some(answer) = kept.pop_front() {
        if let Some(back) = send_answer(answer, post) {
            kept.push_front_reserved(back);
            return;
        }
    }
}

/// Sends the answer to its client. It comes back only where that ring was full.
pub fn send_answer<N: Naming, L, Q: ServerPost<N, L>>(
    answer: Answer<N>,
    post: &mut Q,
) -> Option<Answer<N>>
    ensures went { IfNone result (IsSaid Q.answers Q.same Q.answers_full post.old (said answer) post.new) }
    ensures stays { IfSome result (λ x. (said x ≡ said answer) × Q.same post.old post.new × IsFullFor Q.answers Q.same Q.answers_full post.old (said answer)) }
    ensures me { Q.me post.new ≡ Q.me post.old }
{
    let client = answer.client();
    let mut place = Some(answer);
    post.answer(client, &mut place);
    place
}
