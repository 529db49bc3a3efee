// A request is done, and what is told of it is sent or kept.
ghost use Rattle.std.specs.Prelude.{◌≡◌, ◌≢◌, ◌<◌, ◌≤◌, ◌++◌, [], ◌∷◌, Option, is_some};
ghost use Rattle.std.specs.VecDeque.{deque_capacity, deque_len};
ghost use Rattle.ufs_at_primary.specs.OfHeld.{Raises};
ghost use Rattle.ufs_joint.specs.Cells.{FileCell};
ghost use Rattle.ufs_msg.specs.There.{client_count};
ghost use Rattle.ufs_at_primary.specs.OfServing.{AnswersGo, all_said, said};
ghost use Rattle.ufs_primary.specs.Primary.{HasRoom, primary_of};
ghost use Rattle.ufs_primary.specs.Turns.{IsRequestDone, IsWorkDone};
ghost use Rattle.ufs_primary.specs.declared.turn.PrimaryTurn.TheVariants as turn;
ghost use Rattle.ufs_told.specs.Numbers.{most_raised};

use crate::turn::PrimaryTurn;
use crate::waiting::{Waiting, put_off, take_waiting};
use std::collections::VecDeque;
use ufs_at_primary::{Baton, Parcel, Stock, Tried, Turns, send_answers};
use ufs_joint::{HandTable, Naming};
use ufs_msg::{Answer, Letter, Request, ServerPost};

// The answer goes behind those that are kept, and they go as far as there is room.
fn say<N: Naming, Q: ServerPost<N, Letter<Parcel<N>>>>(
    answers: &mut VecDeque<Answer<N>>,
    answer: Answer<N>,
    post: &mut Q,
)
    requires room { deque_len answers.old < deque_capacity answers.old }
    ensures goes { AnswersGo Q.answers Q.same Q.answers_full (all_said answers.old.items ++ said answer ∷ []) (all_said answers.new.items) post.old post.new }
    ensures within { deque_len answers.new ≤ deque_capacity answers.new }
    ensures capacity { deque_capacity answers.new ≡ deque_capacity answers.old }
    ensures me { Q.me post.new ≡ Q.me post.old }
{
    answers.push_back_reserved(answer);
    send_answers(answers, post);
}

// Serves or excuses the request, and tells its client; or it waits.
fn do_request<N: Naming, Q: ServerPost<N, Letter<Parcel<N>>>, T: Turns<N>>(
    table: &HandTable<N>,
    baton: &mut Baton<N>,
    stock: &mut Stock<N>,
    answers: &mut VecDeque<Answer<N>>,
    waiting: &mut VecDeque<Waiting<N>>,
    request: Request<N>,
    post: &mut Q,
    door: &mut T,
) -> PrimaryTurn
    requires answer { deque_len answers.old < deque_capacity answers.old }
    requires wait { deque_len waiting.old < deque_capacity waiting.old }
    ensures done { (coming : Option FileCell) → IsRequestDone Q.answers Q.same Q.answers_full N.start.is_visible (T.tells door.old) (T.tells door.new) baton.old baton.new
        (primary_of stock.old coming (all_said answers.old.items) waiting.old.items) (primary_of stock.new coming (all_said answers.new.items) waiting.new.items) request post.old post.new result }
    ensures store { result ≢ turn.Served → T.tells door.new ≡ T.tells door.old }
    ensures seen { result ≢ turn.Served → baton.new ≡ baton.old }
    ensures answers { deque_len answers.new ≤ deque_capacity answers.new }
    ensures room { deque_capacity answers.new ≡ deque_capacity answers.old }
    ensures waiting { deque_len waiting.new ≤ deque_capacity waiting.new }
    ensures places { deque_capacity waiting.new ≡ deque_capacity waiting.old }
    ensures me { Q.me post.new ≡ Q.me post.old }
    ensures telling { is_some (T.tells door.new) ≡ is_some (T.tells door.old) }
    ensures raised { Raises (T.tells door.old) (T.tells door.new) (most_raised N.start.geometry) }
{
    let request = baton.lend(table, request);
    match stock.serve(table, request, door) {
        Tried::Answered(answer) => {
            let answer = baton.follow(table, answer);
            say(answers, answer, post);
            PrimaryTurn::Served
        }
        Tried::Redirected { answer, file } => {
            say(answers, answer, post);
            PrimaryTurn::Redirected { file }
        }
        Tried::Away { request, file } => match put_off(stock, waiting, request, file) {
            Ok(()) => PrimaryTurn::Waiting { file },
            Err((memory, back)) => {
                let answer = stock.excuse(table, back, memory, door);
                let answer = baton.follow(table, answer);
                say(answers, answer, post);
                PrimaryTurn::Served
            }
        },
    }
}

/// The oldest request that waits and whose files have come is done, or else the front one of the ring. None is taken up where there is no
/// room for its answer, or for its waiting.
pub(crate) fn serve_next<N: Naming, Q: ServerPost<N, Letter<Parcel<N>>>, T: Turns<N>>(
    table: &HandTable<N>,
    baton: &mut Baton<N>,
    stock: &mut Stock<N>,
    answers: &mut VecDeque<Answer<N>>,
    waiting: &mut VecDeque<Waiting<N>>,
    post: &mut Q,
    door: &mut T,
) -> PrimaryTurn
    requires answers { HasRoom (client_count N.start) (deque_len answers.old) (deque_capacity answers.old) }
    requires waiting { HasRoom (client_count N.start) (deque_len waiting.old) (deque_capacity waiting.old) }
    ensures done { (coming : Option FileCell) → IsWorkDone Q.answers Q.same Q.answers_full N.start.is_visible (T.tells door.old) (T.tells door.new) baton.old baton.new (client_count N.start) Q.gets_ask Q.asks_empty
        (primary_of stock.old coming (all_said answers.old.items) waiting.old.items) (primary_of stock.new coming (all_said answers.new.items) waiting.new.items) post.old post.new result }
    ensures store { result ≢ turn.Served → T.tells door.new ≡ T.tells door.old }
    ensures seen { result ≢ turn.Served → baton.new ≡ baton.old }
    ensures answers { HasRoom (client_count N.start) (deque_len answers.new) (deque_capacity answers.new) }
    ensures waiting { HasRoom (client_count N.start) (deque_len waiting.new) (deque_capacity waiting.new) }
    ensures me { Q.me post.new ≡ Q.me post.old }
    ensures telling { is_some (T.tells door.new) ≡ is_some (T.tells door.old) }
    ensures raised { Raises (T.tells door.old) (T.tells door.new) (most_raised N.start.geometry) }
{
    if answers.len() >= answers.capacity() {
        return PrimaryTurn::Idle;
    }
    if let Some(request) = take_waiting(stock, waiting) {
        return do_request(table, baton, stock, answers, waiting, request, post, door);
    }
    if waiting.len() >= waiting.capacity() {
        return PrimaryTurn::Idle;
    }
    let Some(request) = post.take_ask() else {
        return PrimaryTurn::Idle;
    };
    do_request(table, baton, stock, answers, waiting, request, post, door)
}
