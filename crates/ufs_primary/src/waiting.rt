// Requests that wait at the primary.
ghost use Rattle.std.specs.Prelude.{◌≡◌, ◌<◌, ◌≤◌, ◌+◌, IfErr, MatchOption, OnErr, OnOk};
ghost use Rattle.std.specs.VecDeque.{deque_capacity, deque_len};
ghost use Rattle.ufs_at_primary.specs.Noted.{IsUnnoted};
ghost use Rattle.ufs_primary.specs.Turns.{IsTakenUp};
ghost use Rattle.ufs_primary.specs.Waiting.{AllWait, IsOldestAt, IsPutOff, TakesOldest, Waits};

use std::collections::VecDeque;
use std::marker::Model;
use ufs_at_primary::Stock;
use ufs_base::Memory;
use ufs_joint::Naming;
use ufs_msg::Request;

/// A request that waits for a file.
#[derive(Drop)]
pub struct Waiting<N: Naming> {
    request: Request<N>,
    file: u32,
}

impl<N: Naming> Model for Waiting<N> {
    ghost use Rattle.ufs_primary.specs.Waiting.{Waits, waits_code};

    ghost Value = { Waits };

    ghost coded = { waits_code };

    ghost view = { λ w. record { request = w.request; file = w.file } };
}

impl<N: Naming> Waiting<N> {
    ghost use Rattle.std.specs.Prelude.{◌≡◌};

    pub fn new(request: Request<N>, file: u32) -> Waiting<N>
        ensures { result ≡ record { request = request; file = file } }
    {
        Waiting { request, file }
    }

    /// The file that it waits for.
    pub fn file(&self) -> u32
        ensures { result ≡ self.now.file }
    {
        self.file
    }

    pub fn into_request(self) -> Request<N>
        ensures { result ≡ self.request }
    {
        self.request
    }
}

// Where the oldest of those stands that wait and whose files have come.
fn oldest_place<N: Naming>(waiting: &VecDeque<Waiting<N>>, stock: &Stock<N>) -> Option<usize>
    ensures { MatchOption result (AllWait stock.now.home.owners waiting.now.items) (λ place. (one : Waits) × IsOldestAt stock.now.home.owners waiting.now.items place one) }
{
    let mut place = 0;
    while let Some(one) = waiting.get(place) {
        if stock.has_come(one.file()) {
            return Some(place);
        }
        place += 1;
    }
    None
}

// The oldest of those that wait and whose files have come.
fn take_oldest<N: Naming>(
    waiting: &mut VecDeque<Waiting<N>>,
    stock: &Stock<N>,
) -> Option<Waiting<N>>
    ensures oldest { MatchOption result (AllWait stock.now.home.owners waiting.old.items × (waiting.new.items ≡ waiting.old.items)) (TakesOldest stock.now.home.owners waiting.old.items waiting.new.items) }
    ensures fewer { MatchOption result (deque_len waiting.new ≡ deque_len waiting.old) (λ _. deque_len waiting.new < deque_len waiting.old) }
    ensures capacity { deque_capacity waiting.new ≡ deque_capacity waiting.old }
{
    match oldest_place(waiting, stock) {
        Some(place) => waiting.remove(place),
        None => None,
    }
}

/// The oldest request that waits and whose file has come. Its client waits no more.
pub(crate) fn take_waiting<N: Naming>(
    stock: &mut Stock<N>,
    waiting: &mut VecDeque<Waiting<N>>,
) -> Option<Request<N>>
    ensures taken { MatchOption result (AllWait stock.old.home.owners waiting.old.items × (waiting.new.items ≡ waiting.old.items) × (stock.new ≡ stock.old)) (IsTakenUp stock.old stock.new waiting.old.items waiting.new.items) }
    ensures fewer { MatchOption result (deque_len waiting.new ≡ deque_len waiting.old) (λ _. deque_len waiting.new < deque_len waiting.old) }
    ensures capacity { deque_capacity waiting.new ≡ deque_capacity waiting.old }
{
    let one = take_oldest(waiting, stock)?;
    let file = one.file();
    let request = one.into_request();
    stock.unwait(file, request.client());
    Some(request)
}

/// The file, which is elsewhere, is asked for, and the request waits, behind all others. Where there is no memory to note that it comes
/// back.
pub(crate) fn put_off<N: Naming>(
    stock: &mut Stock<N>,
    waiting: &mut VecDeque<Waiting<N>>,
    request: Request<N>,
    file: u32,
) -> Result<(), (Memory, Request<N>)>
    requires room { deque_len waiting.old < deque_capacity waiting.old }
    ensures put { OnOk result (IsPutOff stock.old.home stock.new.home waiting.old.items waiting.new.items request file) }
    ensures unnoted { OnErr result (IsUnnoted stock.old.home stock.new.home file) }
    ensures back { IfErr result (λ refused. refused.1 ≡ request) }
    ensures same { OnErr result (waiting.new.items ≡ waiting.old.items) }
    ensures rest { stock.new ≡ record stock.old { home = stock.new.home } }
    ensures len { deque_len waiting.new ≤ deque_len waiting.old + 1 }
    ensures capacity { deque_capacity waiting.new ≡ deque_capacity waiting.old }
{
    match stock.await_file(file, request.client()) {
        Ok(()) => {
            waiting.push_back_reserved(Waiting::new(request, file));
            Ok(())
        }
        Err(memory) => Err((memory, request)),
    }
}
