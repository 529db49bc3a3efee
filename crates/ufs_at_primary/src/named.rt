// What the primary answers a request of the names.
ghost use Rattle.std.specs.Prelude.{◌≡◌, ◌<◌, ◌≤◌, ◌^◌, IfSome, false, is_some};
ghost use Rattle.std.specs.FinSet as set;
ghost use Rattle.ufs_baton.specs.Baton.{IsToldSince};
ghost use Rattle.ufs_joint.specs.FirstHand.{HasPoolAlone, pool_of};
ghost use Rattle.ufs_held_names.specs.Asked.{IsNeeded, number_of};
ghost use Rattle.ufs_layout.specs.Areas.{IsGeometry};
ghost use Rattle.ufs_model.specs.Asks.{file_in};
ghost use Rattle.ufs_msg.specs.Answers.{Told};
ghost use Rattle.ufs_msg.specs.There.{IsServerThere};
ghost use Rattle.ufs_msg.specs.declared.answer.Answer.TheVariants as answer;
ghost use Rattle.ufs_names.specs.Calls.{IsOfNames};
ghost use Rattle.ufs_crash_laws.specs.Changes.{asks_commit};
ghost use Rattle.ufs_at_primary.specs.Named.{IsNamesServed, server_at, server_told};
ghost use Rattle.ufs_serving.specs.Pools.{most_at_rest};

use crate::kinds::file_in;
use crate::naming::serve_names;
use ufs_bitmap::Pool;
use ufs_held::HeldFile;
use ufs_held_names::{HeldNames, NamesServed, Newborn};
use ufs_home::Home;
use ufs_joint::{Hand, HandTable, Naming};
use ufs_layout::Geometry;
use ufs_model::{Actor, Desc};
use ufs_msg::{Answer, Request, Served};
use ufs_serving::pool_number;
use ufs_turns::Turns;

/// What a request of the names was answered, and the file that it touched, if that is still there, or the one that it made.
#[derive(Drop)]
pub struct NamesAnswered<N: Naming> {
    pub answer: Answer<N>,
    pub file: Option<HeldFile<N>>,
    pub made: Option<Newborn<N>>,
}

/// Who has the file, if there is one.
pub(crate) fn server_of<N: Naming>(home: &Home<N>, file: Option<u32>) -> Option<Actor>
    ensures is { result ≡ server_at home.now.owners file }
    ensures there { IfSome result (IsServerThere N.start) }
{
    match file {
        Some(file) => Some(home.server_of(file)),
        None => None,
    }
}

// Who has the file that the request's descriptor stands for, or stood for before.
fn told_server<N: Naming>(home: &Home<N>, before: Option<Desc>, then: Option<Desc>) -> Option<Actor>
    ensures is { result ≡ server_told home.now.owners (file_in before) (file_in then) }
    ensures there { IfSome result (IsServerThere N.start) }
{
    match file_in(then) {
        Some(file) => server_of(home, Some(file)),
        None => server_of(home, file_in(before)),
    }
}

/// Serves a request of the names that commits nothing, with the one live file that it touches, if it does one, and says what its client
/// is answered.
pub fn serve_named<N: Naming, T: Turns<N>>(
    table: &HandTable<N>,
    names: &mut HeldNames<N>,
    geometry: &Geometry,
    home: &Home<N>,
    file: Option<HeldFile<N>>,
    request: Request<N>,
    pool: &mut Pool,
    right: &mut Hand<N>,
    door: &mut T,
) -> NamesAnswered<N>
    requires formed { IsGeometry geometry.now }
    requires its { geometry.now ≡ N.start.geometry }
    requires pool { HasPoolAlone (pool_of 0) pool.old right.old }
    requires kind { IsOfNames request.ask }
    requires no_commit { asks_commit request.ask.op ≡ false }
    requires numbers { names.old.value.next < 2 ^ 31 }
    requires needed { IsNeeded names.old.value request.ask (number_of file) }
    requires low { IfSome file (λ c. c.value.file.file < 2 ^ 31) }
    ensures pool { HasPoolAlone (pool_of 0) pool.new right.new }
    ensures few { set.len pool.new ≤ most_at_rest }
    ensures served { (told : Told) × (result.answer ≡ answer.Served told) × IsNamesServed (T.tells door.old) (T.tells door.new) home.now.owners names.old names.new file result.file result.made pool.old pool.new request.ask told }
    ensures drawn { IsToldSince request.hand.seen result.answer }
    ensures telling { is_some (T.tells door.new) ≡ is_some (T.tells door.old) }
{
    let (client, ask, _leases_back) = request.into_parts();
    let before = ask.desc;
    let number = pool_number(0);
    let NamesServed {
        entry,
        desc,
        guest,
        file,
        made,
    } = serve_names(
        table, names, geometry, file, ask, client, number, pool, right, door,
    );
    let owner = told_server(home, before, desc);
    let answer = Answer::Served(Served::new(guest, entry, desc, owner, None));
    NamesAnswered { answer, file, made }
}
