// What a server knows of a request on a file.
ghost use Rattle.std.specs.Prelude.{◌≡◌, ◌≤◌, Some, true};
ghost use Rattle.ufs_held.specs.Asking.{Asks};
ghost use Rattle.ufs_model.specs.Asks.{file_in};
ghost use Rattle.ufs_model.specs.FileCalls.{is_on_file};
ghost use Rattle.ufs_msg.specs.Requests.{HasClientAlone, IsAsked};
ghost use Rattle.ufs_msg.specs.There.{IsByHint};
ghost use Rattle.ufs_hand_laws.specs.Parts.{ClientPart};

use ufs_joint::{Hand, HandTable, Naming};
use ufs_model::Ask;
use ufs_msg::Request;

/// The request, and the file that it is on.
pub fn file_asked<N: Naming>(request: Request<N>) -> (Request<N>, u32)
    requires { IsByHint request.ask }
    ensures same { result.0 ≡ request }
    ensures file { file_in request.ask.desc ≡ Some result.1 }
{
    let (hand, ask, leases_back) = request.into_parts();
    let Some(desc) = ask.desc else { unreachable!() };
    let Some(file) = desc.file else {
        unreachable!()
    };
    (Request::new(hand, ask, leases_back), file)
}

/// What was told with a request on a file is so: by a look the hand knows of a tree that has its client's descriptors.
pub fn know_on_file<N: Naming>(table: &HandTable<N>, hand: &mut Hand<N>, ask: &Ask)
    requires asked { IsAsked N.start ask.now hand.old }
    requires on_file { is_on_file ask.now.op ≡ true }
    ensures asked { IsAsked N.start ask.now hand.new }
    ensures asks { (part : ClientPart) → HasClientAlone ask.now.client part hand.new → Asks part ask.now }
    ensures later { hand.old.seen ≤ hand.new.seen }
{
    // For the prover alone.
    let _ = ask;
    hand.look(table);
}

/// The same of one that came by a hint.
pub fn know<N: Naming>(table: &HandTable<N>, hand: &mut Hand<N>, ask: &Ask)
    requires asked { IsAsked N.start ask.now hand.old }
    requires hinted { IsByHint ask.now }
    ensures asked { IsAsked N.start ask.now hand.new }
    ensures asks { (part : ClientPart) → HasClientAlone ask.now.client part hand.new → Asks part ask.now }
    ensures later { hand.old.seen ≤ hand.new.seen }
{
    know_on_file(table, hand, ask);
}
