// Turns and orders, one by one.
ghost use Rattle.std.specs.Prelude.{◌≡◌, true};
ghost use Rattle.ufs_rounds.specs.Numbers.{IsThere};

use std::sync::ledger::Ledger;
use ufs_disk::Disk;
use ufs_joint::{HandTable, Naming};
use ufs_model::Actor;
use ufs_rounds::{Participants, Session};
use ufs_turns::{Direct, Turns};

/// One step of a session.
#[derive(Clone, Copy, Debug, Drop)]
pub enum Step {
    Turn(Actor),
    /// The file is to go to this worker, or to the primary for 0.
    Move { file: u32, to: u8 },
}

/// Takes the steps, but for those of actors that aren't there.
pub fn take<N: Naming, D: Disk, L: Ledger>(
    session: Session<N, D, L>,
    steps: &[Step],
) -> Session<N, D, L> {
    let Session {
        table,
        geometry,
        mut participants,
        store,
        share,
        room,
    } = session;
    let mut door = Direct {
        table: &table,
        held: store,
        share,
    };
    for step in steps {
        take_one(&mut participants, &table, &mut door, *step);
    }
    let Direct {
        table: _,
        held: store,
        share,
    } = door;
    Session {
        table,
        geometry,
        participants,
        store,
        share,
        room,
    }
}

fn take_one<N: Naming, T: Turns<N>>(
    participants: &mut Participants<N>,
    table: &HandTable<N>,
    door: &mut T,
    step: Step,
) {
    match step {
        Step::Turn(who) => {
            if is_there(participants, who) {
                let _did = participants.turn(table, door, who);
            }
        }
        Step::Move { file, to } => {
            if usize::from(to) <= participants.workers.len() {
                let _did = participants.primary.order(table, door, file, to);
            }
        }
    }
}

fn is_there<N: Naming>(participants: &Participants<N>, who: Actor) -> bool
    ensures { result ≡ true → IsThere N.start who }
{
    match who {
        Actor::Client(client) => usize::from(client) < participants.clients.len(),
        Actor::Worker(worker) => worker != 0 && usize::from(worker) <= participants.workers.len(),
        Actor::Primary => true,
    }
}
