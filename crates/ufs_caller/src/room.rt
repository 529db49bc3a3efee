// What a client takes of memory.
ghost use Rattle.std.specs.Prelude.{◌≡◌, ◌≤◌, [], IfOk, length};
ghost use Rattle.std.specs.List.{AllByRecursion};
ghost use Rattle.std.specs.Vec.{vec_capacity};
ghost use Rattle.ufs_model.specs.Bounds.{IsBounded};

use crate::Told;
use std::alloc::Global;
use std::collections::VecDeque;
use std::marker::Model;
use ufs_base::Memory;
use ufs_hints::Hints;
use ufs_model::Op;

/// What a client takes of memory before it is given its hand: the room of its transcript for all of its requests, with the servers of
/// each answer up to 8. Contracts see the requests.
#[derive(Drop)]
pub struct ClientRoom {
    alloc: Global,
    told: Vec<Told>,
    left: VecDeque<Op>,
    hints: Hints,
}

impl Model for ClientRoom {
    ghost use Rattle.std.specs.Prelude.{List};
    ghost use Rattle.std.specs.Vec.{vec_capacity};
    ghost use Rattle.ufs_caller.specs.Rooms.{IsRoom};
    ghost use Rattle.ufs_model.specs.declared.data.Op.{Op};

    ghost Value = { List Op };

    ghost view = { λ r. r.left.items };

    ghost invariant = { λ r. IsRoom r.told.items r.left.items r.hints (vec_capacity r.told) };
}

/// The room in its parts.
pub(crate) struct RoomParts {
    pub alloc: Global,
    pub told: Vec<Told>,
    pub left: VecDeque<Op>,
    pub hints: Hints,
}

impl ClientRoom {
    pub fn make(alloc: Global, left: VecDeque<Op>) -> Result<ClientRoom, Memory>
        requires few { length left.items ≤ 65536 }
        requires bounded { AllByRecursion IsBounded left.items }
        ensures { IfOk result (λ r. r ≡ left.items) }
    {
        let mut told = Vec::new(alloc);
        told.reserve(left.len())?;
        let hints = Hints::new(alloc)?;
        Ok(ClientRoom {
            alloc,
            told,
            left,
            hints,
        })
    }

    pub(crate) fn into_parts(self) -> RoomParts
        ensures left { result.left.items ≡ self }
        ensures told { result.told.items ≡ [] }
        ensures hints { result.hints ≡ [] }
        ensures fits { length self ≤ vec_capacity result.told }
        ensures few { length self ≤ 65536 }
        ensures bounded { AllByRecursion IsBounded self }
    {
        let ClientRoom {
            alloc,
            told,
            left,
            hints,
        } = self;
        RoomParts {
            alloc,
            told,
            left,
            hints,
        }
    }
}
