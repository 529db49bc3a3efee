// What the caller of a step picks, for contracts alone.
use std::marker::Brand;

/// What the disk came to in a request: its caller picks it.
pub trait Passing {
    ghost use Rattle.std.specs.Prelude.{ℕ, List, Option};
    ghost use Rattle.ufs_hand_laws.specs.Parts.{Cells, Shortage};

    /// A read that failed, at which the store didn't stop.
    ghost failed: { Option ℕ };

    /// The fault at which the store has stopped.
    ghost stop: { Option ℕ };

    /// The states that the disk was in since the last stamp.
    ghost states: { List Cells };

    /// The state that it is in.
    ghost state: { Cells };

    /// The blocks that were short.
    ghost shortages: { List Shortage };
}

impl Passing for Brand {
    ghost use Rattle.std.specs.Prelude.{None, []};

    ghost failed = { None };

    ghost stop = { None };

    ghost states = { [] };

    ghost state = { [] };

    ghost shortages = { [] };
}

/// In which tree a request is answered, which descriptors its client has then, and the reply as the hand's history has it:
/// its caller picks it.
pub trait Answering {
    ghost use Rattle.ufs_model.specs.PosixTree.{PosixTree};
    ghost use Rattle.ufs_model.specs.declared.data.Reply.{Reply};
    ghost use Rattle.ufs_hand_laws.specs.Parts.{OwnFds};

    ghost before: { PosixTree };

    ghost fds: { OwnFds };

    ghost reply: { Reply };
}

impl Answering for Brand {
    ghost use Rattle.std.specs.FinMap as map;
    ghost use Rattle.ufs_model.specs.PosixTree.{root_alone};
    ghost use Rattle.ufs_model.specs.declared.data.Reply.TheVariants.{Done};

    ghost before = { root_alone };

    ghost fds = { map.empty };

    ghost reply = { Done };
}
