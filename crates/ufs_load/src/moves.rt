// Moves of files between workers.
ghost use Rattle.std.specs.Prelude.{◌≡◌};

use std::marker::Model;

/// A file that is to go from one worker to another.
#[derive(Clone, Copy, Debug, PartialEq, Eq)]
pub struct Move {
    pub file: u32,
    pub from: u8,
    pub to: u8,
}

/// Moves, in order.
#[derive(Drop)]
pub struct MoveList {
    moves: Vec<Move>,
}

impl Model for MoveList {
    ghost use Rattle.std.specs.Prelude.{List};
    ghost use Rattle.ufs_load.specs.declared.moves.Move.{Move};

    ghost Value = { List Move };

    ghost view = { λ l. l.moves.items };
}

impl MoveList {
    /// Takes no memory.
    pub fn from_vec(moves: Vec<Move>) -> Self
        ensures { result ≡ moves.items }
    {
        MoveList { moves }
    }

    /// Takes no memory.
    pub fn into_vec(self) -> Vec<Move>
        ensures { result.items ≡ self }
    {
        self.moves
    }

    pub fn as_slice(&self) -> &[Move]
        ensures { result.now ≡ self.now }
    {
        self.moves.as_slice()
    }
}
