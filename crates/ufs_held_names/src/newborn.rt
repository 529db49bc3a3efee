// A file that a request made.
ghost use Rattle.std.specs.Prelude.{◌≡◌, [], IfOk, IfErr};
ghost use Rattle.ufs_file_commits.specs.State.{state_of};
ghost use Rattle.ufs_promise_laws.specs.Parts.{committed_as};
ghost use Rattle.ufs_held.specs.Held.{HasFileAlone, IsHeld, first_cell};

use std::alloc::Global;
use std::marker::Model;
use ufs_base::Memory;
use ufs_file::FileHand;
use ufs_file_commits::FileCommits;
use ufs_held::HeldFile;
use ufs_joint::{Hand, Naming};

/// A file that a request made, with the right to its cell. Nothing is known of its commits, and room for that isn't taken yet. Contracts
/// see its cell.
#[derive(Drop)]
pub struct Newborn<N: Naming> {
    hand: FileHand,
    right: Hand<N>,
}

impl<N: Naming> Model for Newborn<N> {
    ghost use Rattle.std.specs.Prelude.{◌≡◌, []};
    ghost use Rattle.ufs_file_commits.specs.State.{state_of};
    ghost use Rattle.ufs_promise_laws.specs.Parts.{committed_as};
    ghost use Rattle.ufs_joint.specs.Cells.{FileCell};
    ghost use Rattle.ufs_joint.specs.Codes.{file_code};
    ghost use Rattle.ufs_held.specs.Held.{IsHeld, first_cell};

    ghost Value = { FileCell };

    ghost coded = { file_code };

    ghost view = { λ b. first_cell (state_of b.hand (committed_as b.hand)) b.right.files };

    ghost invariant = { λ b. IsHeld (state_of b.hand (committed_as b.hand)) b.right × (b.right.faults ≡ []) };
}

impl<N: Naming> Newborn<N> {
    pub(crate) fn new(hand: FileHand, right: Hand<N>) -> Newborn<N>
        requires held { IsHeld (state_of hand (committed_as hand)) right }
        requires calm { right.faults ≡ [] }
        ensures { result ≡ first_cell (state_of hand (committed_as hand)) right.files }
    {
        Newborn { hand, right }
    }

    /// The same file, with room for what is known of its commits. Where there is no memory for that it is as it was, and comes back
    /// with what was wanting.
    pub fn hold(self, alloc: Global) -> Result<HeldFile<N>, (Memory, Newborn<N>)>
        ensures ok { IfOk result (λ file. file ≡ self) }
        ensures err { IfErr result (λ refused. refused.1 ≡ self) }
    {
        match FileCommits::make(alloc, &self.hand) {
            Ok(commits) => {
                let Newborn { hand, right } = self;
                Ok(HeldFile::new(hand, commits, right))
            }
            Err(memory) => Err((memory, self)),
        }
    }

    /// The right to its cell, without the file. Takes no memory.
    pub fn into_hand(self) -> Hand<N>
        ensures alone { HasFileAlone self result }
        ensures calm { result.faults ≡ [] }
    {
        self.right
    }
}
