ghost use Rattle.std.specs.Prelude.{◌≡◌, [], ◌∷◌, ◌++◌, All, OnOk, OnErr};
ghost use Rattle.ufs_extent.specs.Runs.{IsRun};

use crate::Run;
use std::alloc::Global;
use std::marker::Model;
use ufs_base::Memory;

/// Runs in order.
#[derive(Drop)]
pub struct Runs {
    runs: Vec<Run>,
}

impl Model for Runs {
    ghost use Rattle.std.specs.Prelude.{List, All};
    ghost use Rattle.ufs_extent.specs.declared.Run.{Run};
    ghost use Rattle.ufs_extent.specs.Runs.{IsRun};

    ghost Value = { List Run };

    ghost view = { λ r. r.runs.items };

    ghost invariant = { λ r. All IsRun r.runs.items };
}

impl Runs {
    /// No run. Takes no memory.
    pub fn new(alloc: Global) -> Self
        ensures { result ≡ [] }
    {
        Runs {
            runs: Vec::new(alloc),
        }
    }

    /// Takes no memory.
    pub fn from_vec(runs: Vec<Run>) -> Self
        requires { All IsRun runs.items }
        ensures { result ≡ runs.items }
    {
        Runs { runs }
    }

    /// Takes no memory.
    pub fn into_vec(self) -> Vec<Run>
        ensures items { result.items ≡ self }
        ensures runs { All IsRun result.items }
    {
        self.runs
    }

    /// The run goes behind the others, as one of its own.
    pub fn push(&mut self, run: Run) -> Result<(), Memory>
        requires { IsRun run }
        ensures ok { OnOk result (self.new ≡ self.old ++ run ∷ []) }
        ensures err { OnErr result (self.new ≡ self.old) }
    {
        self.runs.push(run)?;
        Ok(())
    }

    pub fn as_slice(&self) -> &[Run]
        ensures items { result.now ≡ self.now }
        ensures runs { All IsRun result.now }
    {
        self.runs.as_slice()
    }
}
