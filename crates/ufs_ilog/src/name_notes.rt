ghost use Rattle.std.specs.Prelude.{◌≡◌, [], Some, None, IsSome, IsTrue, IfSome, IfErr, OnOk, OnErr, ◌↔◌, is_some, is_none};
ghost use Rattle.std.specs.List.{list_all};
ghost use Rattle.ufs_layout.specs.Records.{is_record};
ghost use Rattle.ufs_layout.specs.Filled.{sector_count_of};
ghost use Rattle.ufs_ilog.specs.Changes.{is_in_order};
ghost use Rattle.ufs_ilog.specs.Notes.{IsLostFor, IsNotedBehind, IsNotedWhole, sectors_noted};

use crate::change::Change;
use crate::names_log::NamesLog;
use std::alloc::Global;
use std::marker::Model;
use ufs_base::Lack;

/// The log of the names that a server keeps, or nothing: where it keeps none, and where memory for a note was wanting.
/// What was noted before is lost then, and nothing can be committed any more.
#[derive(Drop)]
pub struct NameNotes {
    log: Option<NamesLog>,
    // For want of what it was lost.
    lack: Option<Lack>,
}

impl Model for NameNotes {
    ghost use Rattle.std.specs.Prelude.{List, Option, IfSome, IsTrue};
    ghost use Rattle.std.specs.List.{list_all};
    ghost use Rattle.std.specs.Coded.{coded_list, coded_option};
    ghost use Rattle.ufs_layout.specs.Records.{is_record};
    ghost use Rattle.ufs_layout.specs.declared.records.LogRecord.{LogRecord};

    ghost Value = { Option (List LogRecord) };

    ghost view = { λ n. n.log };
}

impl NameNotes {
    ghost use Rattle.std.specs.Prelude.{List};
    ghost use Rattle.std.specs.Option.{option_map};
    ghost use Rattle.std.specs.Borrow.{LendsIf, MutBor, sem};
    ghost use Rattle.ufs_layout.specs.declared.records.LogRecord.{LogRecord};
    ghost use Rattle.ufs_ilog.specs.contracts.name_notes.NameNotes.{the_row};
    ghost use Rattle.ufs_ilog.specs.contracts.names_log.NamesLog as log;

    /// Nothing is noted. Takes no memory.
    pub fn off() -> Self
        ensures { result ≡ None }
    {
        NameNotes {
            log: None,
            lack: None,
        }
    }

    /// No change is noted yet. Takes no memory.
    pub fn begin(alloc: Global) -> Self
        ensures { result ≡ Some [] }
    {
        NameNotes {
            log: Some(NamesLog::new(alloc)),
            lack: None,
        }
    }

    pub fn is_on(&self) -> bool
        ensures { result ≡ is_some self.now }
    {
        self.log.is_some()
    }

    /// Where a change's records take their memory; `None` where nothing is noted.
    pub fn alloc(&self) -> Option<Global>
        ensures { is_some result ≡ is_some self.now }
    {
        match &self.log {
            Some(log) => Some(log.alloc()),
            None => None,
        }
    }

    /// The change goes behind the others, whole. Where memory is wanting, or the sectors pass the end of their count,
    /// all that was noted is lost, and it answers for want of what.
    pub fn note(&mut self, change: Change) -> Result<(), Lack>
        requires form { IsTrue (list_all is_record change.records) }
        requires order { IsTrue (is_in_order change.records) }
        ensures whole { OnOk result (IsNotedWhole self.old self.new change.records) }
        ensures lost { OnErr result (self.new ≡ None) }
        ensures lack { IfErr result (IsLostFor self.old change.records) }
        ensures behind { IsNotedBehind self.old self.new change.records }
    {
        let noted = match &mut self.log {
            Some(log) => log.note(change),
            None => Ok(()),
        };
        if let Err(lack) = noted {
            self.lose(lack);
        }
        noted
    }

    /// All that was noted is lost, for want of this.
    pub fn lose(&mut self, lack: Lack)
        ensures { self.new ≡ None }
    {
        self.log = None;
        self.lack = Some(lack);
    }

    /// For want of what nothing is noted any more. Where nothing ever was, there is no next change either.
    pub fn lack(&self) -> Lack {
        self.lack.unwrap_or(Lack::AtEnd)
    }

    /// The log, for a commit that clears it.
    pub fn log(&mut self) -> Option<&mut NamesLog>
        ensures* lends { sem 𝓛 (LendsIf the_row log.the_row self.entry result (λ w. Some w) None) }
        ensures value { option_map (λ (l : MutBor (List LogRecord)). l.now) result ≡ self.old }
    {
        self.log.as_mut()
    }

    /// How many sectors of a journal the records take, without the commit's. 0 where nothing is noted.
    pub fn sectors(&self) -> u32
        ensures { result ≡ sectors_noted self.now }
    {
        match &self.log {
            Some(log) => log.sectors(),
            None => 0,
        }
    }
}
