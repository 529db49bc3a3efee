// Auditing a printed history from the tree of a disk's image.
ghost use Rattle.std.specs.Prelude.{◌≡◌, ◌≢◌, ◌≤◌, ◌^◌, ◌⊎◌, IsTrue, length};
ghost use Rattle.ufs_audit.specs.declared.fault.AuditFault.TheVariants as audit_fault;
ghost use Rattle.ufs_metadata.specs.Reading.{IsReadOnly};
ghost use Rattle.ufs_model.specs.Start.{IsPathTree, start_of};
ghost use Rattle.ufs_script.specs.Script.{IsOutside};
ghost use Rattle.ufs_script.specs.declared.fault.ScriptFault.{ScriptFault};
ghost use Rattle.ufs_command.specs.Audits.{EndsAudit, EndsAudited, TellsNoVerdict, verdict_ending, verdict_line};
ghost use Rattle.ufs_command.specs.Endings.{IsAnswer, IsLine};
ghost use Rattle.ufs_command.specs.Seen.{formatting, reading, writing};
ghost use Rattle.ufs_command.specs.Texts.{illegal_line, legal_line, wrong_name};

use crate::broken::tell_break;
use crate::ending::Ending;
use crate::image::tell_refusal;
use crate::last_line::{finish, out_of_memory, tell};
use arrayvec::ArrayString;
use itoa::Buffer;
use std::alloc::Global;
use ufs_audit::{AuditFault, Verdict, Wrong};
use ufs_disk::Disk;
use ufs_image_paths::path_tree_of;
use ufs_io::{Sink, Source};
use ufs_model::PathTree;

// The line of a legal history. It takes no memory.
fn legal_line(entries: u64) -> ArrayString<64>
    ensures { result.bytes ≡ legal_line entries }
{
    let mut digits = Buffer::new();
    let mut line = ArrayString::new();
    line.push_str("legal ");
    line.push_str(digits.format(entries));
    line.push_str("\n");
    line
}

fn wrong_name(cause: Wrong) -> &'static str
    ensures name { result.now ≡ wrong_name cause }
    ensures short { length result.now ≤ 6 }
{
    match cause {
        Wrong::Text => "Text",
        Wrong::Order => "Order",
        Wrong::Reply => "Reply",
        Wrong::Excuse => "Excuse",
    }
}

// The line of the first ticket at which something is wrong. It takes no memory.
fn illegal_line(ticket: u64, cause: Wrong) -> ArrayString<64>
    ensures { result.bytes ≡ illegal_line ticket cause }
{
    let mut digits = Buffer::new();
    let mut line = ArrayString::new();
    line.push_str("ufs: audit: ticket ");
    line.push_str(digits.format(ticket));
    line.push_str(": ");
    line.push_str(wrong_name(cause));
    line.push_str("\n");
    line
}

fn tell_verdict<K: Sink>(sink: &mut K, verdict: Verdict) -> u8
    ensures { IsAnswer (IsLine (verdict_ending verdict) (verdict_line verdict)) (writing K.held K.faults sink.old sink.new) result }
{
    match verdict {
        Verdict::Legal { entries } => {
            let line = legal_line(entries);
            tell(sink, Ending::Done, line.as_bytes())
        }
        Verdict::Illegal { ticket, cause } => {
            let line = illegal_line(ticket, cause);
            tell(sink, Ending::Illegal, line.as_bytes())
        }
    }
}

// Ends with why there is no verdict.
fn tell_unaudited<K: Sink>(alloc: Global, sink: &mut K, fault: AuditFault) -> u8
    requires { (broken : ScriptFault) → fault ≡ audit_fault.Script broken → ¬ IsOutside broken }
    ensures answer { IsAnswer (TellsNoVerdict fault) (writing K.held K.faults sink.old sink.new) result }
    ensures told { fault ≡ audit_fault.Source → (result ≡ 6) ⊎ (result ≡ 7) }
{
    match fault {
        AuditFault::Script(broken) => tell_break(alloc, sink, broken),
        AuditFault::TextTooLong => {
            tell(
                sink,
                Ending::BadScript,
                b"ufs: line 0: TextTooLong\n".as_slice(),
            )
        }
        AuditFault::Source => finish(sink, Ending::SourceFault),
        AuditFault::Lack(lack) => out_of_memory(sink, lack),
    }
}

// Audits what the source has, from a tree.
fn audit_from<S: Source, K: Sink>(
    alloc: Global,
    source: &mut S,
    sink: &mut K,
    start: &PathTree,
) -> u8
    requires paths { IsPathTree start.now }
    requires files { (start_of start.now).next ≤ 2 ^ 30 }
    ensures answer { IsAnswer (EndsAudited (start_of start.now) (reading S.left S.faults source.old source.new)) (writing K.held K.faults sink.old sink.new) result }
    ensures source_told { result ≢ 6 → result ≢ 7 → S.faults source.new ≡ S.faults source.old }
{
    match ufs_audit::audit(alloc, source, start) {
        Ok(verdict) => tell_verdict(sink, verdict),
        Err(fault) => tell_unaudited(alloc, sink, fault),
    }
}

/// Tells whether the source has a script and then the text of a legal history of it, from the tree that the image on a
/// disk stands for. The image is opened first, and nothing is written on the disk; where it stands for no tree the source
/// isn't read.
pub fn audit<S: Source, K: Sink, D: Disk>(
    alloc: Global,
    source: &mut S,
    sink: &mut K,
    disk: &mut D,
) -> u8
    ensures answer { IsAnswer (EndsAudit (reading S.left S.faults source.old source.new) (formatting D.visible D.size D.moments D.faults disk.old disk.new))
        (writing K.held K.faults sink.old sink.new) result }
    ensures read_only { IsTrue D.visible → IsReadOnly D.keeps (D.moments disk.old) (D.moments disk.new) }
    ensures size { D.size disk.new ≡ D.size disk.old }
    ensures disk_told { result ≢ 4 → result ≢ 7 → D.faults disk.new ≡ D.faults disk.old }
    ensures source_told { result ≢ 6 → result ≢ 7 → S.faults source.new ≡ S.faults source.old }
{
    match path_tree_of(alloc, disk) {
        Ok(start) => audit_from(alloc, source, sink, &start),
        Err(fault) => tell_refusal(sink, fault),
    }
}
