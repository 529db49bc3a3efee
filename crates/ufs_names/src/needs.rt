ghost use Rattle.std.specs.Prelude.{◌≡◌};
ghost use Rattle.ufs_names.specs.Needs as needs;

use crate::file_list::FileList;
use crate::holding::Holding;
use crate::names::Names;
use crate::path_calls::end_refusal;
use ufs_base::Memory;
use ufs_calls::{file_of, own_refusal, text, text_refusal};
use ufs_model::{Ask, Op};
use ufs_path::PathText;

impl Names {
    ghost use Rattle.std.specs.Prelude.{◌≡◌, ◌≢◌, ◌<◌, ◌≤◌, ℕ, List, length, Option, Some, None, IfOk};
    ghost use Rattle.std.specs.List.Sorted.{IsStrictlyIncreasing};
    ghost use Rattle.std.specs.Option.{option_map};
    ghost use Rattle.ufs_files.specs.Files.{Files};
    ghost use Rattle.ufs_model.specs.Asks.{IsAsk, file_in};
    ghost use Rattle.ufs_model.specs.Paths.{components};
    ghost use Rattle.ufs_model.specs.PosixTree.{PosixTree};
    ghost use Rattle.ufs_model.specs.Refusals.{own_refusal};
    ghost use Rattle.ufs_model.specs.Touched.{touched_parts, reached};
    ghost use Rattle.ufs_model.specs.declared.data.Op.TheVariants as op;
    ghost use Rattle.ufs_names.specs.Calls.{IsOfNames, AreGathered};
    ghost use Rattle.ufs_names.specs.NamesPart.{IsNamesPart, holding_of};
    ghost use Rattle.ufs_names.specs.Needs.{AreFilesIn, AreHere, IsFileIn, listed, needed_found, unkept_closed, unkept_unnamed};
    ghost use Rattle.ufs_names.specs.PathCalls.{path_asked};

    /// The live files that a request touches, by rising number: those of which `apply` wants the hands. The file that
    /// an `open` makes has none yet.
    pub fn needs(&self, ask: &Ask) -> Result<FileList, Memory>
        requires client { ask.now.client < 16 }
        requires kind { IsOfNames ask.now }
        ensures needed { IfOk result (λ files. (t : PosixTree) → IsNamesPart self.now t → IsAsk t ask.now → AreFilesIn t (touched_parts t ask.now.client ask.now.op) files) }
        ensures gathered { IfOk result (λ files. (t : PosixTree) (fs : Files) → IsNamesPart self.now t → IsAsk t ask.now → AreHere files fs → AreGathered t ask.now fs) }
        ensures rising { IfOk result (λ files. IsStrictlyIncreasing files) }
        // all for a `sync`, and else one at most
        ensures few { ask.now.op ≢ op.Sync → IfOk result (λ files. length files ≤ 1) }
    {
        match &ask.op {
            Op::Sync => self.held.files(self.alloc),
            _ => FileList::of(self.alloc, self.needs_one(ask)?),
        }
    }

    /// The one live file that a request touches, if it does one: of which `apply` wants the hand. A `sync` touches all,
    /// and isn't asked for here. The file that an `open` makes has none yet.
    pub fn needs_one(&self, ask: &Ask) -> Result<Option<u32>, Memory>
        requires client { ask.now.client < 16 }
        requires kind { IsOfNames ask.now }
        requires one { ask.now.op ≢ op.Sync }
        ensures needed { IfOk result (λ file. (t : PosixTree) → IsNamesPart self.now t → IsAsk t ask.now → AreFilesIn t (touched_parts t ask.now.client ask.now.op) (listed file)) }
        ensures gathered { IfOk result (λ file. (t : PosixTree) (fs : Files) → IsNamesPart self.now t → IsAsk t ask.now → AreHere (listed file) fs → AreGathered t ask.now fs) }
    {
        if own_refusal(&ask.op, ask.desc, ask.fd).is_some() {
            return Ok(None);
        }
        self.need(ask)
    }

    // The one live file that a request touches, which its client doesn't refuse: any but `sync`.
    fn need(&self, ask: &Ask) -> Result<Option<u32>, Memory>
        requires client { ask.now.client < 16 }
        requires kind { IsOfNames ask.now }
        requires one { ask.now.op ≢ op.Sync }
        ensures { IfOk result (λ file. (t : PosixTree) → IsNamesPart self.now t → IsAsk t ask.now → own_refusal t ask.now.client ask.now.op ≡ None → IsFileIn t (reached t ask.now.client ask.now.op) file) }
    {
        match &ask.op {
            Op::OpenFile { path, .. } | Op::Unlink { path } | Op::Stat { path } => {
                if text_refusal(path).is_some() {
                    return Ok(None);
                }
                Ok(self.need_at(ask, &text(self.alloc, path)?))
            }
            Op::Rename { from, to } => {
                if text_refusal(from).is_some() || text_refusal(to).is_some() {
                    return Ok(None);
                }
                let from = text(self.alloc, from)?;
                let to = text(self.alloc, to)?;
                Ok(self.need_of_rename(&from, &to))
            }
            Op::Close { .. } => Ok(self.need_of_close(ask)),
            _ => Ok(None),
        }
    }

    // Of a request on one path.
    fn need_at(&self, ask: &Ask, path: &PathText) -> Option<u32>
        requires path { option_map components (path_asked ask.now.op) ≡ Some path.now }
        ensures { (t : PosixTree) → IsNamesPart self.now t → own_refusal t ask.now.client ask.now.op ≡ None → IsFileIn t (reached t ask.now.client ask.now.op) result }
    {
        let Ok(look) = self.tree.look(path) else {
            return None;
        };
        let node = self.tree.node(look.found);
        let has_entries = self.has_entries(look.found);
        match end_refusal(&ask.op, path.is_root(), node, has_entries) {
            Some(_) => None,
            None => self.need_found(&ask.op, file_of(node)),
        }
    }

    // Of a file that was found: `open` cuts it, `stat` asks its size, and `unlink` takes its name.
    fn need_found(&self, request: &Op, file: Option<u32>) -> Option<u32>
        ensures { result ≡ needed_found self.now.held request.now file }
    {
        match request {
            Op::OpenFile { trunc, .. } => { if *trunc { file } else { None } }
            Op::Unlink { .. } => self.without_name(file),
            Op::Stat { .. } => file,
            _ => None,
        }
    }

    // The file at the new name goes. A name onto itself changes nothing.
    fn need_of_rename(&self, from: &PathText, to: &PathText) -> Option<u32>
        ensures { (t : PosixTree) (client : ℕ) (a b : List ℕ) → IsNamesPart self.now t → own_refusal t client (op.Rename a b) ≡ None → from.now ≡ components a → to.now ≡ components b → IsFileIn t (reached t client (op.Rename a b)) result }
    {
        let Ok(step) = self.rename_refusal(from, to) else {
            return None;
        };
        if from.whole() == to.whole() {
            return None;
        }
        self.without_name(file_of(self.tree.node(step.to.found)))
    }

    // The file of the descriptor goes with the last hold of it.
    fn need_of_close(&self, ask: &Ask) -> Option<u32>
        requires client { ask.now.client < 16 }
        ensures { result ≡ unkept_closed self.now.held ask.now.client ask.now.last (file_in ask.now.desc) }
    {
        let Some(desc) = ask.desc else {
            return None;
        };
        let Some(file) = desc.file else {
            return None;
        };
        if !ask.last {
            return None;
        }
        unkept(self.holding(file).without(ask.client), file)
    }

    // The file, where nothing keeps it without its name.
    fn without_name(&self, file: Option<u32>) -> Option<u32>
        ensures { result ≡ unkept_unnamed self.now.held file }
    {
        let Some(file) = file else {
            return None;
        };
        unkept(self.holding(file).without_name(), file)
    }

    // What is known of the file.
    fn holding(&self, file: u32) -> Holding
        ensures { result ≡ holding_of self.now.held file }
    {
        match self.held.get(file) {
            Some(holding) => holding,
            None => Holding::none(),
        }
    }
}

// The file, where nothing keeps it.
fn unkept(holding: Holding, file: u32) -> Option<u32>
    ensures { result ≡ needs.unkept holding file }
{
    if holding.is_kept() { None } else { Some(file) }
}
