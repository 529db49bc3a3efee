// Serving the requests of a script over a tree in memory.
ghost use Rattle.std.specs.Prelude.{◌≡◌, ◌≢◌, ◌≤◌, ◌+◌, ◌*◌, [], ℕ, List, IfOk, OnOk, length};
ghost use Rattle.ufs_model.specs.PosixTree.{root_alone};
ghost use Rattle.ufs_model.specs.History.{IsLegal, IsInOrder, IsComplete, AreUnexcused, tree_after, entries_of, requests_of};
ghost use Rattle.ufs_model.specs.declared.data.Op.{Op};

use crate::tree::Tree;
use std::alloc::Global;
use ufs_base::Lack;
use ufs_model::{Actor, Entry, EntryList, Op, PathTree, Reply};
use ufs_script::{OpList, OpLists};

// A client's requests, each answered by the tree; the history goes on by them.
fn serve_client(
    tree: &mut Tree,
    history: &mut EntryList,
    client: u8,
    requests: OpList,
) -> Result<(), Lack>
    requires few { length history.old ≤ 15 * 65536 }
    requires next { tree.old.next ≤ length history.old }
    requires legal { IsLegal root_alone history.old }
    requires state { tree.old ≡ tree_after root_alone history.old }
    requires fresh { entries_of client history.old ≡ [] }
    requires unexcused { AreUnexcused history.old }
    ensures few { OnOk result (length history.new ≤ length history.old + 65536) }
    ensures next { OnOk result (tree.new.next ≤ length history.new) }
    ensures legal { OnOk result (IsLegal root_alone history.new) }
    ensures state { OnOk result (tree.new ≡ tree_after root_alone history.new) }
    ensures unexcused { OnOk result (AreUnexcused history.new) }
    ensures ordered { OnOk result ((clients : List (List Op)) → IsInOrder clients history.old → requests_of clients client ≡ requests → IsInOrder clients history.new) }
    ensures own { OnOk result (length (entries_of client history.new) ≡ length requests) }
    ensures others { OnOk result ((c : ℕ) → client ≢ c → entries_of c history.new ≡ entries_of c history.old) }
{
    let mut seq = 0u32;
    for op in requests.into_vec() {
        let reply = tree.step(client, &op)?;
        let ticket = history.as_slice().len() as u64;
        history.push(Entry {
            ticket,
            client,
            seq,
            by: Actor::Primary,
            op,
            reply,
        })?;
        seq += 1;
    }
    Ok(())
}

/// The clients' requests, client after client, each answered by a tree that begins with the root alone: the
/// history.
pub fn serve(alloc: Global, clients: OpLists) -> Result<EntryList, Lack>
    ensures legal { IfOk result (λ history. IsLegal root_alone history) }
    ensures ordered { IfOk result (λ history. IsInOrder clients history) }
    ensures complete { IfOk result (λ history. IsComplete clients history) }
    ensures unexcused { IfOk result (λ history. AreUnexcused history) }
{
    let mut tree = Tree::start(alloc, &PathTree::root_alone(alloc)?)?;
    let mut history = EntryList::new(alloc);
    let mut client = 0u8;
    for requests in clients.into_vec() {
        serve_client(&mut tree, &mut history, client, requests)?;
        client += 1;
    }
    Ok(history)
}
