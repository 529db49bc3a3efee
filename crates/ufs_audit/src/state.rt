// How far an audit has come.
ghost use Rattle.std.specs.Prelude.{◌≡◌, ◌≢◌, ◌≤◌, ◌+◌, ◌^◌, ◌<◌, ◌↔◌, ◌∷◌, [], ℕ, List, Ok, None, Some, IsTrue, IfOk, OnOk, IfSome, slice_get, unwrap_or, length, true, false, replicate};
ghost use Rattle.ufs_model.specs.History.{requests_of, entries_of, IsComplete, tree_after};
ghost use Rattle.ufs_model.specs.PosixTree.{PosixTree};
ghost use Rattle.ufs_model.specs.Bounds.{IsBounded};
ghost use Rattle.ufs_model.specs.Posix.{posix};
ghost use Rattle.ufs_model.specs.declared.data.Excuse.{Excuse};
ghost use Rattle.ufs_model.specs.declared.data.Excuse.TheVariants as excuse;
ghost use Rattle.ufs_model.specs.declared.data.Reply.TheVariants as reply;
ghost use Rattle.ufs_model.specs.declared.data.Op.{Op};
ghost use Rattle.ufs_model.specs.declared.data.Entry.{Entry};
ghost use Rattle.ufs_model.specs.declared.data.Reply.{Reply};
ghost use Rattle.ufs_script.specs.Output.{line_text};
ghost use Rattle.ufs_audit.specs.Audit.{answer_to, IsLine, IsWrong, entry_of};
ghost use Rattle.ufs_audit.specs.Following.{Stands, IsCount, IsFresh, IsJudged, IsStep, with_fault};
ghost use Rattle.ufs_lines.specs.declared.told.Why.TheVariants as why;
ghost use Rattle.ufs_audit.specs.declared.verdict.Wrong.{Wrong};

use crate::answers::AnswerList;
use crate::verdict::Wrong;
use std::alloc::{AllocError, Global};
use std::collections::BTreeSet;
use ufs_base::Lack;
use ufs_lines::{Told, Why, read_told, same_bytes};
use ufs_model::{Bytes, Entry, Excuse, Op, Reply};
use ufs_script::{OpList, reply_line};
use ufs_tree::Tree;

/// The tree, how many entries each client has, and which device faults were told.
#[derive(Drop)]
pub struct State {
    pub tree: Tree,
    pub counts: Vec<u32>,
    pub faults: BTreeSet<u64>,
}

// The client's next request, where the line tells it.
fn next_request<'a>(clients: &'a [OpList], counts: &[u32], told: &Told) -> Option<&'a Op>
    ensures some { IfSome result (λ op. IsCount clients.now counts.now told.now op.now) }
    ensures none { result ≡ None → (op : Op) → IsCount clients.now counts.now told.now op → ⊥ }
    ensures bounded { IfSome result (λ op. IsBounded op.now) }
    ensures few { IfSome result (λ op. told.now.seq < 65536) }
    ensures within { IfSome result (λ op. told.now.client < length counts.now) }
{
    let client = usize::from(told.client);
    let requests = clients.get(client)?;
    let count = counts.get(client)?;
    if *count != told.seq {
        return None;
    }
    requests.as_slice().get(told.seq as usize)
}

fn answer_to<'a>(answers: &'a [AnswerList], client: u8, seq: u32) -> Option<&'a Bytes>
    ensures some { IfSome result (λ line. answer_to answers.now client seq ≡ Some line.now) }
    ensures none { result ≡ None → answer_to answers.now client seq ≡ None }
{
    let lines = answers.get(usize::from(client))?;
    lines.as_slice().get(seq as usize)
}

// Whether the line of the reply is this reply's.
fn is_answered(
    alloc: Global,
    answers: &[AnswerList],
    client: u8,
    seq: u32,
    reply: &Reply,
) -> Result<bool, Lack>
    ensures { IfOk result (λ yes. IsTrue yes ↔ (answer_to answers.now client seq ≡ Some (line_text client seq reply.now))) }
{
    let Some(line) = answer_to(answers, client, seq) else {
        return Ok(false);
    };
    let text = reply_line(alloc, client, seq, reply)?;
    Ok(same_bytes(text.as_slice(), line.as_slice()))
}

// Whether the line of the reply tells want of memory.
fn is_starved(alloc: Global, answers: &[AnswerList], client: u8, seq: u32) -> Result<bool, Lack>
    ensures { IfOk result (λ yes. IsTrue yes ↔ (answer_to answers.now client seq ≡ Some (line_text client seq (reply.Excused excuse.Memory)))) }
{
    let Some(line) = answer_to(answers, client, seq) else {
        return Ok(false);
    };
    let text = format!(in alloc; "{client}.{seq} err ENOMEM\n")?;
    Ok(same_bytes(text.as_bytes(), line.as_slice()))
}

// Whether no fault is told again.
fn is_fresh(faults: &BTreeSet<u64>, excuse: Excuse) -> bool
    ensures { IsTrue result ↔ IsFresh faults.now.keys (reply.Excused excuse) }
{
    match excuse {
        Excuse::Device { fault } => !faults.contains(&fault),
        _ => true,
    }
}

fn put_fault(faults: &mut BTreeSet<u64>, excuse: Excuse) -> Result<(), Lack>
    ensures { OnOk result (faults.new.keys ≡ with_fault faults.old.keys (reply.Excused excuse)) }
{
    let Excuse::Device { fault } = excuse else {
        return Ok(());
    };
    faults.insert(fault)?;
    Ok(())
}

// What is wrong with an entry that has an excuse.
fn judge_excused(
    alloc: Global,
    tree: &mut Tree,
    faults: &mut BTreeSet<u64>,
    answers: &[AnswerList],
    entry: &Entry,
    excuse: Excuse,
) -> Result<Option<Wrong>, Lack>
    requires bounded { IsBounded entry.now.op }
    requires numbers { tree.old.next < 2 ^ 31 }
    requires excused { entry.now.reply ≡ reply.Excused excuse }
    ensures judged { IfOk result (λ wrong. IsJudged tree.old faults.old.keys answers.now entry.now tree.new faults.new.keys wrong) }
    ensures next { tree.new.next ≤ tree.old.next + 1 }
{
    if !is_answered(alloc, answers, entry.client, entry.seq, &entry.reply)? {
        return Ok(Some(Wrong::Reply));
    }
    if !is_fresh(faults, excuse) {
        return Ok(Some(Wrong::Excuse));
    }
    if !tree.legal_step(entry)? {
        return Ok(Some(Wrong::Excuse));
    }
    put_fault(faults, excuse)?;
    Ok(None)
}

// What is wrong with an entry that is excused by want of memory, which excuses any request.
fn judge_starved(
    alloc: Global,
    tree: &Tree,
    answers: &[AnswerList],
    told: &Told,
) -> Result<Option<Wrong>, Lack>
    requires starved { told.now.why ≡ why.Starved }
    ensures judged { IfOk result (λ wrong. (ticket : ℕ) (faults : List ℕ) (op : Op) → IsJudged tree.now faults answers.now (entry_of ticket tree.now told.now op) tree.now faults wrong) }
{
    if is_starved(alloc, answers, told.client, told.seq)? {
        Ok(None)
    } else {
        Ok(Some(Wrong::Reply))
    }
}

// What is wrong with a line that tells no excuse.
fn judge_served(
    alloc: Global,
    tree: &mut Tree,
    answers: &[AnswerList],
    told: &Told,
    op: &Op,
) -> Result<Option<Wrong>, Lack>
    requires bounded { IsBounded op.now }
    requires numbers { tree.old.next < 2 ^ 31 }
    requires plain { told.now.why ≡ why.Served }
    ensures judged { IfOk result (λ wrong. (ticket : ℕ) (faults : List ℕ) → IsJudged tree.old faults answers.now (entry_of ticket tree.old told.now op.now) tree.new faults wrong) }
    ensures next { tree.new.next ≤ tree.old.next + 1 }
{
    let reply = tree.step(told.client, op)?;
    if is_answered(alloc, answers, told.client, told.seq, &reply)? {
        Ok(None)
    } else {
        Ok(Some(Wrong::Reply))
    }
}

// Whether the client has as many entries as requests.
fn is_served(clients: &[OpList], counts: &[u32], client: usize) -> bool
    requires { client < length clients.now }
    ensures { IsTrue result ↔ (slice_get counts.now client ≡ Some (length (requests_of clients.now client))) }
{
    let Some(requests) = clients.get(client) else {
        unreachable!()
    };
    let Some(count) = counts.get(client) else {
        return false;
    };
    requests.as_slice().len() == *count as usize
}

// Whether each request has its entry.
fn are_served(clients: &[OpList], counts: &[u32]) -> bool
    ensures yes { result ≡ true → (client : ℕ) → client < length clients.now → slice_get counts.now client ≡ Some (length (requests_of clients.now client)) }
    ensures no { result ≡ false → ((client : ℕ) → client < length clients.now → slice_get counts.now client ≡ Some (length (requests_of clients.now client))) → ⊥ }
{
    for i in 0..clients.len() {
        if !is_served(clients, counts, i) {
            return false;
        }
    }
    true
}

fn no_counts(alloc: Global, clients: usize) -> Result<Vec<u32>, AllocError>
    ensures { IfOk result (λ counts. counts.items ≡ replicate clients 0) }
{
    vec![in alloc; 0u32; clients]
}

impl State {
    pub fn new(alloc: Global, clients: &[OpList], tree: Tree) -> Result<State, Lack>
        ensures { IfOk result (λ s. Stands tree clients.now [] s.tree s.counts.items s.faults.keys) }
    {
        let counts = no_counts(alloc, clients.len())?;
        Ok(State {
            tree,
            counts,
            faults: BTreeSet::new(alloc),
        })
    }

    pub fn is_complete(&self, clients: &[OpList]) -> bool
        requires { length self.now.counts.items ≡ length clients.now }
        ensures { (start : PosixTree) (history : List Entry) → Stands start clients.now history self.now.tree self.now.counts.items self.now.faults.keys
            → IsTrue result ↔ IsComplete clients.now history }
    {
        are_served(clients, self.counts.as_slice())
    }

    fn judge(
        &mut self,
        alloc: Global,
        answers: &[AnswerList],
        ticket: u64,
        told: &Told,
        op: &Op,
    ) -> Result<Option<Wrong>, Lack>
        requires bounded { IsBounded op.now }
        requires numbers { self.old.tree.next < 2 ^ 31 }
        ensures judged { IfOk result (λ wrong. IsJudged self.old.tree self.old.faults.keys answers.now (entry_of ticket self.old.tree told.now op.now) self.new.tree self.new.faults.keys wrong) }
        ensures next { self.new.tree.next ≤ self.old.tree.next + 1 }
        ensures counts { self.new.counts ≡ self.old.counts }
    {
        match told.why {
            Why::Served => judge_served(alloc, &mut self.tree, answers, told, op),
            Why::Starved => judge_starved(alloc, &self.tree, answers, told),
            Why::Excused(excuse) => {
                let entry = Entry {
                    ticket,
                    client: told.client,
                    seq: told.seq,
                    by: told.by,
                    op: op.copy(alloc)?,
                    reply: Reply::Excused(excuse),
                };
                judge_excused(
                    alloc,
                    &mut self.tree,
                    &mut self.faults,
                    answers,
                    &entry,
                    excuse,
                )
            }
        }
    }

    /// What is wrong with a line, without its end, whose ticket is this; or the state goes on by it.
    pub fn step(
        &mut self,
        alloc: Global,
        clients: &[OpList],
        answers: &[AnswerList],
        ticket: u64,
        line: &[u8],
    ) -> Result<Option<Wrong>, Lack>
        requires numbers { self.old.tree.next < 2 ^ 31 }
        requires many { length self.old.counts.items ≡ length clients.now }
        requires whole { IsLine line.now }
        ensures { IfOk result (λ wrong. (start : PosixTree) (history : List Entry)
            → Stands start clients.now history self.old.tree self.old.counts.items self.old.faults.keys → ticket ≡ length history
            → IsStep start clients.now answers.now history line.now self.new.tree self.new.counts.items self.new.faults.keys wrong) }
    {
        let Some(told) = read_told(alloc, ticket, line)? else {
            return Ok(Some(Wrong::Text));
        };
        let Some(op) = next_request(clients, self.counts.as_slice(), &told) else {
            let complete = self.is_complete(clients);
            return Ok(Some(if complete { Wrong::Text } else { Wrong::Order }));
        };
        if let Some(cause) = self.judge(alloc, answers, ticket, &told, op)? {
            return Ok(Some(cause));
        }
        self.counts[usize::from(told.client)] = told.seq + 1;
        Ok(None)
    }
}
