ghost use Rattle.std.specs.Prelude.{◌≡◌, Option};
ghost use Rattle.ufs_file.specs.Hand.{IsEntryOf};
ghost use Rattle.ufs_model.specs.declared.data.Excuse.TheVariants as excuse;
ghost use Rattle.ufs_model.specs.declared.data.Reply.TheVariants as reply;

use crate::hand::Applied;
use ufs_base::Lack;
use ufs_model::{Actor, Ask, Desc, Entry, Excuse, Reply};

/// The answer to a request with this reply, and what the request's descriptor stands for afterwards.
pub fn answered(ask: Ask, by: Actor, ticket: u64, reply: Reply, desc: Option<Desc>) -> Applied
    ensures entry { IsEntryOf ask by ticket result.entry }
    ensures reply { result.entry.reply ≡ reply }
    ensures desc { result.desc ≡ desc }
{
    Applied {
        entry: Entry {
            ticket,
            client: ask.client,
            seq: ask.seq,
            by,
            op: ask.op,
            reply,
        },
        desc,
    }
}

/// The excuse for want of this. The request's descriptor stays.
pub fn out_of_memory(ask: Ask, by: Actor, ticket: u64, lack: Lack) -> Applied
    ensures entry { IsEntryOf ask by ticket result.entry }
    ensures reply { result.entry.reply ≡ reply.Excused excuse.Memory }
    ensures desc { result.desc ≡ ask.desc }
{
    let desc = ask.desc;
    answered(ask, by, ticket, Reply::Excused(Excuse::from(lack)), desc)
}
