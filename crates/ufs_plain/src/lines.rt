ghost use Rattle.std.specs.Prelude.{◌≡◌, ◌++◌, IfOk, OnOk};
ghost use Rattle.ufs_model.specs.History.{entries_of};
ghost use Rattle.ufs_script.specs.Output.{lines_of, output_of};

use std::alloc::Global;
use ufs_base::Memory;
use ufs_model::Entry;
use ufs_script::reply_line;

fn put_client(
    alloc: Global,
    text: &mut Vec<u8>,
    client: u8,
    history: &[Entry],
) -> Result<(), Memory>
    ensures { OnOk result (text.new.items ≡ text.old.items ++ lines_of (entries_of client history.now)) }
{
    for entry in history {
        if entry.client == client {
            let line = reply_line(alloc, entry.client, entry.seq, &entry.reply)?;
            text.extend_from_slice(line.as_slice())?;
        }
    }
    Ok(())
}

/// The reply lines of so many clients, client by client.
pub fn lines(alloc: Global, clients: u8, history: &[Entry]) -> Result<Vec<u8>, Memory>
    ensures { IfOk result (λ text. text.items ≡ output_of clients history.now) }
{
    let mut text = Vec::new(alloc);
    for client in 0..clients {
        put_client(alloc, &mut text, client, history)?;
    }
    Ok(text)
}
