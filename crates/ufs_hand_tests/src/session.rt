// One client asks for a `sync`, which is excused for want of memory. The disk isn't visible.
ghost use Rattle.std.specs.Prelude.{◌≡◌};
ghost use Rattle.ufs_hand_tests.specs.Small.{small};

use std::alloc::{AllocError, Global};
use std::marker::Brand;
use ufs_hand::{Begun, Naming, Opened, Parts, Whole};
use ufs_hand_laws::Fresh;
use ufs_model::{Actor, Excuse, Op, PartName, Reply};

/// How the session ended.
pub fn served(alloc: Global) -> Result<Whole, AllocError> {
    let parts = Parts::picked::<Brand>();
    let opened = Opened::open(alloc, parts)?;
    Ok(session::<Brand>(opened))
}

fn session<N: Naming>(opened: Opened) -> Whole
    requires name { (opened.table ≡ N.table) × (opened.start ≡ N.start) }
    requires small { N.start ≡ small }
{
    let Begun { table, mut hand } = opened.named::<N>();
    hand.mark::<Brand>(&table);
    let client = hand.split(&table, PartName::Client(0));
    hand.join(&table, client);
    let pool = hand.split(&table, PartName::File(u32::MAX));
    hand.join(&table, pool);
    let fresh = Fresh {
        client: 0,
        seq: 0,
        by: Actor::Primary,
        op: Op::Sync,
        reply: Reply::Excused(Excuse::Memory),
    };
    hand.draw::<Brand>(&table, &fresh);
    hand.tick(&table, 5);
    hand.look(&table);
    hand.close(table)
}

#[cfg(test)]
mod tests {
    use super::served;
    use std::alloc::AllocError;
    use std::rt::HostRuntime;

    #[test]
    fn one_entry_is_drawn(rt: HostRuntime) -> Result<(), AllocError> {
        let end = served(rt.alloc())?;
        assert_eq!(rt; end.tickets, 1);
        assert_eq!(rt; end.clock, 5);
        Ok(())
    }
}
