// A hand draws an entry that leaves all as it is.
ghost use Rattle.std.specs.Prelude.{ℕ, ◌≡◌, ◌≤◌};
ghost use Rattle.ufs_joint.specs.Draws.{drawn};
ghost use Rattle.ufs_joint.specs.Rule.{MayDrawAny};
ghost use Rattle.ufs_held.specs.Together.{still_of};

use std::marker::Brand;
use ufs_hand_laws::Fresh;
use ufs_joint::{Hand, HandTable, Leaving, Naming};

// Draws an entry. All cells of the hand stay, the names' too.
pub(crate) fn draw_still<N: Naming>(table: &HandTable<N>, hand: &mut Hand<N>, fresh: &Fresh) -> u64
    requires may { MayDrawAny N.start hand.old fresh.now (λ n. still_of hand.old) }
    ensures cells { hand.new ≡ drawn result fresh.now (still_of hand.old) hand.old }
    ensures later { hand.old.seen ≤ result }
{
    draw_leaving::<N, Brand>(table, hand, fresh)
}

fn draw_leaving<N: Naming, L: Leaving>(
    table: &HandTable<N>,
    hand: &mut Hand<N>,
    fresh: &Fresh,
) -> u64
    requires leaves { L.leaves ≡ (λ n. still_of hand.old) }
    requires may { MayDrawAny N.start hand.old fresh.now (λ n. still_of hand.old) }
    ensures cells { hand.new ≡ drawn result fresh.now (still_of hand.old) hand.old }
    ensures later { hand.old.seen ≤ result }
{
    hand.draw::<L>(table, fresh)
}
