// Letters that come to the primary.
ghost use Rattle.std.specs.Prelude.{◌≡◌, None};
ghost use Rattle.ufs_primary.specs.Letters.{IsFrontDone, IsLetterDone, IsNextDone, IsSettled};

use crate::turn::PrimaryTurn;
use ufs_at_primary::{Parcel, Stock};
use ufs_joint::Naming;
use ufs_msg::{Letter, ServerPost};

/// A file that came and waits for room is tried first; else the front letter of the ring is done, if there is one: a file that was coming
/// is here, or goes on. There is no turn where there was no letter, or it asked nothing.
pub(crate) fn take_letter<N: Naming, Q: ServerPost<N, Letter<Parcel<N>>>>(
    stock: &mut Stock<N>,
    coming: &mut Option<Parcel<N>>,
    post: &mut Q,
) -> Option<PrimaryTurn>
    ensures front { IsFrontDone Q.same Q.gets_letter Q.letters_empty coming.old stock.old.home stock.new.home coming.new post.old post.new result }
    ensures rest { stock.new ≡ record stock.old { home = stock.new.home } }
    ensures me { Q.me post.new ≡ Q.me post.old }
{
    match coming.take() {
        Some(parcel) => settle(stock, coming, parcel),
        None => take_next(stock, coming, post),
    }
}

// The front letter of the ring is done, if there is one.
fn take_next<N: Naming, Q: ServerPost<N, Letter<Parcel<N>>>>(
    stock: &mut Stock<N>,
    coming: &mut Option<Parcel<N>>,
    post: &mut Q,
) -> Option<PrimaryTurn>
    requires { coming.old ≡ None }
    ensures next { IsNextDone Q.same Q.gets_letter Q.letters_empty stock.old.home stock.new.home coming.new post.old post.new result }
    ensures rest { stock.new ≡ record stock.old { home = stock.new.home } }
    ensures me { Q.me post.new ≡ Q.me post.old }
{
    let came = post.take_letter()?;
    read_letter(stock, coming, came)
}

// What the letter is for is done. A recall isn't for the primary.
fn read_letter<N: Naming>(
    stock: &mut Stock<N>,
    coming: &mut Option<Parcel<N>>,
    came: Letter<Parcel<N>>,
) -> Option<PrimaryTurn>
    requires { coming.old ≡ None }
    ensures done { IsLetterDone stock.old.home stock.new.home coming.new came result }
    ensures rest { stock.new ≡ record stock.old { home = stock.new.home } }
{
    match came {
        Letter::Parcel(parcel) => settle(stock, coming, parcel),
        Letter::Recall { .. } => None,
        Letter::Report { .. } => Some(PrimaryTurn::Noted),
    }
}

// A file came. It waits where there is no room for it; as it would where it wasn't coming, or its number is here, which never is.
fn settle<N: Naming>(
    stock: &mut Stock<N>,
    coming: &mut Option<Parcel<N>>,
    parcel: Parcel<N>,
) -> Option<PrimaryTurn>
    requires { coming.old ≡ None }
    ensures settled { IsSettled stock.old.home stock.new.home coming.new parcel result }
    ensures rest { stock.new ≡ record stock.old { home = stock.new.home } }
{
    match stock.come(parcel) {
        Ok(_to) => Some(PrimaryTurn::Settled),
        Err((lack, back)) => {
            *coming = Some(back);
            match lack {
                Some(lack) => Some(PrimaryTurn::Lack(lack)),
                None => None,
            }
        }
    }
}
