// What a worker answers where it doesn't have the file.
ghost use Rattle.std.specs.Prelude.{◌≡◌};
ghost use Rattle.ufs_model.specs.declared.data.Actor.TheVariants.{Primary};
ghost use Rattle.ufs_msg.specs.declared.answer.Answer.TheVariants as says;

use ufs_joint::Naming;
use ufs_model::Actor;
use ufs_msg::{Answer, Redirected, Request};

/// The request as it was sent. It is to go to the primary.
pub(crate) fn redirect<N: Naming>(request: Request<N>) -> Answer<N>
    ensures { result ≡ says.Redirect (record { request = request; to = Primary }) }
{
    Answer::Redirect(Redirected::new(request, Actor::Primary))
}
