// Whose an answer is.
ghost use Rattle.std.specs.Prelude.{◌≡◌, false, true};
ghost use Rattle.ufs_msg.specs.Addressed.{IsAnswerTo};
ghost use Rattle.ufs_msg.specs.There.{IsClientThere};

use crate::Answer;
use ufs_joint::Naming;

impl<N: Naming> Answer<N> {
    /// Whose answer it is.
    pub fn client(&self) -> u8
        ensures of { IsAnswerTo result self.now }
        ensures there { IsClientThere N.start result }
    {
        match self {
            Answer::Served(served) => served.client(),
            Answer::Redirect(redirected) => redirected.client(),
        }
    }

    pub fn is_to(&self, client: u8) -> bool
        ensures yes { result ≡ true → IsAnswerTo client self.now }
        ensures no { result ≡ false → IsAnswerTo client self.now → ⊥ }
    {
        match self {
            Answer::Served(served) => served.client() == client,
            Answer::Redirect(redirected) => redirected.client() == client,
        }
    }
}
