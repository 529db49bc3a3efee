// A post that gives the next request back where it is told to, as one whose rings are full does.
use ufs_joint::Naming;
use ufs_model::Actor;
use ufs_msg::{Answer, ClientPost, PlainPost, Request};

#[derive(Drop)]
pub(crate) struct Shy<N: Naming> {
    pub post: PlainPost<N, ()>,
    pub refuses: bool,
}

impl<N: Naming> ClientPost<N> for Shy<N> {
    ghost use Rattle.std.specs.Prelude.{◌≡◌, ◌⊎◌, true};

    ghost me = { λ s. s.post.client };

    ghost asks = { λ s to r t. ⟦<PlainPost<N, ()> as ClientPost<N>>⟧.asks s.post to r t.post };

    ghost gets = { λ s x t. ⟦<PlainPost<N, ()> as ClientPost<N>>⟧.gets s.post x t.post };

    ghost same = { λ s t. (t.post ≡ s.post) ⊎ ⟦<PlainPost<N, ()> as ClientPost<N>>⟧.same s.post t.post };

    ghost was_full = { λ s to. (s.refuses ≡ true) ⊎ ⟦<PlainPost<N, ()> as ClientPost<N>>⟧.was_full s.post to };

    ghost was_empty = { λ s. ⟦<PlainPost<N, ()> as ClientPost<N>>⟧.was_empty s.post };

    fn ask(&mut self, to: Actor, request: &mut Option<Request<N>>) {
        if self.refuses {
            self.refuses = false;
        } else {
            self.post.ask(to, request);
        }
    }

    fn take_answer(&mut self) -> Option<Answer<N>> {
        self.post.take_answer()
    }
}
