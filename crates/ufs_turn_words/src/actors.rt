ghost use Rattle.std.specs.Prelude.{◌≡◌, IfOk, Some, map};
ghost use Rattle.std.specs.List.{AllByRecursion};
ghost use Rattle.ufs_turn_words.specs.Actors.{IsTurnAlone, actor_in};

use std::alloc::Global;
use ufs_base::Memory;
use ufs_model::Actor;
use ufs_script::ScheduleWord;

/// The actors that get a turn by these words, in order, where no word asks for anything else.
pub fn actors_of(alloc: Global, words: &[ScheduleWord]) -> Result<Vec<Actor>, Memory>
    requires { AllByRecursion IsTurnAlone words.now }
    ensures { IfOk result (λ actors. actors.items ≡ map actor_in words.now) }
{
    let mut actors = Vec::with_capacity(alloc, words.len())?;
    for word in words {
        actors.push_reserved(actor_of(word));
    }
    Ok(actors)
}

fn actor_of(word: &ScheduleWord) -> Actor
    requires { IsTurnAlone word.now }
    ensures { result ≡ actor_in word.now }
{
    match word {
        ScheduleWord::Client(client) => Actor::Client(*client),
        ScheduleWord::Worker(worker) => Actor::Worker(*worker),
        ScheduleWord::Primary => Actor::Primary,
        ScheduleWord::Ticks(_) | ScheduleWord::Move { .. } | ScheduleWord::Plan => unreachable!(),
    }
}
