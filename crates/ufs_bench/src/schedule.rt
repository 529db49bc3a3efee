// The benchmark's schedule: what gets the next turn.
ghost use Rattle.std.specs.Prelude.{◌≡◌, IfOk, map};
ghost use Rattle.ufs_bench.specs.Generator.{after_words, next_words};
ghost use Rattle.ufs_bench.specs.Schedule.{schedule_from, schedule_of, schedule_word, worker_count};
ghost use Rattle.ufs_bench.specs.Workload.{workload_of};

use crate::clients::{clients_of, generator_of};
use rand_core::utils::NextWord;
use rand_pcg::Lcg64Xsh32;
use std::alloc::{AllocError, Global};
use ufs_base::Memory;
use ufs_script::{ScheduleWord, Script, WordList};

// How many workers there are.
const WORKERS: u8 = 4;

// How many schedule words there are.
const SCHEDULE_LENGTH: usize = 200_000;

// What gets the next turn, by a word of the generator.
fn schedule_word(word: u32) -> ScheduleWord
    ensures { result ≡ schedule_word word }
{
    let place = (word % 16) as u8;
    match place {
        0..=7 => ScheduleWord::Client(place),
        8..=11 => ScheduleWord::Worker(place - 7),
        12..=13 => ScheduleWord::Primary,
        14 => ScheduleWord::Plan,
        _ => ScheduleWord::Ticks(1),
    }
}

// The schedule, of the generator's next words.
fn schedule_from(alloc: Global, rng: &mut Lcg64Xsh32) -> Result<WordList, AllocError>
    ensures { IfOk result (λ words. words ≡ schedule_from rng.old) }
{
    let mut words = Vec::with_capacity(alloc, SCHEDULE_LENGTH)?;
    for _made in 0..SCHEDULE_LENGTH {
        let word = rng.next_word();
        words.push(schedule_word(word))?;
    }
    Ok(WordList::from_vec(words))
}

/// The workload as a script for workers: the requests of the benchmark's clients, as `workload` has them, and 200,000 schedule words
/// for 4 workers, of the words that the generator of this seed gives behind those of the clients. A schedule word is a turn of client
/// 0 to 7, of worker 1 to 4 or of the primary, a plan, or one tick of the clock.
pub fn bench_script(alloc: Global, seed: u32) -> Result<Script, Memory>
    ensures clients { IfOk result (λ script. script.clients ≡ workload_of seed) }
    ensures workers { IfOk result (λ script. script.workers ≡ worker_count) }
    ensures words { IfOk result (λ script. script.words ≡ schedule_of seed) }
{
    let mut rng = generator_of(seed);
    let clients = clients_of(alloc, &mut rng)?;
    let words = schedule_from(alloc, &mut rng)?;
    Ok(Script {
        clients,
        workers: WORKERS,
        words,
    })
}
