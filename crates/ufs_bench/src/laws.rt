// Laws of the definitions, each the contract of a function that does nothing.
ghost use Rattle.std.specs.Prelude.{◌≡◌, ◌+◌, ◌*◌, ℕ, List, drop, length, map, sum_by, take};
ghost use Rattle.ufs_bench.specs.Generator.{words_of};
ghost use Rattle.ufs_bench.specs.Schedule.{schedule_length, schedule_of, schedule_word};
ghost use Rattle.ufs_bench.specs.Workload.{client_count, words_each, workload, workload_of};
ghost use Rattle.ufs_model.specs.declared.data.Op.{Op};

/// Each workload has as many requests as the summary's first line tells.
pub fn a_workload_has_sixteen_thousand_requests()
    ensures { (seed : ℕ) → sum_by (λ (requests : List Op). length requests) (workload_of seed) ≡ 16000 }
{}

/// Each schedule has 200,000 words.
pub fn a_schedule_has_two_hundred_thousand_words()
    ensures { (seed : ℕ) → length (schedule_of seed) ≡ 200000 }
{}

/// Of a seed's words the clients take the first, and the schedule those behind: each word is taken once.
pub fn the_schedule_takes_the_words_behind_those_of_the_clients()
    ensures clients { (seed : ℕ) → workload_of seed ≡ workload (take (client_count * words_each) (words_of seed (client_count * words_each + schedule_length))) }
    ensures schedule { (seed : ℕ) → schedule_of seed ≡ map schedule_word (drop (client_count * words_each) (words_of seed (client_count * words_each + schedule_length))) }
{}
