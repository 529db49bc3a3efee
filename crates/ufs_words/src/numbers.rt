// The numbers of the command line.
ghost use Rattle.std.specs.Prelude.{◌≡◌, ◌≤◌, IfSome, None, Some, if◌then◌else◌, option_map};
ghost use Rattle.clap.specs.Words.{found_of, rows_of};
ghost use Rattle.ufs_words.specs.Numbers.{is_number, number_up_to, value_of};
ghost use Rattle.ufs_words.specs.Commands.{number_in, most_u32, workers_in, lease_in, lease_from};

use clap::ArgMatches;

// The most workers.
const MOST_WORKERS: u64 = 8;

// The greatest lease, in ticks.
const MOST_LEASE: u64 = 1_000;

// A number of one to ten digits.
fn number(word: &[u8]) -> Option<u64>
    ensures { result ≡ (if is_number word.now then Some (value_of word.now) else None) }
{
    if word.is_empty() || word.len() > 10 {
        return None;
    }
    let mut value = 0u64;
    for b in word {
        if *b < b'0' || *b > b'9' {
            return None;
        }
        value = value * 10 + u64::from(*b - b'0');
    }
    Some(value)
}

// A number that is at most so much.
fn number_up_to(most: u64, word: &str) -> Option<u64>
    ensures value { result ≡ number_up_to most word.now }
    ensures bound { IfSome result (λ n. n ≤ most) }
{
    let value = number(word.as_bytes())?;
    if value <= most { Some(value) } else { None }
}

// The number of an argument that has to be there.
fn number_in(most: u64, name: &str, found: &ArgMatches) -> Option<u64>
    ensures value { result ≡ number_in most name.now (rows_of (found_of found.now)) }
    ensures bound { IfSome result (λ n. n ≤ most) }
{
    match found.get_str(name) {
        Some(word) => number_up_to(most, word),
        None => None,
    }
}

/// A number below 2^32 that has to be there.
pub fn word_in(name: &str, found: &ArgMatches) -> Option<u32>
    ensures { result ≡ number_in most_u32 name.now (rows_of (found_of found.now)) }
{
    let value = number_in(u64::from(u32::MAX), name, found)?;
    Some(value as u32)
}

/// The number of workers: 1 to 8.
pub fn workers_in(found: &ArgMatches) -> Option<u8>
    ensures { result ≡ workers_in (rows_of (found_of found.now)) }
{
    let workers = number_in(MOST_WORKERS, "workers", found)?;
    if workers >= 1 {
        Some(workers as u8)
    } else {
        None
    }
}

fn lease_from(word: Option<&str>) -> Option<Option<u32>>
    ensures { result ≡ lease_from (option_map (λ s. s.now) word.entry) }
{
    match word {
        Some(word) => {
            let ticks = number_up_to(MOST_LEASE, word)?;
            Some(Some(ticks as u32))
        }
        None => Some(None),
    }
}

/// The lease, in ticks, where one is given.
pub fn lease_in(found: &ArgMatches) -> Option<Option<u32>>
    ensures { result ≡ lease_in (rows_of (found_of found.now)) }
{
    lease_from(found.get_str("lease"))
}
