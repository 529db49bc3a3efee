// The requests of the benchmark's clients.
ghost use Rattle.std.specs.Prelude.{◌≡◌, ◌<◌, ◌≤◌, ◌^◌, ◌*◌, IfOk, OnOk, length, replicate};
ghost use Rattle.ufs_model.specs.Bounds.{IsBounded};
ghost use Rattle.ufs_bench.specs.Generator.{after_words, generator_of, next_words};
ghost use Rattle.ufs_bench.specs.Workload.{bench_geometry, client_count, count_of, dir_path, fd_of, file_path, first_requests, kind_of, opening, place_of, request_of, requests_of, words_each, workload, workload_of};

use rand_core::SeedableRng;
use rand_core::utils::NextWord;
use rand_pcg::Lcg64Xsh32;
use std::alloc::{AllocError, Global};
use ufs_base::Memory;
use ufs_layout::Geometry;
use ufs_model::{Bytes, Op};
use ufs_script::{OpList, OpLists};

// How many clients there are.
const CLIENTS: u8 = 8;

/// How many words of the generator each client takes.
const WORDS_EACH: usize = 1_995;

/// The image that the workload is served on.
pub fn bench_geometry() -> Geometry
    ensures { result ≡ bench_geometry }
{
    Geometry {
        blocks: 4_096,
        inodes: 256,
        journal: 512,
    }
}

fn dir_path(alloc: Global, client: u8) -> Result<Vec<u8>, AllocError>
    requires { client < 8 }
    ensures { IfOk result (λ path. path.items ≡ dir_path client) }
{
    let mut path = Vec::new(alloc);
    path.extend_from_slice(b"/c".as_slice())?;
    path.push(b'0' + client)?;
    Ok(path)
}

// The path of a client's file.
fn file_path(alloc: Global, client: u8, file: u8) -> Result<Vec<u8>, AllocError>
    requires client { client < 8 }
    requires file { file < 4 }
    ensures { IfOk result (λ path. path.items ≡ file_path client file) }
{
    let mut path = dir_path(alloc, client)?;
    path.extend_from_slice(b"/f".as_slice())?;
    path.push(b'0' + file)?;
    Ok(path)
}

fn opening(alloc: Global, client: u8, file: u8) -> Result<Op, AllocError>
    requires client { client < 8 }
    requires file { file < 4 }
    ensures value { IfOk result (λ op. op ≡ opening client file) }
    ensures bounded { IfOk result IsBounded }
{
    let path = file_path(alloc, client, file)?;
    Ok(Op::OpenFile {
        path: Bytes::from_vec(path),
        read: true,
        write: true,
        creat: true,
        excl: false,
        trunc: false,
        append: false,
    })
}

// A client's directory and its four files.
fn first_requests(alloc: Global, client: u8) -> Result<OpList, Memory>
    requires { client < 8 }
    ensures { IfOk result (λ list. list ≡ first_requests client) }
{
    let mut requests = OpList::new(alloc);
    let path = dir_path(alloc, client)?;
    requests.push(Op::Mkdir {
        path: Bytes::from_vec(path),
    })?;
    requests.push(opening(alloc, client, 0)?)?;
    requests.push(opening(alloc, client, 1)?)?;
    requests.push(opening(alloc, client, 2)?)?;
    requests.push(opening(alloc, client, 3)?)?;
    Ok(requests)
}

fn fd_of(word: u32) -> u64
    ensures { result ≡ fd_of word }
{
    u64::from(3 + word % 4)
}

fn place_of(word: u32) -> u64
    ensures { result ≡ place_of word }
{
    u64::from(word / 32 % 65_536)
}

fn count_of(word: u32) -> u32
    ensures value { result ≡ count_of word }
    ensures few { result ≤ 256 }
{
    1 + word / 2_097_152 % 256
}

// The bytes that a request writes: so often the client's number.
fn written(alloc: Global, client: u8, word: u32) -> Result<Bytes, AllocError>
    ensures { IfOk result (λ bytes. bytes ≡ replicate (count_of word) client) }
{
    let mut bytes = Vec::new(alloc);
    bytes.resize(count_of(word) as usize, client)?;
    Ok(Bytes::from_vec(bytes))
}

// The request of a word.
fn request_of(alloc: Global, client: u8, word: u32) -> Result<Op, AllocError>
    ensures value { IfOk result (λ op. op ≡ request_of client word) }
    ensures bounded { IfOk result IsBounded }
{
    let fd = fd_of(word);
    let kind = word / 4 % 8;
    if kind < 3 {
        return Ok(Op::Pwrite {
            fd,
            bytes: written(alloc, client, word)?,
            at: place_of(word),
        });
    }
    if kind < 6 {
        return Ok(Op::Pread {
            fd,
            n: count_of(word),
            at: place_of(word),
        });
    }
    if kind == 6 {
        return Ok(Op::Fsync { fd });
    }
    Ok(Op::Trunc {
        fd,
        size: place_of(word),
    })
}

// A client's requests, of the generator's next words.
fn requests_of(alloc: Global, client: u8, rng: &mut Lcg64Xsh32) -> Result<OpList, Memory>
    requires { client < 8 }
    ensures value { IfOk result (λ list. list ≡ requests_of client (next_words words_each rng.old)) }
    ensures next { OnOk result (rng.new ≡ after_words words_each rng.old) }
{
    let mut requests = first_requests(alloc, client)?;
    for _made in 0..WORDS_EACH {
        let word = rng.next_word();
        requests.push(request_of(alloc, client, word)?)?;
    }
    Ok(requests)
}

/// The generator of a seed.
pub fn generator_of(seed: u32) -> Lcg64Xsh32
    ensures { result ≡ generator_of seed }
{
    Lcg64Xsh32::seed_from_u64(u64::from(seed))
}

/// The requests of all clients, of the generator's next words.
pub fn clients_of(alloc: Global, rng: &mut Lcg64Xsh32) -> Result<OpLists, Memory>
    ensures value { IfOk result (λ clients. clients ≡ workload (next_words (client_count * words_each) rng.old)) }
    ensures next { OnOk result (rng.new ≡ after_words (client_count * words_each) rng.old) }
{
    let mut clients = OpLists::new(alloc);
    for client in 0..CLIENTS {
        clients.push(requests_of(alloc, client, rng)?)?;
    }
    Ok(clients)
}

/// The requests of the benchmark's clients, of the words that the generator of this seed gives.
pub fn workload(alloc: Global, seed: u32) -> Result<OpLists, Memory>
    ensures { IfOk result (λ clients. clients ≡ workload_of seed) }
{
    let mut rng = generator_of(seed);
    clients_of(alloc, &mut rng)
}
