// A file that is made, written, emptied and removed.
ghost use Rattle.std.specs.Prelude.{◌≡◌, ◌+◌, ◌≤◌, IfOk, Some, IsSome, length, true};
ghost use Rattle.std.specs.FinMap as map;
ghost use Rattle.ufs_bitmap.specs.Taking.{IsApart};
ghost use Rattle.ufs_extent.specs.Runs.{blocks_of};
ghost use Rattle.ufs_files.specs.Files.{blocks_at};
ghost use Rattle.ufs_model.specs.Bounds.{IsBounded};
ghost use Rattle.ufs_model.specs.FileCalls.{is_on_file};

use std::alloc::Global;
use ufs_base::Memory;
use ufs_bitmap::Pool;
use ufs_extent::Run;
use ufs_file::FileHand;
use ufs_files::FileHands;
use ufs_model::{Actor, Ask, Bytes, Desc, Op};

// So many blocks from 20 on.
fn pool_of(alloc: Global, length: u32) -> Result<Pool, Memory>
    requires some { 1 ≤ length }
    requires inside { 20 + length ≤ 65536 }
{
    let mut pool = Pool::make(alloc)?;
    pool.give(Run { start: 20, length });
    Ok(pool)
}

// Serves a request on a descriptor of the file.
fn serve(hand: &mut FileHand, pool: &mut Pool, op: Op, desc: Desc)
    requires kind { is_on_file op ≡ true }
    requires bounded { IsBounded op }
    requires named { desc.file ≡ Some hand.old.file }
    requires apart { IsApart pool.old (blocks_of hand.old.extents) }
    ensures number { hand.new.file ≡ hand.old.file }
    ensures apart { IsApart pool.new (blocks_of hand.new.extents) }
{
    if !hand.is_ready(&op, desc) {
        return;
    }
    let ask = Ask {
        client: 0,
        seq: 0,
        op,
        desc: Some(desc),
        fd: 0,
        last: false,
    };
    let _done = hand.apply(ask, Actor::Primary, 0, pool);
}

// A file of number 7 and inode 3, with so many bytes.
fn written(alloc: Global, pool: &mut Pool, count: usize) -> Result<FileHand, Memory>
    requires few { count ≤ 5000 }
    ensures number { IfOk result (λ hand. hand.file ≡ 7) }
    ensures apart { IfOk result (λ hand. IsApart pool.new (blocks_of hand.extents)) }
{
    let mut hand = FileHand::make(alloc, 7, 3)?;
    let bytes = filled(alloc, count)?;
    let op = Op::Pwrite {
        fd: 3,
        bytes,
        at: 0,
    };
    serve(&mut hand, pool, op, open_on(7));
    Ok(hand)
}

// The files are that one.
fn one_file(alloc: Global, pool: &mut Pool, count: usize) -> Result<FileHands, Memory>
    requires few { count ≤ 5000 }
    ensures here { IfOk result (λ files. IsSome (map.get files 7)) }
    ensures apart { IfOk result (λ files. IsApart pool.new (blocks_at files 7)) }
{
    let hand = written(alloc, pool, count)?;
    let mut files = FileHands::new(alloc);
    files.insert(hand)?;
    Ok(files)
}

fn filled(alloc: Global, count: usize) -> Result<Bytes, Memory>
    ensures { IfOk result (λ bytes. length bytes ≡ count) }
{
    Ok(Bytes::from_vec(vec![in alloc; 97; count]?))
}

// A descriptor of the file with leave to read and write, at its start.
fn open_on(file: u32) -> Desc
    ensures { result.file ≡ Some file }
{
    Desc {
        file: Some(file),
        at: 0,
        read: true,
        write: true,
        append: false,
    }
}

// The inode and the size of the file.
fn inode_and_size(files: &FileHands) -> Option<(u32, u64)> {
    match files.get(7) {
        Some(hand) => Some((hand.inode(), hand.size())),
        None => None,
    }
}

#[test]
fn an_emptied_file_gives_its_blocks_back(rt: HostRuntime) -> Result<(), Memory> {
    let alloc = rt.alloc();
    let mut pool = pool_of(alloc, 10)?;
    let mut files = one_file(alloc, &mut pool, 5_000)?;
    assert_eq!(rt; inode_and_size(&files), Some((3, 5_000)));
    assert_eq!(rt; pool.count(), 8);
    files.empty(7, &mut pool)?;
    assert_eq!(rt; inode_and_size(&files), Some((3, 0)));
    assert_eq!(rt; pool.count(), 10);
    Ok(())
}

#[test]
fn a_removed_file_gives_its_blocks_back(rt: HostRuntime) -> Result<(), Memory> {
    let alloc = rt.alloc();
    let mut pool = pool_of(alloc, 10)?;
    let mut files = one_file(alloc, &mut pool, 5_000)?;
    assert_eq!(rt; pool.count(), 8);
    files.remove(7, &mut pool);
    assert_eq!(rt; inode_and_size(&files), None);
    assert_eq!(rt; pool.count(), 10);
    Ok(())
}
