// One file, as a server holds it.
ghost use Rattle.std.specs.Prelude.{◌≡◌, ◌≤◌, length, All, true};
ghost use Rattle.ufs_model.specs.Descriptors as descriptors;
ghost use Rattle.ufs_extent.specs.Runs.{IsRun, appended_all};
ghost use Rattle.ufs_file.specs.Hand.{IsEntryOf};

use crate::answers::answered;
use crate::content::Blocks;
use crate::needed::{cut_places, is_cut_by, read_places, write_places};
use std::alloc::Global;
use std::marker::Model;
use std::ops::Range;
use ufs_base::{BLOCK, MAX_EXTENTS, Memory};
use ufs_bitmap::{Pool, give_runs, take_runs};
use ufs_calls::{MAX_SIZE, desc_refusal, is_past, place_of, seek_to, size_refusal};
use ufs_extent::{Extents, Full56, Run};
use ufs_model::{
    Actor, Ask, Bytes, Desc, Entry, Errno, Excuse, Op, Reply, Whence, a_file_goes_on_by_itself,
};

/// One file: its number and inode, where its blocks lie, and its bytes, as far as they are in memory.
#[derive(Drop)]
pub struct FileHand {
    alloc: Global,
    file: u32,
    inode: u32,
    extents: Extents,
    blocks: Blocks,
}

/// What a request was answered.
#[derive(Drop)]
pub struct Applied {
    pub entry: Entry,
    /// What the request's descriptor stands for afterwards.
    pub desc: Option<Desc>,
}

// A reply that is no excuse, and what the request's descriptor stands for afterwards.
#[derive(Drop)]
struct Served {
    reply: Reply,
    desc: Desc,
}

impl Model for FileHand {
    ghost use Rattle.std.specs.Prelude.{◌≡◌, length};
    ghost use Rattle.ufs_extent.specs.Runs.{blocks_of};
    ghost use Rattle.ufs_file.specs.Hand.{FileState};

    ghost Value = { FileState };

    ghost view = { λ h. record { file = h.file; inode = h.inode; extents = h.extents; content = h.blocks } };

    ghost invariant = { λ h. length (blocks_of h.extents) ≡ length h.blocks.dirty };
}

impl FileHand {
    ghost use Rattle.std.specs.Prelude.{ℕ, ◌≡◌, ◌+◌, ◌-◌, ◌/◌, ◌≤◌, ◌<◌, ◌^◌, [], List, length, min, All, false, IfOk, IfErr, OnOk, OnErr, IfSome, IfNone, Some, None, true, if◌then◌else◌, unwrap_or, slice_get};
    ghost use Rattle.std.specs.FinSet as set;
    ghost use Rattle.ufs_model.specs.Bounds.{IsBounded};
    ghost use Rattle.ufs_model.specs.Descriptors as descriptors;
    ghost use Rattle.ufs_model.specs.FileBytes as file_bytes;
    ghost use Rattle.ufs_model.specs.FileBytes.{max_size};
    ghost use Rattle.ufs_model.specs.declared.data.Reply.TheVariants.{Got};
    ghost use Rattle.ufs_model.specs.declared.data.Excuse.TheVariants as excuse;
    ghost use Rattle.ufs_extent.specs.Runs.{IsRun, blocks_of, appended_all};
    ghost use Rattle.ufs_file.specs.Content.{AreThere, IsContentOf, as_read, no_content, block_bytes, block_count, cleaned, covered, loaded, own_bytes, shortened, unread, written_over};
    ghost use Rattle.ufs_bitmap.specs.Taking.{IsApart, Takes, set_of};
    ghost use Rattle.ufs_model.specs.FileCalls.{is_on_file, place_refusal, file_refusal, file_answer, file_step, desc_after};
    ghost use Rattle.ufs_file.specs.Table.{max_held};
    ghost use Rattle.ufs_file.specs.Hand.{FileState, HasForWrite, HasNeeded, IsNeeded, IsUsed, needed_from, needed_end, end_within, read_from, write_from, write_end, IsCause, IsChanged, lengthened, content_put, content_sized, content_after, missing, IsServedByFile, IsExcusedFor, IsEntryOf, IsOf, IsFileOf, IsPosix, whole_as};
    ghost use Rattle.ufs_model.specs.PosixTree.{PosixTree};
    ghost use Rattle.ufs_model.specs.Asks.{IsAsk};
    ghost use Rattle.ufs_model.specs.Excuses.{ExcuseFits};
    ghost use Rattle.ufs_bitmap.specs.Blocks.{BlockSet};
    ghost use Rattle.ufs_model.specs.History.{is_excused};
    ghost use Rattle.ufs_model.specs.declared.data.Reply.TheVariants as reply;
    ghost use Rattle.ufs_model.specs.declared.data.Desc.{Desc};
    ghost use Rattle.ufs_model.specs.declared.data.Excuse.{Excuse};

    /// A file with no byte and no block.
    pub fn make(alloc: Global, file: u32, inode: u32) -> Result<FileHand, Memory>
        ensures empty { IfOk result (λ h. h ≡ record { file = file; inode = inode; extents = []; content = no_content }) }
        ensures apart { IfOk result (λ h. (pool : BlockSet) → IsApart pool (blocks_of h.extents)) }
    {
        Ok(FileHand {
            alloc,
            file,
            inode,
            extents: Extents::make(alloc)?,
            blocks: Blocks::new(alloc),
        })
    }

    /// A file that was read: where its blocks lie, and its bytes, which are copied. No block is marked as written.
    pub fn from_read(
        alloc: Global,
        file: u32,
        inode: u32,
        extents: Extents,
        bytes: &[u8],
    ) -> Result<FileHand, Memory>
        requires small { length bytes.now ≤ max_held }
        requires blocks { length (blocks_of extents) ≡ block_count (length bytes.now) }
        ensures { IfOk result (λ h. h ≡ record { file = file; inode = inode; extents = extents; content = as_read bytes.now }) }
    {
        let blocks = Blocks::from_bytes(alloc, bytes)?;
        Ok(FileHand {
            alloc,
            file,
            inode,
            extents,
            blocks,
        })
    }

    /// A file of which nothing was read but where its blocks lie, and its size. It takes a few bytes a block.
    pub fn unread(
        alloc: Global,
        file: u32,
        inode: u32,
        extents: Extents,
        size: u64,
    ) -> Result<FileHand, Memory>
        requires small { size ≤ max_held }
        requires blocks { length (blocks_of extents) ≡ block_count size }
        ensures { IfOk result (λ h. h ≡ record { file = file; inode = inode; extents = extents; content = unread size }) }
    {
        let blocks = Blocks::unread(alloc, size)?;
        Ok(FileHand {
            alloc,
            file,
            inode,
            extents,
            blocks,
        })
    }

    /// Serves a request on a descriptor of the file: the reply and the descriptor are those of the step of its bytes,
    /// and the file goes on by it; blocks that it lacks come from the pool, and those that it has no use for go back.
    /// Where room is wanting the reply is the excuse for its cause, and nothing has changed. The caller gives the ticket, and
    /// has loaded each block that the request `needs`, unless it is refused. What is served, and how the file goes on,
    /// holds for whatever bytes the other blocks have on the disk. A block that isn't in memory afterwards wasn't before, and
    /// keeps its bytes.
    pub fn apply(&mut self, ask: Ask, by: Actor, ticket: u64, pool: &mut Pool) -> Applied
        requires kind { is_on_file ask.op ≡ true }
        requires bounded { IsBounded ask.op }
        requires named { IsOf ask.desc self.old.file }
        requires apart { IsApart pool.old (blocks_of self.old.extents) }
        requires there { (d : Desc) → ask.desc ≡ Some d → file_refusal self.old.content.bytes d ask.op ≡ None → HasNeeded self.old.content d ask.op }
        ensures entry { IsEntryOf ask by ticket result.entry }
        ensures served { is_excused result.entry.reply ≡ false → (d : Desc) → ask.desc ≡ Some d → IsServedByFile self.old self.new pool.old pool.new d ask.op result.entry.reply result.desc }
        ensures excused { (x : Excuse) → result.entry.reply ≡ reply.Excused x → (d : Desc) → ask.desc ≡ Some d → IsExcusedFor self.old d ask.op pool.old x }
        ensures any { is_excused result.entry.reply ≡ false → (d : Desc) → ask.desc ≡ Some d → (bytes : List ℕ) → IsContentOf self.old.content bytes
            → IsServedByFile (whole_as bytes self.old) (whole_as (file_step bytes d ask.op).bytes self.new) pool.old pool.new d ask.op result.entry.reply result.desc }
        ensures goes_on { is_excused result.entry.reply ≡ false → (d : Desc) → ask.desc ≡ Some d → (bytes : List ℕ) → IsContentOf self.old.content bytes → IsContentOf self.new.content (file_step bytes d ask.op).bytes }
        ensures away { is_excused result.entry.reply ≡ false → (d : Desc) → ask.desc ≡ Some d → (bytes : List ℕ) → IsContentOf self.old.content bytes → (place : ℕ) → slice_get self.new.content.there place ≡ Some false
            → (slice_get self.old.content.there place ≡ Some false) × (own_bytes (file_step bytes d ask.op).bytes place ≡ own_bytes bytes place) }
        ensures any_excused { (x : Excuse) → result.entry.reply ≡ reply.Excused x → (d : Desc) → ask.desc ≡ Some d → (bytes : List ℕ) → IsContentOf self.old.content bytes → IsExcusedFor (whole_as bytes self.old) d ask.op pool.old x }
        ensures posix { is_excused result.entry.reply ≡ false → (t : PosixTree) → IsFileOf self.old t → IsAsk t ask → IsPosix t ask self.new result.entry.reply result.desc }
        ensures fits { (x : Excuse) → result.entry.reply ≡ reply.Excused x → (t : PosixTree) → IsFileOf self.old t → IsAsk t ask → ExcuseFits t ask.client ask.op x }
        ensures number { self.new.file ≡ self.old.file }
        ensures inode { self.new.inode ≡ self.old.inode }
        ensures together { set.union pool.new (set_of self.new.extents) ≡ set.union pool.old (set_of self.old.extents) }
        ensures few { length self.new.extents ≤ MAX_EXTENTS }
        ensures file { is_excused result.entry.reply ≡ true → self.new ≡ self.old }
        ensures pool { is_excused result.entry.reply ≡ true → pool.new ≡ pool.old }
        ensures desc { is_excused result.entry.reply ≡ true → result.desc ≡ ask.desc }
        ensures apart { IsApart pool.new (blocks_of self.new.extents) }
    {
        a_file_goes_on_by_itself();
        self.stays();
        self.few();
        self.is_counted();
        let Some(desc) = ask.desc else { unreachable!() };
        let outcome = self.serve(&ask.op, desc, pool);
        self.few();
        match outcome {
            Ok(served) => answered(ask, by, ticket, served.reply, Some(served.desc)),
            Err(excuse) => answered(ask, by, ticket, Reply::Excused(excuse), Some(desc)),
        }
    }

    /// Its number in the tree.
    pub fn file(&self) -> u32
        ensures { result ≡ self.now.file }
    {
        self.file
    }

    /// The number of its inode.
    pub fn inode(&self) -> u32
        ensures { result ≡ self.now.inode }
    {
        self.inode
    }

    /// Its size, in bytes; it has the blocks for that.
    pub fn size(&self) -> u64
        ensures size { result ≡ length self.now.content.bytes }
        ensures small { result ≤ max_held }
        ensures blocks { length (blocks_of self.now.extents) ≡ block_count (length self.now.content.bytes) }
        ensures there { length self.now.content.there ≡ block_count (length self.now.content.bytes) }
    {
        self.blocks.size()
    }

    /// Where its blocks lie, in order.
    pub fn extents(&self) -> &[Run]
        ensures runs { result.now ≡ self.now.extents }
        ensures few { length result.now ≤ MAX_EXTENTS }
    {
        self.extents.as_slice()
    }

    /// The same as the list that keeps them.
    pub fn extent_list(&self) -> &Extents
        ensures { result.now ≡ self.now.extents }
    {
        &self.extents
    }

    /// Whether the block at this place was written since it was read or made.
    pub fn is_dirty(&self, place: usize) -> Option<bool>
        ensures mark { result ≡ slice_get self.now.content.dirty place }
        ensures there { slice_get self.now.content.dirty place ≡ Some true → slice_get self.now.content.there place ≡ Some true }
    {
        self.blocks.is_dirty(place)
    }

    /// Whether the block at this place is in memory.
    pub fn is_there(&self, place: usize) -> Option<bool>
        ensures { result ≡ slice_get self.now.content.there place }
    {
        self.blocks.is_there(place)
    }

    /// The places among which are those of the blocks that a request on a descriptor of the file needs in memory.
    pub fn needed_places(&self, op: &Op, desc: Desc) -> Range<u32>
        ensures from { result.start ≡ needed_from (length self.now.content.bytes) desc op.now }
        ensures end { result.end ≡ needed_end (length self.now.content.bytes) desc op.now }
        ensures ordered { result.start ≤ result.end }
        ensures there { result.end ≤ length self.now.content.there }
    {
        let held = self.size();
        match op {
            Op::Read { n, .. } => read_places(held, desc.at, *n as u64),
            Op::Pread { n, at, .. } => read_places(held, *at, *n as u64),
            Op::Write { bytes, .. } => {
                write_places(held, self.place(desc), bytes.as_slice().len() as u64)
            }
            Op::Pwrite { bytes, at, .. } => write_places(held, *at, bytes.as_slice().len() as u64),
            Op::Trunc { size, .. } => cut_places(held, *size),
            _ => 0..0,
        }
    }

    /// Whether a request on a descriptor of the file needs the block at this place in memory. A write doesn't need one that it
    /// covers, as far as the file has it.
    pub fn needs(&self, op: &Op, desc: Desc, place: u32) -> bool
        ensures yes { result ≡ true → IsNeeded (length self.now.content.bytes) desc op.now place }
        ensures no { result ≡ false → IsNeeded (length self.now.content.bytes) desc op.now place → ⊥ }
    {
        let places = self.needed_places(op, desc);
        if place < places.start || place >= places.end {
            return false;
        }
        self.uses(op, desc, place)
    }

    // Whether a request has a use for what the block at this place has.
    fn uses(&self, op: &Op, desc: Desc, place: u32) -> bool
        ensures yes { result ≡ true → IsUsed (length self.now.content.bytes) desc op.now place }
        ensures no { result ≡ false → IsUsed (length self.now.content.bytes) desc op.now place → ⊥ }
    {
        let held = self.size();
        match op {
            Op::Write { bytes, .. } => is_cut_by(
                held,
                self.place(desc),
                bytes.as_slice().len() as u64,
                place,
            ),
            Op::Pwrite { bytes, at, .. } => {
                is_cut_by(held, *at, bytes.as_slice().len() as u64, place)
            }
            _ => true,
        }
    }

    /// Whether a request on a descriptor of the file may be applied: it is refused, or the blocks that it needs are in memory.
    pub fn is_ready(&self, op: &Op, desc: Desc) -> bool
        requires { is_on_file op.now ≡ true }
        ensures needed { result ≡ true → file_refusal self.now.content.bytes desc op.now ≡ None → HasNeeded self.now.content desc op.now }
        ensures allowed { result ≡ false → file_refusal self.now.content.bytes desc op.now ≡ None }
        ensures lacks { result ≡ false → HasNeeded self.now.content desc op.now → ⊥ }
    {
        if self.refusal(op, desc).is_some() {
            return true;
        }
        self.has_needed(op, desc)
    }

    // Whether the blocks that a request needs are in memory.
    fn has_needed(&self, op: &Op, desc: Desc) -> bool
        ensures yes { result ≡ true → HasNeeded self.now.content desc op.now }
        ensures no { result ≡ false → HasNeeded self.now.content desc op.now → ⊥ }
    {
        let places = self.needed_places(op, desc);
        for place in places.start..places.end {
            if self.lacks(op, desc, place) {
                return false;
            }
        }
        true
    }

    // Whether the block at this place isn't in memory, and a request needs it.
    fn lacks(&self, op: &Op, desc: Desc, place: u32) -> bool
        ensures yes { result ≡ false → IsNeeded (length self.now.content.bytes) desc op.now place → slice_get self.now.content.there place ≡ Some true }
        ensures no { result ≡ true → HasNeeded self.now.content desc op.now → ⊥ }
    {
        if self.has_block(place as usize) {
            return false;
        }
        self.needs(op, desc, place)
    }

    // Whether the block at this place is in memory.
    fn has_block(&self, place: usize) -> bool
        ensures yes { result ≡ true → slice_get self.now.content.there place ≡ Some true }
        ensures no { result ≡ false → slice_get self.now.content.there place ≡ Some true → ⊥ }
    {
        matches!(self.is_there(place), Some(true))
    }

    /// The block at this place was read from the disk. What it has behind the file's end isn't kept. Copies it.
    pub fn load(&mut self, place: usize, block: &[u8]) -> Result<(), Memory>
        requires absent { slice_get self.old.content.there place ≡ Some false }
        requires size { length block.now ≡ BLOCK }
        ensures ok { OnOk result (self.new ≡ record self.old { content = loaded self.old.content place block.now }) }
        ensures err { OnErr result (self.new ≡ self.old) }
    {
        self.blocks.load(place, block)
    }

    /// A range with the place of each block that was written since it was read or made, from the first of them on. It is
    /// empty where there is none. Each block that was written is in memory.
    pub fn dirty_places(&self) -> Range<u32>
        ensures dirty { (place : ℕ) → slice_get self.now.content.dirty place ≡ Some true → (result.start ≤ place) × (place < result.end) }
        ensures first { result.start < result.end → slice_get self.now.content.dirty result.start ≡ Some true }
        ensures held { (place : ℕ) → slice_get self.now.content.dirty place ≡ Some true → slice_get self.now.content.there place ≡ Some true }
        ensures ordered { result.start ≤ result.end }
        ensures marks { result.end ≤ length self.now.content.dirty }
        ensures blocks { result.end ≤ length (blocks_of self.now.extents) }
    {
        // For the prover alone.
        let _size = self.blocks.size();
        let places = self.blocks.dirty_places();
        places.start as u32..places.end as u32
    }

    /// The bytes of the block at this place, if it is in memory, with zeros behind the file's end.
    pub fn block(&self, place: usize) -> Option<&[u8]>
        ensures bytes { IfSome result (λ b. b.now ≡ block_bytes self.now.content.bytes place) }
        ensures place { IfSome result (λ b. place < length self.now.content.dirty) }
        ensures there { IfSome result (λ b. slice_get self.now.content.there place ≡ Some true) }
        ensures none { IfNone result (slice_get self.now.content.there place ≡ Some true → ⊥) }
    {
        self.blocks.block(place)
    }

    /// Which block of the disk is at this place.
    pub fn block_number(&self, place: u32) -> Option<u32>
        ensures { result ≡ slice_get (blocks_of self.now.extents) place }
    {
        self.extents.block_of(place)
    }

    /// How many blocks it has.
    pub fn block_count(&self) -> u32
        ensures blocks { result ≡ length (blocks_of self.now.extents) }
        ensures marks { result ≡ length self.now.content.dirty }
        ensures there { result ≡ length self.now.content.there }
    {
        // For the prover alone.
        let _size = self.blocks.size();
        self.extents.block_count()
    }

    /// What was written is on a disk: no block is marked any more. Takes no memory.
    pub fn clean(&mut self)
        ensures { self.new ≡ record self.old { content = cleaned self.old.content } }
    {
        self.blocks.clean();
    }

    /// All its blocks; the file is no more. Takes no memory.
    pub fn drop_blocks(self) -> Extents
        ensures { result ≡ self.extents }
    {
        self.extents
    }

    // A file has no more extents than an inode has room for.
    fn few(&self)
        ensures { length self.now.extents ≤ MAX_EXTENTS }
    {
        let kept = self.extents.as_slice();
        // For the prover alone.
        let _few = kept.len();
    }

    // Where a `write` begins.
    fn place(&self, desc: Desc) -> u64
        ensures { result ≡ file_bytes.place_of desc self.now.content.bytes }
    {
        place_of(desc, self.blocks.size())
    }

    // Where a `seek` leads; `None` where it is refused.
    fn seek_place(&self, whence: Whence, by: i64, desc: Desc) -> Option<u64>
        ensures { result ≡ (if descriptors.is_offset (descriptors.seek_to whence by desc (length self.now.content.bytes))
            then descriptors.seek_to whence by desc (length self.now.content.bytes) else None) }
    {
        seek_to(whence, by, desc, self.blocks.size())
    }

    // Where a `seek` leads that isn't refused.
    fn offset(&self, whence: Whence, by: i64, desc: Desc) -> u64
        requires { descriptors.is_offset (descriptors.seek_to whence by desc (length self.now.content.bytes)) ≡ true }
        ensures { result ≡ unwrap_or (descriptors.seek_to whence by desc (length self.now.content.bytes)) 0 }
    {
        match self.seek_place(whence, by, desc) {
            Some(at) => at,
            None => 0,
        }
    }

    // By where the request leads.
    fn place_refusal(&self, op: &Op, desc: Desc) -> Option<Errno>
        ensures { result ≡ place_refusal self.now.content.bytes desc op.now }
    {
        match op {
            Op::Write { bytes, .. } => size_refusal(is_past(self.place(desc), bytes)),
            Op::Pwrite { bytes, at, .. } => size_refusal(is_past(*at, bytes)),
            Op::Trunc { size, .. } => size_refusal(*size > MAX_SIZE),
            Op::Seek { whence, by, .. } => match self.seek_place(*whence, *by, desc) {
                Some(_) => None,
                None => Some(Errno::Einval),
            },
            _ => None,
        }
    }

    // At most n bytes, from a place on.
    fn read(&self, at: u64, n: u32) -> Result<Reply, Memory>
        requires { AreThere self.now.content.there (read_from (length self.now.content.bytes) at) (end_within (length self.now.content.bytes) at n) }
        ensures { IfOk result (λ reply. reply ≡ Got (file_bytes.part self.now.content.bytes at n)) }
    {
        let got = self.blocks.read(at, n)?;
        Ok(Reply::Got(Bytes::from_vec(got)))
    }

    fn answer(&self, op: &Op, desc: Desc) -> Result<Reply, Memory>
        requires bounded { IsBounded op.now }
        requires allowed { place_refusal self.now.content.bytes desc op.now ≡ None }
        requires there { HasNeeded self.now.content desc op.now }
        ensures { IfOk result (λ reply. reply ≡ file_answer self.now.content.bytes desc op.now) }
    {
        match op {
            Op::Read { n, .. } => self.read(desc.at, *n),
            Op::Pread { n, at, .. } => self.read(*at, *n),
            Op::Write { bytes, .. } | Op::Pwrite { bytes, .. } => {
                Ok(Reply::Count(bytes.as_slice().len() as u32))
            }
            Op::Seek { whence, by, .. } => Ok(Reply::At(self.offset(*whence, *by, desc))),
            _ => Ok(Reply::Done),
        }
    }

    // What the request's descriptor stands for afterwards.
    fn desc_after(&self, op: &Op, desc: Desc) -> Desc
        requires allowed { place_refusal self.now.content.bytes desc op.now ≡ None }
        ensures { result ≡ desc_after self.now.content.bytes desc op.now }
    {
        match op {
            Op::Read { n, .. } => {
                let count = self.blocks.count_from(desc.at, *n);
                moved(desc, desc.at + count as u64)
            }
            Op::Write { bytes, .. } if !bytes.as_slice().is_empty() => {
                moved(desc, self.place(desc) + bytes.as_slice().len() as u64)
            }
            Op::Seek { whence, by, .. } => moved(desc, self.offset(*whence, *by, desc)),
            _ => desc,
        }
    }

    // The reply to a request, and what its descriptor stands for afterwards, where no room is wanting.
    fn serve(&mut self, op: &Op, desc: Desc, pool: &mut Pool) -> Result<Served, Excuse>
        requires kind { is_on_file op.now ≡ true }
        requires bounded { IsBounded op.now }
        requires apart { IsApart pool.old (blocks_of self.old.extents) }
        requires there { file_refusal self.old.content.bytes desc op.now ≡ None → HasNeeded self.old.content desc op.now }
        ensures ok { IfOk result (λ s. IsServedByFile self.old self.new pool.old pool.new desc op.now s.reply (Some s.desc)) }
        ensures apart { OnOk result (IsApart pool.new (blocks_of self.new.extents)) }
        ensures number { self.new.file ≡ self.old.file }
        ensures inode { self.new.inode ≡ self.old.inode }
        ensures together { set.union pool.new (set_of self.new.extents) ≡ set.union pool.old (set_of self.old.extents) }
        ensures cause { IfErr result (λ x. IsExcusedFor self.old desc op.now pool.old x) }
        ensures err { OnErr result (self.new ≡ self.old) }
        ensures pool { OnErr result (pool.new ≡ pool.old) }
    {
        if let Some(errno) = self.refusal(op, desc) {
            self.stays();
            return Ok(Served {
                reply: Reply::Refused(errno),
                desc,
            });
        }
        let reply = self.answer(op, desc)?;
        let after = self.desc_after(op, desc);
        match self.change(op, desc, pool) {
            Ok(()) => Ok(Served { reply, desc: after }),
            Err(excuse) => Err(excuse),
        }
    }

    // Why a request is refused.
    fn refusal(&self, op: &Op, desc: Desc) -> Option<Errno>
        requires { is_on_file op.now ≡ true }
        ensures { result ≡ file_refusal self.now.content.bytes desc op.now }
    {
        match desc_refusal(op, Some(desc)) {
            Some(errno) => Some(errno),
            None => self.place_refusal(op, desc),
        }
    }

    // How many extents the file would have with these runs behind the others.
    fn count_with(&self, runs: &[Run]) -> u32
        requires runs { All IsRun runs.now }
        requires few { length runs.now ≤ 2 ^ 16 }
        ensures { result ≡ length (appended_all self.now.extents runs.now) }
    {
        let kept = self.extents.as_slice();
        // For the prover alone.
        let _few = kept.len();
        self.extents.count_with(runs) as u32
    }

    // Takes so many blocks out of the pool, where the file has extents for them.
    fn take(&self, need: u32, pool: &mut Pool) -> Result<Vec<Run>, Excuse>
        requires { need ≤ 2 ^ 16 }
        ensures taken { IfOk result (λ runs. Takes pool.old need runs.items pool.new 0) }
        ensures runs { IfOk result (λ runs. All IsRun runs.items) }
        ensures few { IfOk result (λ runs. length (appended_all self.now.extents runs.items) ≤ MAX_EXTENTS) }
        ensures cause { IfErr result (λ x. IsCause self.now.extents need pool.old x) }
        ensures pool { OnErr result (pool.new ≡ pool.old) }
    {
        let had = pool.count();
        if had < need {
            return Err(Excuse::Blocks { need, had });
        }
        let runs = take_runs(self.alloc, pool, need)?;
        let count = self.count_with(runs.as_slice());
        if count > MAX_EXTENTS as u32 {
            give_runs(pool, runs.as_slice());
            return Err(Excuse::Extents { need: count });
        }
        Ok(runs)
    }

    // Lengthens the file, where it is shorter, with zeros in new blocks. The blocks from one place on, below another, are in
    // memory: zeros stand in those that weren't.
    fn lengthen(&mut self, size: u64, from: usize, to: usize, pool: &mut Pool) -> Result<(), Excuse>
        requires small { size ≤ max_size }
        requires apart { IsApart pool.old (blocks_of self.old.extents) }
        requires inside { to ≤ length self.old.content.there }
        requires there { length self.old.content.bytes < size → AreThere (covered self.old.content from to).there (length self.old.content.bytes / BLOCK) (block_count (length self.old.content.bytes)) }
        ensures ok { OnOk result (IsChanged self.old self.new pool.old pool.new (lengthened (covered self.old.content from to) size)) }
        ensures apart { OnOk result (IsApart pool.new (blocks_of self.new.extents)) }
        ensures cause { IfErr result (λ x. IsCause self.old.extents (block_count (length (lengthened self.old.content size).bytes) - length (blocks_of self.old.extents)) pool.old x) }
        ensures err { OnErr result (self.new ≡ self.old) }
        ensures pool { OnErr result (pool.new ≡ pool.old) }
    {
        if size <= self.blocks.size() {
            return self.cover(from, to);
        }
        let need = size.div_ceil(BLOCK as u64) as u32 - self.extents.block_count();
        let runs = match self.take(need, pool) {
            Ok(runs) => runs,
            Err(excuse) => return Err(excuse),
        };
        match self.blocks.grow(size, from, to) {
            Ok(()) => {
                append_all(&mut self.extents, runs.as_slice());
                Ok(())
            }
            Err(memory) => {
                give_runs(pool, runs.as_slice());
                Err(Excuse::from(memory))
            }
        }
    }

    // The blocks from one place on, below another, are in memory: zeros stand in those that weren't.
    fn cover(&mut self, from: usize, to: usize) -> Result<(), Excuse>
        requires { to ≤ length self.old.content.there }
        ensures ok { OnOk result (self.new ≡ record self.old { content = covered self.old.content from to }) }
        ensures whole { length (blocks_of self.old.extents) ≡ block_count (length self.old.content.bytes) }
        ensures cause { IfErr result (λ x. x ≡ excuse.Memory) }
        ensures err { OnErr result (self.new ≡ self.old) }
    {
        self.stays();
        match self.blocks.cover(from, to) {
            Ok(()) => Ok(()),
            Err(memory) => Err(Excuse::from(memory)),
        }
    }

    // Cuts the file; the blocks that it has no use for are the pool's.
    fn shorten(&mut self, size: u64, pool: &mut Pool) -> Result<(), Excuse>
        requires shorter { size < length self.old.content.bytes }
        requires small { size ≤ max_size }
        requires whole { length self.old.content.dirty ≡ block_count (length self.old.content.bytes) }
        requires apart { IsApart pool.old (blocks_of self.old.extents) }
        requires there { AreThere self.old.content.there (size / BLOCK) (block_count size) }
        ensures ok { OnOk result (IsChanged self.old self.new pool.old pool.new (shortened self.old.content size)) }
        ensures apart { OnOk result (IsApart pool.new (blocks_of self.new.extents)) }
        ensures cause { IfErr result (λ x. x ≡ excuse.Memory) }
        ensures err { OnErr result (self.new ≡ self.old) }
        ensures pool { OnErr result (pool.new ≡ pool.old) }
    {
        let rest = self.extents.cut(size.div_ceil(BLOCK as u64) as u32)?;
        give_runs(pool, rest.as_slice());
        self.blocks.cut(size);
        Ok(())
    }

    // Cuts the file, or extends it with zeros.
    fn resize(&mut self, size: u64, pool: &mut Pool) -> Result<(), Excuse>
        requires small { size ≤ max_size }
        requires apart { IsApart pool.old (blocks_of self.old.extents) }
        requires there { AreThere self.old.content.there (min size (length self.old.content.bytes) / BLOCK) (block_count (min size (length self.old.content.bytes))) }
        ensures ok { OnOk result (IsChanged self.old self.new pool.old pool.new (content_sized self.old.content size)) }
        ensures apart { OnOk result (IsApart pool.new (blocks_of self.new.extents)) }
        ensures cause { IfErr result (λ x. IsCause self.old.extents (block_count (length (content_sized self.old.content size).bytes) - length (blocks_of self.old.extents)) pool.old x) }
        ensures err { OnErr result (self.new ≡ self.old) }
        ensures pool { OnErr result (pool.new ≡ pool.old) }
    {
        let held = self.blocks.size();
        if size < held {
            self.shorten(size, pool)
        } else {
            self.lengthen(size, 0, 0, pool)
        }
    }

    // What a request that isn't refused changes.
    fn change(&mut self, op: &Op, desc: Desc, pool: &mut Pool) -> Result<(), Excuse>
        requires allowed { place_refusal self.old.content.bytes desc op.now ≡ None }
        requires apart { IsApart pool.old (blocks_of self.old.extents) }
        requires there { HasNeeded self.old.content desc op.now }
        ensures ok { OnOk result (IsChanged self.old self.new pool.old pool.new (content_after self.old.content desc op.now)) }
        ensures apart { OnOk result (IsApart pool.new (blocks_of self.new.extents)) }
        ensures cause { IfErr result (λ x. IsCause self.old.extents (missing self.old desc op.now) pool.old x) }
        ensures err { OnErr result (self.new ≡ self.old) }
        ensures pool { OnErr result (pool.new ≡ pool.old) }
    {
        match op {
            Op::Write { bytes, .. } => self.put(self.place(desc), bytes.as_slice(), pool),
            Op::Pwrite { bytes, at, .. } => self.put(*at, bytes.as_slice(), pool),
            Op::Trunc { size, .. } => self.resize(*size, pool),
            _ => {
                self.stays();
                Ok(())
            }
        }
    }

    // A file has the blocks for its size.
    fn stays(&self)
        ensures { length (blocks_of self.now.extents) ≡ block_count (length self.now.content.bytes) }
    {
        // For the prover alone.
        let _size = self.blocks.size();
    }

    // A file knows of each block whether it is in memory, and whether it was written.
    fn is_counted(&self)
        ensures there { length self.now.content.there ≡ block_count (length self.now.content.bytes) }
        ensures marks { length self.now.content.dirty ≡ block_count (length self.now.content.bytes) }
    {
        // For the prover alone.
        let _size = self.blocks.size();
    }

    // Writes over bytes that are there.
    fn overwrite(&mut self, at: u64, fresh: &[u8])
        requires some { 0 < length fresh.now }
        requires inside { at + length fresh.now ≤ length self.old.content.bytes }
        requires there { AreThere self.old.content.there (at / BLOCK) (block_count (at + length fresh.now)) }
        ensures { self.new ≡ record self.old { content = written_over self.old.content at fresh.now } }
    {
        // For the prover alone.
        let _size = self.blocks.size();
        self.blocks.write(at, fresh);
    }

    // Writes bytes from a place on; no byte changes nothing.
    fn put(&mut self, at: u64, fresh: &[u8], pool: &mut Pool) -> Result<(), Excuse>
        requires place { file_bytes.is_past at fresh.now ≡ false }
        requires apart { IsApart pool.old (blocks_of self.old.extents) }
        requires there { HasForWrite self.old.content at (length fresh.now) }
        ensures ok { OnOk result (IsChanged self.old self.new pool.old pool.new (content_put self.old.content at fresh.now)) }
        ensures apart { OnOk result (IsApart pool.new (blocks_of self.new.extents)) }
        ensures cause { IfErr result (λ x. IsCause self.old.extents (block_count (length (content_put self.old.content at fresh.now).bytes) - length (blocks_of self.old.extents)) pool.old x) }
        ensures err { OnErr result (self.new ≡ self.old) }
        ensures pool { OnErr result (pool.new ≡ pool.old) }
    {
        if fresh.is_empty() {
            self.stays();
            return Ok(());
        }
        self.is_counted();
        let end = at + fresh.len() as u64;
        let from = (at / BLOCK as u64) as usize;
        let to = (end.div_ceil(BLOCK as u64) as usize).min(self.block_count() as usize);
        match self.lengthen(end, from, to, pool) {
            Ok(()) => {
                self.overwrite(at, fresh);
                Ok(())
            }
            Err(excuse) => Err(excuse),
        }
    }
}

// Appends runs for which there is room.
fn append_all(extents: &mut Extents, runs: &[Run])
    requires runs { All IsRun runs.now }
    requires few { length (appended_all extents.old runs.now) ≤ MAX_EXTENTS }
    ensures { extents.new ≡ appended_all extents.old runs.now }
{
    for run in runs {
        match extents.append(*run) {
            Ok(()) => {}
            Err(Full56) => unreachable!(),
        }
    }
}

// The descriptor with that offset.
fn moved(desc: Desc, at: u64) -> Desc
    ensures { result ≡ descriptors.with_offset desc at }
{
    Desc { at, ..desc }
}
