// The three numbers that fix where everything lies.
ghost use Rattle.std.specs.Prelude.{◌≡◌, ◌≤◌, ◌<◌, IfOk, IfErr, Some, None};
ghost use Rattle.ufs_layout.specs.Areas.{count_up, bitmap_blocks, first_of_inodes, first_of_journal, first_of_data, sector_count, sector_of_inode, geometry_refusal, refusal_number, IsGeometry};

use ufs_base::MAX_BLOCKS;

/// The fewest blocks of an image.
pub const MIN_BLOCKS: u32 = 64;

/// The fewest inodes of an image.
pub const MIN_INODES: u32 = 16;

/// The most inodes of an image.
pub const MAX_INODES: u32 = 4_096;

/// The fewest sectors of a journal.
pub const MIN_JOURNAL: u32 = 64;

/// The most sectors of a journal.
pub const MAX_JOURNAL: u32 = 4_096;

/// The blocks of which one block of the bitmap has the bits.
pub const BLOCK_BITS: u32 = 32_768;

/// The first block of the bitmap, behind the superblock's.
pub const FIRST_OF_BITMAP: u32 = 1;

// The inodes of a block of the inode table, and the journal's sectors of a block.
const PER_BLOCK: u32 = 8;

/// The numbers of blocks, inodes and journal sectors of an image. A block has 4,096 bytes, 8 sectors.
#[derive(Clone, Copy, Debug, PartialEq, Eq)]
pub struct Geometry {
    pub blocks: u32,
    pub inodes: u32,
    pub journal: u32,
}

/// Why a geometry is refused.
#[derive(Clone, Copy, Debug, PartialEq, Eq)]
pub enum BadGeometry {
    /// The blocks aren't 64 to 65,536.
    Blocks,
    /// The inodes aren't 16 to 4,096.
    Inodes,
    /// The journal sectors aren't 64 to 4,096.
    Journal,
    /// No block is left for data.
    NoData,
}

impl BadGeometry {
    /// The number by which a refusal is told, from 1.
    pub fn number(self) -> u8
        ensures { result ≡ refusal_number self }
    {
        match self {
            BadGeometry::Blocks => 1,
            BadGeometry::Inodes => 2,
            BadGeometry::Journal => 3,
            BadGeometry::NoData => 4,
        }
    }
}

impl Geometry {
    /// Of several refusals the first in their order counts.
    pub fn make(blocks: u32, inodes: u32, journal: u32) -> Result<Geometry, BadGeometry>
        ensures made { IfOk result (λ g. g ≡ record { blocks = blocks; inodes = inodes; journal = journal }) }
        ensures taken { IfOk result (λ g. geometry_refusal g ≡ None) }
        ensures limits { IfOk result IsGeometry }
        ensures refused { IfErr result (λ bad. geometry_refusal (record { blocks = blocks; inodes = inodes; journal = journal }) ≡ Some bad) }
    {
        if blocks < MIN_BLOCKS || blocks > MAX_BLOCKS {
            return Err(BadGeometry::Blocks);
        }
        if inodes < MIN_INODES || inodes > MAX_INODES {
            return Err(BadGeometry::Inodes);
        }
        if journal < MIN_JOURNAL || journal > MAX_JOURNAL {
            return Err(BadGeometry::Journal);
        }
        let geometry = Geometry {
            blocks,
            inodes,
            journal,
        };
        if geometry.first_of_data() >= blocks {
            return Err(BadGeometry::NoData);
        }
        Ok(geometry)
    }

    /// The blocks of the bitmap.
    pub fn bitmap_blocks(&self) -> u32
        requires { self.now.blocks ≤ MAX_BLOCKS }
        ensures { result ≡ bitmap_blocks self.now }
    {
        count_up(self.blocks, BLOCK_BITS)
    }

    /// The first block of the inode table.
    pub fn first_of_inodes(&self) -> u32
        requires { self.now.blocks ≤ MAX_BLOCKS }
        ensures { result ≡ first_of_inodes self.now }
    {
        FIRST_OF_BITMAP + self.bitmap_blocks()
    }

    /// The first block of the journal.
    pub fn first_of_journal(&self) -> u32
        requires blocks { self.now.blocks ≤ MAX_BLOCKS }
        requires inodes { self.now.inodes ≤ MAX_INODES }
        ensures { result ≡ first_of_journal self.now }
    {
        self.first_of_inodes() + count_up(self.inodes, PER_BLOCK)
    }

    /// The first block of the data area.
    pub fn first_of_data(&self) -> u32
        requires blocks { self.now.blocks ≤ MAX_BLOCKS }
        requires inodes { self.now.inodes ≤ MAX_INODES }
        requires journal { self.now.journal ≤ MAX_JOURNAL }
        ensures { result ≡ first_of_data self.now }
    {
        self.first_of_journal() + count_up(self.journal, PER_BLOCK)
    }

    /// The sectors that the image takes on a disk.
    pub fn sector_count(&self) -> u32
        requires { self.now.blocks ≤ MAX_BLOCKS }
        ensures { result ≡ sector_count self.now }
    {
        8 * self.blocks
    }

    /// The sector of an inode, from 1 to the number of inodes.
    pub fn sector_of_inode(&self, inode: u32) -> u32
        requires blocks { self.now.blocks ≤ MAX_BLOCKS }
        requires from_one { 1 ≤ inode }
        requires few { inode ≤ MAX_INODES }
        ensures { result ≡ sector_of_inode self.now inode }
    {
        8 * self.first_of_inodes() + (inode - 1)
    }
}

// How many pieces of this size hold n.
fn count_up(n: u32, size: u32) -> u32
    requires some { 0 < size }
    requires small { size ≤ MAX_BLOCKS }
    requires few { n ≤ MAX_BLOCKS }
    ensures { result ≡ count_up n size }
{
    (n + (size - 1)) / size
}
