// Journal sectors, read.
ghost use Rattle.std.specs.Prelude.{◌≡◌, ◌≤◌, ◌<◌, ◌+◌, ◌*◌, ◌^◌, length, IfOk, ◌==◌};
ghost use Rattle.ufs_image.specs.Journal.{records_in, commit_in, has_records, has_commit};
ghost use Rattle.std.specs.Prelude.{option_map, IsTrue};
ghost use Rattle.ufs_layout.specs.Words.{is_zeros};
ghost use Rattle.ufs_layout.specs.JournalHead.{is_header};
ghost use Rattle.ufs_found.specs.Read.{found_at};
ghost use Rattle.ufs_found.specs.Sorted.{place_of, number_of};
ghost use Rattle.ufs_found.specs.Parts.{commit_read, content_read, with_head};

use byteorder::{ByteOrder, LittleEndian};
use std::alloc::{AllocError, Global};
use std::marker::Model;
use ufs_layout::{Header, LogRecord, Records, get_header, get_records};

/// A sector of the journal that is on its form: where it stands and what it has. A commit has no records.
#[derive(Drop)]
pub struct Found {
    sector: u32,
    epoch: u64,
    txn: u32,
    index: u16,
    commit: Option<u64>,
    records: Records,
}

impl Model for Found {
    ghost use Rattle.ufs_image.specs.Journal.{FoundSector};
    ghost use Rattle.ufs_found.specs.Read.{content_of};

    ghost Value = { FoundSector };

    ghost view = { λ f. (f.sector, record { epoch = f.epoch; txn = f.txn; index = f.index; content = content_of f.commit f.records }) };
}

impl Found {
    pub fn sector(&self) -> u32
        ensures { result ≡ self.now.0 }
    {
        self.sector
    }

    pub fn txn(&self) -> u32
        ensures { result ≡ self.now.1.txn }
    {
        self.txn
    }

    pub fn index(&self) -> u16
        ensures { result ≡ self.now.1.index }
    {
        self.index
    }

    /// Whether it has records.
    pub fn is_part(&self) -> bool
        ensures value { result ≡ has_records self.now }
        ensures small { self.now.1.index < 65536 }
    {
        // For the prover alone.
        let _index = self.index;
        self.commit.is_none()
    }

    /// A number for its transaction and index.
    pub fn place(&self) -> u64
        ensures value { result ≡ place_of self.now }
        ensures small { result < 2 ^ 48 }
    {
        place(self.txn, self.index)
    }

    /// The number of a commit; 0 for records.
    pub fn number(&self) -> u64
        ensures { result ≡ number_of self.now }
    {
        self.commit.unwrap_or(0)
    }

    /// The number of a commit.
    pub fn commit(&self) -> Option<u64>
        ensures { result ≡ commit_in self.now.1.content }
    {
        self.commit
    }

    pub fn is_commit(&self) -> bool
        ensures value { result ≡ has_commit self.now }
        ensures small { self.now.1.index < 65536 }
    {
        // For the prover alone.
        let _index = self.index;
        self.commit.is_some()
    }

    /// The records of a record sector.
    pub fn records(&self) -> &[LogRecord]
        ensures { result.now ≡ records_in self.now.1.content }
    {
        if self.commit.is_some() {
            &[]
        } else {
            self.records.as_slice()
        }
    }

    pub fn has_records(&self) -> bool
        ensures { result ≡ has_records self.now }
    {
        self.commit.is_none()
    }
}

/// A number for each transaction and index, which rises with the transaction and then with the index.
pub fn place(txn: u32, index: u16) -> u64
    ensures value { result ≡ txn * 65536 + index }
    ensures small { result < 2 ^ 48 }
{
    u64::from(txn) * 65_536 + u64::from(index)
}

fn has_only_zeros(bytes: &[u8]) -> bool
    ensures { result ≡ is_zeros bytes.now }
{
    bytes.iter().all(|b| *b == 0)
}

// A commit's number.
fn read_commit(index: u16, content: &[u8]) -> Option<u64>
    ensures { result ≡ commit_read index content.now }
{
    if content.len() != 12 {
        return None;
    }
    if LittleEndian::read_u32(content) != u32::from(index) {
        return None;
    }
    Some(LittleEndian::read_u64(&content[4..]))
}

// A sector by its head and its content.
fn read_content(
    alloc: Global,
    sector: u32,
    head: &Header,
    content: &[u8],
) -> Result<Option<Found>, AllocError>
    ensures { IfOk result (λ found. found ≡ option_map (λ c. (sector, with_head head.now c)) (content_read head.now content.now)) }
{
    let Header {
        epoch,
        txn,
        index,
        kind,
        ..
    } = *head;
    if kind == 2 {
        let Some(number) = read_commit(index, content) else {
            return Ok(None);
        };
        return Ok(Some(Found {
            sector,
            epoch,
            txn,
            index,
            commit: Some(number),
            records: Records::new(alloc),
        }));
    }
    let Some(records) = get_records(alloc, content)? else {
        return Ok(None);
    };
    Ok(Some(Found {
        sector,
        epoch,
        txn,
        index,
        commit: None,
        records,
    }))
}

// What a sector's bytes are the spelling of.
pub(crate) fn read_found(
    alloc: Global,
    sector: u32,
    bytes: &[u8],
) -> Result<Option<Found>, AllocError>
    requires { length bytes.now ≡ 512 }
    ensures { IfOk result (λ found. found ≡ found_at sector bytes.now) }
{
    let Some(head) = get_header(&bytes[..24]) else {
        return Ok(None);
    };
    let end = 24 + usize::from(head.used);
    if !has_only_zeros(&bytes[end..]) {
        return Ok(None);
    }
    read_content(alloc, sector, &head, &bytes[24..end])
}
