// The sectors of an epoch, as they are read.
ghost use Rattle.std.specs.Prelude.{◌≡◌, ◌++◌, ◌*◌, ◌+◌, ◌<◌, ◌/◌, ◌%◌, ◌^◌, ◌==◌, [], None, length, OnOk};
ghost use Rattle.ufs_base.specs.Choices.{first_of};
ghost use Rattle.ufs_image.specs.Journal.{epoch_in, well_spelled};
ghost use Rattle.ufs_found.specs.Read.{read_one, listed, off_form, read_from, pieces_from, misspelled};

use crate::Found;
use crate::found::read_found;
use byteorder::{ByteOrder, LittleEndian};
use std::alloc::{AllocError, Global};
use ufs_base::SECTOR;

/// Those that are on their form, in the order of their places, and the lowest that is off it.
#[derive(Drop)]
pub struct Sectors {
    pub found: Vec<Found>,
    pub misspelled: Option<u32>,
}

// Notes a sector of the epoch.
fn note(list: &mut Sectors, sector: u32, found: Option<Found>) -> Result<(), AllocError>
    ensures found { OnOk result (list.new.found.items ≡ list.old.found.items ++ listed found) }
    ensures misspelled { OnOk result (list.new.misspelled ≡ first_of list.old.misspelled (off_form sector found)) }
{
    if let Some(one) = found {
        list.found.push(one)?;
        return Ok(());
    }
    if list.misspelled.is_none() {
        list.misspelled = Some(sector);
    }
    Ok(())
}

fn is_of_epoch(bytes: &[u8], epoch: u64) -> bool
    requires { length bytes.now ≡ 512 }
    ensures { result ≡ (epoch_in bytes.now == epoch) }
{
    LittleEndian::read_u64(bytes) == epoch
}

// Notes a sector, where it is of the epoch.
fn note_sector(
    list: &mut Sectors,
    alloc: Global,
    epoch: u64,
    sector: u32,
    bytes: &[u8],
) -> Result<(), AllocError>
    requires { length bytes.now ≡ 512 }
    ensures found { OnOk result (list.new.found.items ≡ list.old.found.items ++ well_spelled (read_one epoch sector bytes.now)) }
    ensures misspelled { OnOk result (list.new.misspelled ≡ first_of list.old.misspelled (misspelled (read_one epoch sector bytes.now))) }
{
    if !is_of_epoch(bytes, epoch) {
        return Ok(());
    }
    let found = read_found(alloc, sector, bytes)?;
    note(list, sector, found)
}

/// Notes whole sectors, the first of which has this number.
pub fn note_sectors(
    list: &mut Sectors,
    alloc: Global,
    epoch: u64,
    sector: u32,
    bytes: &[u8],
) -> Result<(), AllocError>
    requires whole { length bytes.now % 512 ≡ 0 }
    requires small { sector + length bytes.now < 2 ^ 32 }
    ensures found { OnOk result (list.new.found.items ≡ list.old.found.items ++ well_spelled (read_from epoch (pieces_from sector bytes.now) sector (length bytes.now / 512))) }
    ensures misspelled { OnOk result (list.new.misspelled ≡ first_of list.old.misspelled (misspelled (read_from epoch (pieces_from sector bytes.now) sector (length bytes.now / 512)))) }
{
    let count = bytes.len() / SECTOR;
    for i in 0..count {
        let at = SECTOR * i;
        note_sector(
            list,
            alloc,
            epoch,
            sector + i as u32,
            &bytes[at..at + SECTOR],
        )?;
    }
    Ok(())
}
