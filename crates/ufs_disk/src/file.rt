ghost use Rattle.std.specs.Prelude.{◌≡◌, ◌≢◌, ◌≤◌, ◌<◌, ◌+◌, ◌^◌, length, false, Ok, IsTrue, OnOk, IfErr};
ghost use Rattle.ufs_disk.specs.Bytes.{AreZeros};
ghost use Rattle.ufs_disk.specs.File.{CanAnswer, IsSettledFile, Missing, Open, Unopened};
ghost use Rattle.ufs_disk.specs.Handles.{state_of};
ghost use Rattle.ufs_disk.specs.Moments.{unseen};
ghost use Rattle.ufs_base.specs.Faults.{HasCause};
ghost use Rattle.ufs_disk.specs.Props.{untrue};
ghost use Rattle.std.proofs.Common.{rules};

use crate::{Disk, Fault};
use std::fs::{File, Files, OpenOptions};
use std::io::{self, ErrorKind};
use std::marker::Model;
use std::os::unix::fs::FileExt;
use ufs_base::SECTOR;

/// The sectors of a disk over a file: 256 MiB.
pub const FILE_SECTORS: u32 = 524_288;

// What became of the file. The lock is held as long as the file is open.
#[derive(Drop)]
enum Handle {
    Unopened,
    Missing,
    Open(File),
    Refused,
}

/// A disk of `FILE_SECTORS` sectors over a file. The disk's first call opens the file and takes its
/// lock, which the disk holds to its end: where another holds the lock, or the file can't be opened,
/// that call and every later one fails. A file that is missing reads zeros, as does a file past its
/// end. The first write makes it, and fails where it is there by then. Contracts don't see what it
/// holds. Each error of the system is a fault.
///
/// The lock is the advisory one of Linux's `flock`: it keeps out those that ask for it, as every
/// such disk does.
#[derive(Drop)]
pub struct FileDisk<'a, R: Files<File = File>> {
    files: &'a R,
    path: &'a str,
    handle: Handle,
    faults: u64,
}

impl<'a, R: Files<File = File>> Model for FileDisk<'a, R> {
    ghost use Rattle.ufs_disk.specs.File.{FileView};
    ghost use Rattle.ufs_disk.specs.Handles.{state_of};

    ghost Value = { FileView };

    ghost view = { λ d. record { file = state_of d.handle; faults = d.faults } };
}

impl<'a, R: Files<File = File>> FileDisk<'a, R> {
    /// The disk over the file of that path.
    pub fn new(files: &'a R, path: &'a str) -> Self
        ensures { result ≡ record { file = Unopened; faults = 0 } }
    {
        FileDisk {
            files,
            path,
            handle: Handle::Unopened,
            faults: 0,
        }
    }

    // Opens the file and takes its lock, if no call has tried that.
    fn open(&mut self)
        ensures tried { self.new.file ≢ Unopened }
        ensures kept { self.old.file ≢ Unopened → self.new.file ≡ self.old.file }
        ensures faults { self.new.faults ≡ self.old.faults }
    {
        if let Handle::Unopened = &self.handle {
            self.handle = match reading_and_writing().open(self.files, self.path) {
                Ok(file) => locked(file),
                Err(error) if error.kind() == ErrorKind::NotFound => Handle::Missing,
                Err(_) => Handle::Refused,
            };
        }
    }

    // Opens the file to write: makes it where it was missing.
    fn open_to_write(&mut self)
        ensures tried { self.new.file ≢ Unopened }
        ensures made { self.new.file ≢ Missing }
        ensures kept { IsSettledFile self.old.file → self.new.file ≡ self.old.file }
        ensures faults { self.new.faults ≡ self.old.faults }
    {
        self.open();
        if let Handle::Missing = &self.handle {
            let made = reading_and_writing()
                .create_new(true)
                .open(self.files, self.path);
            self.handle = match made {
                Ok(file) => locked(file),
                Err(_) => Handle::Refused,
            };
        }
    }

    // Passes on whether a call was done, and counts a fault.
    fn told(&mut self, done: bool) -> Result<(), Fault>
        ensures done { OnOk result (IsTrue done) }
        ensures passed { IsTrue done → result ≡ Ok tt }
        ensures kept { self.new.file ≡ self.old.file }
        ensures cause { HasCause self.old.faults self.new.faults result }
        ensures number { IfErr result (λ fault. fault.number ≡ self.new.faults) }
    {
        if done {
            return Ok(());
        }
        self.faults = self.faults.saturating_add(1);
        Err(Fault {
            number: self.faults,
        })
    }
}

fn reading_and_writing() -> OpenOptions {
    let mut options = OpenOptions::new();
    options.read(true).write(true);
    options
}

// The file with its lock, unless another holds it.
fn locked(file: File) -> Handle
    ensures { IsSettledFile (state_of result) }
{
    match file.try_lock() {
        Ok(()) => Handle::Open(file),
        Err(_) => Handle::Refused,
    }
}

// The place of a sector in the file.
fn offset(sector: u32) -> u64
    ensures { result < 2 ^ 42 }
{
    sector as u64 * SECTOR as u64
}

// Fills the buffer with the file's bytes from there on, and past its end with zeros.
fn fill(file: &File, at: u64, buf: &mut [u8]) -> io::Result<()>
    requires { at + length buf.old < 2 ^ 64 }
{
    let mut done = 0;
    while done < buf.len() {
        let got = file.read_at(&mut buf[done..], at + done as u64)?;
        if got == 0 {
            buf[done..].fill(0);
            return Ok(());
        }
        done += got;
    }
    Ok(())
}

impl<'a, R: Files<File = File>> Disk for FileDisk<'a, R> {
    ghost use Rattle.ufs_disk.specs.Disk.{IsRange};

    ghost visible = { false };

    ghost keeps = { false };

    ghost size = { λ d. 524288 };

    ghost moments = { λ d. unseen };

    ghost faults = { λ d. d.faults };

    ghost small = { λ d. Prim.search rules };

    ghost whole = { λ visible d. absurd (untrue visible) };

    fn sectors(&self) -> u32 {
        FILE_SECTORS
    }

    fn read(&mut self, sector: u32, buf: &mut [u8]) -> Result<(), Fault>
        requires { IsRange 524288 sector (length buf.old) }
        ensures open { OnOk result (CanAnswer self.new.file) }
        ensures kept { self.old.file ≢ Unopened → self.new.file ≡ self.old.file }
        ensures zeros { self.new.file ≡ Missing → AreZeros buf.new }
        ensures missing { self.new.file ≡ Missing → result ≡ Ok tt }
        ensures cause { HasCause self.old.faults self.new.faults result }
        ensures number { IfErr result (λ fault. fault.number ≡ self.new.faults) }
    {
        self.open();
        let done = match &self.handle {
            Handle::Open(file) => fill(file, offset(sector), buf).is_ok(),
            Handle::Missing => {
                buf.fill(0);
                true
            }
            Handle::Unopened | Handle::Refused => false,
        };
        self.told(done)
    }

    fn write(&mut self, sector: u32, bytes: &[u8]) -> Result<(), Fault>
        requires { IsRange 524288 sector (length bytes.now) }
        ensures open { OnOk result (self.new.file ≡ Open) }
        ensures kept { IsSettledFile self.old.file → self.new.file ≡ self.old.file }
        ensures made { self.new.file ≢ Missing }
        ensures cause { HasCause self.old.faults self.new.faults result }
        ensures number { IfErr result (λ fault. fault.number ≡ self.new.faults) }
    {
        self.open_to_write();
        let done = match &self.handle {
            Handle::Open(file) => file.write_all_at(bytes, offset(sector)).is_ok(),
            Handle::Unopened | Handle::Missing | Handle::Refused => false,
        };
        self.told(done)
    }

    fn barrier(&mut self) -> Result<(), Fault>
        ensures open { OnOk result (CanAnswer self.new.file) }
        ensures kept { self.old.file ≢ Unopened → self.new.file ≡ self.old.file }
        ensures missing { self.new.file ≡ Missing → result ≡ Ok tt }
        ensures cause { HasCause self.old.faults self.new.faults result }
        ensures number { IfErr result (λ fault. fault.number ≡ self.new.faults) }
    {
        self.open();
        let done = match &self.handle {
            Handle::Open(file) => file.sync_all().is_ok(),
            Handle::Missing => true,
            Handle::Unopened | Handle::Refused => false,
        };
        self.told(done)
    }
}
