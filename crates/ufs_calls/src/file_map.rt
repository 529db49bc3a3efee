ghost use Rattle.std.specs.Prelude.{◌≡◌, ◌≤◌, ◌+◌, ◌-◌, ◌++◌, ◌^◌, OnOk, OnErr, length, take, drop, replicate};
ghost use Rattle.std.specs.FinMap as map;
ghost use Rattle.ufs_model.specs.FileBytes.{put_at, resized};

use std::alloc::{AllocError, Global};
use std::collections::BTreeMap;
use std::marker::Model;
use ufs_model::Bytes;

/// The bytes of each file.
#[derive(Drop)]
pub struct FileMap {
    entries: BTreeMap<u32, Bytes>,
}

impl Model for FileMap {
    ghost use Rattle.std.specs.Prelude.{List, ℕ};
    ghost use Rattle.std.specs.FinMap as map;
    ghost use Rattle.std.specs.Ordering.{nat_cmp};
    ghost use Rattle.ufs_calls.specs.Seen.{seen};
    ghost use Rattle.std.specs.Coded.{coded_ℕ, coded_list};

    ghost Value = { map.FinMap nat_cmp (List ℕ) };

    ghost coded = { map.code coded_ℕ (coded_list coded_ℕ) };

    ghost view = { λ m. seen nat_cmp (λ k. k) m.entries };
}

impl FileMap {
    ghost use Rattle.std.specs.Prelude.{◌≡◌, ◌≤◌, ◌^◌, OnOk, OnErr, OnSome, IfOk, IfNone, None, length, []};
    ghost use Rattle.std.specs.Option.{option_map, option_copied};
    ghost use Rattle.std.specs.FinMap as map;
    ghost use Rattle.ufs_model.specs.FileBytes.{bytes_of, put_at, resized};

    /// No file has bytes.
    pub fn new(alloc: Global) -> Self
        ensures { result ≡ map.empty }
    {
        FileMap {
            entries: BTreeMap::new(alloc),
        }
    }

    fn get(&self, file: u32) -> Option<&Bytes>
        ensures { option_copied result ≡ map.get self.now file }
    {
        self.entries.get(&file)
    }

    /// A file's bytes; none where it has none.
    pub fn bytes(&self, file: u32) -> &[u8]
        ensures { result.now ≡ bytes_of self.now file }
    {
        match self.get(file) {
            Some(held) => held.as_slice(),
            None => &[],
        }
    }

    /// Puts bytes in the place of those that the file had.
    pub fn insert(&mut self, file: u32, bytes: Bytes) -> Result<(), AllocError>
        ensures ok { OnOk result (self.new ≡ map.insert self.old file bytes) }
        ensures err { OnErr result (self.new ≡ self.old) }
        ensures absent { OnErr result (map.get self.old file ≡ None) }
    {
        self.replace(file, bytes)?;
        Ok(())
    }

    // Puts bytes in the place of those that the file had, which are the answer.
    fn replace(&mut self, file: u32, bytes: Bytes) -> Result<Option<Bytes>, AllocError>
        ensures ok { OnOk result (self.new ≡ map.insert self.old file bytes) }
        ensures old { IfOk result (λ old. old ≡ map.get self.old file) }
        ensures absent { OnErr result (map.get self.old file ≡ None) }
        ensures err { OnErr result (self.new ≡ self.old) }
    {
        let old = self.entries.insert(file, bytes)?;
        Ok(old)
    }

    // Moves a file's bytes out, and leaves it none.
    fn take(&mut self, alloc: Global, file: u32) -> Option<Vec<u8>>
        ensures value { option_map (λ v. v.items) result ≡ map.get self.old file }
        ensures some { OnSome result (self.new ≡ map.insert self.old file []) }
        ensures none { IfNone result (self.new ≡ self.old) }
    {
        if self.get(file).is_none() {
            return None;
        }
        match self.replace(file, Bytes::from_vec(Vec::new(alloc))) {
            Ok(Some(old)) => Some(old.into_vec()),
            _ => unreachable!(),
        }
    }

    /// Writes into a file from a place on. A gap reads as zeros. Only what is written is copied: the bytes are moved
    /// out and back, and room grows by doubling.
    pub fn write(
        &mut self,
        alloc: Global,
        file: u32,
        at: u64,
        fresh: &[u8],
    ) -> Result<(), AllocError>
        requires place { at ≤ 2 ^ 32 }
        requires size { length fresh.now ≤ 2 ^ 32 }
        ensures ok { OnOk result (self.new ≡ map.insert self.old file (put_at (bytes_of self.old file) at fresh.now)) }
        ensures err { OnErr result (self.new ≡ self.old) }
    {
        match self.take(alloc, file) {
            None => {
                let mut held = Vec::new(alloc);
                put_over(&mut held, at as usize, fresh)?;
                self.insert(file, Bytes::from_vec(held))
            }
            Some(mut held) => {
                let outcome = put_over(&mut held, at as usize, fresh);
                match self.insert(file, Bytes::from_vec(held)) {
                    Ok(()) => outcome,
                    Err(_) => unreachable!(),
                }
            }
        }
    }

    /// Cuts a file, or extends it with zeros.
    pub fn resize(&mut self, alloc: Global, file: u32, size: u64) -> Result<(), AllocError>
        requires { size ≤ 2 ^ 32 }
        ensures ok { OnOk result (self.new ≡ map.insert self.old file (resized (bytes_of self.old file) size)) }
        ensures err { OnErr result (self.new ≡ self.old) }
    {
        match self.take(alloc, file) {
            None => {
                let mut held = Vec::new(alloc);
                set_size(&mut held, size as usize)?;
                self.insert(file, Bytes::from_vec(held))
            }
            Some(mut held) => {
                let outcome = set_size(&mut held, size as usize);
                match self.insert(file, Bytes::from_vec(held)) {
                    Ok(()) => outcome,
                    Err(_) => unreachable!(),
                }
            }
        }
    }

    /// Takes no memory.
    pub fn remove(&mut self, file: u32)
        ensures { self.new ≡ map.remove self.old file }
    {
        // For the prover alone.
        let _count = self.entries.len();
        let _bytes = self.entries.remove(&file);
    }
}

// Writes over bytes that are there.
fn overwrite(bytes: &mut [u8], at: usize, fresh: &[u8])
    requires { at + length fresh.now ≤ length bytes.old }
    ensures { bytes.new ≡ take at bytes.old ++ fresh.now ++ drop (at + length fresh.now) bytes.old }
{
    bytes[at..at + fresh.len()].copy_from_slice(fresh);
}

// Lengthens the bytes with zeros, where they are shorter.
fn lengthen(bytes: &mut Vec<u8>, size: usize) -> Result<(), AllocError>
    ensures ok { OnOk result (bytes.new.items ≡ bytes.old.items ++ replicate (size - length bytes.old.items) 0) }
    ensures err { OnErr result (bytes.new.items ≡ bytes.old.items) }
{
    if bytes.len() < size {
        bytes.resize(size, 0)?;
    }
    Ok(())
}

// Cuts the bytes, or lengthens them with zeros.
fn set_size(bytes: &mut Vec<u8>, size: usize) -> Result<(), AllocError>
    ensures ok { OnOk result (bytes.new.items ≡ resized bytes.old.items size) }
    ensures err { OnErr result (bytes.new.items ≡ bytes.old.items) }
{
    lengthen(bytes, size)?;
    bytes.truncate(size);
    Ok(())
}

// Writes into the bytes from a place on. A gap reads as zeros.
fn put_over(bytes: &mut Vec<u8>, at: usize, fresh: &[u8]) -> Result<(), AllocError>
    requires place { at ≤ 2 ^ 32 }
    requires size { length fresh.now ≤ 2 ^ 32 }
    ensures ok { OnOk result (bytes.new.items ≡ put_at bytes.old.items at fresh.now) }
    ensures err { OnErr result (bytes.new.items ≡ bytes.old.items) }
{
    lengthen(bytes, at + fresh.len())?;
    overwrite(bytes.as_mut_slice(), at, fresh);
    Ok(())
}
