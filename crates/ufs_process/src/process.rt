// The program over the real words, streams and files.
use crate::top::mirrored;
use std::env::{self, Env};
use std::fs::{File, Files};
use std::io;
use ufs_base::Lack;
use ufs_command::{WordsFault, image_path, respond};
use ufs_disk::FileDisk;
use ufs_io::{StreamSink, StreamSource};
use ufs_words::{image_of, mirror_of};

// The words of the command line behind the program's name.
fn command_words<R: Env + AllocGlobal>(rt: &R) -> Result<Vec<String>, WordsFault> {
    let all = match env::args(rt) {
        Ok(all) => all,
        Err(e) => {
            return Err(match e.kind() {
                io::ErrorKind::InvalidData => WordsFault::NotText,
                _ => WordsFault::Lack(Lack::Told),
            });
        }
    };
    let mut words = Vec::new(rt.alloc());
    for (place, word) in all.enumerate() {
        if place == 0 {
            continue;
        }
        if let Err(refused) = words.push(word) {
            return Err(WordsFault::Lack(Lack::from(refused)));
        }
    }
    Ok(words)
}

// The paths of an image's file and of its mirror's, where the words name both.
fn both_paths(words: &Result<Vec<String>, WordsFault>) -> Option<(&str, &str)> {
    match words {
        Ok(words) => Some((image_of(words)?, mirror_of(words)?)),
        Err(_) => None,
    }
}

/// The status of a process whose words are a command line, whose script is standard input, and whose
/// lines go to standard output. A file is opened only where the command touches the disk. Where the
/// words name a mirror's file beside the image's, the two are one disk.
pub fn process_status<R: AllocGlobal + Env + Files<File = File> + Input + Print>(rt: &R) -> u8 {
    let words = command_words(rt);
    let mut source = StreamSource::new(rt.reader());
    let mut sink = StreamSink::new(io::writer(rt));
    if let Ok(line) = &words {
        if let Some((image, mirror)) = both_paths(&words) {
            let first = FileDisk::new(rt, image);
            let second = FileDisk::new(rt, mirror);
            return mirrored(rt.alloc(), line, &mut source, &mut sink, first, second).status;
        }
    }
    let disk = FileDisk::new(rt, image_path(&words));
    respond(rt.alloc(), &words, &mut source, &mut sink, disk).status
}
