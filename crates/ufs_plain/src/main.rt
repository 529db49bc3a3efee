// A measure for the file server: it serves a script from standard input over the plain tree, and prints the replies.
#![tactic(auto)]

mod lines;
mod serving;

use serving::replies;
use std::io;
use std::io::Write;
use std::process::ExitCode;
use ufs_io::StreamSource;

fn main(rt: HostRuntime) -> ExitCode {
    let mut source = StreamSource::new(rt.reader());
    match replies(rt.alloc(), &mut source) {
        Ok(text) => match io::writer(&rt).write_all(text.as_slice()) {
            Ok(()) => ExitCode::SUCCESS,
            Err(_) => ExitCode::FAILURE,
        },
        Err(fault) => {
            let _ = println!(rt; "ufs_plain: {fault:?}");
            ExitCode::FAILURE
        }
    }
}
