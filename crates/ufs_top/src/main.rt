// The file server's program: its words, its script from standard input, its lines to standard output.
#![tactic(auto)]

use std::process::ExitCode;
use ufs_process::process_status;

fn main(rt: HostRuntime) -> ExitCode {
    ExitCode::from(process_status(&rt))
}
