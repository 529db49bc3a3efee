// The same program, which is run over two files as one: both are made.
#![tactic(auto)]

use std::process::ExitCode;
use ufs_process::process_status;

fn main(rt: HostRuntime) -> ExitCode {
    ExitCode::from(process_status(&rt))
}
