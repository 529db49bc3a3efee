// The same program, which is run on a broken script and another image: status 2, and no file is made.
#![tactic(auto)]

use std::process::ExitCode;
use ufs_process::process_status;

fn main(rt: HostRuntime) -> ExitCode {
    ExitCode::from(process_status(&rt))
}
