//! The program `dta` once more, over a table with a fault: it ends with 3.
#![tactic(auto)]

use dta_run::program;
use file_desk::FileDesk;
use std::env;
use std::process::ExitCode;

fn main(rt: HostRuntime) -> ExitCode {
    ExitCode::from(program(&rt, env::args(&rt), &mut FileDesk::here(rt)))
}
