//! The program `dta`: the call `program` of dta_run over the arguments, the files of the current
//! folder, standard output and standard error.
#![tactic(auto)]

use dta_run::program;
use file_desk::FileDesk;
use std::env;
use std::process::ExitCode;

fn main(rt: HostRuntime) -> ExitCode {
    ExitCode::from(program(&rt, env::args(&rt), &mut FileDesk::here(rt)))
}
