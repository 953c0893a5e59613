//! `spin-run` and `spin-explore`: gives the program the streams and arguments of the process, and returns its status.
//!
//! Which of the two runs is said by the name under which the process was started. `program_over_arguments` of each
//! does the rest.
#![tactic(auto)]

use spin_run::{explore, run};
use std::env::Env;
use std::process::ExitCode;

/// Returns `true` if the process was started under a name that ends with `spin-explore`.
fn explores<R: Env>(rt: &R) -> bool {
    let mut name = [0u8; 4096];
    match rt.arg(0, &mut name) {
        Ok(length) => name[..length].ends_with(b"spin-explore"),
        Err(_) => false,
    }
}

fn main(rt: HostRuntime) -> ExitCode {
    let mut input = run::OfStd::new(rt.stdin());
    let mut output = run::OfStd::new(rt.stdout());
    let mut errors = run::OfStd::new(rt.stderr());
    let status = if explores(&rt) {
        explore::program_over_arguments(&rt, &mut input, &mut output, &mut errors)
    } else {
        run::program_over_arguments(&rt, &mut input, &mut output, &mut errors)
    };
    ExitCode::from(status)
}
