//! `acs MODE KIND ENGINE WORD..` prints where words occur in standard input, or exchanges them for others.
#![tactic(auto)]

use ac_search::{FromRead, IntoWrite, Sink};
use fault::Fault;
use run::{report, run_on_arguments, status};
use std::process::ExitCode;
use std::{env, io};

mod fault;
mod input;
mod laws;
mod modes;
mod output;
mod request;
mod run;
#[cfg(test)]
mod tests;

fn main(rt: HostRuntime) -> ExitCode {
    let mut errors = IntoWrite::new(rt.stderr().lock());
    let status = match run_on_streams(&rt, &mut errors) {
        Ok(status) => status,
        Err(fault) => {
            let outcome = Err(fault);
            report(&outcome, &mut errors);
            status(&outcome)
        }
    };
    ExitCode::from(status)
}

/// Runs on the program's arguments, standard input and standard output, and returns the exit status.
///
/// # Errors
/// `Memory` where the arguments can't be copied, `Usage` where one of them is no text.
fn run_on_streams<E: Sink>(rt: &HostRuntime, errors: &mut E) -> Result<u8, Fault> {
    let arguments = match env::args(rt) {
        Ok(arguments) => arguments,
        Err(e) if e.kind() == io::ErrorKind::OutOfMemory => return Err(Fault::Memory),
        Err(_) => return Err(Fault::Usage),
    };
    let mut reader = FromRead::new(rt.stdin().lock());
    let mut writer = IntoWrite::new(rt.stdout().lock());
    run_on_arguments(rt.alloc(), arguments, &mut reader, &mut writer, errors)
}
