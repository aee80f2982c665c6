//! Runs the script on standard input, and answers it on standard output.
#![tactic(auto)]

use ord_script::{Watched, serve};
use std::process::ExitCode;

fn main(rt: HostRuntime) -> ExitCode {
    let mut reader = Watched::new(rt.stdin());
    let mut writer = Watched::new(rt.stdout());
    let end = serve(rt.alloc(), &mut reader, &mut writer);
    ExitCode::from(end.report(&mut Watched::new(rt.stderr())))
}
