//! The command `components [FILE]`: runs `run_components` with the arguments, the disk and the
//! standard streams, and exits with its status.
#![tactic(auto)]

use component_tool::{DiskSource, OpenGate, run_components};
use std::process::ExitCode;
use tool_run::{StreamSink, words};

/// The exit status if there is no memory for the arguments. Nothing is written then.
const NO_MEMORY: u8 = 7;

fn main(rt: HostRuntime) -> ExitCode {
    let alloc = rt.alloc();
    let Ok(words) = words(&rt) else {
        return ExitCode::from(NO_MEMORY);
    };
    let mut source = DiskSource::new(&rt, alloc);
    let mut out = StreamSink::new(rt.stdout());
    let mut err = StreamSink::new(rt.stderr());
    let status = run_components(
        &rt,
        alloc,
        &words,
        &mut source,
        &mut out,
        &mut err,
        &OpenGate,
    );
    ExitCode::from(status)
}
