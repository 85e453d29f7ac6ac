//! The command `umapsh`: it runs a workload from standard input over memory and the files of the folder that it is called in,
//! and writes the replies to standard output.
//!
//! It stands on `script_run`, on the lanes of regions, on the folders of files, on the words of a call and on the workload
//! language. `top_serial` promises the exact output and the exact files for the exact input and files, and a status for
//! whatever goes wrong, each with its cause. `main` hands over the real words, variables, streams and folder.
#![tactic(auto)]

mod refusal;
mod status;
#[cfg(test)]
mod tests;
mod top;

use crate::status::Status;
use crate::top::top_serial;
use call_words::{CallFault, read_call};
use file_store::{DirFolder, StdSink, StdSource};
use std::io::Write;
use std::process::ExitCode;

fn main(rt: HostRuntime) -> ExitCode {
    let mut source = StdSource::new(rt.stdin());
    let mut sink = StdSink::new(rt.stdout());
    let status = match read_call(&rt) {
        Ok(call) => {
            let folder = DirFolder::new(rt.alloc(), rt);
            top_serial(rt.alloc(), call, &mut source, folder, &mut sink).0
        }
        Err(CallFault::Refused(fault)) => Status::Words(fault),
        Err(CallFault::OutOfMemory) => Status::Memory,
    };
    let mut text = [0u8; 128];
    let len = status.text(&mut text);
    let _ = rt.stderr().write_all(&text[..len]);
    ExitCode::from(status.code())
}
