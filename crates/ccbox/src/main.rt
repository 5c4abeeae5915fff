// Checks a C file, and runs it.
#![tactic(auto)]

use ccbox_call::process::process;
use ckc_io::file_shelf::FileShelf;
use ckc_io::out_sink::OutSink;
use std::env;
use std::process::ExitCode;

fn main(rt: HostRuntime) -> ExitCode {
    let mut shelf = FileShelf::new(&rt);
    let mut sink = OutSink::new(&rt);
    process(rt.alloc(), env::args(&rt), &mut shelf, &mut sink)
}
