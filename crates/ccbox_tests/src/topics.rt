// All topics in one test, since each test is a program of its own, and is built as one.

use crate::acts::acts;
use crate::facts::entailment;
use crate::files::files_and_outputs;
use crate::memories::memories;
use crate::options::many_inputs;
use crate::printing::printing;
use crate::recordings::keeps_acts;
use crate::rows::expect;
use crate::structs::takes_members;
use crate::tokens::lexing;
use crate::trees::parsing;
use std::alloc::Global;
use std::test::Fail;

fn front_end(alloc: Global) -> Result<(), Fail> {
    lexing(alloc)?;
    parsing(alloc)?;
    printing(alloc)
}

fn libraries(alloc: Global) -> Result<(), Fail> {
    acts(alloc)?;
    expect("kept acts", keeps_acts(alloc))?;
    expect("members", takes_members(alloc))?;
    entailment(alloc)?;
    memories(alloc)
}

fn calls(alloc: Global) -> Result<(), Fail> {
    many_inputs(alloc)?;
    files_and_outputs(alloc)
}

#[test]
fn all(rt: HostRuntime) -> Result<(), Fail> {
    front_end(rt.alloc())?;
    libraries(rt.alloc())?;
    calls(rt.alloc())
}
