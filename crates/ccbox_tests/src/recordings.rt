// An actor that keeps the acts of another one.

use act_recorder::act_list::ActList;
use act_words::act::{Act, Turn};
use ckc_io::mem_shelf::MemShelf;
use sandbox_actor::actor::{Actor, ActorFault, Now};
use sandbox_actor::list_actor::ListActor;
use sandbox_actor::recording_actor::RecordingActor;
use std::alloc::Global;

const ACTS: &str = "{\"act\":\"go\"}\n{\"act\":\"return\",\"value\":7}\n";

// Whether these are the acts of the text.
fn are_its_acts(acts: &ActList) -> bool {
    acts.len() == 2
        && matches!(acts.get(0), Some(Act::Go))
        && matches!(acts.get(1), Some(Act::Return { value: 7 }))
        && acts.get(2).is_none()
}

// Whether the lines of acts are the text.
fn are_its_lines(acts: &ActList) -> bool {
    match acts.lines() {
        Ok(text) => text.as_slice() == ACTS.as_bytes(),
        Err(_) => false,
    }
}

// Takes the acts of the text.
fn take_acts(
    shelf: &mut MemShelf,
    actor: &mut RecordingActor<ListActor>,
) -> Result<(), ActorFault> {
    let now = Now {
        turn: Turn::Sandbox,
        last: None,
    };
    let _go = actor.next(shelf, &now)?;
    let _return = actor.next(shelf, &now)?;
    Ok(())
}

// Whether the acts that the actor of the text gave are kept.
fn keeps_acts_of(alloc: Global, shelf: &mut MemShelf) -> Result<bool, ActorFault> {
    let mut actor = RecordingActor::over(alloc, ListActor::start(alloc, shelf, "acts")?);
    take_acts(shelf, &mut actor)?;
    Ok(are_its_acts(actor.acts()) && are_its_lines(actor.acts()))
}

/// Whether the acts that an actor gave are kept, in their order.
pub fn keeps_acts(alloc: Global) -> bool {
    let mut shelf = MemShelf::new(alloc);
    let _ = shelf.add("acts", ACTS.as_bytes());
    matches!(keeps_acts_of(alloc, &mut shelf), Ok(true))
}
