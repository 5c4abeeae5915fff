// Asks a table of facts, or changes it, so that the time can be measured from outside. What is asked it makes itself.
//
// Words: `facts`, and the numbers of variables (1 to 4,096), of facts and of questions; or `changes` or `joins`, and the
// numbers of variables and of rounds or joins in a dense table. `facts` and `changes` print how many questions are
// answered by yes, and `joins` how many joins were done.
#![tactic(auto)]

ghost use Rattle.std.specs.Prelude.{◌<◌, ◌≤◌};

mod facts;

use facts::{changed, entailed, joined};
use std::env;
use std::process::ExitCode;

fn main(rt: HostRuntime) -> ExitCode {
    let words = words_of(&rt);
    if does(&rt, words.as_slice()) {
        ExitCode::SUCCESS
    } else {
        let _ = eprintln!(rt;
            "wanted: facts N N N, changes N N or joins N N, with numbers that aren't too great"
        );
        ExitCode::FAILURE
    }
}

// The words after the program's name.
fn words_of(rt: &HostRuntime) -> Vec<String> {
    let mut words = Vec::new(rt.alloc());
    if let Ok(given) = env::args(rt) {
        for word in given.skip(1) {
            let _ = words.push(word);
        }
    }
    words
}

// A number that a word spells.
fn number(word: &String) -> Option<u32> {
    word.as_str().parse::<u32>().ok()
}

// Does what the words ask for, if it can.
fn does(rt: &HostRuntime, words: &[String]) -> bool {
    match words {
        [what, vars, count] => match (number(vars), number(count)) {
            (Some(vars), Some(count)) if vars > 0 && vars <= 4096 => {
                does_dense(rt, what.as_str(), vars, count)
            }
            _ => false,
        },
        [what, vars, facts, questions] if what.as_str() == "facts" => {
            match (number(vars), number(facts), number(questions)) {
                (Some(vars), Some(facts), Some(questions)) if vars > 0 && vars <= 4096 => {
                    asks(rt, vars, facts, questions)
                }
                _ => false,
            }
        }
        _ => false,
    }
}

// Asks so many questions over so many facts.
fn asks(rt: &HostRuntime, vars: u32, facts: u32, questions: u32) -> bool
    requires some { 0 < vars }
    requires few { vars ≤ 4096 }
{
    match entailed(rt.alloc(), vars, facts, questions) {
        Some(entailed) => println!(rt; "{entailed} of {questions} are entailed").is_ok(),
        None => false,
    }
}

// Changes or joins dense tables so often.
fn does_dense(rt: &HostRuntime, what: &str, vars: u32, count: u32) -> bool
    requires some { 0 < vars }
    requires few { vars ≤ 4096 }
{
    match what {
        "changes" => match changed(rt.alloc(), vars, count) {
            Some(entailed) => println!(rt; "{entailed} of {count} are entailed").is_ok(),
            None => false,
        },
        "joins" => match joined(rt.alloc(), vars, count) {
            Some(done) => println!(rt; "{done} joins were done").is_ok(),
            None => false,
        },
        _ => false,
    }
}
