// Whether a program keeps the rules of names, types and regions, and what it becomes.
#![tactic(auto)]

pub mod checker;
mod cores;
mod counts;
mod definitions;
mod function_rules;
mod functions;
mod globals;
mod initials;
mod items;
mod parameters;
mod prototype;
mod signatures;
mod start;
mod structures;
mod texts;
mod walk;
