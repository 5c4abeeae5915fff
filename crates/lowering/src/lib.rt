// From programs with their checks to images whose runs are what the programs mean.
#![tactic(auto)]

mod addresses;
mod call_code;
mod cells;
mod check_code;
mod code_sizes;
mod expression_code;
mod images;
mod instructions;
pub mod laws;
mod loops;
pub mod lower;
mod reach;
mod stacks;
mod statement_code;
