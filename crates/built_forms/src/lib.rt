// Which programs have only forms that are built.
#![tactic(auto)]

pub mod expressions;
pub mod items;
pub mod laws;
pub mod statements;
