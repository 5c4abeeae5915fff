// What `ccbox` reads and writes: files by their names, and one text. Failures are counted.
#![tactic(auto)]

pub mod blank_sink;
mod calls;
pub mod file_shelf;
pub mod mem_shelf;
pub mod mem_sink;
pub mod out_sink;
pub mod shelf;
pub mod sink;
pub mod sure_sink;
pub mod system;
pub mod whole;
