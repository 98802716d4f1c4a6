//! Ports of a program, what each of them gives and takes, and which side failed.
//!
//! A program is written over the trait `Desk`: it starts a port, and reads or writes it in pieces. Several certificates
//! can be read at any place, and a draft has its name only when it is kept. `read_all` and `write_whole` are the loops
//! over it; `SteadyDesk` and `MemoryDesk` are desks in memory for tests. The desk over real files belongs to the program:
//! this crate opens no file, and says nothing of what a text means.
#![tactic(auto)]

mod calls;
mod desk;
mod memory;
mod whole;

pub use calls::{Calls, Fault};
pub use desk::{Denied, Desk, Failed, Port};
pub use memory::{MemoryDesk, Start, SteadyDesk};
pub use whole::{ReadAll, read_all, write_whole};
