//! A run of the program whose words, day, input, files, sockets and outputs are those of the process.
#![tactic(auto)]

mod clock;
mod house;
pub mod run;
mod sockets;
pub mod streams;
mod zone;

pub use house::SocketHouse;
pub use run::run_process;
