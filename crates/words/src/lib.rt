// The words of a list of operations and of its answers: what a line says, and how an answer is
// spelled. No device is known here, and nothing is read or written.
#![tactic(auto)]

pub mod decimal;
pub mod hex;
pub mod out;
pub mod pattern;

// What is held of a list, and the memory in which its answers wait.
pub type Block = [u8; 65536];
