// The words of the serial port's lines: what a line asks for, and how the answer to it is spelled. No port is changed here.
#![tactic(auto, using(std::proofs::Common::append_assoc))]

pub mod answer;
pub mod line;
pub mod port;
