// The library: every function that a host calls, with its contract. The code stands in the devices' crates; include/serialpost.h
// says what each call is for, and has for each a typed one. The names carry the number of the interface: what was compiled for
// another one does not link. (`serialpost_c` exports each under its name, for C.)
#![tactic(auto)]

pub mod counting;
pub mod real_time_clock;
pub mod reset;
pub mod serial_port;
pub mod version;
