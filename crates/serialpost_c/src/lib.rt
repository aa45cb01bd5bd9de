// The library as C links it: each function of `serialpost` under its name, with its clauses. A crate is a library or a static
// library and not both, so nothing else stands here.
#![tactic(auto)]

mod counting;
mod real_time_clock;
mod reset;
mod serial_port;
mod version;
