// No code: this crate says what the counters count of each answer of the devices.
#![tactic(auto)]
