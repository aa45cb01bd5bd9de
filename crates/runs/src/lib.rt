// No code: this crate holds what holds over every run of the serial port.
#![tactic(auto)]
