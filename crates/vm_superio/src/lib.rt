// No code: this crate holds the serial port of vm-superio 0.8.2 beside the device of crate `serial`,
// and proves the list of their differences exact.
#![tactic(auto)]
