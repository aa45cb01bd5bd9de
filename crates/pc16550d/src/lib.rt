// No code: this crate holds the PC16550D as its data sheet has it beside the device of crate `serial`,
// and proves the list of their differences exact.
#![tactic(auto)]
