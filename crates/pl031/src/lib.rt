// No code: this crate holds the PL031 as its manual has it beside the device of crate `clock`, and proves the list of their
// differences exact.
#![tactic(auto)]
