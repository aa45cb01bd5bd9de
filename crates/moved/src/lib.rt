// No code: this crate says what holds of a device that is saved, written as bytes, read elsewhere, restored there and run.
#![tactic(auto)]
