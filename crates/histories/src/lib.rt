// No code: this crate says what holds of a serial port over every mix of accesses, input, saving and restoring.
#![tactic(auto)]
