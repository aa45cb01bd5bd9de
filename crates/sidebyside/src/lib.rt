// No code: this crate says what it means that a device and the chip of a manual run side by side, up to the rows where they differ.
#![tactic(auto)]
