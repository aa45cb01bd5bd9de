// No code: this crate holds the manual's column of the lists of accesses to the chips as their manuals have them.
#![tactic(auto)]
