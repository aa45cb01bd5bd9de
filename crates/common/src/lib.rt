// What the devices' crates share: how an answer's word is laid out, why a form is refused; the definitions and laws on bits and lists
// have no code.
#![tactic(auto)]

pub mod answer;
pub mod form;
