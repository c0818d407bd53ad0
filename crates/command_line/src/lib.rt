//! The command line of `rtdb`: what its words want.
//!
//! The definitions stand in `specs/Order`. What the program needs is [`order`]: it answers what the words want, or the fault
//! of the line.
#![tactic(auto)]

mod line;
mod wanted;

pub use line::{
    a_check_names_one_of_the_words, a_server_has_its_rules_and_its_port,
    faultless_words_are_an_order, order,
};
pub use wanted::{
    LineFault, MAX_PORT, MAX_ROUNDS, MAX_WORKERS, Order, ServeOptions, USUAL_ROUNDS, USUAL_WORKERS,
};
