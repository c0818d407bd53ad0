//! The laws of the database, over the definitions of its steps and runs alone.
//!
//! Each function does nothing, and its contract is a law. [`every_call_of_a_run_is_judged_by_the_rules_in_force`] is
//! the one that readers of the headline want; the machine of `rtdb_core` meets `Step`, so what is proved here of steps
//! and runs holds of it.
#![tactic(auto)]

mod action_laws;
mod effect_laws;
mod listener_laws;
mod run_laws;
mod step_laws;
mod worked;

pub use action_laws::{
    a_run_makes_the_first_that_waits, an_action_has_one_end, what_is_established_is_what_was_asked,
    what_is_taken_back_lies_below, what_waits_is_what_was_established,
};
pub use effect_laws::{only_the_listeners_are_left_out, what_changes_something_is_enough};
pub use listener_laws::{
    a_failed_grant_is_the_end, a_poll_hands_out_what_was_marked, marks_are_history,
    the_tests_of_listeners_decide, what_a_grant_hangs_on_changes_where_it_is_judged,
    what_is_listened_to_is_what_was_begun,
};
pub use run_laws::{
    a_run_changes_identities_by_their_sessions, a_run_changes_presence_by_its_sessions,
    a_run_changes_the_rules_by_deployments, a_run_has_one_end,
    every_call_of_a_run_is_judged_by_the_rules_in_force, every_list_of_calls_has_a_run,
    what_is_stored_is_what_was_written,
};
pub use step_laws::{
    a_refused_event_changes_nothing, a_step_is_a_function, every_step_is_judged,
    no_step_answers_spent, what_ends_takes_no_memory, what_takes_no_memory_is_answered,
};
pub use worked::{
    what_leaving_sessions_are_answered, what_reads_are_answered, what_writes_are_answered,
};
