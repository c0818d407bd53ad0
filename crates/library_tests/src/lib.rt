//! The tests of libraries below the machine: calls that no program makes, and faults in words, which none prints. All else is
//! asked of the built programs, by `cases` and `checks`.
#![tactic(auto)]

#[cfg(test)]
mod calls;
#[cfg(test)]
mod words;
