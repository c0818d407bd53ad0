//! The tests of `rtdb_core`, `locked_server` and `sessions`: what only a test inside can show. A database is asked over an
//! arena that has little memory, or that can't be reset; a hall by many threads; a session over a stream that fails at each
//! byte. All else that these crates do is asked of the built programs, by `cases` and `checks`. They stand in a crate of their
//! own, since a crate with tests is proved twice.
#![tactic(auto)]

#[cfg(test)]
mod frames;
#[cfg(test)]
mod growing;
#[cfg(test)]
mod lines;
#[cfg(test)]
mod little;
#[cfg(test)]
mod place;
#[cfg(test)]
mod rounds;
#[cfg(test)]
mod seats;
#[cfg(test)]
mod streams;
#[cfg(test)]
mod stuck;
#[cfg(test)]
mod threads;
#[cfg(test)]
mod wire;
