//! Where the parts of an expression are written, counted in tokens.
//!
//! An expression has no places: [`width`] says how many tokens spell it, and [`parts`] which parts it has and how many
//! of its tokens are before each. With the places of the tokens ([`scan`](expr_tokens::scan)) these are places in the
//! text.
#![tactic(auto)]

mod laws;
mod places;

pub use laws::{parts_are_spelled_at_their_places, tokens_that_spell_an_expression};
pub use places::{Placed, parts, width};
