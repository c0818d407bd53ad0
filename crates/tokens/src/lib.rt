//! Who may sign in: the identities of a tokens file, each by its secret.
//!
//! The definition is `specs/Tokens`: which identity each secret of a file has. What the layers above
//! need is [`Tokens::find`]: of tokens that were read it gives the identity that stands in the file under
//! this very secret, and nobody for any other.
#![tactic(auto)]

mod claims;
mod fault;
mod identity;
mod laws;
mod members;
mod tokens;
mod worked;

pub use fault::TokensFault;
pub use laws::{
    a_claim_is_what_stands_in_the_file, each_secret_is_a_text_that_is_not_empty,
    find_gives_what_stands_in_the_file,
};
pub use tokens::Tokens;
pub use worked::{what_identities_are, what_tokens_files_give};
