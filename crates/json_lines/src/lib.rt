//! Lines of JSON: their members, and the paths, trees, drafts and writes in them. It knows no database.
//!
//! [`outline_of`] reads the members of a line in one pass over its bytes, of the names that lines have, with objects
//! of drafts as such; [`read_value`] reads any other line as a JSON value. [`Message`] is what either gives, and
//! `value_of` the definition that both meet.
#![tactic(auto)]

mod children;
mod draft_children;
mod draft_members;
mod fault;
mod limits;
mod member_name;
mod nested;
mod outline;
mod plain_scalars;
mod plain_text;
mod plain_tokens;
mod runs;
mod source;
mod token_reader;
mod value;
mod writes;

pub use draft_members::DraftMembers;
pub use fault::MessageFault;
pub use limits::{MAX_MESSAGE_BYTES, the_limit_of_messages};
pub use member_name::MemberName;
pub use outline::{Member, MemberValue, Outline, outline_of};
pub use runs::plain_run;
pub use source::{Message, Object, Source};
pub use value::read_value;
pub use writes::{path_of, tree_of_given, write_at};
