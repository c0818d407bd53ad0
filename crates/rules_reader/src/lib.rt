//! Rules files: from their bytes to the rules that stand at a path.
//!
//! Contracts see [`Rules`] as what the file states: the patterns of its objects, each with the rules
//! that stand there. [`compile`] reads a file. What the layer above needs most is [`RuleNode::step`]: from the root along a
//! path it leads to the pattern that stands there, or to none.
#![tactic(auto)]

mod fault;
mod file;
mod kind;
mod limits;
mod mentions;
mod node;
mod objects;
mod plain_text;
mod rule;
mod rule_text;
mod rules;
mod shape;

pub use fault::{LeftOut, RuleFault, RuleName, RulesFault};
pub use file::{a_file_has_one_answer, compile, each_file_has_an_answer};
pub use kind::Kind;
pub use limits::{MAX_FILE_BYTES, MAX_RULES, the_limits};
pub use mentions::TreeVariable;
pub use node::RuleNode;
pub use plain_text::{every_file_has_one_plain_text, plain};
pub use rule_text::{Unread, read_rule, sort_in_rule};
pub use rules::Rules;
pub use shape::{is_sound_member, part};
