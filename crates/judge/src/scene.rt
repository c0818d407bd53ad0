//! Where it is judged: the rules in force, who asks, when, and the tree that there is.

use arena_snapshot::View;
use evaluator::{Identity, Moment};
use rules_reader::Rules;

/// What one step of the database judges by: the rules in force, who asks if somebody is signed in, the
/// moment, and the whole tree that stands, if it is not null: before the step, but after it for a listener that
/// is judged again. (Reference, variables: `auth`, `now`, `root` and `data`.)
#[derive(Drop)]
pub struct Scene<'a> {
    pub rules: &'a Rules,
    pub auth: Option<&'a Identity>,
    pub moment: Moment,
    pub old: Option<View<'a>>,
}
