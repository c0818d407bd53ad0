//! What the `.read` rules on the way to a path look at, found out without an evaluation.
ghost use Rattle.std.specs.Prelude.{◌≡◌, ◌+◌, ◌≤◌, length, IfSome, IfNone};
ghost use Rattle.tree_model.specs.declared.limits.TheConstants.{MAX_DEPTH as most_keys};
ghost use Rattle.tree_model.specs.Path.{Path as Keys};
ghost use Rattle.rules_reader.specs.Book.{Book};
ghost use Rattle.rules_reader.specs.Place.{HasOneCapture};
ghost use Rattle.rules_reader.proofs.Reached.{Reached};
ghost use Rattle.judge.specs.Watching.{IsWatched, LooksElsewhere};
ghost use Rattle.judge.specs.Working.Watched.{WatchedFrom, WatchedBelow, ElsewhereFrom};

use expr_types::Scope;
use json_tree::Key;
use path_capture::Path;
use rules_reader::{RuleNode, Rules};

/// The place that decides a read of a path: as long as the rules, who asks, the query and what stands at
/// this place stay as they are, the read is granted or denied as before, at whatever moment. It is the
/// path, or the first place above it whose `.read` looks at data there, given by its keys, which are the
/// front of those of the path. None where a `.read` on the way looks at the moment or elsewhere (`now`,
/// `root`, `parent()`). One step among the rules for each key, and no evaluation. It takes no memory. (This
/// project's profile.)
pub fn watched<'a>(rules: &Rules, path: &'a Path) -> Option<&'a [Key]>
    ensures place { IfSome result (λ place. IsWatched rules.now path.now place.now) }
    ensures none { IfNone result (LooksElsewhere rules.now path.now) }
{
    let keys = path.keys();
    let count = watched_from(rules.root(), 0, keys)?;
    Some(&keys[..count])
}

// How many keys the place has, as far as the rules at a node and further down the rest decide it. The node
// stands behind so many keys.
fn watched_from(node: &RuleNode, depth: usize, rest: &[Key]) -> Option<usize>
    requires { depth + length rest.now ≤ most_keys }
    ensures place { (book : Book) (from : Keys) → HasOneCapture book → Reached book node.now from → length from ≡ depth → IfSome result (WatchedFrom book from rest.now) }
    ensures none { (book : Book) (from : Keys) → HasOneCapture book → Reached book node.now from → length from ≡ depth → IfNone result (ElsewhereFrom book from rest.now) }
{
    match rest {
        [] => watched_here(node, depth, depth),
        [key, others @ ..] => match node.step(key.text()) {
            Some(next) => {
                let below = watched_from(next, depth + 1, others)?;
                watched_here(node, depth, below)
            }
            None => watched_here(node, depth, depth + rest.len()),
        },
    }
}

// The same, where this is what the rules properly below the node decide.
fn watched_here(node: &RuleNode, depth: usize, below: usize) -> Option<usize>
    ensures place { (book : Book) (from rest : Keys) → HasOneCapture book → Reached book node.now from → length from ≡ depth → WatchedBelow book from rest below → IfSome result (WatchedFrom book from rest) }
    ensures none { (book : Book) (from rest : Keys) → HasOneCapture book → Reached book node.now from → IfNone result (ElsewhereFrom book from rest) }
{
    match node.read() {
        None => Some(below),
        Some(rule) => match rule.scope() {
            Scope::Request => Some(below),
            Scope::Location => Some(depth),
            Scope::Database => None,
        },
    }
}
