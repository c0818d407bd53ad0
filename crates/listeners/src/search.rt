//! How many children come before a key, in the order in which they are stored.
ghost use Rattle.std.specs.Prelude.{◌≡◌, false, slice_get};
ghost use Rattle.std.specs.Option.{option_map_or};
ghost use Rattle.tree_model.specs.Tree.{child_keys};
ghost use Rattle.arena_snapshot.specs.Working.Change.{entries_of};
ghost use Rattle.listeners.specs.Working.Reach.{is_on, IsCount};

use arena_snapshot::View;

// The keys before a key alone, or that key itself too.
#[derive(Clone, Copy)]
pub(crate) enum Side {
    Before,
    UpTo,
}

// How many children have keys on this side of a key, by the bytes of both: a binary search.
pub(crate) fn count(view: &View<'_>, key: &str, side: Side) -> usize
    ensures { IsCount (entries_of view.now) (is_on side key.now) result }
{
    let mut low = 0;
    let mut high = view.width();
    while low < high {
        let middle = low + (high - low) / 2;
        if is_on(view, middle, key, side) {
            low = middle + 1;
        } else {
            high = middle;
        }
    }
    low
}

// Whether the key at an index is on this side.
fn is_on(view: &View<'_>, i: usize, key: &str, side: Side) -> bool
    ensures { result ≡ option_map_or (is_on side key.now) (slice_get (child_keys view.now) i) false }
{
    match view.key_at(i) {
        Some(found) => {
            let order = found.text().cmp(key);
            match side {
                Side::Before => order.is_lt(),
                Side::UpTo => !order.is_gt(),
            }
        }
        None => false,
    }
}
