//! A place, by its keys.
ghost use Rattle.std.specs.Prelude.{◌≡◌, ◌<◌, ◌≤◌, ◌++◌, [], ◌∷◌, take, length, IfOk};
ghost use Rattle.tree_model.specs.declared.limits.TheConstants.{MAX_DEPTH as most_keys};
ghost use Rattle.judge.specs.Placed.{path_by};

use bumpalo::Bump;
use json_tree::{Key, NoMemory};
use std::marker::Model;

/// A place, by its keys, which are borrowed and listed in an arena: at most 32. Contracts see the path.
#[derive(Drop)]
pub struct Place<'a> {
    held: Vec<&'a Key, &'a Bump>,
}

impl<'a> Model for Place<'a> {
    ghost use Rattle.std.specs.Prelude.{◌≤◌, ℕ, List, length};
    ghost use Rattle.std.specs.Coded.{coded_list, coded_ℕ};
    ghost use Rattle.tree_model.specs.declared.limits.TheConstants.{MAX_DEPTH};
    ghost use Rattle.judge.specs.Placed.{path_by};

    ghost Value = { List (List ℕ) };

    ghost coded = { coded_list (coded_list coded_ℕ) };

    ghost view = { λ place. path_by place.held.items };

    ghost invariant = { λ place. length place.held.items ≤ MAX_DEPTH };
}

impl<'a> Place<'a> {
    /// The keys, from the root on. It takes no memory.
    pub fn keys(&self) -> &[&'a Key]
        ensures keys { path_by result.now ≡ self.now }
        ensures few { length result.now ≤ most_keys }
    {
        self.held.as_slice()
    }

    /// The root, in the arena.
    pub(crate) fn root(arena: &'a Bump) -> Result<&'a Place<'a>, NoMemory>
        ensures { IfOk result (λ place. place.now ≡ []) }
    {
        let place = arena.try_alloc(Place {
            held: Vec::new(arena),
        })?;
        Ok(place)
    }

    /// The first of these keys, in the arena.
    pub(crate) fn front(
        arena: &'a Bump,
        keys: &'a [Key],
        count: usize,
    ) -> Result<&'a Place<'a>, NoMemory>
        requires within { count ≤ length keys.now }
        requires few { length keys.now ≤ most_keys }
        ensures { IfOk result (λ place. place.now ≡ take count keys.now) }
    {
        let front = &keys[..count];
        let mut held = Vec::with_capacity(arena, count)?;
        for key in front {
            held.push(key)?;
        }
        let place = arena.try_alloc(Place { held })?;
        Ok(place)
    }

    /// The place one key further down, in the arena.
    pub(crate) fn below(&self, arena: &'a Bump, key: &'a Key) -> Result<&'a Place<'a>, NoMemory>
        requires { length self.now < most_keys }
        ensures { IfOk result (λ place. place.now ≡ self.now ++ key.now ∷ []) }
    {
        let above = self.held.as_slice();
        let mut held = Vec::with_capacity(arena, above.len() + 1)?;
        for key in above {
            held.push(*key)?;
        }
        held.push(key)?;
        let place = arena.try_alloc(Place { held })?;
        Ok(place)
    }
}
