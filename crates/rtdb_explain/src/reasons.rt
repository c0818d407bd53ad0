//! The explanation of an event by the rules in force.
ghost use Rattle.std.specs.Prelude.{◌≡◌, ◌≤◌, map, true, IfOk, IfSome, IfNone};
ghost use Rattle.tree_model.specs.Put.{overlaps};
ghost use Rattle.path_capture.specs.Write.{tree_or_null};
ghost use Rattle.evaluator.specs.declared.env.TheConstants.{MAX_MOMENT};
ghost use Rattle.judge.specs.Question.{scene_of};
ghost use Rattle.rtdb_model.specs.State.{scene_at};
ghost use Rattle.request_explainer.specs.Asked.{asked_of};
ghost use Rattle.rtdb_explain.specs.Explained.{IsOnRead, IsOnWrites, IsOnEvent, IsUnasked};

use arena_snapshot::{overlaps, overlay};
use bumpalo::Bump;
use evaluator::Asked;
use json_tree::NoMemory;
use judge::Scene;
use listeners::Query;
use path_capture::{Path, Write};
use request_explainer::{Explanation, explain_read, explain_writes};
use requests::Stamp;
use rtdb_core::{Core, Event};
use std::alloc::Global;
use std::slice;

/// The explanation of an event that reads or writes, in the state before it; none of every other event, and of writes
/// that overlap, which no rule is asked for.
pub(crate) fn explained<'a>(
    alloc: Global,
    arena: &'a Bump,
    core: &'a Core,
    stamp: Stamp,
    event: &'a Event,
) -> Result<Option<Explanation<'a>>, NoMemory>
    requires { stamp.now ≤ MAX_MOMENT }
    ensures says { IfOk result (λ found. IfSome found (λ it. IsOnEvent core.now stamp.now stamp.session event.now it.verdict (map asked_of it.rules.items))) }
    ensures unasked { IfOk result (λ found. IfNone found (IsUnasked event.now)) }
{
    let scene = arena.try_alloc(core.scene(stamp.now, stamp.session))?;
    let step = Step {
        alloc,
        arena,
        core,
        stamp,
        scene,
    };
    match event {
        Event::Get(path, query) | Event::Listen(_, path, query) => step.read(path, query),
        Event::Set(write) | Event::OnSet(write) => step.writes(slice::from_ref(write)),
        Event::Remove(removal) | Event::OnRemove(removal) => {
            step.writes(slice::from_ref(removal.write()))
        }
        Event::Update(writes) | Event::OnUpdate(writes) => step.writes(writes.in_order()),
        _ => Ok(None),
    }
}

// By what an event is explained.
#[derive(Clone, Copy)]
struct Step<'a> {
    alloc: Global,
    arena: &'a Bump,
    core: &'a Core,
    stamp: Stamp,
    scene: &'a Scene<'a>,
}

impl<'a> Step<'a> {
    fn read(
        self,
        path: &'a Path,
        query: &'a Option<Query>,
    ) -> Result<Option<Explanation<'a>>, NoMemory>
        requires { scene_of self.scene.now ≡ scene_at self.core.now self.stamp.now self.stamp.session }
        ensures found { IfOk result (λ found. IfNone found ⊥) }
        ensures says { IfOk result (λ found. IfSome found (λ it. IsOnRead self.entry.core.now self.entry.stamp.now self.entry.stamp.session path.now query.now it.verdict (map asked_of it.rules.items))) }
    {
        let asked = match query {
            Some(query) => query.asked(),
            None => Asked::none(),
        };
        let asked = self.arena.try_alloc(asked)?;
        let found = explain_read(self.alloc, self.arena, self.scene, path, asked)?;
        Ok(Some(found))
    }

    fn writes(self, writes: &'a [Write]) -> Result<Option<Explanation<'a>>, NoMemory>
        requires moment { self.stamp.now ≤ MAX_MOMENT }
        requires scene { scene_of self.scene.now ≡ scene_at self.core.now self.stamp.now self.stamp.session }
        ensures overlapping { IfOk result (λ found. IfNone found (overlaps writes.now ≡ true)) }
        ensures says { IfOk result (λ found. IfSome found (λ it. IsOnWrites self.entry.core.now self.entry.stamp.now self.entry.stamp.session writes.now it.verdict (map asked_of it.rules.items))) }
    {
        if overlaps(writes) {
            return Ok(None);
        }
        let coming = overlay(self.arena, self.core.tree(), writes, self.stamp.now)?;
        let coming = self.arena.try_alloc(coming)?;
        let found = explain_writes(self.alloc, self.arena, self.scene, coming, writes)?;
        Ok(Some(found))
    }
}
