//! Judging a read, and writes.
ghost use Rattle.std.specs.Prelude.{◌≡◌, ◌↔◌, true, map, IfOk};
ghost use Rattle.tree_model.specs.Put.{location};
ghost use Rattle.tree_model.specs.Write.{proposed};
ghost use Rattle.path_capture.specs.Write.{tree_or_null};
ghost use Rattle.evaluator.specs.Asked.{asked_of};
ghost use Rattle.judge.specs.Question.{scene_of};
ghost use Rattle.judge.specs.Judging.{IsReadVerdict, IsWriteVerdict, MayRead};

use arena_snapshot::View;
use bumpalo::Bump;
use evaluator::Asked;
use json_tree::NoMemory;
use judge::{Scene, Verdict, judge_read, judge_write, may_read};
use path_capture::{Path, Write};
use std::alloc::Global;

/// What [`judge_read`] promises.
pub fn judged_read<'a>(
    alloc: Global,
    arena: &'a Bump,
    scene: &'a Scene<'a>,
    path: &'a Path,
    asked: &'a Asked<'a>,
) -> Result<Verdict, NoMemory>
    ensures { IfOk result (IsReadVerdict (scene_of scene.now) (asked_of asked.now) path.now) }
{
    judge_read(alloc, arena, scene, path, asked)
}

/// What [`may_read`] promises.
pub fn readable<'a>(
    arena: &'a Bump,
    scene: &'a Scene<'a>,
    path: &'a Path,
    asked: &'a Asked<'a>,
) -> Result<bool, NoMemory>
    ensures { IfOk result (λ granted. (granted ≡ true) ↔ MayRead (scene_of scene.now) (asked_of asked.now) path.now) }
{
    may_read(arena, scene, path, asked)
}

/// What [`judge_write`] promises.
pub fn judged_writes<'a>(
    alloc: Global,
    arena: &'a Bump,
    scene: &'a Scene<'a>,
    coming: Option<View<'a>>,
    writes: &'a [Write],
) -> Result<Verdict, NoMemory>
    requires { tree_or_null coming ≡ proposed (tree_or_null scene.now.old) writes.now scene.now.moment }
    ensures { IfOk result (IsWriteVerdict (scene_of scene.now) (proposed (tree_or_null scene.now.old) writes.now scene.now.moment) (map location writes.now)) }
{
    judge_write(alloc, arena, scene, coming, writes)
}
