//! The text of a closing.
ghost use Rattle.std.specs.Prelude.{◌≡◌, ◌++◌, OnOk};
ghost use Rattle.json.specs.Tree.{json_tokens};
ghost use Rattle.serde_json.specs.Written.{outline};
ghost use Rattle.answers.specs.AnswerText.{closed_data};

use json::Writer;
use json_tree::NoMemory;

/// Writes that a session was closed, and how many actions were left.
pub(crate) fn put_closed(out: &mut Writer, left: u64) -> Result<(), NoMemory>
    ensures before { out.new.before ≡ out.old.before }
    ensures tokens { OnOk result (out.new.tokens ≡ out.old.tokens ++ json_tokens (outline (closed_data left))) }
{
    out.begin_object()?;
    out.key("left")?;
    out.u64(left)?;
    out.key("ok")?;
    out.boolean(true)?;
    Ok(out.end_object()?)
}
