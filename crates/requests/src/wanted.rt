//! What a message wants, by its verb.
ghost use Rattle.std.specs.Prelude.{◌≡◌, Some, option_map};
ghost use Rattle.serde_json.specs.View.{view};
ghost use Rattle.tokens.specs.Tokens.{text_at};
ghost use Rattle.json_lines.specs.Lines.{Tells, or_fault};
ghost use Rattle.requests.specs.Message.{path_in, write_in, writes_in, query_at, query_said, id_at, wanted_by};
ghost use Rattle.json_lines.specs.declared.fault.MessageFault.TheVariants.{BadRequest};
ghost use Rattle.json_lines.specs.MemberName.{name_text};
ghost use Rattle.json_lines.specs.Outline.{object_data, source_data, message_data};

use crate::message::{Text, Verb, Wanted};
use json_lines::{
    MemberName, MemberValue, Message, MessageFault, Object, Source, path_of, write_at,
};
use listeners::{ListenerId, Query, QueryFault};
use path_capture::{Path, Write};
use rtdb_model::{Event, Removal, Writes};
use serde_json::Value;
use std::alloc::Global;

/// What the members of a message want, by its verb.
pub(crate) fn wanted_by(
    alloc: Global,
    verb: Verb,
    message: &mut Message<'_>,
) -> Result<Wanted, MessageFault>
    ensures { Tells (λ wanted. wanted) result (wanted_by verb (message_data message.old)) }
{
    let source = message.source();
    match verb {
        Verb::Open => Ok(Wanted::Step(Event::Open)),
        Verb::Close => Ok(Wanted::Step(Event::Close)),
        Verb::SignIn => Ok(Wanted::SignIn(text_in(alloc, source, MemberName::Token)?)),
        Verb::SignOut => Ok(Wanted::Step(Event::SignOut)),
        Verb::Get => get_of(alloc, source),
        Verb::Set => Ok(Wanted::Step(Event::Set(write_in(alloc, message)?))),
        Verb::Remove => Ok(Wanted::Step(Event::Remove(removal_in(alloc, source)?))),
        Verb::Update => Ok(Wanted::Step(Event::Update(writes_in(alloc, message)?))),
        Verb::Listen => listen_of(alloc, source),
        Verb::Unlisten => Ok(Wanted::Step(Event::Unlisten(id_in(source)?))),
        Verb::Poll => Ok(Wanted::Step(Event::Poll)),
        Verb::Tick => Ok(Wanted::Step(Event::Tick)),
        Verb::Deploy => Ok(Wanted::Deploy(text_in(alloc, source, MemberName::Rules)?)),
        Verb::OnSet => Ok(Wanted::Step(Event::OnSet(write_in(alloc, message)?))),
        Verb::OnRemove => Ok(Wanted::Step(Event::OnRemove(removal_in(alloc, source)?))),
        Verb::OnUpdate => Ok(Wanted::Step(Event::OnUpdate(writes_in(alloc, message)?))),
        Verb::OnCancel => Ok(Wanted::Step(Event::OnCancel(path_in(alloc, source)?))),
        Verb::Leave => Ok(Wanted::Step(Event::Leave)),
        Verb::RunNext => Ok(Wanted::Step(Event::RunNext)),
    }
}

fn text_in(alloc: Global, source: Source<'_>, name: MemberName) -> Result<Text, MessageFault>
    ensures { Tells (λ text. text) result (or_fault BadRequest (text_at (name_text name) (source_data source.entry))) }
{
    let Some(text) = source.text_at(name) else {
        return Err(MessageFault::BadRequest);
    };
    let copy = Text::copy_of(alloc, text)?;
    Ok(copy)
}

fn path_in(alloc: Global, source: Source<'_>) -> Result<Path, MessageFault>
    ensures { Tells (λ path. path) result (path_in (source_data source.entry)) }
{
    let Some(text) = source.text_at(MemberName::Path) else {
        return Err(MessageFault::BadRequest);
    };
    path_of(alloc, text)
}

fn removal_in(alloc: Global, source: Source<'_>) -> Result<Removal, MessageFault>
    ensures { Tells (λ removal. removal) result (path_in (source_data source.entry)) }
{
    Ok(Removal::of(path_in(alloc, source)?))
}

fn get_of(alloc: Global, source: Source<'_>) -> Result<Wanted, MessageFault>
    ensures { Tells (λ wanted. wanted) result (wanted_by Verb.Get (source_data source.entry)) }
{
    let Some(text) = source.text_at(MemberName::Path) else {
        return Err(MessageFault::BadRequest);
    };
    let Some(said) = query_at(source) else {
        return Err(MessageFault::BadRequest);
    };
    let path = path_of(alloc, text)?;
    let query = query_said(alloc, said)?;
    Ok(Wanted::Step(Event::Get(path, query)))
}

fn listen_of(alloc: Global, source: Source<'_>) -> Result<Wanted, MessageFault>
    ensures { Tells (λ wanted. wanted) result (wanted_by Verb.Listen (source_data source.entry)) }
{
    let id = id_in(source)?;
    let Some(text) = source.text_at(MemberName::Path) else {
        return Err(MessageFault::BadRequest);
    };
    let Some(said) = query_at(source) else {
        return Err(MessageFault::BadRequest);
    };
    let path = path_of(alloc, text)?;
    let query = query_said(alloc, said)?;
    Ok(Wanted::Step(Event::Listen(id, path, query)))
}

// The id of a listener that the member `id` is.
fn id_in(source: Source<'_>) -> Result<ListenerId, MessageFault>
    ensures { Tells (λ id. id) result (or_fault BadRequest (id_at (source_data source.entry))) }
{
    let Some(id) = id_at(source) else {
        return Err(MessageFault::BadRequest);
    };
    Ok(id)
}

// The same, None where it is not an id.
fn id_at(source: Source<'_>) -> Option<ListenerId>
    ensures { result ≡ id_at (source_data source.entry) }
{
    ListenerId::new(source.text_at(MemberName::Id)?)
}

// The member `query`, None inside where it is left out.
fn query_at(source: Source<'_>) -> Option<Option<Object<'_>>>
    ensures { option_map (λ said. option_map object_data said) result ≡ query_at (source_data source.entry) }
{
    match source.get(MemberName::Query) {
        Some(said) => Some(Some(said.object()?)),
        None => Some(None),
    }
}

fn query_said(alloc: Global, said: Option<Object<'_>>) -> Result<Option<Query>, MessageFault>
    ensures { Tells (λ query. query) result (query_said (option_map object_data said.entry)) }
{
    match said {
        Some(Object::Drafts(named)) => {
            let value = named.value(alloc)?;
            query_of(alloc, &value)
        }
        Some(Object::Held(value)) => query_of(alloc, value),
        None => Ok(None),
    }
}

fn query_of(alloc: Global, value: &Value) -> Result<Option<Query>, MessageFault>
    ensures { Tells (λ query. query) result (query_said (Some (view value.now))) }
{
    match Query::from_json(alloc, value) {
        Ok(query) => Ok(Some(query)),
        Err(QueryFault::BadQuery) => Err(MessageFault::BadQuery),
        Err(QueryFault::NoMemory) => Err(MessageFault::NoMemory),
    }
}

// The write that the members `path` and `value` say.
fn write_in(alloc: Global, message: &mut Message<'_>) -> Result<Write, MessageFault>
    ensures { Tells (λ write. write) result (write_in (message_data message.old)) }
{
    let source = message.source();
    let Some(text) = source.text_at(MemberName::Path) else {
        return Err(MessageFault::BadRequest);
    };
    if source.get(MemberName::Value).is_none() {
        return Err(MessageFault::BadRequest);
    }
    let path = path_of(alloc, text)?;
    let draft = message.take_draft(alloc, MemberName::Value)?;
    write_at(path, draft)
}

// The writes that the members `path` and `values` say.
fn writes_in(alloc: Global, message: &mut Message<'_>) -> Result<Writes, MessageFault>
    ensures { Tells (λ writes. writes) result (writes_in (message_data message.old)) }
{
    let source = message.source();
    let Some(text) = source.text_at(MemberName::Path) else {
        return Err(MessageFault::BadRequest);
    };
    if source
        .get(MemberName::Values)
        .and_then(MemberValue::object)
        .is_none()
    {
        return Err(MessageFault::BadRequest);
    }
    let path = path_of(alloc, text)?;
    let writes = message.take_writes(alloc, MemberName::Values, &path)?;
    Ok(Writes::of_vec(writes))
}
