//! Which members a message has: its verb, who asks and when, and none that the verb has not.
ghost use Rattle.std.specs.Prelude.{◌≡◌, ◌≤◌, ◌++◌, IfSome};
ghost use Rattle.std.specs.List.{list_all, list_any};
ghost use Rattle.std.specs.Str.{bytes_eq};
ghost use Rattle.serde_json.specs.View.{members_view};
ghost use Rattle.tokens.specs.Tokens.{names_of, has_only};
ghost use Rattle.requests.specs.Message.{whole_at, verb_named, verb_of, verb_in, form_members, verb_members, stamp_of, IsWithin};
ghost use Rattle.json_lines.specs.MemberName.{name_text};
ghost use Rattle.json_lines.specs.Outline.{source_data};

use crate::message::{Form, Stamp, Verb};
use json_lines::{Member, MemberName, Source};
use rtdb_model::MAX_MOMENT;
use serde_json::{Map, Value};

/// The verb that the member `do` names.
pub(crate) fn verb_in(form: Form, source: Source<'_>) -> Option<Verb>
    ensures { result ≡ verb_in form (source_data source.entry) }
{
    verb_of(form, source.text_at(MemberName::Do)?)
}

fn verb_of(form: Form, name: &str) -> Option<Verb>
    ensures { result ≡ verb_of form name.now }
{
    match form {
        Form::Script => if name == "open" {
            return Some(Verb::Open);
        } else if name == "close" {
            return Some(Verb::Close);
        } else if name == "tick" {
            return Some(Verb::Tick);
        } else if name == "leave" {
            return Some(Verb::Leave);
        } else if name == "runnext" {
            return Some(Verb::RunNext);
        },
        Form::Socket(_) => {}
    }
    verb_named(name)
}

fn verb_named(name: &str) -> Option<Verb>
    ensures { result ≡ verb_named name.now }
{
    if name == "signin" {
        Some(Verb::SignIn)
    } else if name == "signout" {
        Some(Verb::SignOut)
    } else if name == "get" {
        Some(Verb::Get)
    } else if name == "set" {
        Some(Verb::Set)
    } else if name == "remove" {
        Some(Verb::Remove)
    } else if name == "update" {
        Some(Verb::Update)
    } else if name == "listen" {
        Some(Verb::Listen)
    } else if name == "unlisten" {
        Some(Verb::Unlisten)
    } else if name == "poll" {
        Some(Verb::Poll)
    } else if name == "deploy" {
        Some(Verb::Deploy)
    } else if name == "onset" {
        Some(Verb::OnSet)
    } else if name == "onremove" {
        Some(Verb::OnRemove)
    } else if name == "onupdate" {
        Some(Verb::OnUpdate)
    } else if name == "oncancel" {
        Some(Verb::OnCancel)
    } else {
        None
    }
}

/// Whether no member has a name that the verb has not in this form.
pub(crate) fn has_only_members(form: Form, verb: Verb, source: Source<'_>) -> bool
    ensures { result ≡ has_only (form_members form ++ verb_members verb) (source_data source.entry) }
{
    match source {
        Source::Outline(members) => are_outlined(form, verb, members),
        Source::Held(value) => match value.as_object() {
            Some(members) => are_members(form, verb, members),
            None => true,
        },
    }
}

fn are_outlined(form: Form, verb: Verb, members: &[Member<'_>]) -> bool
    ensures { result ≡ list_all (λ member. list_any (bytes_eq (name_text member.name)) (form_members form ++ verb_members verb)) members.now }
{
    members
        .iter()
        .all(|member| is_member(form, verb, member.name))
}

fn are_members(form: Form, verb: Verb, members: &Map<String, Value>) -> bool
    ensures { result ≡ list_all (λ name. list_any (bytes_eq name) (form_members form ++ verb_members verb)) (names_of (members_view members.now.entries)) }
{
    for (name, _) in members.iter() {
        match MemberName::of(name.as_str()) {
            Some(name) => if !is_member(form, verb, name) {
                return false;
            },
            None => return false,
        }
    }
    true
}

fn is_member(form: Form, verb: Verb, name: MemberName) -> bool
    ensures { result ≡ list_any (bytes_eq (name_text name)) (form_members form ++ verb_members verb) }
{
    let of_form = match form {
        Form::Script => matches!(name, MemberName::Do | MemberName::Now | MemberName::Session),
        Form::Socket(_) => name == MemberName::Do,
    };
    of_form
        || match verb {
            Verb::Open | Verb::Close | Verb::SignOut | Verb::Poll | Verb::Tick => false,
            Verb::Leave | Verb::RunNext => false,
            Verb::SignIn => name == MemberName::Token,
            Verb::Get => name == MemberName::Path || name == MemberName::Query,
            Verb::Remove | Verb::OnRemove | Verb::OnCancel => name == MemberName::Path,
            Verb::Set | Verb::OnSet => name == MemberName::Path || name == MemberName::Value,
            Verb::Update | Verb::OnUpdate => name == MemberName::Path || name == MemberName::Values,
            Verb::Listen => name == MemberName::Id
                || name == MemberName::Path
                || name == MemberName::Query,
            Verb::Unlisten => name == MemberName::Id,
            Verb::Deploy => name == MemberName::Rules,
        }
}

/// Who asks, and when: what the members say of it, or what the form does.
pub(crate) fn stamp_of(form: Form, source: Source<'_>) -> Option<Stamp>
    ensures stamp { result ≡ stamp_of form (source_data source.entry) }
    ensures moment { IfSome result (λ stamp. IsWithin form → stamp.now ≤ MAX_MOMENT) }
{
    match form {
        Form::Script => {
            let now = whole_at(source, MemberName::Now)?;
            let session = whole_at(source, MemberName::Session)?;
            Some(Stamp { now, session })
        }
        Form::Socket(stamp) => Some(stamp),
    }
}

// A member that is a whole number from 0 to 2^53 - 1.
fn whole_at(source: Source<'_>, name: MemberName) -> Option<u64>
    ensures number { result ≡ whole_at (name_text name) (source_data source.entry) }
    ensures within { IfSome result (λ number. number ≤ MAX_MOMENT) }
{
    let number = source.get(name)?.as_u64()?;
    if number <= MAX_MOMENT {
        Some(number)
    } else {
        None
    }
}
