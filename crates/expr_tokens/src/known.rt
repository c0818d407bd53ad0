//! The names that most rules ask for.
ghost use Rattle.std.specs.Prelude.{◌≡◌, ◌≢◌, IfSome, IfNone};
ghost use Rattle.expr_tokens.specs.Known.{text_of};

/// A name that is asked for at most evaluations: a variable, a part of `auth`, or a method of a snapshot.
/// (Firebase Security Rules reference, variables and RuleDataSnapshot methods.)
#[derive(Clone, Copy, Debug, PartialEq, Eq)]
pub enum KnownName {
    Auth,
    Now,
    Root,
    Data,
    NewData,
    Query,
    Uid,
    Provider,
    Token,
    Val,
    Exists,
    IsNumber,
    IsString,
    IsBoolean,
    Parent,
    Child,
    HasChild,
    HasChildren,
}

impl KnownName {
    // The name that has this text.
    pub(crate) fn of(text: &str) -> Option<KnownName>
        ensures some { IfSome result (λ known. text_of known ≡ text.now) }
        ensures none { IfNone result ((known : KnownName) → text_of known ≢ text.now) }
    {
        match text {
            "auth" => Some(KnownName::Auth),
            "now" => Some(KnownName::Now),
            "root" => Some(KnownName::Root),
            "data" => Some(KnownName::Data),
            "newData" => Some(KnownName::NewData),
            "query" => Some(KnownName::Query),
            "uid" => Some(KnownName::Uid),
            "provider" => Some(KnownName::Provider),
            "token" => Some(KnownName::Token),
            "val" => Some(KnownName::Val),
            "exists" => Some(KnownName::Exists),
            "isNumber" => Some(KnownName::IsNumber),
            "isString" => Some(KnownName::IsString),
            "isBoolean" => Some(KnownName::IsBoolean),
            "parent" => Some(KnownName::Parent),
            "child" => Some(KnownName::Child),
            "hasChild" => Some(KnownName::HasChild),
            "hasChildren" => Some(KnownName::HasChildren),
            _ => None,
        }
    }
}
