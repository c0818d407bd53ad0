//! The names of the rules language, by the rows of the table of sorts.
ghost use Rattle.std.specs.Prelude.{◌≡◌};
ghost use Rattle.expr_types.specs.Names.{is_among, auth_names, query_names, text_tests, snapshot_tests, excluded_names, lone_names, is_spelled};

pub(crate) fn is_auth_name(name: &str) -> bool
    ensures { result ≡ is_among name.now auth_names }
{
    matches!(name, "uid" | "provider")
}

pub(crate) fn is_query_name(name: &str) -> bool
    ensures { result ≡ is_among name.now query_names }
{
    matches!(
        name,
        "orderByKey"
            | "orderByValue"
            | "orderByChild"
            | "startAt"
            | "endAt"
            | "equalTo"
            | "limitToFirst"
            | "limitToLast"
    )
}

pub(crate) fn is_text_test(name: &str) -> bool
    ensures { result ≡ is_among name.now text_tests }
{
    matches!(name, "contains" | "beginsWith" | "endsWith")
}

pub(crate) fn is_snapshot_test(name: &str) -> bool
    ensures { result ≡ is_among name.now snapshot_tests }
{
    matches!(
        name,
        "val" | "exists" | "hasChildren" | "isNumber" | "isString" | "isBoolean"
    )
}

pub(crate) fn is_excluded(name: &str) -> bool
    ensures { result ≡ is_among name.now excluded_names }
{
    matches!(
        name,
        "matches" | "toLowerCase" | "toUpperCase" | "getPriority" | "orderByPriority"
    )
}

fn is_lone_name(name: &str) -> bool
    ensures { result ≡ is_among name.now lone_names }
{
    matches!(
        name,
        "token" | "length" | "replace" | "hasChild" | "child" | "parent"
    )
}

// Whether some row of the table spells the name.
pub(crate) fn is_spelled(name: &str) -> bool
    ensures { result ≡ is_spelled name.now }
{
    is_auth_name(name)
        || is_query_name(name)
        || is_text_test(name)
        || is_snapshot_test(name)
        || is_lone_name(name)
}
