//! The rows of the table of sorts.
ghost use Rattle.std.specs.Prelude.{◌≡◌, Result, Err};
ghost use Rattle.expr_types.specs.Faults.{use_fault};
ghost use Rattle.expr_types.specs.Working.SortOf.{is_read, variable_sort, member_sort, call_sort, or_fault};
ghost use Rattle.expr_types.specs.Working.Gives.{Gives, Refuses};
ghost use Rattle.expr_types.specs.declared.sort.Sort.{Sort};

use crate::fault::{FaultyName, TypeFault};
use crate::names::{
    is_auth_name, is_excluded, is_query_name, is_snapshot_test, is_spelled, is_text_test,
};
use crate::place::Place;
use crate::sort::{Given, Sort};
use std::alloc::Global;

// The sort of a variable of this name in a rule for this place, if there is one.
#[tactic(auto, unfolding(crate::specs::Working::SortOf::variable_sort))]
pub(crate) fn variable(place: Place, name: &str) -> Option<Sort>
    ensures { result ≡ variable_sort (is_read place) name.now }
{
    match name {
        "now" => Some(Sort::Value),
        "auth" => Some(Sort::Auth),
        "root" | "data" => Some(Sort::Snapshot),
        "newData" if place != Place::ReadRule => Some(Sort::Snapshot),
        "query" if place == Place::ReadRule => Some(Sort::Query),
        _ => None,
    }
}

// The sort of a member of this name, or why there is none.
pub(crate) fn member(
    alloc: Global,
    receiver: Sort,
    name: &str,
    fault: &mut TypeFault,
) -> Option<Sort>
    ensures { Gives result fault.new (or_fault (member_sort receiver name.now) (use_fault name.now)) }
{
    let found = member_row(receiver, name);
    if found.is_none() {
        *fault = use_fault(alloc, name);
    }
    found
}

#[tactic(auto, unfolding(crate::specs::Working::SortOf::member_sort))]
fn member_row(receiver: Sort, name: &str) -> Option<Sort>
    ensures { result ≡ member_sort receiver name.now }
{
    match receiver {
        Sort::Value if name == "length" => Some(Sort::Value),
        Sort::Auth if is_auth_name(name) => Some(Sort::Value),
        Sort::Auth if name == "token" => Some(Sort::Token),
        Sort::Token => Some(Sort::Value),
        Sort::Query if is_query_name(name) => Some(Sort::Value),
        _ => None,
    }
}

// The sort of what a call of this name gives, or why it is invalid.
pub(crate) fn call(
    alloc: Global,
    receiver: Sort,
    name: &str,
    given: Given,
    fault: &mut TypeFault,
) -> Option<Sort>
    ensures { Gives result fault.new (or_fault (call_sort receiver name.now given) (use_fault name.now)) }
{
    let found = call_row(receiver, name, given);
    if found.is_none() {
        *fault = use_fault(alloc, name);
    }
    found
}

#[tactic(auto, unfolding(crate::specs::Working::SortOf::call_sort))]
fn call_row(receiver: Sort, name: &str, given: Given) -> Option<Sort>
    ensures { result ≡ call_sort receiver name.now given }
{
    match receiver {
        Sort::Value => text_call(name, given),
        Sort::Snapshot => snapshot_call(name, given),
        Sort::Auth | Sort::Token | Sort::Query => None,
    }
}

#[tactic(auto, unfolding(crate::specs::Working::SortOf::call_sort))]
fn text_call(name: &str, given: Given) -> Option<Sort>
    ensures { result ≡ call_sort Sort.Value name.now given }
{
    match given {
        Given::OneValue if is_text_test(name) => Some(Sort::Value),
        Given::TwoValues if name == "replace" => Some(Sort::Value),
        _ => None,
    }
}

#[tactic(auto, unfolding(crate::specs::Working::SortOf::call_sort))]
fn snapshot_call(name: &str, given: Given) -> Option<Sort>
    ensures { result ≡ call_sort Sort.Snapshot name.now given }
{
    match given {
        Given::Nothing if is_snapshot_test(name) => Some(Sort::Value),
        Given::Nothing if name == "parent" => Some(Sort::Snapshot),
        Given::OneValue if name == "hasChild" => Some(Sort::Value),
        Given::OneValue if name == "child" => Some(Sort::Snapshot),
        Given::OneList if name == "hasChildren" => Some(Sort::Value),
        _ => None,
    }
}

// What a use of this name is refused for, where it is no row.
#[tactic(auto, unfolding(crate::specs::Faults::use_fault))]
fn use_fault(alloc: Global, name: &str) -> TypeFault
    ensures { Refuses {A = Sort} result (Err (use_fault name.now)) }
{
    let is_excluded = is_excluded(name);
    if !is_excluded && is_spelled(name) {
        return TypeFault::TypeError;
    }
    match FaultyName::of_text(alloc, name) {
        Ok(name) if is_excluded => TypeFault::NotInProfile(name),
        Ok(name) => TypeFault::UnknownName(name),
        Err(_) => TypeFault::NoMemory,
    }
}
