//! Where a text stands among children, as far as their fronts show.
ghost use Rattle.std.specs.Prelude.{◌+◌, ◌<◌, ◌≤◌, length};
ghost use Rattle.json_tree.specs.Working.Search.{AreBefore};

use crate::front::Sought;
use crate::node::Child;

/// So many children from one on, among which a text is sought.
#[derive(Clone, Copy)]
pub(crate) struct Span {
    pub(crate) start: usize,
    pub(crate) count: usize,
}

/// How many of these children, which stand in their order, have a front before that of a text: they stand
/// before it. It takes log w steps for w children, and looks at no key. Up to 1,024 children are halved by
/// steps that stand in no loop: in a loop a compiler makes a branch of the choice of a half, and a processor
/// guesses every second one of them wrongly.
pub(crate) fn count_in_front(children: &[Child], sought: &Sought<'_>) -> usize
    ensures within { result ≤ length children.now }
    ensures before { AreBefore sought.now result children.now }
{
    let count = children.len();
    if count == 0 {
        return 0;
    }
    let span = quarter(children, sought, Span { start: 0, count });
    let span = sixteenth(children, sought, span);
    let span = sixteenth(children, sought, span);
    let start = last(children, sought, span);
    if children[start].is_in_front_of(sought) {
        start + 1
    } else {
        start
    }
}

// One of two halves.
fn half(children: &[Child], sought: &Sought<'_>, span: Span) -> Span
    requires some { 0 < span.count }
    requires within { span.start + span.count ≤ length children.now }
    requires before { AreBefore sought.now span.start children.now }
    ensures some { 0 < result.count }
    ensures within { result.start + result.count ≤ length children.now }
    ensures before { AreBefore sought.now result.start children.now }
    ensures less { 1 < span.count → result.count < span.count }
{
    let below = span.count / 2;
    let middle = span.start + below;
    let count = span.count - below;
    if children[middle].is_in_front_of(sought) {
        Span {
            start: middle,
            count,
        }
    } else {
        Span {
            start: span.start,
            count,
        }
    }
}

// One of four quarters.
fn quarter(children: &[Child], sought: &Sought<'_>, span: Span) -> Span
    requires some { 0 < span.count }
    requires within { span.start + span.count ≤ length children.now }
    requires before { AreBefore sought.now span.start children.now }
    ensures some { 0 < result.count }
    ensures within { result.start + result.count ≤ length children.now }
    ensures before { AreBefore sought.now result.start children.now }
{
    half(children, sought, half(children, sought, span))
}

// One of sixteen parts, or the only child that is left.
fn sixteenth(children: &[Child], sought: &Sought<'_>, span: Span) -> Span
    requires some { 0 < span.count }
    requires within { span.start + span.count ≤ length children.now }
    requires before { AreBefore sought.now span.start children.now }
    ensures some { 0 < result.count }
    ensures within { result.start + result.count ≤ length children.now }
    ensures before { AreBefore sought.now result.start children.now }
{
    if span.count == 1 {
        return span;
    }
    let span = quarter(children, sought, span);
    if span.count == 1 {
        return span;
    }
    quarter(children, sought, span)
}

// The last child that is left.
fn last(children: &[Child], sought: &Sought<'_>, span: Span) -> usize
    requires some { 0 < span.count }
    requires within { span.start + span.count ≤ length children.now }
    requires before { AreBefore sought.now span.start children.now }
    ensures within { result < length children.now }
    ensures before { AreBefore sought.now result children.now }
{
    let mut span = span;
    'halving: while span.count > 1 {
        span = half(children, sought, span);
    }
    span.start
}
