//! Whether writes overlap: such writes propose no tree together.
ghost use Rattle.std.specs.Prelude.{◌≡◌, IfSome};
ghost use Rattle.std.specs.List.{list_any};
ghost use Rattle.tree_model.specs.Put.{do_overlap, overlaps};

use path_capture::Write;

/// Whether the location of some write is at or above that of another one. It takes no memory. Where
/// the n writes stand in the order of their locations, only neighbours are compared, which is 2 · n
/// comparisons of paths; else n · n. (This project's profile.)
pub fn overlaps(writes: &[Write]) -> bool
    ensures { result ≡ overlaps writes.now }
{
    match overlap_in_order(writes) {
        Some(found) => found,
        None => overlap_in_any_order(writes),
    }
}

// Whether neighbours overlap, of writes in the order of their locations: there every location below
// another follows it. Of writes in another order, and without such neighbours up to the first that
// is out of order, nothing.
fn overlap_in_order(writes: &[Write]) -> Option<bool>
    ensures { IfSome result (λ found. found ≡ overlaps writes.now) }
{
    for i in 1..writes.len() {
        let (write, next) = (writes[i - 1].at(), writes[i].at());
        if write.is_prefix(next) {
            return Some(true);
        }
        if write.compare(next).is_gt() {
            return None;
        }
    }
    Some(false)
}

fn overlap_in_any_order(writes: &[Write]) -> bool
    ensures { result ≡ overlaps writes.now }
{
    for i in 0..writes.len() {
        if overlaps_any(&writes[i], &writes[i + 1..]) {
            return true;
        }
    }
    false
}

fn overlaps_any(write: &Write, others: &[Write]) -> bool
    ensures { result ≡ list_any (do_overlap write.now) others.now }
{
    others.iter().any(|other| do_overlap(write, other))
}

fn do_overlap(write: &Write, other: &Write) -> bool
    ensures { result ≡ do_overlap write.now other.now }
{
    write.at().is_prefix(other.at()) || other.at().is_prefix(write.at())
}
