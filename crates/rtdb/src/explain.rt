//! What is wrong with a file, for a person.
ghost use Rattle.std.specs.Prelude.{◌≡◌, ◌≢◌};
ghost use Rattle.rtdb.specs.Status.{refused};

use crate::command::REFUSED;
use crate::opening::Contents;
use command_line::ServeOptions;
use diagnosis::{diagnose, report, report_data, report_tokens};
use json_lines::MessageFault;
use json_tree::NoMemory;
use rtdb_core::MAX_LOCATIONS;
use scripts::HeaderFault;
use std::alloc::Global;
use std::io;

/// Reports where a rules file of this name is at fault, if the status says that it was refused. That this may fail
/// changes nothing.
pub(crate) fn explain_rules<E: io::Write>(
    alloc: Global,
    status: u8,
    name: &str,
    bytes: &[u8],
    faults: &mut E,
)
    ensures quiet { status ≢ refused → E.contents faults.new ≡ E.contents faults.old }
{
    if status != REFUSED {
        return;
    }
    let Ok(Some(diagnosis)) = diagnose(alloc, bytes) else {
        return;
    };
    put(report(alloc, name, bytes, &diagnosis), faults);
}

/// Reports where the files of a server are at fault. That this may fail changes nothing.
pub(crate) fn explain_fault<E: io::Write>(
    alloc: Global,
    fault: &HeaderFault,
    options: &ServeOptions<'_>,
    contents: &Contents,
    faults: &mut E,
) {
    match fault {
        HeaderFault::Rules(_) => {
            explain_rules(alloc, REFUSED, options.rules_file, &contents.rules, faults);
        }
        HeaderFault::Line(MessageFault::NoMemory) | HeaderFault::Data(MessageFault::NoMemory) => {}
        HeaderFault::Line(_) | HeaderFault::Data(_) => {
            if let (Some(name), Some(bytes)) = (options.data_file, &contents.data_bytes) {
                put(report_data(alloc, name, bytes), faults);
            }
        }
        HeaderFault::BadTokens => {
            if let (Some(name), Some(bytes)) = (options.tokens_file, &contents.tokens) {
                put(report_tokens(alloc, name, bytes), faults);
            }
        }
        HeaderFault::TreeFull => explain_full(options, faults),
    }
}

// Reports that a tree has too many locations.
fn explain_full<E: io::Write>(options: &ServeOptions<'_>, faults: &mut E) {
    if let Some(name) = options.data_file {
        let _reported = writeln!(
            faults,
            "{name}: the tree has more than {MAX_LOCATIONS} locations: each key that leads to a value is one, and so is the root"
        );
    }
}

// Reports a text, if it was made.
fn put<E: io::Write>(text: Result<String, NoMemory>, faults: &mut E) {
    if let Ok(text) = text {
        let _reported = write!(faults, "{text}");
    }
}
