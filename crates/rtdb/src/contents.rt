//! What is read of a server's files.
ghost use Rattle.std.specs.Prelude.{◌≡◌, ◌⊎◌, None, IfOk, IfErr, OnOk, option_map};
ghost use Rattle.rtdb.specs.Command.{AreRead, IsFront, IsFrontOf, IsUnknown, IsUnread};
ghost use Rattle.rtdb.specs.Opening.{bytes_of};
ghost use Rattle.command_line.specs.Order.{served_by};
ghost use Rattle.rtdb.specs.Status.{failed, no_memory};

use crate::command::{FAILED, out_of_memory};
use crate::files::{Files, ReadFault};
use crate::opening::Contents;
use command_line::ServeOptions;
use rules_reader::MAX_FILE_BYTES;
use std::alloc::Global;
use std::io;

/// How much is read of a file that has no limit of its own: all that memory could hold.
pub const MOST_BYTES: usize = usize::MAX;

/// The bytes of a server's files, read in the order rules, opening tree, tokens; or the status where one is not
/// read, which is reported.
pub fn read_contents<F: Files, E: io::Write>(
    alloc: Global,
    files: &F,
    options: &ServeOptions<'_>,
    faults: &mut E,
) -> Result<Contents, u8>
    ensures ok { IfOk result (λ contents. AreRead (F.bytes files.now) (served_by options.now) (bytes_of contents)) }
    ensures err { IfErr result (λ status. ((status ≡ failed) × IsUnread (F.bytes files.now) (served_by options.now)) ⊎ (status ≡ no_memory)) }
    ensures quiet { OnOk result (E.contents faults.new ≡ E.contents faults.old) }
{
    let rules = read_file(alloc, files, options.rules_file, MAX_FILE_BYTES, faults)?;
    let data_bytes = read_if_named(alloc, files, options.data_file, faults)?;
    let tokens = read_if_named(alloc, files, options.tokens_file, faults)?;
    Ok(Contents {
        rules,
        data_bytes,
        tokens,
    })
}

fn read_if_named<F: Files, E: io::Write>(
    alloc: Global,
    files: &F,
    name: Option<&str>,
    faults: &mut E,
) -> Result<Option<Vec<u8>>, u8>
    ensures ok { IfOk result (λ bytes. IsFrontOf (F.bytes files.now) (option_map (λ name. name.now) name.entry) (option_map (λ found. found.items) bytes)) }
    ensures err { IfErr result (λ status. ((status ≡ failed) × IsUnknown (F.bytes files.now) (option_map (λ name. name.now) name.entry)) ⊎ (status ≡ no_memory)) }
    ensures quiet { OnOk result (E.contents faults.new ≡ E.contents faults.old) }
{
    match name {
        Some(name) => Ok(Some(read_file(alloc, files, name, MOST_BYTES, faults)?)),
        None => Ok(None),
    }
}

// The first bytes of a file, or the status where it is not read.
fn read_file<F: Files, E: io::Write>(
    alloc: Global,
    files: &F,
    name: &str,
    limit: usize,
    faults: &mut E,
) -> Result<Vec<u8>, u8>
    ensures ok { IfOk result (λ bytes. IsFront (F.bytes files.now name.now) limit bytes.items) }
    ensures err { IfErr result (λ status. ((status ≡ failed) × (F.bytes files.now name.now ≡ None)) ⊎ (status ≡ no_memory)) }
    ensures quiet { OnOk result (E.contents faults.new ≡ E.contents faults.old) }
{
    match files.read(alloc, name, limit) {
        Ok(bytes) => Ok(bytes),
        Err(ReadFault::Unreadable) => {
            let _reported = writeln!(faults, "rtdb: can't read {name}");
            Err(FAILED)
        }
        Err(ReadFault::NoMemory) => Err(out_of_memory(faults)),
    }
}
