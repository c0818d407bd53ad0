//! A disk in memory. It keeps every content that a crash might have left, and fails and tears where a test wants it.
ghost use Rattle.std.specs.Prelude.{◌≡◌, ◌≢◌, ◌+◌, ◌≤◌, ◌++◌, ◌∷◌, [], ℕ, true, false, min, List, length, take, drop, IfOk, OnOk, IfSome};
ghost use Rattle.std.proofs.Common.{inl, sym, ◌∙◌};
ghost use Rattle.disk.specs.Disk.{overwritten, Torn, ComesFrom};
ghost use Rattle.disk.specs.Outcomes.{IsOutcome, IsOutcomeSince, outcomes_now};

use crate::{Disk, Failed};
use std::alloc::{AllocError, Global};

/// A file in memory. A call that fails is the last: the machine has stopped.
#[derive(Drop)]
pub struct MemoryDisk {
    alloc: Global,
    bytes: Vec<u8>,
    draft: Vec<u8>,
    /// What else a crash may leave now.
    others: Vec<Vec<u8>>,
    /// What a crash might have left before, but not any more.
    past: Vec<Vec<u8>>,
    calls_left: u64,
    reach: usize,
    failed: bool,
}

impl MemoryDisk {
    ghost use Rattle.disk.specs.Memory.{memory_bytes, MemoryMayLeave};

    /// A file with these bytes, all of them on the disk, of which so many calls succeed. The call after them fails;
    /// if it writes, so many of its bytes are written.
    pub fn new(alloc: Global, bytes: Vec<u8>, calls: u64, reach: usize) -> MemoryDisk
        ensures bytes { memory_bytes result ≡ bytes.items }
        ensures durable { (left : List ℕ) → MemoryMayLeave result left → left ≡ bytes.items }
    {
        MemoryDisk {
            alloc,
            bytes,
            draft: Vec::new(alloc),
            others: Vec::new(alloc),
            past: Vec::new(alloc),
            calls_left: calls,
            reach,
            failed: false,
        }
    }

    /// What a read returns.
    pub fn bytes(&self) -> &[u8]
        ensures { result.now ≡ memory_bytes self.now }
    {
        &self.bytes
    }

    /// What a crash may leave, the newest first: at 0 what a read returns.
    pub fn outcome(&self, number: usize) -> Option<&[u8]>
        ensures { IfSome result (λ left. MemoryMayLeave self.now left.now) }
    {
        if number == 0 {
            return Some(&self.bytes);
        }
        if number > self.others.len() {
            return None;
        }
        Some(&self.others[self.others.len() - number])
    }
}

/// Counts a call, and says whether it is the one that fails.
fn stops(calls_left: &mut u64) -> bool {
    if *calls_left == 0 {
        return true;
    }
    *calls_left -= 1;
    false
}

/// How many bytes of a write are written.
fn reached(stops: bool, reach: usize, len: usize) -> usize
    ensures within { result ≤ len }
    ensures all { stops ≡ false → result ≡ len }
{
    if stops { reach.min(len) } else { len }
}

/// The file with bytes written over it.
fn overwrite(alloc: Global, file: &[u8], at: usize, bytes: &[u8]) -> Result<Vec<u8>, AllocError>
    requires { at ≤ length file.now }
    ensures { IfOk result (λ v. v.items ≡ overwritten at bytes.now file.now) }
{
    let mut next = file[..at].to_vec(alloc)?;
    next.extend_from_slice(bytes)?;
    if bytes.len() < file.len() - at {
        next.extend_from_slice(&file[at + bytes.len()..])?;
    }
    Ok(next)
}

/// Puts another content in the place of the file's, which a crash may still leave.
fn replace(alloc: Global, file: &mut Vec<u8>, others: &mut Vec<Vec<u8>>, next: Vec<u8>) -> bool
    ensures done { result ≡ true → (v : _) × (v.items ≡ file.old.items) × (others.new.items ≡ others.old.items ++ v ∷ []) × (file.new.items ≡ next.items) }
    ensures undone { result ≡ false → (others.new.items ≡ others.old.items) × (file.new.items ≡ file.old.items) }
{
    let Ok(before) = file.to_vec(alloc) else {
        return false;
    };
    if others.push(before).is_err() {
        return false;
    }
    *file = next;
    true
}

/// Writes over the file, which a crash may still leave as it was, and says whether it did.
fn write(
    alloc: Global,
    file: &mut Vec<u8>,
    others: &mut Vec<Vec<u8>>,
    at: usize,
    bytes: &[u8],
) -> bool
    ensures done { result ≡ true → at ≤ length file.old.items → file.new.items ≡ overwritten at bytes.now file.old.items }
    ensures crash { ComesFrom (Torn at (length bytes.now)) (IsOutcome file.old.items others.old.items) (IsOutcome file.new.items others.new.items) }
    ensures kept { (left : List ℕ) → IsOutcome file.old.items others.old.items left → IsOutcome file.new.items others.new.items left }
{
    if at > file.len() {
        return false;
    }
    let Ok(next) = overwrite(alloc, file, at, bytes) else {
        return false;
    };
    replace(alloc, file, others, next)
}

impl Disk for MemoryDisk {
    ghost holds = { λ disk file. file ≡ disk.bytes.items };

    ghost draft = { λ disk file. file ≡ disk.draft.items };

    ghost may_leave = { λ disk left. IsOutcome disk.bytes.items disk.others.items left };

    ghost moment = { λ disk. length disk.past.items };

    ghost left_since = { λ disk t left. IsOutcomeSince disk.past.items disk.bytes.items disk.others.items t left };

    ghost has_failed = { λ disk. disk.failed };

    ghost counts_now = { λ disk t left le now. inl now };

    ghost just_now = { λ disk left since. outcomes_now disk.past.items disk.bytes.items disk.others.items left since };

    ghost one_draft = { λ disk a b one two. one ∙ sym two };

    fn is_failed(&self) -> bool {
        self.failed
    }

    fn len(&mut self) -> Result<usize, Failed> {
        if self.failed {
            return Err(Failed);
        }
        if stops(&mut self.calls_left) {
            self.failed = true;
            return Err(Failed);
        }
        Ok(self.bytes.len())
    }

    fn read_at(&mut self, at: usize, buffer: &mut [u8]) -> Result<(), Failed> {
        if self.failed {
            return Err(Failed);
        }
        if stops(&mut self.calls_left) {
            self.failed = true;
            return Err(Failed);
        }
        if at > self.bytes.len() || buffer.len() > self.bytes.len() - at {
            self.failed = true;
            return Err(Failed);
        }
        buffer.copy_from_slice(&self.bytes[at..at + buffer.len()]);
        Ok(())
    }

    fn write_at(&mut self, at: usize, bytes: &[u8]) -> Result<(), Failed> {
        if self.failed {
            return Err(Failed);
        }
        let stops = stops(&mut self.calls_left);
        let reached = reached(stops, self.reach, bytes.len());
        let written = write(
            self.alloc,
            &mut self.bytes,
            &mut self.others,
            at,
            &bytes[..reached],
        );
        if stops || !written {
            self.failed = true;
            return Err(Failed);
        }
        Ok(())
    }

    fn cut(&mut self, len: usize) -> Result<(), Failed> {
        if self.failed {
            return Err(Failed);
        }
        if stops(&mut self.calls_left) || len > self.bytes.len() {
            self.failed = true;
            return Err(Failed);
        }
        let Ok(next) = self.bytes[..len].to_vec(self.alloc) else {
            self.failed = true;
            return Err(Failed);
        };
        if !replace(self.alloc, &mut self.bytes, &mut self.others, next) {
            self.failed = true;
            return Err(Failed);
        }
        Ok(())
    }

    fn sync(&mut self) -> Result<(), Failed> {
        if self.failed {
            return Err(Failed);
        }
        if stops(&mut self.calls_left) {
            self.failed = true;
            return Err(Failed);
        }
        if self.past.append(&mut self.others).is_err() {
            self.failed = true;
            return Err(Failed);
        }
        Ok(())
    }

    fn begin(&mut self) -> Result<(), Failed> {
        if self.failed {
            return Err(Failed);
        }
        if stops(&mut self.calls_left) {
            self.failed = true;
            return Err(Failed);
        }
        self.draft.clear();
        Ok(())
    }

    fn extend(&mut self, bytes: &[u8]) -> Result<(), Failed> {
        if self.failed {
            return Err(Failed);
        }
        if stops(&mut self.calls_left) || self.draft.extend_from_slice(bytes).is_err() {
            self.failed = true;
            return Err(Failed);
        }
        Ok(())
    }

    fn adopt(&mut self) -> Result<(), Failed> {
        if self.failed {
            return Err(Failed);
        }
        if stops(&mut self.calls_left) {
            self.failed = true;
            return Err(Failed);
        }
        let Ok(next) = self.draft.to_vec(self.alloc) else {
            self.failed = true;
            return Err(Failed);
        };
        if !replace(self.alloc, &mut self.bytes, &mut self.others, next) {
            self.failed = true;
            return Err(Failed);
        }
        if self.past.append(&mut self.others).is_err() {
            self.failed = true;
            return Err(Failed);
        }
        Ok(())
    }
}
