//! How far a run of bytes goes, by sixteen of them at once.
ghost use Rattle.std.specs.Prelude.{◌≡◌, ◌<◌, ◌≤◌, true, false, length, take, get_or, map};
ghost use Rattle.std.specs.Char.{is_ascii_digit};
ghost use Rattle.std.specs.List.{list_all, prefix_len};
ghost use Rattle.std.specs.Simd.Lanes.{mask_l};
ghost use Rattle.json_lines.specs.Tokens.{is_plain, is_stop, is_no_digit};

use std::simd::prelude::*;

// How many bytes are tested at once.
const STEP: usize = 16;

/// How many bytes come first that may stand in quotes as they are.
#[inline(always)]
pub fn plain_run(bytes: &[u8]) -> usize
    ensures within { result ≤ length bytes.now }
    ensures passes { list_all is_plain (take result bytes.now) ≡ true }
    ensures stops { result < length bytes.now → is_plain (get_or bytes.now result 0) ≡ false }
{
    let mut n = 0;
    while bytes.len() - n >= STEP {
        let count = plain_lanes(u8x16::from_slice(&bytes[n..]));
        n += count;
        if count < STEP {
            return n;
        }
    }
    plain_rest(bytes, n)
}

// The same, where so many are known to be such, byte by byte.
fn plain_rest(bytes: &[u8], known: usize) -> usize
    requires within { known ≤ length bytes.now }
    requires passes { list_all is_plain (take known bytes.now) ≡ true }
    ensures within { result ≤ length bytes.now }
    ensures passes { list_all is_plain (take result bytes.now) ≡ true }
    ensures stops { result < length bytes.now → is_plain (get_or bytes.now result 0) ≡ false }
{
    let mut n = known;
    while n < bytes.len() && is_plain(bytes[n]) {
        n += 1;
    }
    n
}

// How many of these bytes come first that may stand in quotes as they are.
#[inline(always)]
fn plain_lanes(v: u8x16) -> usize
    ensures { result ≡ prefix_len is_plain v }
{
    let stops = stops(v);
    if stops == 0 {
        STEP
    } else {
        stops.trailing_zeros() as usize
    }
}

#[inline(always)]
fn stops(v: u8x16) -> u64
    ensures { result ≡ mask_l (map is_stop v) }
{
    let quotes = v.simd_eq(u8x16::splat(b'"'));
    let escapes = v.simd_eq(u8x16::splat(b'\\'));
    let controls = v.simd_lt(u8x16::splat(b' '));
    (quotes | escapes | controls).to_bitmask()
}

#[inline(always)]
fn is_plain(b: u8) -> bool
    ensures { result ≡ is_plain b }
{
    b >= b' ' && b != b'"' && b != b'\\'
}

/// How many digits come first.
#[inline(always)]
pub(crate) fn digit_run(bytes: &[u8]) -> usize
    ensures within { result ≤ length bytes.now }
    ensures passes { list_all is_ascii_digit (take result bytes.now) ≡ true }
    ensures some { is_ascii_digit (get_or bytes.now 0 0) ≡ true → 0 < result }
{
    if bytes.len() < STEP {
        return digit_rest(bytes);
    }
    let count = digit_lanes(u8x16::from_slice(bytes));
    if count < STEP {
        return count;
    }
    digit_rest(bytes)
}

// The same, byte by byte.
fn digit_rest(bytes: &[u8]) -> usize
    ensures within { result ≤ length bytes.now }
    ensures passes { list_all is_ascii_digit (take result bytes.now) ≡ true }
    ensures some { is_ascii_digit (get_or bytes.now 0 0) ≡ true → 0 < result }
{
    let mut n = 0;
    while n < bytes.len() && bytes[n].is_ascii_digit() {
        n += 1;
    }
    n
}

// How many digits come first among these bytes.
#[inline(always)]
fn digit_lanes(v: u8x16) -> usize
    ensures { result ≡ prefix_len is_ascii_digit v }
{
    let others = others(v);
    if others == 0 {
        STEP
    } else {
        others.trailing_zeros() as usize
    }
}

#[inline(always)]
fn others(v: u8x16) -> u64
    ensures { result ≡ mask_l (map is_no_digit v) }
{
    let below = v.simd_lt(u8x16::splat(b'0'));
    let above = v.simd_gt(u8x16::splat(b'9'));
    (below | above).to_bitmask()
}
