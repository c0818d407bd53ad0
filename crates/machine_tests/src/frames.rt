//! Frames of WebSocket, as a client writes them and as a server does.
use std::alloc::{AllocError, Global};

/// The first byte of a frame: a whole message, or a part of one, of this kind.
pub(crate) const TEXT: u8 = 0x81;

pub(crate) const BINARY: u8 = 0x82;

pub(crate) const BINARY_BEGINS: u8 = 0x02;

pub(crate) const LAST_PART: u8 = 0x80;

pub(crate) const PING: u8 = 0x89;

pub(crate) const CLOSE: u8 = 0x88;

// What a client masks its frames with.
const MASK: [u8; 4] = [7, 77, 177, 27];

// Writes a client's frame behind others.
fn put_frame(bytes: &mut Vec<u8>, first: u8, payload: &[u8]) -> Result<(), AllocError> {
    bytes.push(first)?;
    put_length(bytes, payload.len())?;
    bytes.extend_from_slice(&MASK)?;
    for (index, byte) in payload.iter().enumerate() {
        bytes.push(*byte ^ MASK[index % 4])?;
    }
    Ok(())
}

// The length of a payload that is masked.
fn put_length(bytes: &mut Vec<u8>, length: usize) -> Result<(), AllocError> {
    if length < 126 {
        bytes.push(0x80 | length as u8)?;
        return Ok(());
    }
    if length < 65_536 {
        bytes.push(0x80 | 126)?;
        bytes.extend_from_slice(&(length as u16).to_be_bytes())?;
        return Ok(());
    }
    bytes.push(0x80 | 127)?;
    bytes.extend_from_slice(&(length as u64).to_be_bytes())?;
    Ok(())
}

/// A frame: its first byte, and its payload.
pub(crate) type Frame = (u8, &'static str);

/// The bytes of a client's frames.
pub(crate) fn bytes_of(alloc: Global, frames: &[Frame]) -> Result<Vec<u8>, AllocError> {
    let mut bytes = Vec::new(alloc);
    for (first, payload) in frames {
        put_frame(&mut bytes, *first, payload.as_bytes())?;
    }
    Ok(bytes)
}

/// The texts that a server has written, each with a line feed behind it, of frames that are short; for a close there is an
/// empty one.
pub(crate) fn texts_in(alloc: Global, output: &[u8]) -> Result<Vec<u8>, AllocError> {
    let mut texts = Vec::new(alloc);
    let mut rest = output;
    for _ in 0..output.len() {
        let Some((first, payload, behind)) = frame_in(rest) else {
            break;
        };
        if first == TEXT {
            texts.extend_from_slice(payload)?;
        }
        if first == TEXT || first == CLOSE {
            texts.push(b'\n')?;
        }
        rest = behind;
    }
    Ok(texts)
}

// The first byte of the first frame, its payload, and what stands behind it.
fn frame_in(bytes: &[u8]) -> Option<(u8, &[u8], &[u8])> {
    let first = *bytes.first()?;
    let length = usize::from(*bytes.get(1)?);
    let (payload, behind) = bytes.get(2..)?.split_at_checked(length)?;
    Some((first, payload, behind))
}
