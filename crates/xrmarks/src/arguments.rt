// The program's arguments: begin, the media SSRC and the sender's, in decimal.
use std::env::{Env, FillError};

// What the marks are reported with.
#[derive(Drop)]
pub struct Report {
    pub begin: u16,
    pub media: u32,
    pub sender: u32,
}

// One or more digits, and no sign.
fn digits(word: &[u8]) -> Option<u64> {
    if word.is_empty() {
        return None;
    }
    let mut value: u64 = 0;
    for b in word {
        if !b.is_ascii_digit() {
            return None;
        }
        value = value.checked_mul(10)?.checked_add(u64::from(*b - b'0'))?;
    }
    Some(value)
}

// The argument at a place, or 0 where none is given. One of more than ten bytes is no number.
fn argument(rt: &impl Env, at: usize) -> Option<u64> {
    let mut word = [0u8; 10];
    match rt.arg(at, &mut word) {
        Ok(n) => digits(&word[..n]),
        Err(FillError::NotPresent) => Some(0),
        Err(_) => None,
    }
}

// Whether there is an argument at a place; its bytes are not looked at.
fn is_given(rt: &impl Env, at: usize) -> bool {
    let mut none = [0u8; 0];
    !matches!(rt.arg(at, &mut none), Err(FillError::NotPresent))
}

// At most three numbers, of 16, 32 and 32 bits.
pub fn arguments(rt: &impl Env) -> Option<Report> {
    if is_given(rt, 4) {
        return None;
    }
    Some(Report {
        begin: u16::try_from(argument(rt, 1)?).ok()?,
        media: u32::try_from(argument(rt, 2)?).ok()?,
        sender: u32::try_from(argument(rt, 3)?).ok()?,
    })
}
