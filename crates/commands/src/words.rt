// The words of the command line.
use crate::failure::Failure;
use anyhow::anyhow;
use std::env::{Env, FillError};
use std::{env, io, str};

// How long an argument may be to be looked at where another is no text.
const LONGEST: usize = 4096;

// Whether an argument is there and is no UTF-8, if it is there and not too long to be looked at.
fn is_no_text(rt: &HostRuntime, place: usize) -> Option<bool> {
    let mut bytes = [0; LONGEST];
    match rt.arg(place, &mut bytes) {
        Ok(length) => Some(str::from_utf8(&bytes[..length]).is_err()),
        Err(FillError::TooLong) => Some(false),
        Err(FillError::NotPresent) => None,
    }
}

// The place of the first argument that is no UTF-8, from 1, if one is found.
fn first_no_text(rt: &HostRuntime) -> Option<usize> {
    for place in 1..usize::MAX {
        if is_no_text(rt, place)? {
            return Some(place);
        }
    }
    None
}

// Why the words are not read: one of them is no text, or memory is out.
fn unread(rt: &HostRuntime, error: io::Error) -> Failure {
    if error.kind() == io::ErrorKind::OutOfMemory {
        return Failure::from(error);
    }
    match first_no_text(rt) {
        Some(place) => Failure::Words(anyhow!(
            "word {place} of the command line is no text (UTF-8)"
        )),
        None => Failure::Words(anyhow::Error::from(error)),
    }
}

// The words of the command line, the first of which is the program's name.
pub fn given_words(rt: &HostRuntime) -> Result<Vec<String>, Failure> {
    match env::args(rt) {
        Ok(words) => Ok(words.collect(rt.alloc())?),
        Err(error) => Err(unread(rt, error)),
    }
}
