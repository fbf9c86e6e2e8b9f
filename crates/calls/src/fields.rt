// The fields of a call, each a number, a run of places or how many places are lent, in upper-case hexadecimal digits.
use crate::places::Place;
use digits::value_of_digit;
use std::io;

// How many digits a number has.
const NUMBER_DIGITS: usize = 8;

// What stands between two fields.
pub const SPACE: u8 = b' ';

// What stands for an empty run.
pub const EMPTY_RUN: u8 = b'-';

// The fields after a call's letter; no job has as many as six.
pub type Fields<'a> = [Option<&'a [u8]>; 6];

// Why a line is not answered as a call is: it is none, or the answer can't be written.
#[derive(Debug, Drop)]
pub enum Failure {
    NoCall,
    Unwritten(io::Error),
}

impl From<io::Error> for Failure {
    fn from(error: io::Error) -> Failure {
        Failure::Unwritten(error)
    }
}

// What digits stand for, the high one first; of more than eight the last eight count. None where another byte is among them.
pub fn value(digits: &[u8]) -> Option<u32> {
    digits.iter().try_fold(
        0,
        |value: u32, digit| Some(value << 4 | u32::from(value_of_digit(*digit)?)),
    )
}

pub fn number(field: &[u8]) -> Result<u32, Failure> {
    if field.len() != NUMBER_DIGITS {
        return Err(Failure::NoCall);
    }
    value(field).ok_or(Failure::NoCall)
}

// Puts a run into places, and gives those that it fills.
pub fn run<'a, P: Place>(field: &[u8], places: &'a mut [P]) -> Result<&'a [P], Failure> {
    if field == [EMPTY_RUN].as_slice() {
        return Ok(&[]);
    }
    let parts = field.chunks_exact(P::DIGITS);
    let filled = parts.len();
    if field.is_empty() || !parts.remainder().is_empty() || places.len() < filled {
        return Err(Failure::NoCall);
    }
    for (place, digits) in places.iter_mut().zip(parts) {
        *place = P::from_digits(digits).ok_or(Failure::NoCall)?;
    }
    Ok(&places[..filled])
}

// As many of the places as the field's number says, each as it is before the call.
pub fn room<'a, P: Place>(field: &[u8], places: &'a mut [P]) -> Result<&'a mut [P], Failure> {
    let count = number(field)? as usize;
    if places.len() < count {
        return Err(Failure::NoCall);
    }
    let room = &mut places[..count];
    for place in &mut *room {
        *place = P::OLD;
    }
    Ok(room)
}
