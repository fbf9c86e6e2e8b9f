// The places that a call's arguments are put into, and those that are lent to its job: bytes and sets.
ghost use Rattle.std.specs.Prelude.{ℕ, ◌*◌, ◌<◌, ◌≤◌, length};
ghost use Rattle.std.proofs.Common.{rules};

use crate::answers::{BYTES_PART, Output};
use crate::fields::value;
use sets::Set;
use std::io;

// How many bytes and how many sets an argument or a room has at the most: more than any job takes, so that Size can be tried.
pub const BYTES_MOST: usize = 40_000;

pub const SETS_MOST: usize = 2_048;

// How many bytes a set has, and of how many sets the digits are put at once.
const SET_BYTES: usize = 4;

const SETS_PART: usize = 64;

pub trait Place: Copy {
    // How many digits a place has.
    ghost DIGITS: { ℕ };

    const DIGITS: usize;

    // What each lent place holds before the call.
    const OLD: Self;

    fn from_digits(digits: &[u8]) -> Option<Self>;

    // Puts the digits of places.
    fn put_digits<R: Print>(places: &[Self], output: &mut Output<R>) -> io::Result<()>;

    ghost some_digits: { 0 < DIGITS };
}

impl Place for u8 {
    ghost DIGITS = { 2 };

    const DIGITS: usize = 2;

    const OLD: u8 = 0xA5;

    fn from_digits(digits: &[u8]) -> Option<u8> {
        u8::try_from(value(digits)?).ok()
    }

    fn put_digits<R: Print>(places: &[u8], output: &mut Output<R>) -> io::Result<()> {
        for part in places.chunks(BYTES_PART) {
            output.digits(part)?;
        }
        Ok(())
    }

    ghost some_digits = { Prim.search rules };
}

// Puts the digits of sets, of SETS_PART at the most.
fn put_sets<R: Print>(sets: &[Set], output: &mut Output<R>) -> io::Result<()>
    requires { 4 * length sets.now ≤ 256 }
{
    let mut bytes = [0u8; SET_BYTES * SETS_PART];
    for (place, set) in bytes.chunks_exact_mut(SET_BYTES).zip(sets) {
        place.copy_from_slice(&set.to_be_bytes());
    }
    output.digits(&bytes[..SET_BYTES * sets.len()])
}

impl Place for Set {
    ghost DIGITS = { 8 };

    const DIGITS: usize = 8;

    const OLD: Set = 0xA5A5_A5A5;

    fn from_digits(digits: &[u8]) -> Option<Set> {
        value(digits)
    }

    fn put_digits<R: Print>(places: &[Set], output: &mut Output<R>) -> io::Result<()> {
        for part in places.chunks(SETS_PART) {
            put_sets(part, output)?;
        }
        Ok(())
    }

    ghost some_digits = { Prim.search rules };
}
