// The answers on their way to standard output: bytes wait here until their line is whole or the places are full.
ghost use Rattle.std.specs.Prelude.{◌≡◌, ◌+◌, ◌*◌, ◌≤◌, length, IfOk};

use crate::fields::{EMPTY_RUN, SPACE};
use crate::places::Place;
use digits::put_bytes;
use setups::{FINISHED, Refusal};
use std::io;

// How many bytes wait at the most, and of how many bytes the digits are put at once: one by one they take several times as long.
const WAITING_MOST: usize = 8_192;

pub const BYTES_PART: usize = WAITING_MOST / 2;

// How many values a number has.
const NUMBERS: u64 = 0x1_0000_0000;

// The number of what a job answers, and what it tells (places filled); a refusal tells none, and each count is 0.
pub fn outcome<T: Default>(answer: Result<T, Refusal>) -> (u8, T) {
    match answer {
        Ok(told) => (FINISHED, told),
        Err(refusal) => (refusal.into(), T::default()),
    }
}

// The bytes that wait are the first `filled` of the places.
#[derive(Drop)]
pub struct Output<'a, R> {
    rt: &'a R,
    waiting: [u8; WAITING_MOST],
    filled: usize,
    ghost within: { filled ≤ 8192 },
}

impl<'a, R: Print> Output<'a, R> {
    pub fn new(rt: &'a R) -> Output<'a, R> {
        Output {
            rt,
            waiting: [0; WAITING_MOST],
            filled: 0,
        }
    }

    // Writes what waits.
    pub fn flush(&mut self) -> io::Result<()>
        ensures { self.new.filled ≡ 0 }
    {
        let filled = self.filled;
        self.filled = 0;
        self.rt.write_all(&self.waiting[..filled])
    }

    // Sees that so many places are left.
    fn make_room(&mut self, places: usize) -> io::Result<()>
        requires { places ≤ 8192 }
        ensures { IfOk result (λ _. self.new.filled + places ≤ 8192) }
    {
        if WAITING_MOST - self.filled < places {
            return self.flush();
        }
        Ok(())
    }

    pub fn byte(&mut self, byte: u8) -> io::Result<()> {
        self.make_room(1)?;
        self.waiting[self.filled] = byte;
        self.filled += 1;
        Ok(())
    }

    // Puts the two digits of each byte, of BYTES_PART at the most.
    pub fn digits(&mut self, bytes: &[u8]) -> io::Result<()>
        requires { 2 * length bytes.now ≤ 8192 }
    {
        self.make_room(2 * bytes.len())?;
        put_bytes(&mut self.waiting, self.filled, bytes);
        self.filled += 2 * bytes.len();
        Ok(())
    }

    // Puts a call's letter and writes it before its job runs, so that one that takes long is seen to be under way.
    pub fn letter(&mut self, letter: u8) -> io::Result<()> {
        self.byte(letter)?;
        self.flush()
    }

    // Puts what every answer has after its letter: a number, and the count that it tells.
    pub fn begin(&mut self, number: u8, count: u64) -> io::Result<()> {
        self.number(u64::from(number))?;
        self.number(count)
    }

    // Puts the field of a number, its last eight digits.
    pub fn number(&mut self, number: u64) -> io::Result<()> {
        let last = (number % NUMBERS) as u32;
        self.byte(SPACE)?;
        self.digits(&last.to_be_bytes())
    }

    // Puts the field of a run of places.
    pub fn run<P: Place>(&mut self, places: &[P]) -> io::Result<()> {
        self.byte(SPACE)?;
        if places.is_empty() {
            return self.byte(EMPTY_RUN);
        }
        P::put_digits(places, self)
    }
}
