// What calls the jobs: the places that it lends to them, and where their answers go.
use crate::answers::Output;
use crate::places::{BYTES_MOST, SETS_MOST};
use sets::Set;

// Three runs or rooms of bytes and three of sets are all that a call needs. What they hold before a call means nothing.
#[derive(Drop)]
pub struct Caller<'a, R> {
    pub output: Output<'a, R>,
    pub first: [u8; BYTES_MOST],
    pub second: [u8; BYTES_MOST],
    pub third: [u8; BYTES_MOST],
    pub given: [Set; SETS_MOST],
    pub list: [Set; SETS_MOST],
    pub scratch: [Set; SETS_MOST],
}

impl<'a, R: Print> Caller<'a, R> {
    pub fn new(rt: &'a R) -> Caller<'a, R> {
        Caller {
            output: Output::new(rt),
            first: [0; BYTES_MOST],
            second: [0; BYTES_MOST],
            third: [0; BYTES_MOST],
            given: [0; SETS_MOST],
            list: [0; SETS_MOST],
            scratch: [0; SETS_MOST],
        }
    }
}
