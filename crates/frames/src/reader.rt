// The frame reader: it holds the text and keeps its place in it (document 01: "The reader walks the lent text one frame at a
// time and keeps its place in that text"). The work is done by frame_from, on the slice and the number.
ghost use Rattle.std.specs.Prelude.{◌≡◌, ◌-◌, length};
ghost use Rattle.std.specs.Iterator.{at_most};
ghost use Rattle.frames.specs.Code.Found.{found_at, next_place};

use crate::frames::{Found, frame_from};

#[derive(Drop)]
pub struct FrameReader<'a> {
    pub text: &'a [u8],
    pub at: usize,
}

impl<'a> FrameReader<'a> {
    // A reader at the text's first line.
    pub fn new(text: &'a [u8]) -> FrameReader<'a>
        ensures { (result.text ≡ text.entry) × (result.at ≡ 0) }
    {
        FrameReader { text, at: 0 }
    }
}

impl<'a> Iterator for FrameReader<'a> {
    type Item = Found;

    ghost next_gives = { λ before found after. (found ≡ found_at before.text.now before.at) × (after.text ≡ before.text) × (after.at ≡ next_place before.at found) };

    ghost remaining = { λ reader. at_most (length reader.text.now - reader.at) };

    // The frame at the reader's place; the reader moves on to the line after it, and stays where no frame stands.
    #[tactic(auto, using(crate::proofs::Lines::goes_on))]
    fn next(&mut self) -> Option<Found> {
        let found = frame_from(self.text, self.at)?;
        self.at = found.next;
        Some(found)
    }
}
