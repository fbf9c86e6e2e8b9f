// One frame of a text, a line of hexadecimal: what it is, and the reader that finds it.
#![tactic(auto)]

mod frames;
mod kind;
mod reader;

pub use frames::{Found, Frame, LINE_FEED, put_frame};
pub use kind::{Kind, NoKind};
pub use reader::FrameReader;
