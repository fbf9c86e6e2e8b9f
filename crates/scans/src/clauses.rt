// What a search goes over.
ghost use Rattle.scans.specs.Scans.{ReadableAll};

// The clauses of two buffers, and assumed literals, each a clause of its own.
#[derive(Clone, Copy)]
pub struct Clauses<'a> {
    pub first: &'a [u8],
    pub second: &'a [u8],
    pub assumed: &'a [u8],
    pub ghost readable: { ReadableAll first.now second.now assumed.now },
}
