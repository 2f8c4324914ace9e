/// A listener that is called at the begin and the end of each piece of work, with the piece's number. A test holds pieces with it, and so sees
/// that two run at once.
pub trait Gate {
    /// The piece at this place begins.
    fn begin(&self, place: u32);

    /// The piece at this place has ended, with or without an error.
    fn end(&self, place: u32);
}

/// The gate that lets each piece pass at once.
#[derive(Clone, Copy, Debug)]
pub struct OpenGate;

impl Gate for OpenGate {
    fn begin(&self, _place: u32) {}

    fn end(&self, _place: u32) {}
}
