// A plane is a set of squares: square number k is in it where its word has a one at place k.
ghost use Rattle.std.specs.Prelude.{◌≡◌, ◌^◌, ◌<◌};

mod members;
mod shifts;
mod squares;

pub use squares::Squares;

#[derive(Clone, Copy, PartialEq, Eq)]
pub struct Plane {
    word: u64,
    ghost fits: { word < 2 ^ 64 },
}

impl Plane {
    /// The word of the plane.
    pub fn word(self) -> u64
        ensures { result ≡ self.word }
    {
        self.word
    }
}
