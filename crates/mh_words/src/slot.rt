//! Places of a frame.

ghost use Rattle.std.specs.Prelude.{◌≡◌, ◌<◌};
ghost use Rattle.mh_words.specs.Limits.{frame_length};

/// The number of words in a frame.
pub const FRAME_LENGTH: usize = 64;

/// The number of slots for arguments, the first of a frame.
pub(crate) const ARGUMENT_SLOTS: usize = 16;

/// The place of a word in a frame.
#[derive(Clone, Copy, Debug)]
pub struct Slot {
    pub(crate) place: u8,
    ghost inside: { place < 64 },
}

impl Slot {
    /// Returns the slot of a place.
    #[inline(always)]
    pub fn new(place: u8) -> Slot
        requires inside { place < frame_length }
        ensures value { result.place ≡ place }
    {
        Slot { place }
    }

    /// Returns the slot's place.
    #[inline(always)]
    pub fn place(self) -> usize
        ensures value { result ≡ self.place }
        ensures inside { result < frame_length }
    {
        self.place as usize
    }
}
