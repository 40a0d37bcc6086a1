// The work memory that a caller lends, and guards over it: the end of a guard writes zeros over the
// whole slice, on every way out of the call that made it. As a rule of the project there is one plain guard
// for each kind of slice, and none is generic.
ghost use Rattle.std.specs.Prelude.{◌≡◌};
ghost use Rattle.levels.specs.Work.{Cleared};

use crate::checks::WorkLengths;

// A place for an element, as a plain number.
pub type Place = u16;

// A position in a vector. It is wider than a place, so that the compiler tells the two apart.
pub type Position = u32;

// The work memory that a call is lent, with any content. It is zero after the call.
#[derive(Drop)]
pub struct Work<'a> {
    pub bytes: &'a mut [u8],
    pub places: &'a mut [Place],
    pub positions: &'a mut [Position],
}

impl Work<'_> {
    ghost use Rattle.levels.specs.Rows.{work_of};

    pub fn lengths(&self) -> WorkLengths
        ensures { result ≡ work_of self.now.bytes.now self.now.places.now self.now.positions.now }
    {
        WorkLengths {
            bytes: self.bytes.len(),
            places: self.places.len(),
            positions: self.positions.len(),
        }
    }
}

// The work memory for bytes.
pub struct BytesGuard<'a> {
    pub bytes: &'a mut [u8],
}

impl Drop for BytesGuard<'_> {
    fn drop(self)
        ensures { Cleared self.entry.bytes.now self.exit.0.now }
    {
        self.bytes.fill(0);
        let BytesGuard { bytes: _ } = self;
    }
}

// The work memory for elements.
pub struct PlacesGuard<'a> {
    pub places: &'a mut [Place],
}

impl Drop for PlacesGuard<'_> {
    fn drop(self)
        ensures { Cleared self.entry.places.now self.exit.0.now }
    {
        self.places.fill(0);
        let PlacesGuard { places: _ } = self;
    }
}

// The work memory for positions.
pub struct PositionsGuard<'a> {
    pub positions: &'a mut [Position],
}

impl Drop for PositionsGuard<'_> {
    fn drop(self)
        ensures { Cleared self.entry.positions.now self.exit.0.now }
    {
        self.positions.fill(0);
        let PositionsGuard { positions: _ } = self;
    }
}
