//! What has to come before the front goes on.
use crate::named_lanes::Lanes;
use model_marks::Catalog;

/// What may have to come before the front goes on.
#[derive(Clone, Copy)]
pub enum Until {
    /// Nothing.
    Now,
    /// A lane takes a request with a line of so many bytes.
    Room(usize, usize),
    /// A lane takes what is told of a line of so many bytes.
    Told(usize, usize),
    /// Each lane with a name is whole.
    AllWhole,
}

impl Until {
    /// Where the lane is that is waited for; past all lanes where it is no single one.
    pub fn place(&self) -> usize {
        match self {
            Until::Room(place, _) => *place,
            Until::Told(place, _) => *place,
            Until::Now => usize::MAX,
            Until::AllWhole => usize::MAX,
        }
    }
}

impl<C: Catalog> Lanes<C> {
    /// Whether it has come.
    pub fn has_come(&self, until: Until) -> bool {
        match until {
            Until::Now => true,
            Until::Room(place, bytes) => self.has_room(place, bytes),
            Until::Told(place, bytes) => self.has_room_told(place, bytes),
            Until::AllWhole => self.is_whole(),
        }
    }

    /// Whether each lane with a name is whole.
    fn is_whole(&self) -> bool {
        for place in 0..self.names.len() {
            if !self.clients[place].is_whole() {
                return false;
            }
        }
        true
    }
}
