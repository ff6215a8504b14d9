//! How much may wait in the lanes.

/// So many lines may wait in all.
const MOST_LINES: usize = 64;
/// So many bytes may they have in all.
const MOST_BYTES: usize = 1_048_576;

/// How many lines wait in the lanes, and how many bytes they have.
#[derive(Drop)]
pub struct Load {
    lines: usize,
    bytes: usize,
}

impl Load {
    /// Nothing waits.
    pub fn none() -> Load {
        Load { lines: 0, bytes: 0 }
    }

    /// Whether nothing waits.
    pub fn is_none(&self) -> bool {
        self.lines == 0
    }

    /// Whether a line of so many bytes may wait, too.
    pub fn has_room(&self, bytes: usize) -> bool {
        self.lines < MOST_LINES && bytes <= MOST_BYTES.saturating_sub(self.bytes)
    }

    /// A line was heard. If it waits, it has so many bytes.
    pub fn add(&mut self, waits: Option<usize>) {
        if let Some(bytes) = waits {
            self.lines = self.lines.saturating_add(1);
            self.bytes = self.bytes.saturating_add(bytes);
        }
    }

    /// A line of so many bytes that waited went on.
    pub fn take(&mut self, bytes: usize) {
        self.lines = self.lines.saturating_sub(1);
        self.bytes = self.bytes.saturating_sub(bytes);
    }
}
