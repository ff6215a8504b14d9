//! The keys of reports.
ghost use Rattle.std.specs.Prelude.{◌≡◌, ◌++◌, ◌∷◌, []};
ghost use Rattle.json.specs.Print.{quoted};
ghost use Rattle.desk_wire.specs.Holding.{name_of};

/// A key of a report.
#[derive(Clone, Copy)]
pub(crate) enum Key {
    Accepted,
    Client,
    Closed,
    Fault,
    Kept,
    Line,
    Model,
    Nothing,
    Opened,
    Refused,
    Resized,
    Result,
    Skipped,
    Taken,
    Ticket,
}

impl Key {
    /// The key in quotes, with its colon.
    #[tactic(auto, unfolding(json::specs::Print::escape_byte))]
    pub(crate) fn quoted(self) -> &'static [u8]
        ensures { result.now ≡ quoted (name_of self) ++ 58 ∷ [] }
    {
        match self {
            Key::Accepted => b"\"accepted\":",
            Key::Client => b"\"client\":",
            Key::Closed => b"\"closed\":",
            Key::Fault => b"\"fault\":",
            Key::Kept => b"\"kept\":",
            Key::Line => b"\"line\":",
            Key::Model => b"\"model\":",
            Key::Nothing => b"\"nothing\":",
            Key::Opened => b"\"opened\":",
            Key::Refused => b"\"refused\":",
            Key::Resized => b"\"resized\":",
            Key::Result => b"\"result\":",
            Key::Skipped => b"\"skipped\":",
            Key::Taken => b"\"taken\":",
            Key::Ticket => b"\"ticket\":",
        }
    }
}
