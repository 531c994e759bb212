//! How frames are laid out.

ghost use Rattle.std.specs.Prelude.{◌≡◌, ◌↔◌, true, false};

/// How the explanation of a frame is laid out.
#[derive(Clone, Copy)]
pub enum Layout {
    /// In lines: a line for each field.
    Full,
    /// In one line: its time, its ends, its service and its content, except for the parts of a value.
    Short,
    /// As a JSON object, in one line.
    Json,
}

impl Layout {
    /// Whether the output is JSON.
    pub fn is_json(self) -> bool
        ensures { (result ≡ true) ↔ (self ≡ Layout.Json) }
    {
        match self {
            Layout::Json => true,
            Layout::Full | Layout::Short => false,
        }
    }

    /// Whether a frame is explained in one line, which also contains its time.
    pub fn is_one_line(self) -> bool
        ensures { (result ≡ false) ↔ (self ≡ Layout.Full) }
    {
        match self {
            Layout::Full => false,
            Layout::Short | Layout::Json => true,
        }
    }
}
