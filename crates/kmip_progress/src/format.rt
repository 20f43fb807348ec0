//! How a text is laid out.
ghost use Rattle.std.specs.Prelude.{◌≡◌};
ghost use Rattle.kmip_progress.specs.Reading.{format_of_head};

/// How a text is laid out. Format 2 is written, both are read.
#[derive(Clone, Copy)]
pub enum Format {
    /// The line of a key has its name, its target, how many steps are done and its identifier.
    One,
    /// As format 1, with the reason of its Revoke after the target.
    Two,
}

impl Format {
    /// The format whose texts have this first line.
    pub(crate) fn of_head(line: &str) -> Option<Format>
        ensures { result ≡ format_of_head line.now }
    {
        match line {
            "kmip-progress 1" => Some(Format::One),
            "kmip-progress 2" => Some(Format::Two),
            _ => None,
        }
    }
}
