//! What cannot be done with a file or a socket.
ghost use Rattle.std.specs.Prelude.{◌≡◌};
ghost use Rattle.kmip_trouble.specs.Words.{cannot_word};

/// What cannot be done with a file or a socket.
#[derive(Clone, Copy)]
pub enum Cannot {
    /// A file is not read.
    Read,
    /// The file that says where a progress was saved is not read.
    ReadOrigin,
    /// A file beside a progress is not written, so that nothing is asked.
    Begin,
    /// What is known is not written, after something was asked.
    Save,
    /// What was written is not made to last.
    Last,
    /// A path leads to no socket.
    Connect,
    /// Metrics are not written, which changes nothing else.
    Measure,
}

impl Cannot {
    /// What standard output says of it before the path.
    pub fn text(self) -> &'static str
        ensures { result.now ≡ cannot_word self }
    {
        match self {
            Cannot::Read | Cannot::ReadOrigin => "cannot read",
            Cannot::Begin | Cannot::Save | Cannot::Last | Cannot::Measure => "cannot write",
            Cannot::Connect => "cannot connect",
        }
    }
}
