//! How a stream of messages that was served came to its end.
ghost use Rattle.std.specs.Prelude.{◌≡◌};
ghost use Rattle.kmip_transport.specs.Serving.{stream_end_number, stream_end_name};

use kmip_frames::FrameFault;

/// How a stream of messages that was served came to its end.
#[derive(Clone, Copy, Debug)]
pub enum StreamEnd {
    /// It ended, so many bytes after the last whole message: 0 to 8,191.
    Ended(usize),
    /// After the last message eight bytes came that are no head of one.
    Frame(FrameFault),
    /// The reader or the writer failed, or there were 2^64 - 1 messages.
    Io,
    /// There was no memory.
    NoMemory,
}

impl StreamEnd {
    /// The end's number, 1 to 4. Takes no memory.
    pub fn number(self) -> u32
        ensures { result ≡ stream_end_number self }
    {
        match self {
            StreamEnd::Ended(_) => 1,
            StreamEnd::Frame(_) => 2,
            StreamEnd::Io => 3,
            StreamEnd::NoMemory => 4,
        }
    }

    /// The end's name, as it is printed. Takes no memory.
    pub fn name(self) -> &'static str
        ensures { result.now ≡ stream_end_name self }
    {
        match self {
            StreamEnd::Ended(_) => "Ended",
            StreamEnd::Frame(_) => "Frame",
            StreamEnd::Io => "Io",
            StreamEnd::NoMemory => "NoMemory",
        }
    }
}
