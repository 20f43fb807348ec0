//! How a stream of messages ended.
use kmip_frames::FrameFault;

/// How a stream of messages ended.
#[derive(Clone, Copy, Debug)]
pub enum InputEnd {
    /// After a whole message, or before the first.
    Whole,
    /// Inside a message, of which this many bytes came: 1 to 8,191.
    Cut(usize),
    /// At a head that is no message's.
    Refused(FrameFault),
}
