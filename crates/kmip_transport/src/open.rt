//! An open stream.
ghost use Rattle.std.specs.Prelude.{◌≡◌, None, Some, IfOk, OnOk, OnErr};

use crate::dial::Dial;
use std::io;
use std::time::Duration;

/// An open stream, and how long it waits. `dial` alone makes one, so no stream is taken to wait as long as an
/// earlier one did.
#[derive(Drop)]
pub(crate) struct Open<S: Drop> {
    stream: S,
    /// How long a read or a write of the stream waits; none if that was not set yet, or not with success.
    waits: Option<Duration>,
}

impl<S: Drop> Open<S> {
    /// The stream itself.
    pub(crate) fn stream(&self) -> &S
        ensures { result.now ≡ self.now.stream }
    {
        &self.stream
    }

    /// The stream itself, to be read or written.
    pub(crate) fn stream_mut(&mut self) -> &mut S {
        &mut self.stream
    }
}

/// A new stream, opened in this time. It is not known how long it waits.
///
/// # Errors
/// Those of the network.
pub(crate) fn dial<D: Dial>(dial: &D, left: Duration) -> io::Result<Open<D::Stream>>
    ensures { IfOk result (λ stream. stream.waits ≡ None) }
{
    Ok(Open {
        stream: dial.dial(left)?,
        waits: None,
    })
}

/// From now on a read or a write of the stream waits no longer than this. The network is not asked if that holds
/// already.
///
/// # Errors
/// Those of the network. It is not known then how long the stream waits.
pub(crate) fn limit<D: Dial>(
    dial: &D,
    stream: &mut Open<D::Stream>,
    wait: Duration,
) -> io::Result<()>
    ensures waits { OnOk result (stream.new.waits ≡ Some wait) }
    ensures unknown { OnErr result (stream.new.waits ≡ None) }
{
    if stream.waits == Some(wait) {
        return Ok(());
    }
    stream.waits = None;
    dial.limit(&stream.stream, wait)?;
    stream.waits = Some(wait);
    Ok(())
}
