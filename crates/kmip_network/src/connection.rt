//! A connection among several that are served at once.

use crate::hearing::Hearing;
use crate::overheard::Overheard;
use crate::pausing::Pausing;
use crate::saying::Saying;
use kmip_server::{IndexedStore, Server};
use kmip_transport::{Conversation, LinkFault};
use kmip_ttlv::NoMemory;
use mio::net::TcpStream;
use std::alloc::Global;
use std::cell::Cell;
use std::time::{Duration, Instant};

/// A connection among several that are served at once.
#[derive(Drop)]
pub(crate) struct Connection<'a> {
    stream: TcpStream,
    conversation: Conversation,
    overheard: Overheard<'a>,
    /// When it is closed, if nothing comes or goes before.
    deadline: Instant,
    is_closed: bool,
}

/// What the steps of all connections have in common.
#[derive(Clone, Copy)]
pub(crate) struct Moment {
    pub(crate) alloc: Global,
    /// The Time Stamp of replies.
    pub(crate) time: i64,
    /// What the clock says.
    pub(crate) now: Instant,
    /// How long a connection may be silent.
    pub(crate) limit: Duration,
}

impl Moment {
    /// When a connection is closed over which nothing comes or goes from now on.
    fn deadline(&self) -> Instant {
        match self.now.checked_add(self.limit) {
            Some(deadline) => deadline,
            None => self.now,
        }
    }
}

impl<'a> Connection<'a> {
    /// A new one over this stream.
    ///
    /// # Errors
    /// Where there is no memory for it.
    pub(crate) fn new(
        stream: TcpStream,
        overheard: Overheard<'a>,
        moment: Moment,
    ) -> Result<Self, NoMemory> {
        Ok(Connection {
            stream,
            conversation: Conversation::new(moment.alloc)?,
            overheard,
            deadline: moment.deadline(),
            is_closed: false,
        })
    }

    /// Whether it has ended.
    pub(crate) fn is_closed(&self) -> bool {
        self.is_closed
    }

    /// How long it may still be silent.
    pub(crate) fn left(&self, now: Instant) -> Duration {
        self.deadline.saturating_duration_since(now)
    }

    /// Takes a step, unless it has to wait for its client. Says whether it did not have to.
    ///
    /// # Errors
    /// Where there is no memory for a reply.
    pub(crate) fn step(
        &mut self,
        server: &mut Server<IndexedStore>,
        moment: Moment,
    ) -> Result<bool, NoMemory> {
        let has_to_wait = Cell::new(false);
        let mut reader = Hearing::new(Pausing::new(&self.stream, &has_to_wait), &self.overheard);
        let mut writer = Saying::new(Pausing::new(&self.stream, &has_to_wait), &self.overheard);
        let Moment { alloc, time, .. } = moment;
        match self
            .conversation
            .step(server, alloc, time, &mut reader, &mut writer)
        {
            Ok(true) => self.deadline = moment.deadline(),
            Err(LinkFault::NoMemory) => return Err(NoMemory),
            Err(LinkFault::Io) if has_to_wait.get() => {
                self.is_closed = self.left(moment.now).is_zero();
                return Ok(self.is_closed);
            }
            Ok(false) | Err(LinkFault::Io | LinkFault::Frame) => self.is_closed = true,
        }
        Ok(true)
    }
}
