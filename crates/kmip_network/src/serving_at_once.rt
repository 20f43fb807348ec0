//! The program `serve` with several connections at once, which are answered in turn.

use crate::connection::{Connection, Moment};
use crate::overheard::Overheard;
use crate::serving::{MOST_FAILURES, new_server};
use kmip_choices::ServeOptions;
use kmip_server::{IndexedStore, Server};
use kmip_ttlv::NoMemory;
use mio::net::{TcpListener, TcpStream};
use mio::{Events, Interest, Poll, Token};
use std::io::{self, Error, ErrorKind};
use std::net::SocketAddr;
use std::time::{Duration, Instant};

/// How many events are taken at once (own).
const EVENTS: usize = 128;

/// The mark of what listens, and that of each connection. Which of them is ready is looked for at each.
const LISTENER: Token = Token(0);

const CONNECTION: Token = Token(1);

/// Why no connection is served any more.
#[derive(Drop)]
pub(crate) enum Halt {
    NoMemory,
    /// Why the last connection could not be accepted, or waited for.
    NoConnection(Error),
}

impl From<NoMemory> for Halt {
    fn from(_want: NoMemory) -> Halt {
        Halt::NoMemory
    }
}

impl From<Error> for Halt {
    fn from(error: Error) -> Halt {
        Halt::NoConnection(error)
    }
}

/// Connections that are served at once, and what listens for more of them.
#[derive(Drop)]
pub(crate) struct Crowd<'a> {
    rt: &'a HostRuntime,
    options: &'a ServeOptions,
    listener: TcpListener,
    poll: Poll,
    events: Events,
    server: Server<IndexedStore>,
    open: Vec<Connection<'a>>,
    /// How many connections are still to be accepted.
    left: u64,
    /// How many failures in turn there were to accept one, while none was open.
    failures: u32,
}

impl<'a> Crowd<'a> {
    /// No connection yet, and a port of this address at which they are listened for.
    ///
    /// # Errors
    /// Where the system gives none.
    pub(crate) fn new(
        rt: &'a HostRuntime,
        options: &'a ServeOptions,
        address: SocketAddr,
    ) -> io::Result<Self> {
        let mut listener = TcpListener::bind(rt, address)?;
        let poll = Poll::new(rt)?;
        poll.registry()
            .register(&mut listener, LISTENER, Interest::READABLE)?;
        Ok(Crowd {
            rt,
            options,
            listener,
            poll,
            events: Events::with_capacity(rt.alloc(), EVENTS)?,
            server: new_server(rt),
            open: Vec::new(rt.alloc()),
            left: options.connections,
            failures: 0,
        })
    }

    /// The port.
    ///
    /// # Errors
    /// Where the system does not tell it.
    pub(crate) fn port(&self) -> io::Result<u16> {
        Ok(self.listener.local_addr()?.port())
    }

    /// Serves them until all that were to be accepted have ended.
    ///
    /// # Errors
    /// Where there is no memory, or no connection can be accepted.
    pub(crate) fn serve(&mut self) -> Result<(), Halt> {
        for _ in 0..u64::MAX {
            let moment = self.moment()?;
            let has_new = self.accept(moment)?;
            if self.left == 0 && self.open.is_empty() {
                return Ok(());
            }
            let has_moved = self.step_each(moment)?;
            self.open.retain(|connection| !connection.is_closed());
            if !has_new && !has_moved {
                self.wait(moment.now)?;
            }
        }
        Ok(())
    }

    /// What the steps of this turn have in common.
    fn moment(&self) -> io::Result<Moment> {
        Ok(Moment {
            alloc: self.rt.alloc(),
            time: self.options.now,
            now: Instant::now(self.rt)?,
            limit: Duration::from_secs(self.options.timeout),
        })
    }

    /// Whether one more connection may be accepted.
    fn has_room(&self) -> bool {
        self.left > 0 && (self.open.len() as u64) < self.options.at_once
    }

    /// Accepts the connections that have come, as many as there is room for. Says whether it is to be tried
    /// again before anything is waited for.
    fn accept(&mut self, moment: Moment) -> Result<bool, Halt> {
        for _ in 0..self.options.at_once {
            if !self.has_room() {
                return Ok(false);
            }
            match self.listener.accept() {
                Ok((stream, _)) => self.add(stream, moment)?,
                Err(error) if error.kind() == ErrorKind::WouldBlock => return Ok(false),
                Err(error) => return self.fail(error),
            }
        }
        Ok(true)
    }

    /// Takes up a new connection. One that cannot be waited for is closed.
    fn add(&mut self, stream: TcpStream, moment: Moment) -> Result<(), Halt> {
        let mut stream = stream;
        self.left = self.left.saturating_sub(1);
        self.failures = 0;
        let both = Interest::READABLE | Interest::WRITABLE;
        if self
            .poll
            .registry()
            .register(&mut stream, CONNECTION, both)
            .is_ok()
        {
            let overheard = Overheard::new(self.rt, self.options.is_verbose);
            let connection = Connection::new(stream, overheard, moment)?;
            if self.open.push(connection).is_err() {
                return Err(Halt::NoMemory);
            }
        }
        Ok(())
    }

    /// Notes a failure to accept a connection. It is tried again at once only where no other one is open.
    fn fail(&mut self, error: Error) -> Result<bool, Halt> {
        if !self.open.is_empty() {
            return Ok(false);
        }
        self.failures = self.failures.saturating_add(1);
        if self.failures >= MOST_FAILURES {
            return Err(Halt::NoConnection(error));
        }
        Ok(true)
    }

    /// Lets each connection take a step. Says whether one did not have to wait.
    fn step_each(&mut self, moment: Moment) -> Result<bool, NoMemory> {
        let mut has_moved = false;
        for connection in self.open.iter_mut() {
            has_moved |= connection.step(&mut self.server, moment)?;
        }
        Ok(has_moved)
    }

    /// Waits until something comes or goes, or the first connection was silent for too long.
    fn wait(&mut self, now: Instant) -> io::Result<()> {
        let left = self
            .open
            .iter()
            .map(|connection| connection.left(now))
            .min();
        self.poll.poll(&mut self.events, left)
    }
}
