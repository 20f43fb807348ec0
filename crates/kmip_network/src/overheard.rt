//! The exchange that a connection is at.
use crate::exchange::Exchange;
use kmip_account::tell_exchange;
use std::cell::Cell;

/// The exchange that a connection is at. Each is printed once its reply was sent, or none is.
#[derive(Drop)]
pub(crate) struct Overheard<'a> {
    rt: &'a HostRuntime,
    is_told: bool,
    exchange: Cell<Exchange>,
}

impl<'a> Overheard<'a> {
    /// Of a connection that has carried nothing. Its exchanges are printed, or not.
    pub(crate) fn new(rt: &'a HostRuntime, is_told: bool) -> Self {
        Overheard {
            rt,
            is_told,
            exchange: Cell::new(Exchange::new(rt.alloc())),
        }
    }

    /// Appends what was read, if exchanges are printed. What there is no memory for is left out.
    pub(crate) fn hear(&self, bytes: &[u8]) {
        if !self.is_told {
            return;
        }
        let mut exchange = self.take();
        let _ = exchange.request.extend_from_slice(bytes);
        self.exchange.set(exchange);
    }

    /// Appends what was written, if exchanges are printed. What there is no memory for is left out.
    pub(crate) fn say(&self, bytes: &[u8]) {
        if !self.is_told {
            return;
        }
        let mut exchange = self.take();
        let _ = exchange.reply.extend_from_slice(bytes);
        self.exchange.set(exchange);
    }

    /// Prints the exchange on standard error, if it is to, and begins the next one.
    pub(crate) fn tell(&self) {
        if !self.is_told {
            return;
        }
        let exchange = self.take();
        tell_exchange(
            self.rt,
            exchange.request.as_slice(),
            exchange.reply.as_slice(),
        );
    }

    /// Takes the exchange, and leaves an empty one.
    fn take(&self) -> Exchange {
        self.exchange.replace(Exchange::new(self.rt.alloc()))
    }
}
