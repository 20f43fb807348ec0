//! Listens to nothing.
use crate::listener::Listener;
use kmip_batch_items::Reply;

/// Listens to nothing.
#[derive(Clone, Copy, Debug)]
pub struct NoListener;

impl Listener for NoListener {
    fn replied(&mut self, _replies: &[Reply]) {}
}
