//! Is told of the exchanges of a look, and of what it found.
use kmip_client::NoListener;
use kmip_look::Looked;
use kmip_plan::Key;
use kmip_protocol::ExchangeObserver;

/// Is told of each exchange of a look as it is made, and then of what the look found.
pub trait LookObserver: ExchangeObserver {
    /// The look has ended, and this is what it found of each of these keys. Nothing is printed yet.
    fn looked(&mut self, keys: &[Key], lookeds: &[Looked]);
}

impl LookObserver for NoListener {
    fn looked(&mut self, _keys: &[Key], _lookeds: &[Looked]) {}
}
