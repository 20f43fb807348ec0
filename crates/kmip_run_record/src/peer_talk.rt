//! What a peer speaks, by the first bytes that came from it.
ghost use Rattle.std.specs.Prelude.{◌≡◌, ◌∷◌, [], codes};
ghost use Rattle.kmip_run_record.specs.Silences.{begins_as, is_record, is_tls, known_talk, talk_of};
ghost use Rattle.kmip_run_record.specs.Words.{talk_text};

/// The first bytes of a message of KMIP: the tag of a Response Message.
const KMIP: [u8; 3] = [0x42, 0x00, 0x7B];

/// The first bytes of a reply over HTTP.
const HTTP: [u8; 5] = *b"HTTP/";

/// The second byte of a record of TLS, after that of its type.
const TLS_VERSION: u8 = 0x03;

/// What a peer speaks.
#[derive(Clone, Copy, Debug, PartialEq, Eq)]
pub enum PeerTalk {
    /// Nothing came.
    Nothing,
    Kmip,
    Tls,
    Http,
    Other,
}

impl PeerTalk {
    /// What these first bytes are the beginning of, from the first byte on.
    pub fn of(first: &[u8]) -> PeerTalk
        // No byte is nothing. Otherwise the bytes are compared with the head of a reply in KMIP, and then
        // with that of one in HTTP, as far as they go. Then come the first two bytes of a record of TLS.
        ensures { result ≡ talk_of first.now }
    {
        if first.is_empty() {
            return PeerTalk::Nothing;
        }
        known_talk(first)
    }

    /// What is said of it after that it is not KMIP.
    pub fn text(self) -> &'static str
        // Only TLS and HTTP are named.
        ensures { result.now ≡ talk_text self }
    {
        match self {
            PeerTalk::Tls => ": it answers in TLS",
            PeerTalk::Http => ": it answers in HTTP",
            PeerTalk::Nothing | PeerTalk::Kmip | PeerTalk::Other => "",
        }
    }
}

/// What first bytes, of which there are some, are the beginning of.
fn known_talk(first: &[u8]) -> PeerTalk
    ensures { result ≡ known_talk first.now }
{
    if begins_as(first, &KMIP) {
        PeerTalk::Kmip
    } else if begins_as(first, &HTTP) {
        PeerTalk::Http
    } else if is_tls(first) {
        PeerTalk::Tls
    } else {
        PeerTalk::Other
    }
}

/// Whether some bytes are these, as far as both go.
fn begins_as(first: &[u8], known: &[u8]) -> bool
    ensures { result ≡ begins_as first.now known.now }
{
    first.starts_with(known) || known.starts_with(first)
}

/// Whether a record of TLS begins so: its type is that of a change of ciphers, an alert or a handshake.
fn is_tls(first: &[u8]) -> bool
    ensures { result ≡ is_tls first.now }
{
    match first {
        [kind] => is_record(*kind),
        [kind, version, ..] => is_record(*kind) && *version == TLS_VERSION,
        [] => false,
    }
}

/// Whether a record of TLS has this type.
fn is_record(kind: u8) -> bool
    ensures { result ≡ is_record kind }
{
    0x14 <= kind && kind <= 0x16
}
