//! A server that keeps all rules of the profile but one.

use crate::alone::{reply_in, request_bytes};
use kmip_batch_items::{Ask, Outcome, Reply, Request, Texts};
use kmip_objects::KeyAttrs;
use kmip_objects::standard::REVOCATION_UNSPECIFIED;
use kmip_server::{ListStore, Server};
use kmip_ttlv::{NoMemory, Text};
use std::alloc::Global;
use std::test::Fail;

/// Reason Permission Denied.
///
/// Source: KMIP 2.1, Enumerations, Result Reason.
const PERMISSION_DENIED: u32 = 0xC;

/// How a rule is broken.
#[derive(Clone, Copy)]
enum Breach {
    /// A Create of the name of an object makes a second one, until one is destroyed.
    SecondObject,
    /// A Create of the name of a destroyed object makes another.
    FreedName,
    /// A step that was taken succeeds again.
    ActivateAgain,
    RevokeAgain,
    DestroyAgain,
    /// A Destroy of an active object succeeds.
    ActiveDestroyed,
    /// No Locate finds anything, until an object is destroyed.
    Unfound,
    /// None does from then on.
    DestroyedUnfound,
    /// Get Attributes tells no State.
    NoState,
    /// Get Attributes tells half the Cryptographic Length.
    HalfLength,
    /// Get Attributes is refused.
    AttributesRefused,
    /// No reply has an id.
    NoId,
}

/// The breach of these words.
fn breach_of(words: &str) -> Result<Breach, Fail> {
    match words {
        "a second object" => Ok(Breach::SecondObject),
        "a freed name" => Ok(Breach::FreedName),
        "Activate again" => Ok(Breach::ActivateAgain),
        "Revoke again" => Ok(Breach::RevokeAgain),
        "Destroy again" => Ok(Breach::DestroyAgain),
        "an active object destroyed" => Ok(Breach::ActiveDestroyed),
        "no object found" => Ok(Breach::Unfound),
        "no destroyed object found" => Ok(Breach::DestroyedUnfound),
        "no State" => Ok(Breach::NoState),
        "half the length" => Ok(Breach::HalfLength),
        "attributes refused" => Ok(Breach::AttributesRefused),
        "no id" => Ok(Breach::NoId),
        _ => Err(Fail::new("no breach")),
    }
}

/// A server that breaks a rule.
#[derive(Drop)]
pub(crate) struct Breaking {
    server: Server<ListStore>,
    breach: Breach,
    /// Whether an object was destroyed.
    has_destroyed: bool,
}

impl Breaking {
    /// One with no object, which breaks the rule of these words.
    pub(crate) fn of(alloc: Global, words: &str) -> Result<Breaking, Fail> {
        Ok(Breaking {
            breach: breach_of(words)?,
            server: Server::new(ListStore::new(alloc, [0; 32], 10_000)),
            has_destroyed: false,
        })
    }

    /// Its reply to a request; none where it can't be served.
    pub(crate) fn answer(&mut self, alloc: Global, request: &mut Request) -> Option<Reply> {
        let mut reply = self.reply_to(alloc, request)?;
        self.falsify(alloc, &request.ask, &mut reply).ok()?;
        self.has_destroyed = self.has_destroyed || matches!(reply.outcome, Outcome::Destroyed(_));
        Some(reply)
    }

    /// The reply of the server that keeps all rules, once what it refuses and this one does not was got
    /// round.
    fn reply_to(&mut self, alloc: Global, request: &mut Request) -> Option<Reply> {
        let reply = self.served(alloc, request)?;
        if is_refusal(&reply) && self.gets_round(alloc, request)? {
            return self.served(alloc, request);
        }
        Some(reply)
    }

    /// The reply of the server that keeps all rules.
    fn served(&mut self, alloc: Global, request: &Request) -> Option<Reply> {
        let message = request_bytes(alloc, request)?;
        let reply = self.server.handle(alloc, message.as_slice(), 0).ok()?;
        reply_in(alloc, reply.as_slice())
    }

    /// Whether a request that was refused succeeds here: what is in its way is changed then.
    fn gets_round(&mut self, alloc: Global, request: &mut Request) -> Option<bool> {
        match &mut request.ask {
            Ask::Create(attrs) if self.makes_another() => {
                rename(alloc, attrs).ok()?;
                Some(true)
            }
            Ask::Destroy(uid) if matches!(self.breach, Breach::ActiveDestroyed) => {
                self.revoke(alloc, uid.as_str())
            }
            _ => Some(false),
        }
    }

    /// Whether a Create of a name that is used makes another object now.
    fn makes_another(&self) -> bool {
        match self.breach {
            Breach::SecondObject => !self.has_destroyed,
            Breach::FreedName => self.has_destroyed,
            _ => false,
        }
    }

    /// Revokes an object; none where that can't be served.
    fn revoke(&mut self, alloc: Global, uid: &str) -> Option<bool> {
        let uid = Text::copied(alloc, uid).ok()?;
        let ask = Ask::Revoke(uid, REVOCATION_UNSPECIFIED);
        self.is_served(alloc, &Request { id: None, ask })
    }

    /// True; none where the request can't be served.
    fn is_served(&mut self, alloc: Global, request: &Request) -> Option<bool> {
        match self.served(alloc, request) {
            Some(_) => Some(true),
            None => None,
        }
    }

    /// Changes the reply to what this server tells.
    fn falsify(&self, alloc: Global, ask: &Ask, reply: &mut Reply) -> Result<(), NoMemory> {
        if let Some(outcome) = self.told_instead(alloc, ask, is_refusal(reply))? {
            reply.outcome = outcome;
        }
        match (self.breach, &mut reply.outcome) {
            (Breach::NoState, Outcome::Attributes(_, attrs)) => attrs.state = None,
            (Breach::HalfLength, Outcome::Attributes(_, attrs)) => attrs.length = Some(128),
            (Breach::NoId, _) => reply.id = None,
            _ => {}
        }
        Ok(())
    }

    /// The outcome that is told in the place of the right one, where there is such; `is_refused` says
    /// whether the right one is a refusal.
    fn told_instead(
        &self,
        alloc: Global,
        ask: &Ask,
        is_refused: bool,
    ) -> Result<Option<Outcome>, NoMemory> {
        let outcome = match (self.breach, ask) {
            (Breach::Unfound, Ask::Locate { .. }) if !self.has_destroyed => {
                Outcome::Located(Texts::new(alloc))
            }
            (Breach::DestroyedUnfound, Ask::Locate { .. }) if self.has_destroyed => {
                Outcome::Located(Texts::new(alloc))
            }
            (Breach::AttributesRefused, Ask::GetAttributes(_)) => {
                Outcome::Failed(Some(PERMISSION_DENIED))
            }
            (Breach::ActivateAgain, Ask::Activate(uid)) if is_refused => {
                Outcome::Activated(Text::copied(alloc, uid.as_str())?)
            }
            (Breach::RevokeAgain, Ask::Revoke(uid, _)) if is_refused => {
                Outcome::Revoked(Text::copied(alloc, uid.as_str())?)
            }
            (Breach::DestroyAgain, Ask::Destroy(uid)) if is_refused && self.has_destroyed => {
                Outcome::Destroyed(Text::copied(alloc, uid.as_str())?)
            }
            _ => return Ok(None),
        };
        Ok(Some(outcome))
    }
}

/// Whether a reply refuses.
fn is_refusal(reply: &Reply) -> bool {
    matches!(reply.outcome, Outcome::Failed(_))
}

/// Asks for a key of another name.
fn rename(alloc: Global, attrs: &mut KeyAttrs) -> Result<(), NoMemory> {
    let mut name = String::from_str(alloc, attrs.name.as_str())?;
    name.push_str("x")?;
    attrs.name = Text::from_string(name);
    Ok(())
}
