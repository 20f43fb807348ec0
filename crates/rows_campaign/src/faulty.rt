//! A link in memory that fails at one exchange.
ghost use Rattle.std.specs.Prelude.{◌≡◌, ◌≤◌, ◌<◌, IfErr};
ghost use Rattle.kmip_protocol.specs.Faults.{most_failures};

use kmip_batch_items::Reply;
use kmip_messages::{read_reply, reply_fits, write_reply};
use kmip_runs::{Link, LinkFault};
use kmip_scripted::Scripted;
use kmip_server::Records;
use std::alloc::Global;

/// What the link does in the place of handing a reply over.
#[derive(Clone, Copy)]
pub enum Fault {
    /// The network fails.
    Io,
    /// What comes is no message.
    Frame,
    /// Nothing comes.
    Lost,
    /// There is no memory.
    NoMemory,
    /// Bytes come that are no message of KMIP.
    Rubbish,
    /// The reply of this number comes, from 1, among those ever given.
    Reply(usize),
    /// Of both members of the reply to a delivered request the one at this place, 0 or 1, comes alone.
    Alone(usize),
    /// That member comes twice, and the other one not at all.
    Twice(usize),
    /// Both come, and then that member once more.
    Repeated(usize),
    /// Both come, the second one first.
    Swapped,
}

/// A failure of one exchange.
#[derive(Clone, Copy)]
pub struct Failure {
    /// The number of the exchange, from 1.
    pub at: usize,
    pub fault: Fault,
    /// Whether the request is delivered first.
    pub is_delivered: bool,
}

/// A link that fails at one exchange, and hands on all others.
#[derive(Drop)]
pub struct Faulty<S: Records> {
    /// The link that is handed on to.
    pub link: Scripted<S>,
    failure: Option<Failure>,
    /// How many exchanges were made since the failure was set.
    made: usize,
    /// How often the network failed.
    pub failures: u64,
}

impl<S: Records> Faulty<S> {
    /// Over this link, where no exchange is to fail yet.
    pub fn new(link: Scripted<S>) -> Faulty<S> {
        Faulty {
            link,
            failure: None,
            made: 0,
            failures: 0,
        }
    }

    /// From now on this failure is to come; the exchanges made before count no more.
    pub fn fail(&mut self, failure: Failure) {
        self.failure = Some(failure);
        self.made = 0;
    }
}

impl<S: Records> Faulty<S> {
    /// Hands the request on; a network in memory never fails.
    fn hand_on(&mut self, alloc: Global, request: &[u8]) -> Result<Option<Vec<u8>>, LinkFault>
        ensures failures { self.new.failures ≡ self.old.failures }
        ensures want { IfErr result (λ fault. fault ≡ LinkFault.NoMemory) }
    {
        match self.link.exchange(alloc, request) {
            Ok(answer) => Ok(answer),
            Err(_) => Err(LinkFault::NoMemory),
        }
    }

    /// The failure, where it comes at the exchange that is being made.
    fn failure_due(&self) -> Option<Failure> {
        let failure = self.failure?;
        if failure.at == self.made {
            return Some(failure);
        }
        None
    }

    /// The exchange that fails.
    fn break_off(
        &mut self,
        alloc: Global,
        request: &[u8],
        failure: Failure,
    ) -> Result<Option<Vec<u8>>, LinkFault>
        requires { self.old.failures < most_failures }
        ensures counted { self.old.failures ≤ self.new.failures }
        ensures io { IfErr result (λ fault. fault ≡ LinkFault.Io
            → self.old.failures < self.new.failures) }
    {
        let reply = if failure.is_delivered {
            self.hand_on(alloc, request)?
        } else {
            None
        };
        self.answer(alloc, failure.fault, &reply)
    }

    /// What comes of the exchange in the place of this reply.
    fn answer(
        &mut self,
        alloc: Global,
        fault: Fault,
        reply: &Option<Vec<u8>>,
    ) -> Result<Option<Vec<u8>>, LinkFault>
        requires { self.old.failures < most_failures }
        ensures counted { self.old.failures ≤ self.new.failures }
        ensures io { IfErr result (λ fault. fault ≡ LinkFault.Io
            → self.old.failures < self.new.failures) }
    {
        match fault {
            Fault::Io => {
                self.failures += 1;
                Err(LinkFault::Io)
            }
            Fault::Frame => Err(LinkFault::Frame),
            Fault::Lost => Ok(None),
            Fault::NoMemory => Err(LinkFault::NoMemory),
            Fault::Rubbish => copied(alloc, Some(RUBBISH)),
            Fault::Reply(number) => copied(alloc, self.link.reply(number)),
            Fault::Alone(place) => members_of(alloc, reply, &[place]),
            Fault::Twice(place) => members_of(alloc, reply, &[place, place]),
            Fault::Repeated(place) => members_of(alloc, reply, &[0, 1, place]),
            Fault::Swapped => members_of(alloc, reply, &[1, 0]),
        }
    }
}

/// The head of a reply, of which all else is missing.
const RUBBISH: &[u8] = b"\x42\x00\x7b\x01\x00\x00\x00\x90";

/// A copy of some bytes, if there are any.
fn copied(alloc: Global, bytes: Option<&[u8]>) -> Result<Option<Vec<u8>>, LinkFault>
    ensures { IfErr result (λ fault. fault ≡ LinkFault.NoMemory) }
{
    let Some(bytes) = bytes else {
        return Ok(None);
    };
    match Vec::from_slice(alloc, bytes) {
        Ok(copy) => Ok(Some(copy)),
        Err(_) => Err(LinkFault::NoMemory),
    }
}

/// The message of the members of a reply at these places, in this order; nothing where one is
/// missing.
fn members_of(
    alloc: Global,
    reply: &Option<Vec<u8>>,
    places: &[usize],
) -> Result<Option<Vec<u8>>, LinkFault>
    ensures { IfErr result (λ fault. fault ≡ LinkFault.NoMemory) }
{
    let Some(reply) = reply else {
        return Ok(None);
    };
    let mut members = Vec::new(alloc);
    for place in places {
        let Some(member) = member_of(alloc, reply.as_slice(), *place) else {
            return Ok(None);
        };
        if members.push(member).is_err() {
            return Err(LinkFault::NoMemory);
        }
    }
    written(alloc, members.as_slice())
}

/// The member of a reply at a place.
fn member_of(alloc: Global, reply: &[u8], place: usize) -> Option<Reply> {
    let members = read_reply(alloc, reply).ok()?;
    members.into_iter().nth(place)
}

/// The message of these members; nothing where they fit in none.
fn written(alloc: Global, members: &[Reply]) -> Result<Option<Vec<u8>>, LinkFault>
    ensures { IfErr result (λ fault. fault ≡ LinkFault.NoMemory) }
{
    if !reply_fits(members) {
        return Ok(None);
    }
    match write_reply(alloc, members, 0) {
        Ok(message) => Ok(Some(message)),
        Err(_) => Err(LinkFault::NoMemory),
    }
}

/// Neither honest nor calm, and its past is empty: nothing is claimed of it but that its failures
/// are counted.
impl<S: Records> Link for Faulty<S> {
    ghost use Rattle.std.specs.Prelude.{⊤};
    ghost use Rattle.kmip_protocol.specs.Private.{unclaimed};

    ghost seen = { λ link. unclaimed link.failures };

    ghost follows = { λ link next. ⊤ };

    fn exchange(&mut self, alloc: Global, request: &[u8]) -> Result<Option<Vec<u8>>, LinkFault> {
        if self.failures == u64::MAX {
            return Ok(None);
        }
        self.made = self.made.saturating_add(1);
        match self.failure_due() {
            Some(failure) => self.break_off(alloc, request, failure),
            None => self.hand_on(alloc, request),
        }
    }

    fn end_run(&mut self, alloc: Global) -> Result<(), LinkFault> {
        if self.failures == u64::MAX {
            return Ok(());
        }
        match self.link.end_run(alloc) {
            Ok(()) => Ok(()),
            Err(_) => Err(LinkFault::NoMemory),
        }
    }

    ghost itself = { λ link. tt };

    ghost twice = { λ x y z first second. tt };
}
