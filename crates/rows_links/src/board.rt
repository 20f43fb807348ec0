//! A peer that answers looks as it was told to, name by name.

use kmip_batch_items::{Ask, Outcome, Reply, Request, Texts};
use kmip_messages::{read_request, reply_fits, write_reply};
use kmip_objects::Attrs;
use kmip_protocol::{Link, LinkFault};
use kmip_ttlv::{NoMemory, Text};
use std::alloc::Global;
use std::test::Fail;

/// What is answered of a name.
#[derive(Drop)]
struct Entry {
    name: String,
    /// The identifiers that are found.
    uids: Vec<String>,
    /// What is told of them.
    told: Told,
}

/// What is answered of a name, or of an object that was found by it.
#[derive(Clone, Copy)]
enum Told {
    /// Its numbers: type, algorithm, length, usage mask and state.
    Numbers([Option<u32>; 5]),
    /// Nothing: no reply comes.
    Nothing,
    /// The look is refused, for this reason.
    Refusal(Option<u32>),
    /// What comes is no message.
    Rubbish,
}

/// A peer that answers looks, as the lines of a block say.
#[derive(Drop)]
pub(crate) struct Board {
    entries: Vec<Entry>,
    messages: usize,
}

impl Board {
    /// The peer of these lines. Each has a name, the identifiers that are found, with commas between
    /// them, or `-` for none, and what is told of an object, or of the name where none is found.
    ///
    /// # Errors
    /// Where a line has something else, or there is no memory.
    pub(crate) fn of(alloc: Global, lines: &str) -> Result<Board, Fail> {
        let mut entries = Vec::new(alloc);
        for line in lines.lines() {
            entries.push(entry_of(alloc, line)?)?;
        }
        Ok(Board {
            entries,
            messages: 0,
        })
    }

    /// How many messages came.
    pub(crate) fn messages(&self) -> usize {
        self.messages
    }

    /// The message of the replies to that of some requests; none where it answers none of them. It is no
    /// message where one of them is about rubbish.
    fn replies_to(&self, alloc: Global, message: &[u8]) -> Option<Vec<u8>> {
        let batch = read_request(alloc, message).ok()?;
        let mut replies = Vec::new(alloc);
        for question in batch.items.into_vec() {
            let request = question.ok()?;
            if self.is_rubbish(&request.ask) {
                return Vec::from_slice(alloc, &[0]).ok();
            }
            if let Some(reply) = self.reply_to(alloc, request) {
                replies.push(reply).ok()?;
            }
        }
        if !reply_fits(replies.as_slice()) {
            return None;
        }
        write_reply(alloc, replies.as_slice(), 0).ok()
    }

    /// Whether what is answered is no message.
    fn is_rubbish(&self, ask: &Ask) -> bool {
        match self.entry(ask) {
            Some(entry) => {
                matches!(entry.told, Told::Rubbish)
                    && (entry.uids.is_empty() || matches!(ask, Ask::GetAttributes(_)))
            }
            None => false,
        }
    }

    /// The entry that a look is about.
    fn entry(&self, ask: &Ask) -> Option<&Entry> {
        match ask {
            Ask::Locate { mask: _, filter } => {
                let name = filter.name.as_ref()?;
                self.entries
                    .iter()
                    .find(|entry| entry.name.as_str() == name.as_str())
            }
            Ask::GetAttributes(uid) => self.entries.iter().find(|entry| entry.has(uid.as_str())),
            _ => None,
        }
    }

    /// The reply to a request; none where it answers nothing.
    fn reply_to(&self, alloc: Global, request: Request) -> Option<Reply> {
        let operation = Some(request.ask.operation().number());
        let outcome = self.outcome(alloc, &request.ask)?;
        Some(Reply {
            operation,
            id: request.id,
            outcome,
        })
    }

    /// What is answered.
    fn outcome(&self, alloc: Global, ask: &Ask) -> Option<Outcome> {
        match (ask, self.entry(ask)) {
            (Ask::Locate { .. }, Some(entry)) => located(alloc, entry),
            (Ask::Locate { .. }, None) => Some(Outcome::Located(Texts::new(alloc))),
            (Ask::GetAttributes(uid), Some(entry)) => attributes(alloc, entry, uid),
            _ => None,
        }
    }
}

impl Entry {
    /// Whether the identifier is found by its name.
    fn has(&self, uid: &str) -> bool {
        self.uids.iter().any(|own| own.as_str() == uid)
    }
}

/// The entry of a line.
fn entry_of(alloc: Global, line: &str) -> Result<Entry, Fail> {
    let (name, words) = line.split_once(' ').ok_or("a name")?;
    let (uids, words) = words.split_once(' ').ok_or("identifiers")?;
    Ok(Entry {
        name: String::from_str(alloc, name)?,
        uids: uids_of(alloc, uids)?,
        told: told_of(words)?,
    })
}

/// The identifiers of a word.
fn uids_of(alloc: Global, word: &str) -> Result<Vec<String>, Fail> {
    let mut uids = Vec::new(alloc);
    if word == "-" {
        return Ok(uids);
    }
    for uid in word.split(',') {
        uids.push(String::from_str(alloc, uid)?)?;
    }
    Ok(uids)
}

/// What these words tell.
fn told_of(words: &str) -> Result<Told, Fail> {
    match words.split_once(' ') {
        None => match words {
            "silent" => Ok(Told::Nothing),
            "refused" => Ok(Told::Refusal(None)),
            "rubbish" => Ok(Told::Rubbish),
            _ => Err(Fail::new("what is told")),
        },
        Some(("refused", reason)) => Ok(Told::Refusal(Some(reason.parse()?))),
        Some(_) => numbers_of(words),
    }
}

/// Five numbers, or `-` for one that is not told.
fn numbers_of(words: &str) -> Result<Told, Fail> {
    let mut numbers = [None; 5];
    for (place, word) in numbers.iter_mut().zip(words.split(' ')) {
        *place = if word == "-" {
            None
        } else {
            Some(word.parse()?)
        };
    }
    Ok(Told::Numbers(numbers))
}

/// What a search for the name of this entry finds.
fn located(alloc: Global, entry: &Entry) -> Option<Outcome> {
    if !entry.uids.is_empty() {
        let uids = texts_of(alloc, entry.uids.as_slice()).ok()?;
        return Some(Outcome::Located(uids));
    }
    match entry.told {
        Told::Numbers(_) => Some(Outcome::Located(Texts::new(alloc))),
        other => untold(other),
    }
}

/// These texts.
fn texts_of(alloc: Global, words: &[String]) -> Result<Texts, NoMemory> {
    let mut texts = Texts::new(alloc);
    for word in words {
        texts.push(Text::copied(alloc, word.as_str())?)?;
    }
    Ok(texts)
}

/// What is told of the object of this entry.
fn attributes(alloc: Global, entry: &Entry, uid: &Text) -> Option<Outcome> {
    match entry.told {
        Told::Numbers(numbers) => {
            let attrs = attrs_of(alloc, entry.name.as_str(), numbers).ok()?;
            let uid = Text::copied(alloc, uid.as_str()).ok()?;
            Some(Outcome::Attributes(uid, attrs))
        }
        other => untold(other),
    }
}

/// The attributes of a name and of these numbers.
fn attrs_of(alloc: Global, name: &str, numbers: [Option<u32>; 5]) -> Result<Attrs, NoMemory> {
    let [object_type, algorithm, length, usage, state] = numbers;
    let name = Text::copied(alloc, name)?;
    Ok(Attrs {
        object_type,
        name: Some(name),
        algorithm,
        length: length.and_then(|bits| i32::try_from(bits).ok()),
        usage: usage.and_then(|mask| i32::try_from(mask).ok()),
        state,
    })
}

/// What comes in the place of an answer.
fn untold(told: Told) -> Option<Outcome> {
    match told {
        Told::Refusal(reason) => Some(Outcome::Failed(reason)),
        Told::Nothing | Told::Rubbish | Told::Numbers(_) => None,
    }
}

/// Neither honest nor calm, and its past is empty: nothing is claimed of it.
impl Link for Board {
    ghost use Rattle.std.specs.Prelude.{⊤};
    ghost use Rattle.kmip_protocol.specs.Private.{unclaimed};

    ghost seen = { λ link. unclaimed 0 };

    ghost follows = { λ link next. ⊤ };

    fn exchange(&mut self, alloc: Global, request: &[u8]) -> Result<Option<Vec<u8>>, LinkFault> {
        self.messages = self.messages.saturating_add(1);
        Ok(self.replies_to(alloc, request))
    }

    fn end_run(&mut self, _alloc: Global) -> Result<(), LinkFault> {
        Ok(())
    }

    ghost itself = { λ link. tt };

    ghost twice = { λ x y z first second. tt };
}
