//! A link in memory that follows a script.
ghost use Rattle.std.specs.Prelude.{◌≡◌, ℕ, List, ◌++◌, [], ◌∷◌, pos, drop, length, IfOk, OnErr, OnOk, option_map};
ghost use Rattle.kmip_messages.specs.Items.{parts_in, replies_in, stops_in};
ghost use Rattle.kmip_server.specs.Batching.{AreServedInTurn, batch_reply, effects_in};
ghost use Rattle.kmip_server.specs.Shown.{HasLawfulObjects};
ghost use Rattle.kmip_protocol.specs.Moves.{Delivered};
ghost use Rattle.kmip_protocol.specs.Past.{Names};
ghost use Rattle.kmip_scripted.specs.Disturbing.{is_repeated};
ghost use Rattle.kmip_scripted.specs.PrivateEarly.{asked_only};
ghost use Rattle.kmip_scripted.specs.Private.{IsTaken, WasAsked};
ghost use Rattle.kmip_scripted.specs.Scenes.{disturbances_in, past_in, scene_of, with_disturbances};
ghost use Rattle.kmip_scripted.specs.Serving.{IsHalfServed, with_served};
ghost use Rattle.kmip_scripted.specs.Words.{answer_at, exchange_word, message_at, word_at, next_words, with_ended, with_request, with_words, words_after_exchange, words_after_run};
ghost use Rattle.kmip_scripted.specs.Private.{first_of};

use crate::Counts;
use crate::disturbing::is_repeated;
use crate::script::Script;
use crate::serving::{serve_logged, the_laws_below_hold};
use crate::word::Word;
use crate::words::{
    first_word, next_exchange_word, take_ending_word, take_exchange_word, take_restarts,
};
use kmip_server::{Effect, Records, Server};
use kmip_ttlv::{Bytes, NoMemory};
use std::alloc::Global;
use std::collections::VecDeque;
use std::marker::Model;

/// A server in memory and the link to it, which follows a script word by word. A contract sees the
/// records of the server, all that was asked, given, done, sent and handed over, how many exchanges
/// were disturbed, where runs ended, and the words that are left (`Scene`).
///
/// Each message is served at the time 0. What is saved at the end of a run, and from where the next run
/// starts, is not for the link to do.
#[derive(Drop)]
pub struct Scripted<S: Records> {
    server: Server<S>,
    asked: Vec<Bytes>,
    given: Vec<Bytes>,
    effects: Vec<Effect>,
    sent: Vec<Bytes>,
    followed: Vec<Word>,
    handed: Vec<Option<Bytes>>,
    counts: Counts,
    ended: Vec<usize>,
    words: VecDeque<Word>,
}

impl<S: Records> Model for Scripted<S> {
    ghost use Rattle.kmip_scripted.specs.Scenes.{Scene};

    ghost Value = { Scene };

    ghost view = { λ s. record {
      stock = s.server;
      asked = s.asked.items;
      given = s.given.items;
      effects = s.effects.items;
      sent = s.sent.items;
      followed = s.followed.items;
      handed = s.handed.items;
      disturbed = s.counts.disturbed;
      disturbed_requests = s.counts.requests;
      strange = s.counts.strange;
      ended = s.ended.items;
      words = s.words.items;
    } };
}

impl<S: Records> Scripted<S> {
    /// A link to this server, over which nothing has happened yet. Its words are those of the script
    /// from the first run on: a part without words that ends in `restart` is no run. Takes no memory.
    pub fn new(alloc: Global, server: Server<S>, script: Script) -> Self
        ensures { result ≡ scene_of server (next_words script) }
    {
        let mut words = VecDeque::from_vec(script.into_words());
        take_restarts(&mut words);
        Scripted {
            server,
            asked: Vec::new(alloc),
            given: Vec::new(alloc),
            effects: Vec::new(alloc),
            sent: Vec::new(alloc),
            followed: Vec::new(alloc),
            handed: Vec::new(alloc),
            counts: Counts {
                disturbed: 0,
                requests: 0,
                strange: 0,
            },
            ended: Vec::new(alloc),
            words,
        }
    }

    /// The requests that were ever asked, in order.
    pub fn requests(&self) -> &[Bytes]
        ensures { result.now ≡ self.now.asked }
    {
        self.asked.as_slice()
    }

    /// The bytes of the request of this number, from 1, among those ever asked; none where there is
    /// none.
    pub fn request(&self, number: usize) -> Option<&[u8]>
        ensures { option_map (λ message. message.now) result ≡ message_at number self.now.asked }
    {
        message_at(self.asked.as_slice(), number)
    }

    /// The bytes of the reply of this number, from 1, among those ever given; none where there is none.
    pub fn reply(&self, number: usize) -> Option<&[u8]>
        ensures { option_map (λ message. message.now) result ≡ message_at number self.now.given }
    {
        message_at(self.given.as_slice(), number)
    }

    /// The word that the exchange of this number followed, from 1; none where there is no such
    /// exchange.
    pub fn followed(&self, number: usize) -> Option<Word>
        ensures { result ≡ word_at number self.now.followed }
    {
        if number == 0 {
            return None;
        }
        self.followed.get(number - 1).copied()
    }

    /// What the exchange of this number handed over, from 1: the bytes of a message. None where it
    /// handed over nothing, or where there is no such exchange.
    pub fn handed(&self, number: usize) -> Option<&[u8]>
        ensures { option_map (λ message. message.now) result ≡ answer_at number self.now.handed }
    {
        if number == 0 {
            return None;
        }
        match self.handed.get(number - 1) {
            Some(Some(message)) => Some(message.as_slice()),
            Some(None) | None => None,
        }
    }

    /// How many messages had been sent where each run ended, in order.
    pub fn ended(&self) -> &[usize]
        ensures { result.now ≡ self.now.ended }
    {
        self.ended.as_slice()
    }

    /// The server, with the records of the link.
    pub fn server(&self) -> &Server<S>
        ensures { result.now ≡ self.now.stock }
    {
        &self.server
    }

    /// How many exchanges were disturbed.
    pub fn disturbed(&self) -> usize
        ensures { result ≡ self.now.disturbed }
    {
        self.counts.disturbed
    }

    /// How many requests the disturbed exchanges sent.
    pub fn disturbed_requests(&self) -> usize
        ensures { result ≡ self.now.disturbed_requests }
    {
        self.counts.requests
    }

    /// How many replies the disturbed exchanges handed over about other keys than their requests.
    pub fn strange(&self) -> usize
        ensures { result ≡ self.now.strange }
    {
        self.counts.strange
    }

    /// The request joins those asked.
    pub(crate) fn ask(&mut self, alloc: Global, request: &[u8]) -> Result<(), NoMemory>
        ensures ok { OnOk result (self.new ≡ with_request request.now self.old) }
        ensures err { OnErr result (self.new ≡ self.old) }
    {
        let request = Bytes::copied(alloc, request)?;
        self.asked.push(request)?;
        Ok(())
    }

    /// Serves a message.
    ///
    /// # Errors
    /// Where there is no memory. Some of its first questions are served then, and not all of them,
    /// and no reply is given.
    pub(crate) fn serve(&mut self, alloc: Global, message: &[u8]) -> Result<(), NoMemory>
        ensures ok { OnOk result (self.new ≡ with_served message.now self.old) }
        ensures begun { OnErr result (IsHalfServed message.now self.old self.new) }
        ensures taken { OnOk result (WasAsked message.now self.old
            → IsTaken message.now self.old self.new) }
        ensures delivered { (names : Names) → WasAsked message.now self.old
            → Delivered names (past_in self.old) (past_in self.new) }
        ensures early { OnOk result ((names : Names) (asked : List (List ℕ))
            → WasAsked message.now (asked_only asked self.old)
            → Delivered names (past_in (asked_only asked self.old))
            (past_in (asked_only asked self.new))) }
    {
        the_laws_below_hold(); // proof
        self.log(alloc, message)?;
        Ok(())
    }

    /// The same, by the records and the lists alone.
    fn log(&mut self, alloc: Global, message: &[u8]) -> Result<(), NoMemory>
        ensures ok { OnOk result (self.new ≡ with_served message.now self.old) }
        ensures begun { OnErr result (IsHalfServed message.now self.old self.new) }
        ensures served { OnOk result (AreServedInTurn (stops_in message.now)
            (parts_in message.now) (replies_in (batch_reply self.old.stock message.now (pos 0)))
            (effects_in self.old.stock message.now) self.old.stock self.new.stock) }
        ensures lawful { HasLawfulObjects self.old.stock }
    {
        serve_logged(
            alloc,
            &mut self.server,
            &mut self.given,
            &mut self.effects,
            message,
        )?;
        Ok(())
    }

    /// How many replies were ever given.
    pub(crate) fn count_replies(&self) -> usize
        ensures { result ≡ length self.now.given }
    {
        self.given.as_slice().len()
    }

    /// The first of the words that are left.
    pub(crate) fn first_word(&self) -> Option<Word>
        ensures { result ≡ first_of self.now.words }
    {
        first_word(&self.words)
    }

    /// Takes the first word.
    pub(crate) fn take_first(&mut self)
        ensures { self.new ≡ with_words (drop 1 self.old.words) self.old }
    {
        let _taken = self.words.pop_front();
    }

    /// Takes the word of the next exchange.
    pub(crate) fn take_word(&mut self) -> Word
        ensures word { result ≡ exchange_word self.old.words }
        ensures rest { self.new ≡ with_words (words_after_exchange self.old.words) self.old }
    {
        take_exchange_word(&mut self.words)
    }

    /// Takes the word that ends the run.
    pub(crate) fn take_ending(&mut self)
        ensures { self.new ≡ with_words (words_after_run self.old.words) self.old }
    {
        take_ending_word(&mut self.words);
    }

    /// Notes that a run ends here: how many messages were sent.
    pub(crate) fn note_end(&mut self) -> Result<(), NoMemory>
        ensures ok { OnOk result (self.new ≡ with_ended self.old) }
        ensures err { OnErr result (self.new ≡ self.old) }
    {
        let sent = self.sent.as_slice().len();
        self.ended.push(sent)?;
        Ok(())
    }

    /// A copy of the reply of this number.
    pub(crate) fn copied_reply(
        &self,
        alloc: Global,
        number: usize,
    ) -> Result<Option<Vec<u8>>, NoMemory>
        ensures { IfOk result (λ m.
            option_map (λ v. v.items) m ≡ message_at number self.now.given) }
    {
        copied(alloc, self.reply(number))
    }

    /// The word of the next exchange.
    pub(crate) fn next_word(&self) -> Word
        ensures { result ≡ exchange_word self.now.words }
    {
        next_exchange_word(&self.words)
    }

    /// Whether a word before the next exchange delivers its message.
    pub(crate) fn is_repeated(&self) -> bool
        ensures { result ≡ is_repeated (length self.now.asked) self.now.words }
    {
        is_repeated(self.asked.as_slice().len(), &self.words)
    }

    /// The counts of what was disturbed until now.
    pub(crate) fn disturbances(&self) -> Counts
        ensures { result ≡ disturbances_in self.now }
    {
        self.counts
    }

    /// Keeps the counts.
    pub(crate) fn count(&mut self, counts: Counts)
        ensures { self.new ≡ with_disturbances counts self.old }
    {
        self.counts = counts;
    }

    /// Keeps what was sent, the word that was followed, and what is handed over.
    pub(crate) fn hand_over(
        &mut self,
        alloc: Global,
        request: &[u8],
        word: Word,
        answer: Option<&[u8]>,
    ) -> Result<(), NoMemory>
        ensures ok { OnOk result (self.new ≡ record self.old {
          sent = self.old.sent ++ request.now ∷ [];
          followed = self.old.followed ++ word ∷ [];
          handed = self.old.handed ++ option_map (λ m. m.now) answer.entry ∷ [];
        }) }
        ensures err { OnErr result (self.new ≡ self.old) }
    {
        let sent = Bytes::copied(alloc, request)?;
        let handed = copied_bytes(alloc, answer)?;
        self.sent.reserve(1)?;
        self.followed.reserve(1)?;
        self.handed.reserve(1)?;
        self.sent.push_reserved(sent);
        self.followed.push_reserved(word);
        self.handed.push_reserved(handed);
        Ok(())
    }
}

/// The message of a number, from 1.
fn message_at(messages: &[Bytes], number: usize) -> Option<&[u8]>
    ensures { option_map (λ message. message.now) result ≡ message_at number messages.now }
{
    if number == 0 {
        return None;
    }
    let Some(message) = messages.get(number - 1) else {
        return None;
    };
    Some(message.as_slice())
}

/// A copy of a message, where there is one.
pub(crate) fn copied(alloc: Global, message: Option<&[u8]>) -> Result<Option<Vec<u8>>, NoMemory>
    ensures { IfOk result (λ m.
        option_map (λ v. v.items) m ≡ option_map (λ b. b.now) message.entry) }
{
    let Some(message) = message else {
        return Ok(None);
    };
    let copy = Vec::from_slice(alloc, message)?;
    Ok(Some(copy))
}

/// The same, as bytes.
fn copied_bytes(alloc: Global, message: Option<&[u8]>) -> Result<Option<Bytes>, NoMemory>
    ensures { IfOk result (λ m. m ≡ option_map (λ b. b.now) message.entry) }
{
    let Some(message) = message else {
        return Ok(None);
    };
    let copy = Bytes::copied(alloc, message)?;
    Ok(Some(copy))
}
