//! What an exchange and the end of a run do, word by word.
ghost use Rattle.std.specs.Prelude.{◌≡◌, ◌⊎◌, ℕ, List, length, [], pos, true, false, Some, None, IfOk, OnErr, OnOk, option_map};
ghost use Rattle.kmip_server.specs.Batching.{batch_reply};
ghost use Rattle.kmip_protocol.specs.Calm.{Calmly};
ghost use Rattle.kmip_protocol.specs.Clean.{IsCounted};
ghost use Rattle.kmip_protocol.specs.Moves.{Delivered};
ghost use Rattle.kmip_protocol.specs.Past.{Names};
ghost use Rattle.kmip_scripted.specs.declared.word.Word.TheVariants.{Pass};
ghost use Rattle.kmip_scripted.specs.Disturbing.{is_repeated};
ghost use Rattle.kmip_scripted.specs.PrivateEarly.{DoesWords, IsOfEarlier, asked_only};
ghost use Rattle.kmip_scripted.specs.Private.{IsTaken, WasAsked};
ghost use Rattle.kmip_scripted.specs.Scenes.{disturbances_in, past_in};
ghost use Rattle.kmip_scripted.specs.Serving.{IsHalfServed, with_served};
ghost use Rattle.kmip_scripted.specs.Words.{AreBegun, IsBegun, IsHalfDelivered, IsHalfDone, IsHalfPlayed, IsPlaying, IsPreparing, after_word, after_run, after_words, before_play, exchange, exchange_word, message_at, play, played, with_delivered};
ghost use Rattle.kmip_scripted.specs.Private.{HasStopped, StepsOn};
ghost use Rattle.kmip_scripted.specs.Wanting.{IsWanting};
ghost use Rattle.kmip_protocol.specs.Exchanges.{HandsOver, with_asked};

use crate::disturbing::counts_after;
use crate::scripted::{Scripted, copied};
use crate::word::Word;
use crate::words::goes_on;
use kmip_protocol::laws::the_laws_of_exchanges_hold;
use kmip_server::Records;
use kmip_ttlv::NoMemory;
use std::alloc::Global;

impl<S: Records> Scripted<S> {
    /// Delivers the request of a number again, where there is one.
    fn repeat(&mut self, alloc: Global, number: usize) -> Result<(), NoMemory>
        ensures ok { OnOk result (self.new
            ≡ with_delivered (message_at number self.old.asked) self.old) }
        ensures begun { OnErr result ((self.new ≡ self.old)
            ⊎ IsHalfDelivered (message_at number self.old.asked) self.old self.new) }
        ensures delivered { (names : Names)
            → Delivered names (past_in self.old) (past_in self.new) }
        ensures early { OnOk result ((names : Names) (asked : List (List ℕ))
            → message_at number asked ≡ message_at number self.old.asked
            → Delivered names (past_in (asked_only asked self.old))
            (past_in (asked_only asked self.new))) }
    {
        the_laws_of_exchanges_hold(); // proof
        let asked = self.request(number);
        let Some(message) = copied(alloc, asked)? else {
            return Ok(());
        };
        self.serve(alloc, message.as_slice())?;
        Ok(())
    }

    /// What a word does between two exchanges.
    fn do_word(&mut self, alloc: Global, word: Word) -> Result<(), NoMemory>
        ensures ok { OnOk result (self.new ≡ after_word word self.old) }
        ensures begun { OnErr result ((self.new ≡ self.old)
            ⊎ IsHalfDone word self.old self.new) }
        ensures delivered { (names : Names)
            → Delivered names (past_in self.old) (past_in self.new) }
        ensures early { OnOk result ((names : Names) (asked : List (List ℕ))
            → IsOfEarlier asked self.old.asked word
            → Delivered names (past_in (asked_only asked self.old))
            (past_in (asked_only asked self.new))) }
    {
        the_laws_of_exchanges_hold(); // proof
        match word {
            Word::Again(number) => self.repeat(alloc, number),
            Word::Pass | Word::LoseRequest | Word::LoseReply => Ok(()),
            Word::Cut(_) | Word::Stale(_) => Ok(()),
            Word::Save | Word::Prolong | Word::Restart(_) | Word::Crash(_) => Ok(()),
        }
    }

    /// Does the next word and takes it, where it goes on; answers whether it did.
    fn step(&mut self, alloc: Global, at_end: bool) -> Result<bool, NoMemory>
        ensures went { IfOk result (λ went. went ≡ true → StepsOn at_end self.old self.new) }
        ensures stopped { IfOk result (λ went. went ≡ false
            → HasStopped at_end self.old self.new) }
        ensures words { DoesWords at_end result self.old self.new }
    {
        the_laws_of_exchanges_hold(); // proof
        let Some(word) = self.first_word() else {
            return Ok(false);
        };
        if !goes_on(at_end, word) {
            return Ok(false);
        }
        self.do_word(alloc, word)?;
        self.take_first();
        Ok(true)
    }

    /// Does the words that go on, and takes them.
    pub(crate) fn do_words(&mut self, alloc: Global, at_end: bool) -> Result<(), NoMemory>
        ensures ok { OnOk result (self.new ≡ after_words at_end self.old.words self.old) }
        ensures words { DoesWords at_end result self.old self.new }
    {
        the_laws_of_exchanges_hold(); // proof
        'words: loop {
            if !self.step(alloc, at_end)? {
                return Ok(());
            }
        }
    }

    /// What the word of an exchange does, and what it hands over.
    pub(crate) fn play(
        &mut self,
        alloc: Global,
        word: Word,
        request: &[u8],
    ) -> Result<Option<Vec<u8>>, NoMemory>
        ensures answer { IfOk result (λ answer. option_map (λ v. v.items) answer
            ≡ (play word request.now self.old).0) }
        ensures ok { OnOk result (self.new ≡ (play word request.now self.old).1) }
        ensures begun { OnErr result ((self.new ≡ self.old)
            ⊎ (self.new ≡ (play word request.now self.old).1)
            ⊎ IsHalfPlayed word request.now self.old self.new) }
        ensures taken { OnOk result (word ≡ Pass → WasAsked request.now self.old
            → IsTaken request.now self.old self.new) }
        ensures delivered { (names : Names) → WasAsked request.now self.old
            → Delivered names (past_in self.old) (past_in self.new) }
    {
        the_laws_of_exchanges_hold(); // proof
        match word {
            Word::LoseRequest => Ok(None),
            Word::LoseReply => self.lose_reply(alloc, request),
            Word::Cut(size) => {
                if request.len() <= size {
                    return self.lose_reply(alloc, request);
                }
                Ok(None)
            }
            Word::Stale(number) => self.copied_reply(alloc, number),
            Word::Pass | Word::Again(_) | Word::Save | Word::Prolong => self.pass(alloc, request),
            Word::Restart(_) | Word::Crash(_) => self.pass(alloc, request),
        }
    }

    /// Serves the request, and hands nothing over.
    fn lose_reply(&mut self, alloc: Global, request: &[u8]) -> Result<Option<Vec<u8>>, NoMemory>
        ensures answer { IfOk result (λ answer. option_map (λ v. v.items) answer ≡ None) }
        ensures ok { OnOk result (self.new ≡ with_served request.now self.old) }
        ensures begun { OnErr result (IsHalfServed request.now self.old self.new) }
        ensures delivered { (names : Names) → WasAsked request.now self.old
            → Delivered names (past_in self.old) (past_in self.new) }
    {
        self.serve(alloc, request)?;
        Ok(None)
    }

    /// Serves the request, and hands its reply over.
    fn pass(&mut self, alloc: Global, request: &[u8]) -> Result<Option<Vec<u8>>, NoMemory>
        ensures answer { IfOk result (λ answer. option_map (λ v. v.items) answer
            ≡ Some (batch_reply self.old.stock request.now (pos 0))) }
        ensures ok { OnOk result (self.new ≡ with_served request.now self.old) }
        ensures begun { OnErr result (IsHalfServed request.now self.old self.new
            ⊎ (self.new ≡ with_served request.now self.old)) }
        ensures taken { OnOk result (WasAsked request.now self.old
            → IsTaken request.now self.old self.new) }
        ensures delivered { (names : Names) → WasAsked request.now self.old
            → Delivered names (past_in self.old) (past_in self.new) }
    {
        self.serve(alloc, request)?;
        let reply = self.copied_reply(alloc, self.count_replies())?;
        Ok(reply)
    }

    /// The request joins those asked, and the words that stand before its exchange are done.
    fn prepare(&mut self, alloc: Global, request: &[u8]) -> Result<(), NoMemory>
        ensures ok { OnOk result (self.new ≡ before_play request.now self.old) }
        ensures begun { OnErr result (IsPreparing request.now self.old self.new) }
        ensures asked { OnOk result (WasAsked request.now self.new) }
        ensures joined { OnOk result ((names : Names)
            → Delivered names (with_asked request.now (past_in self.old)) (past_in self.new)) }
        ensures early { OnOk result ((names : Names)
            → is_repeated (length self.old.asked) self.old.words ≡ false
            → Delivered names (past_in self.old) (past_in (asked_only self.old.asked self.new))) }
        ensures joins { OnOk result (past_in self.new
            ≡ with_asked request.now (past_in (asked_only self.old.asked self.new))) }
        ensures want { OnErr result ((names : Names) → IsWanting names request.now
            (past_in self.old) (past_in self.new)) }
    {
        the_laws_of_exchanges_hold(); // proof
        self.ask(alloc, request)?;
        self.do_words(alloc, false)?;
        Ok(())
    }

    /// Takes the word of the exchange, and does it.
    fn take_and_play(&mut self, alloc: Global, request: &[u8]) -> Result<Option<Vec<u8>>, NoMemory>
        ensures answer { IfOk result (λ answer. option_map (λ v. v.items) answer
            ≡ (played request.now self.old).0) }
        ensures ok { OnOk result (self.new ≡ (played request.now self.old).1) }
        ensures begun { OnErr result (IsPlaying request.now self.old self.new) }
        ensures taken { OnOk result (exchange_word self.old.words ≡ Pass
            → WasAsked request.now self.old
            → IsTaken request.now self.old self.new) }
        ensures delivered { (names : Names) → WasAsked request.now self.old
            → Delivered names (past_in self.old) (past_in self.new) }
    {
        let word = self.take_word();
        let answer = self.play(alloc, word, request)?;
        Ok(answer)
    }

    /// Exchanges a message, of any bytes: the request joins those asked, and each `again` that stands
    /// next is done. Then the word of the exchange is taken and done, `pass` where none is left in the
    /// run. What was sent and what is handed over is kept.
    ///
    /// # Errors
    /// Where there is no memory; a beginning of the steps was done. Of a message that was being served
    /// some of the first questions may be served, and no reply is given.
    pub fn follow(&mut self, alloc: Global, request: &[u8]) -> Result<Option<Vec<u8>>, NoMemory>
        // What is handed over follows from what the link held before and the request alone. It is what
        // the words say (`exchange`).
        ensures answer { IfOk result (λ answer. option_map (λ v. v.items) answer
            ≡ (exchange request.now self.old).0) }
        // All that the link holds after it is what the words say.
        ensures exact { OnOk result (self.new ≡ (exchange request.now self.old).1) }
        // Where memory runs out, a beginning of the steps was done, each of them whole or not at all. But
        // of a message of several questions some first ones may be served alone. The exchange is not
        // among those made.
        ensures begun { OnErr result (IsBegun request.now self.old self.new) }
        // For any names, an exchange that ends without a fault is one over an honest link.
        ensures hands { IfOk result (λ answer. (names : Names)
            → HandsOver names (past_in self.old) request.now (option_map (λ v. v.items) answer)
            (past_in self.new)) }
        // For any names, where memory runs out, the requests joined those asked or not, and beyond that
        // no more happened than may over an honest link.
        ensures want { OnErr result ((names : Names) → IsWanting names request.now
            (past_in self.old) (past_in self.new)) }
        // Where no word was left, an exchange that ends without a fault is one over a calm link: the
        // message is served once, and its reply handed over.
        ensures calmly { IfOk result (λ answer. self.old.words ≡ [] → Calmly (past_in self.old)
            request.now (option_map (λ v. v.items) answer) (past_in self.new)) }
        // For any names, an exchange that ends without a fault is clean, or it is counted as disturbed.
        ensures counted { IfOk result (λ answer. (names : Names) → IsCounted names
            (past_in self.old) request.now (option_map (λ v. v.items) answer) (past_in self.new)
            (disturbances_in self.old) (disturbances_in self.new)) }
        // Where no word was left, none is left, however it ends.
        ensures stays { self.old.words ≡ [] → self.new.words ≡ [] }
    {
        the_laws_of_exchanges_hold(); // proof
        let repeated = self.is_repeated();
        self.prepare(alloc, request)?;
        let word = self.next_word();
        let answer = self.take_and_play(alloc, request)?;
        let handed = bytes_of(&answer);
        let before = self.disturbances();
        let counts = counts_after(alloc, before, request, word, repeated, handed)?;
        self.hand_over(alloc, request, word, handed)?;
        self.count(counts);
        Ok(answer)
    }

    /// Ends a run. Of the words that are left in the run, each `again` is done, and the others are
    /// dropped. The end is noted, by how many messages were sent. Then the word that ends the run is
    /// taken, with the parts after it that are no runs.
    ///
    /// # Errors
    /// Where there is no memory; a beginning of the steps was done. Of a message that was being served
    /// some of the first questions may be served, and no reply is given.
    pub fn finish_run(&mut self, alloc: Global) -> Result<(), NoMemory>
        // All that the link holds after it is what the words say (`after_run`).
        ensures exact { OnOk result (self.new ≡ after_run self.old) }
        // Where memory runs out, some first ones of the words left in the run were done or dropped, and
        // the next one perhaps by half.
        ensures begun { OnErr result (AreBegun true self.old.words self.old self.new) }
        // For any names, no more happened than may over an honest link, however it ends.
        ensures delivered { (names : Names)
            → Delivered names (past_in self.old) (past_in self.new) }
        // Where no word was left, none is left, and nothing has happened.
        ensures calm { self.old.words ≡ [] → (self.new.words ≡ [])
            × (past_in self.new ≡ past_in self.old) }
    {
        self.do_words(alloc, true)?;
        self.note_end()?;
        self.take_ending();
        Ok(())
    }
}

/// The bytes of a message, where there is one.
fn bytes_of(message: &Option<Vec<u8>>) -> Option<&[u8]>
    ensures { option_map (λ b. b.now) result ≡ option_map (λ v. v.items) message.now }
{
    match message {
        Some(message) => Some(message.as_slice()),
        None => None,
    }
}
