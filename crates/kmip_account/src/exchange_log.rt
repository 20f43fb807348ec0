//! What a command reports of its exchanges with a server, on standard error.

use crate::progress_line::ProgressLine;
use crate::reach::Reach;
use crate::spell::Spell;
use crate::wire::Wire;
use kmip_batch_items::{Reply, Request};
use kmip_choices::Peer;
use kmip_protocol::NoReplyReason;
use kmip_run_record::{Questions, Silence, exchange_line, refusals_in};
use kmip_tally::Spent;
use kmip_ttlv::{NoMemory, plain_text};
use std::alloc::Global;
use std::cell::Cell;
use std::time::{Duration, Instant};

/// After how many seconds without a line a silent server is reported again (own).
const REPORT_SECONDS: u64 = 30;

/// What a command reports of its exchanges with a server: why no reply came, when the server replies again, and
/// each exchange if it is asked to. It counts them too. What there is no memory for is not reported.
#[derive(Drop)]
pub struct ExchangeLog<'a> {
    rt: &'a HostRuntime,
    /// The server, as messages name it.
    peer: String,
    /// The longest that an exchange takes, in seconds.
    timeout: u64,
    /// After how many seconds without news the command gives up; 0 for never.
    give_up: u64,
    is_verbose: bool,
    wire: Wire,
    line: ProgressLine<'a>,
    /// When the command and the exchange began, by the clock.
    began: Cell<Option<Instant>>,
    exchange_began: Cell<Option<Instant>>,
    /// When there was news last, or the command began.
    news: Cell<Option<Instant>>,
    /// When an answer came last.
    answered: Cell<Option<Instant>>,
    spent: Cell<Spent>,
    reach: Cell<Reach>,
}

impl<'a> ExchangeLog<'a> {
    /// Of a command that begins now.
    ///
    /// # Errors
    /// If memory runs out.
    pub fn new(
        rt: &'a HostRuntime,
        peer: &Peer,
        timeout: u64,
        give_up: u64,
        is_verbose: bool,
    ) -> Result<Self, NoMemory> {
        let peer = peer_text(rt.alloc(), peer)?;
        let now = Instant::now(rt).ok();
        Ok(ExchangeLog {
            rt,
            peer,
            timeout,
            give_up,
            is_verbose,
            wire: Wire::new(),
            line: ProgressLine::new(rt, is_verbose),
            began: Cell::new(now),
            exchange_began: Cell::new(now),
            news: Cell::new(now),
            answered: Cell::new(None),
            spent: Cell::new(Spent {
                exchanges: 0,
                lost: 0,
                refused: 0,
                seconds: 0,
            }),
            reach: Cell::new(Reach::new()),
        })
    }

    /// The runtime whose standard error it writes to.
    pub fn rt(&self) -> &'a HostRuntime {
        self.rt
    }

    /// What is noted of the streams of an exchange.
    pub fn wire(&self) -> &Wire {
        &self.wire
    }

    /// The server, as messages name it.
    pub fn peer(&self) -> &str {
        self.peer.as_str()
    }

    /// The longest that an exchange takes, in seconds.
    pub(crate) fn timeout(&self) -> u64 {
        self.timeout
    }

    /// Whether each exchange is reported.
    pub(crate) fn is_verbose(&self) -> bool {
        self.is_verbose
    }

    /// What was spent so far.
    pub fn spent(&self) -> Spent {
        self.spent.get()
    }

    /// How many seconds ago the server replied last; none if it did not.
    pub fn seconds_since_answer(&self) -> Option<u64> {
        let answered = self.answered.get()?;
        Some(since(Some(answered), Instant::now(self.rt).ok()).as_secs())
    }

    /// How long ago the command began.
    pub fn elapsed(&self) -> Duration {
        since(self.began.get(), Instant::now(self.rt).ok())
    }

    /// How long ago that was, in milliseconds.
    pub fn milliseconds(&self) -> u64 {
        millis_of(self.elapsed())
    }

    /// The command begins now: a run, once it has the lock of its progress file.
    pub fn begin(&self) {
        let now = Instant::now(self.rt).ok();
        self.began.set(now);
        self.exchange_began.set(now);
        self.news.set(now);
    }

    /// Something new is known: the time after which the command gives up begins again.
    pub fn note_news(&self) {
        self.news.set(Instant::now(self.rt).ok());
    }

    /// The next exchange begins.
    pub fn begin_exchange(&self) {
        self.wire.begin();
        self.exchange_began.set(Instant::now(self.rt).ok());
    }

    /// A message of these requests is about to be sent. Returns what its line names, if exchanges are reported.
    /// `mark` is in the ids of the requests after the operation, and is not reported.
    pub fn asking(&self, requests: &[Request], mark: &[u8]) -> Option<Questions> {
        self.begin_exchange();
        if !self.is_verbose {
            return None;
        }
        Questions::of(self.rt.alloc(), requests, mark).ok()
    }

    /// These replies came to the message. Reports them in words.
    pub fn replied(&self, questions: Option<&Questions>, replies: &[Reply]) {
        self.note(None, refusals_in(replies), false);
        if let Some(questions) = questions {
            let _ = self.report_in_words(questions, Ok(replies));
        }
    }

    /// No reply came to the message. Reports why. Nothing if memory ran out, as the command ends then.
    pub fn missed(&self, questions: Option<&Questions>, reason: &NoReplyReason<'_>) {
        if matches!(reason, NoReplyReason::NoMemory) {
            return;
        }
        self.note(Some(self.silence(reason)), 0, false);
        if let Some(questions) = questions {
            let _ = self.report_silence_in_words(questions, reason);
        }
    }

    /// Why there is no reply that can be read, by what was noted of the streams.
    pub(crate) fn silence(&self, reason: &NoReplyReason<'_>) -> Silence {
        match reason {
            NoReplyReason::Lost => self.wire.silence(None),
            NoReplyReason::Failed(fault) => self.wire.silence(Some(*fault)),
            NoReplyReason::Unreadable(fault, reply) => Silence::unreadable(*fault, reply),
            NoReplyReason::NoMemory => Silence::NoMemory,
        }
    }

    /// Counts an exchange, and reports that the server stopped or began to reply. `refusals` is how many of its
    /// replies are refusals, and `is_last` that no exchange follows.
    pub(crate) fn note(&self, silence: Option<Silence>, refusals: usize, is_last: bool) {
        let now = Instant::now(self.rt).ok();
        self.count(silence, refusals);
        if silence.is_none() {
            self.answered.set(now);
        }
        let mut reach = self.reach.replace(Reach::new());
        let _ = self.report_reach(&mut reach, silence, now, is_last);
        self.reach.set(reach);
    }

    /// Some time of an exchange has passed: reports once more that the server is silent, if that was not reported
    /// for a while.
    pub fn tick(&self, now: Instant) {
        let now = Some(now);
        let mut reach = self.reach.replace(Reach::new());
        if self.is_due(&reach, now) {
            let _ = self.report_still(&mut reach, now);
        }
        self.reach.set(reach);
    }

    /// Whether a line shows how far the command is.
    pub fn is_shown(&self) -> bool {
        self.line.is_shown()
    }

    /// Shows how far the command is, in place of the line before.
    pub fn show(&self, line: &str) {
        self.line.show(line);
    }

    /// Ends the line that shows how far the command is, if there is one.
    pub fn end_line(&self) {
        self.line.end();
    }

    /// Writes a line of its own.
    pub fn report(&self, line: &str) {
        self.line.end();
        let _ = self.rt.eprintln(line);
    }

    /// Counts an exchange.
    fn count(&self, silence: Option<Silence>, refusals: usize) {
        let spent = self.spent.get();
        let lost = if silence.is_some() { 1 } else { 0 };
        self.spent.set(Spent {
            exchanges: spent.exchanges.saturating_add(1),
            lost: spent.lost.saturating_add(lost),
            refused: spent.refused.saturating_add(refusals),
            seconds: self.elapsed().as_secs(),
        });
    }

    /// Reports that the server began or stopped to reply, or that it is silent for another reason than before.
    fn report_reach(
        &self,
        reach: &mut Reach,
        silence: Option<Silence>,
        now: Option<Instant>,
        is_last: bool,
    ) -> Result<(), NoMemory> {
        match silence {
            Some(Silence::NoMemory) => Ok(()), // the command ends
            None => match reach.answer() {
                Some(spell) => self.report_again(since(spell.ended, now)),
                None => Ok(()),
            },
            Some(silence) => self.report_silence(reach, silence, now, is_last),
        }
    }

    /// Reports that the server replies again after this time.
    fn report_again(&self, silent: Duration) -> Result<(), NoMemory> {
        let (peer, seconds) = (&self.peer, silent.as_secs());
        let line = format!(in self.rt.alloc(); "{peer} answers again after {seconds} s")?;
        self.report(line.as_str());
        Ok(())
    }

    /// Reports why no reply came, if that is new or was not reported for a while.
    fn report_silence(
        &self,
        reach: &mut Reach,
        silence: Silence,
        now: Option<Instant>,
        is_last: bool,
    ) -> Result<(), NoMemory> {
        let alloc = self.rt.alloc();
        let reason = silence.text(alloc, self.timeout)?;
        let again = if is_last { "" } else { "; trying again" };
        let peer = &self.peer;
        let line = format!(in alloc; "no reply from {peer}: {reason}{again}")?;
        let is_new = reach.lose(Spell {
            reason,
            brief: silence.brief(alloc)?,
            count: 1,
            began: self.exchange_began.get(),
            ended: now,
        });
        if is_new {
            self.report(line.as_str());
        } else if self.is_due(reach, now) {
            self.report_still(reach, now)?;
        }
        Ok(())
    }

    /// Whether it is time to report a silent server again.
    fn is_due(&self, reach: &Reach, now: Option<Instant>) -> bool {
        let reported = match reach.last_report() {
            Some(reported) => Some(reported),
            None => self.exchange_began.get(),
        };
        since(reported, now).as_secs() >= REPORT_SECONDS
    }

    /// Reports that the server is still silent.
    fn report_still(&self, reach: &mut Reach, now: Option<Instant>) -> Result<(), NoMemory> {
        let alloc = self.rt.alloc();
        let spell = self.spell_text(reach.spell(), now)?;
        let peer = &self.peer;
        let line = match self.seconds_left(now) {
            Some(left) => {
                format!(in alloc; "still no reply from {peer} ({spell}); giving up in {left} s")?
            }
            None => format!(in alloc; "still no reply from {peer} ({spell})")?,
        };
        self.report(line.as_str());
        reach.note_report(now);
        Ok(())
    }

    /// How long no reply came, and how often, as `timed out 4 times in 121 s`.
    fn spell_text(&self, spell: Option<&Spell>, now: Option<Instant>) -> Result<String, NoMemory> {
        let alloc = self.rt.alloc();
        let text = match spell {
            None => {
                let seconds = since(self.exchange_began.get(), now).as_secs();
                format!(in alloc; "waiting for {seconds} s")?
            }
            Some(spell) => {
                let (brief, count) = (&spell.brief, spell.count);
                let ending = if count == 1 { "" } else { "s" };
                let seconds = since(spell.began, now).as_secs();
                format!(in alloc; "{brief} {count} time{ending} in {seconds} s")?
            }
        };
        Ok(text)
    }

    /// In how many seconds the command gives up, if it does.
    fn seconds_left(&self, now: Option<Instant>) -> Option<u64> {
        if self.give_up == 0 {
            return None;
        }
        Some(
            self.give_up
                .saturating_sub(since(self.news.get(), now).as_secs()),
        )
    }

    /// Reports in words that no reply came, and why, with the times of the exchange.
    fn report_silence_in_words(
        &self,
        questions: &Questions,
        reason: &NoReplyReason<'_>,
    ) -> Result<(), NoMemory> {
        let why = self.silence(reason).told(self.rt.alloc(), self.timeout)?;
        self.report_in_words(questions, Err(why.as_str()))
    }

    /// Reports an exchange in words, with its times.
    fn report_in_words(
        &self,
        questions: &Questions,
        replied: Result<&[Reply], &str>,
    ) -> Result<(), NoMemory> {
        let now = Instant::now(self.rt).ok();
        let mut line = self.time_text(now)?;
        line.push_str(exchange_line(self.rt.alloc(), questions, replied)?.as_str())?;
        line.push_str(self.took_text(now)?.as_str())?;
        self.report(line.as_str());
        Ok(())
    }

    /// When it is, as `12.310 `: in seconds since the command began.
    pub(crate) fn time_text(&self, now: Option<Instant>) -> Result<String, NoMemory> {
        let at = since(self.began.get(), now);
        let (seconds, millis) = (at.as_secs(), at.subsec_millis());
        let text = format!(in self.rt.alloc(); "{seconds}.{millis:03} ")?;
        Ok(text)
    }

    /// How long the exchange took, as ` (6 ms)`.
    pub(crate) fn took_text(&self, now: Option<Instant>) -> Result<String, NoMemory> {
        let took = millis_of(since(self.exchange_began.get(), now));
        let text = format!(in self.rt.alloc(); " ({took} ms)")?;
        Ok(text)
    }
}

/// The server, as messages name it.
fn peer_text(alloc: Global, peer: &Peer) -> Result<String, NoMemory> {
    match peer {
        Peer::Tcp(address) => {
            let text = format!(in alloc; "{address}")?;
            Ok(text)
        }
        Peer::Unix(path) => plain_text(alloc, path.as_str()),
        Peer::Loopback => {
            let text = String::from_str(alloc, "the server in this process")?;
            Ok(text)
        }
    }
}

/// How long it is from one time to another, if both are known.
fn since(then: Option<Instant>, now: Option<Instant>) -> Duration {
    match (then, now) {
        (Some(then), Some(now)) => now.saturating_duration_since(then),
        (None, _) | (_, None) => Duration::ZERO,
    }
}

/// A time in whole milliseconds.
fn millis_of(time: Duration) -> u64 {
    time.as_secs()
        .saturating_mul(1000)
        .saturating_add(u64::from(time.subsec_millis()))
}
