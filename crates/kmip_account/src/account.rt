//! What `run` reports on standard error: how far it is, what goes wrong, and what was left undone.

use crate::exchange_log::ExchangeLog;
use kmip_batch_items::standard::{OPERATION_GET_ATTRIBUTES, REASON_ITEM_NOT_FOUND};
use kmip_batch_items::{Operation, Outcome, Reply};
use kmip_choices::RunOptions;
use kmip_client::{Client, Part};
use kmip_plan::{Key, Plan, place_of};
use kmip_run_command::progress_line;
use kmip_run_record::{Exchange, Findings, Story, push_answer_about, refusals_in};
use kmip_tally::RunTally;
use kmip_trace::{operation_word, push_replies};
use kmip_ttlv::NoMemory;
use std::alloc::Global;
use std::cell::Cell;
use std::str::from_utf8;
use std::time::Instant;

/// Of how many keys that are not finished it is told why (own).
const MOST_TOLD: usize = 20;

/// What `run` reports.
#[derive(Drop)]
pub struct Account<'a> {
    rt: &'a HostRuntime,
    options: &'a RunOptions,
    plan: &'a Plan,
    log: ExchangeLog<'a>,
    /// How many exchanges were made before the run itself, to look at what its progress knows.
    before: Cell<usize>,
    /// Whether an answer was against what the progress says.
    is_against: Cell<bool>,
}

impl<'a> Account<'a> {
    /// Of a run of this plan that begins now.
    ///
    /// # Errors
    /// If memory runs out.
    pub fn new(
        rt: &'a HostRuntime,
        options: &'a RunOptions,
        plan: &'a Plan,
    ) -> Result<Self, NoMemory> {
        let log = ExchangeLog::new(
            rt,
            &options.peer,
            options.timeout,
            options.give_up,
            options.is_verbose,
        )?;
        Ok(Account {
            rt,
            options,
            plan,
            log,
            before: Cell::new(0),
            is_against: Cell::new(false),
        })
    }

    /// The runtime whose standard error it writes to.
    pub fn rt(&self) -> &'a HostRuntime {
        self.rt
    }

    /// The plan of the run.
    pub fn plan(&self) -> &'a Plan {
        self.plan
    }

    /// What it reports of its exchanges.
    pub fn log(&self) -> &ExchangeLog<'a> {
        &self.log
    }

    /// Shows how far the run is at its start, by what this client knows, if it may make an exchange.
    pub fn show_start(&self, client: &Client<'_>) {
        if self.options.limit > 0 && client.working() > 0 {
            self.show(client);
        }
    }

    /// The run itself begins, after it looked at what its progress knows.
    pub fn begin_run(&self) {
        self.before.set(self.log.spent().exchanges);
        self.log.end_line();
        self.log.note_news();
        self.log.begin_exchange();
    }

    /// Reports an exchange that was made, after which the run had found out this much before. What there is no
    /// memory for is not reported.
    pub(crate) fn report(&self, exchange: &Exchange<'_>, findings: &Findings) {
        let now = Instant::now(self.rt).ok();
        let refusals = refusals_in(exchange.replies);
        self.log.note(exchange.silence, refusals, self.is_last());
        if self.log.is_verbose() {
            let _ = self.report_exchange(exchange, now);
            self.report_strangers(exchange);
        }
        for part in exchange.asked {
            let _ = self.report_difference(exchange, part, findings);
        }
    }

    /// Reports that the server does not have an object that the progress has, or that the object has not come as
    /// far as was known, if the answer to a question says so.
    fn report_difference(
        &self,
        exchange: &Exchange<'_>,
        part: &Part,
        findings: &Findings,
    ) -> Result<(), NoMemory> {
        let (Some(key), Some(answer)) = (exchange.key(part), exchange.answer(part)) else {
            return Ok(());
        };
        match answer {
            Outcome::Failed(Some(REASON_ITEM_NOT_FOUND))
                if part.operation == OPERATION_GET_ATTRIBUTES => {
                self.report_against(key, "does not have the object that")
            }
            Outcome::Attributes(_, attrs) => match (attrs.state, findings.done(part.key)) {
                (Some(state), Some(done)) if is_behind(key, state, done) => {
                    self.report_against(key, "has an earlier state of the object than")
                }
                (_, _) => Ok(()),
            },
            Outcome::Failed(_)
            | Outcome::Created(_)
            | Outcome::Located(_)
            | Outcome::Activated(_)
            | Outcome::Revoked(_)
            | Outcome::Destroyed(_) => Ok(()),
        }
    }

    /// Reports once that the server is not as the progress says of this key.
    fn report_against(&self, key: &Key, how: &str) -> Result<(), NoMemory> {
        if self.is_against.replace(true) {
            return Ok(());
        }
        let (path, peer) = (&self.options.progress, self.log.peer());
        let name = key.attrs.name.as_str();
        let line = format!(in self.rt.alloc();
            "{name}: {peer} {how} {path} has; --refresh checks the file"
        )?;
        self.log.report(line.as_str());
        Ok(())
    }

    /// Whether the exchange that was made is the last one that the run may make.
    fn is_last(&self) -> bool {
        let made = self.log.spent().exchanges.saturating_sub(self.before.get());
        (made as u64).saturating_add(1) >= self.options.limit
    }

    /// Shows how far the run is.
    pub(crate) fn show(&self, client: &Client<'_>) {
        if !self.log.is_shown() {
            return;
        }
        if let Ok(line) = progress_line(self.rt.alloc(), client, self.log.spent()) {
            self.log.show(line.as_str());
        }
    }

    /// What is counted of the run, by what was known after its last exchange.
    ///
    /// # Errors
    /// If memory runs out.
    pub fn tally(&self, findings: &Findings) -> Result<RunTally, NoMemory> {
        let milliseconds = self.log.milliseconds();
        let (alloc, keys) = (self.rt.alloc(), self.plan.keys());
        findings.tally(alloc, keys, self.log.spent(), milliseconds)
    }

    /// Ends the line that shows how far the run is, if there is one.
    pub fn end_line(&self) {
        self.log.end_line();
    }

    /// Reports an exchange: a line for each key that was asked about.
    fn report_exchange(
        &self,
        exchange: &Exchange<'_>,
        now: Option<Instant>,
    ) -> Result<(), NoMemory> {
        for part in exchange.asked {
            if let Some(key) = exchange.key(part) {
                let line = self.exchange_line(exchange, part, key, now)?;
                self.log.report(line.as_str());
            }
        }
        Ok(())
    }

    /// The line of a question about a key.
    fn exchange_line(
        &self,
        exchange: &Exchange<'_>,
        part: &Part,
        key: &Key,
        now: Option<Instant>,
    ) -> Result<String, NoMemory> {
        let alloc = self.rt.alloc();
        let mut line = self.log.time_text(now)?;
        if let Some(operation) = Operation::with_number(part.operation) {
            line.push_str(operation_word(operation))?;
            line.push_str(" ")?;
        }
        line.push_str(key.attrs.name.as_str())?;
        line.push_str(": ")?;
        match (exchange.answer(part), exchange.silence) {
            (Some(outcome), _) => {
                let name = key.attrs.name.as_str().as_bytes();
                push_answer_about(alloc, name, outcome, &mut line)?;
            }
            (None, Some(silence)) => {
                line.push_str(silence.told(alloc, self.log.timeout())?.as_str())?;
            }
            (None, None) => line.push_str("no answer in the reply")?,
        }
        line.push_str(self.log.took_text(now)?.as_str())?;
        Ok(line)
    }

    /// Reports a reply to what was not asked.
    fn report_strangers(&self, exchange: &Exchange<'_>) {
        if !exchange.has_stranger() {
            return;
        }
        let mut line = Vec::new(self.rt.alloc());
        if push_strangers(self.rt.alloc(), exchange.replies, &mut line).is_ok() {
            self.log.report(from_utf8(line.as_slice()).unwrap_or(""));
        }
    }

    /// Tells why the keys that are not finished are not: of the first ones each by itself, and of all
    /// together where no reply came.
    ///
    /// # Errors
    /// Where there is no memory.
    pub fn tell_unfinished(&self, findings: &Findings) -> Result<(), NoMemory> {
        let spent = self.log.spent();
        let exchanges = spent.exchanges;
        if exchanges <= self.before.get() {
            return Ok(());
        }
        if spent.lost >= exchanges {
            let ending = if exchanges == 1 { "" } else { "s" };
            let line = format!(in self.rt.alloc(); "no reply in {exchanges} exchange{ending}")?;
            self.log.report(line.as_str());
            return Ok(());
        }
        self.tell_stories(findings.stories())?;
        if self.is_against.get() {
            let (path, peer) = (&self.options.progress, self.log.peer());
            let line = format!(in self.rt.alloc();
                "{peer} is not as {path} says: check the address, and run with --refresh"
            )?;
            self.log.report(line.as_str());
        }
        Ok(())
    }

    /// Tells why the keys of these stories are not finished.
    fn tell_stories(&self, stories: &[Story]) -> Result<(), NoMemory> {
        let mut count = 0usize;
        for (key, story) in self.plan.keys().iter().zip(stories) {
            if !story.is_finished() {
                if count < MOST_TOLD {
                    self.tell_story(key, story)?;
                }
                count = count.saturating_add(1);
            }
        }
        if count > MOST_TOLD {
            let others = count - MOST_TOLD;
            let line = format!(in self.rt.alloc(); "and {others} more")?;
            self.log.report(line.as_str());
        }
        Ok(())
    }

    /// Tells why a key is not finished.
    fn tell_story(&self, key: &Key, story: &Story) -> Result<(), NoMemory> {
        let alloc = self.rt.alloc();
        let mut line = String::from_str(alloc, key.attrs.name.as_str())?;
        line.push_str(": ")?;
        story.push_why(alloc, key, &mut line)?;
        self.log.report(line.as_str());
        Ok(())
    }

    /// Tells that the run was given up.
    pub fn tell_given_up(&self) {
        let seconds = self.options.give_up;
        let _ = self
            .rt
            .eprintln(format_args!("gave up: nothing new for {seconds} s"));
    }
}

/// Whether an object of the key in the state of this number has come less far than so many steps.
fn is_behind(key: &Key, state: u32, done: usize) -> bool {
    matches!(place_of(key, state), Some(steps) if steps < done)
}

/// Appends the replies of a message of which one is to what was not asked.
fn push_strangers(alloc: Global, replies: &[Reply], line: &mut Vec<u8>) -> Result<(), NoMemory> {
    line.extend_from_slice(b"a reply to what was not asked: ")?;
    push_replies(alloc, &[], replies, line)
}
