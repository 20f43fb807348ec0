//! What `run` reports and finds out of its exchanges while it works.

use crate::account::Account;
use kmip_batch_items::Reply;
use kmip_client::{Client, Listener, Part};
use kmip_protocol::NoReplyReason;
use kmip_run_command::Counting;
use kmip_run_record::{Asked, Exchange, Findings, Silence};
use kmip_runs::{ExchangeNews, Observer};
use kmip_tally::{RunTally, Unanswered};
use kmip_ttlv::NoMemory;
use std::alloc::Global;

/// Gives each exchange of a run to its account, which reports it, and to its findings.
#[derive(Drop)]
pub struct RunObserver<'a> {
    account: &'a Account<'a>,
    findings: Findings,
    /// What the message under way asks.
    asked: Asked,
    /// Why a look before the run got no answer, if it got none.
    unanswered: Option<Unanswered>,
}

impl<'a> RunObserver<'a> {
    /// One of a run that knows nothing yet.
    ///
    /// # Errors
    /// If memory runs out.
    pub fn new(account: &'a Account<'a>) -> Result<Self, NoMemory> {
        let alloc = account.rt().alloc();
        let client = Client::fresh(alloc, account.plan())?;
        Ok(RunObserver {
            account,
            findings: Findings::new(alloc, &client)?,
            asked: Asked::none(),
            unanswered: None,
        })
    }

    /// The run begins now, with what this client knows.
    ///
    /// # Errors
    /// If memory runs out.
    pub fn begin(&mut self, client: &Client<'_>) -> Result<(), NoMemory> {
        self.findings = Findings::new(self.account.rt().alloc(), client)?;
        self.account.log().begin();
        Ok(())
    }

    /// What the run has found out.
    pub fn findings(&self) -> &Findings {
        &self.findings
    }

    /// Notes why a look before the run got no answer.
    pub fn note_unanswered(&mut self, unanswered: Option<Unanswered>) {
        self.unanswered = unanswered;
    }

    /// The exchange that was under way brought these replies, or none for this reason.
    fn exchanged(&mut self, replies: &[Reply], silence: Option<Silence>) {
        let (account, asked) = (self.account, self.asked);
        let exchange = Exchange {
            keys: account.plan().keys(),
            asked: asked.parts(),
            replies,
            silence,
        };
        account.report(&exchange, &self.findings);
        self.findings.hear(account.rt().alloc(), &exchange);
    }
}

impl<'a> Counting for RunObserver<'a> {
    fn tally(&mut self, _alloc: Global, client: &Client<'_>) -> Result<RunTally, NoMemory> {
        self.findings.know_all(client);
        let tally = self.account.tally(&self.findings)?;
        Ok(RunTally {
            unanswered: self.unanswered,
            ..tally
        })
    }
}

impl<'a> Listener for RunObserver<'a> {
    fn replied(&mut self, replies: &[Reply]) {
        self.exchanged(replies, None);
    }
}

impl<'a> Observer for RunObserver<'a> {
    fn asked(&mut self, parts: &[Part]) {
        self.asked = Asked::of(parts);
        self.account.log().begin_exchange();
    }

    fn missed(&mut self, reason: &NoReplyReason<'_>) {
        let silence = self.account.log().silence(reason);
        self.exchanged(&[], Some(silence));
    }

    fn learned(&mut self, client: &Client<'_>, news: ExchangeNews) {
        if let ExchangeNews::Grew = news {
            self.account.log().note_news();
        }
        let asked = self.asked;
        self.findings.learn(client, asked.parts());
        self.account.show(client);
    }

    fn ended(&mut self) {
        self.account.end_line();
    }
}
