//! Several clients, each of a plan, and their server.
use crate::event::Event;
use crate::line::Line;
use kmip_client::{Client, Verdict};
use kmip_objects::KeyState;
use kmip_plan::Plan;
use kmip_progress::Progress;
use kmip_runs::{Stop, drive};
use kmip_server::{Records, Server};
use kmip_store::ListStore;
use kmip_ttlv::Text;
use std::alloc::Global;
use std::test::Fail;

/// A client, and its plan.
#[derive(Drop)]
struct Member<'p> {
    plan: &'p Plan,
    client: Client<'p>,
}

/// Several clients, each of a plan, and their server.
#[derive(Drop)]
pub(crate) struct Company<'p> {
    members: Vec<Member<'p>>,
    line: Line,
    /// The text of what any client saved last.
    saved: Option<Text>,
}

impl<'p> Company<'p> {
    /// A client of each of these plans that knows nothing, and a server with no object.
    pub(crate) fn new(alloc: Global, plans: &[&'p Plan]) -> Result<Self, Fail> {
        let mut members = Vec::new(alloc);
        for plan in plans {
            let client = Client::fresh(alloc, plan)?;
            members.push(Member { plan, client })?;
        }
        Ok(Company {
            members,
            line: Line {
                server: Server::new(ListStore::new(alloc, [0; 32], 100)),
                late: None,
                event: Event::Served,
            },
            saved: None,
        })
    }

    /// The places of the clients that have work left.
    pub(crate) fn working(&self, alloc: Global) -> Result<Vec<usize>, Fail> {
        let mut places = Vec::new(alloc);
        for (place, member) in self.members.iter().enumerate() {
            if member.client.working() > 0 {
                places.push(place)?;
            }
        }
        Ok(places)
    }

    /// The client at a place makes one exchange, of which this becomes. What it then knows is saved, unless
    /// it is killed.
    ///
    /// # Errors
    /// Where there is no memory.
    pub(crate) fn exchange(
        &mut self,
        alloc: Global,
        place: usize,
        event: Event,
    ) -> Result<(), Fail> {
        let Some(member) = self.members.get_mut(place) else {
            return Err(Fail::new("there is no such client"));
        };
        self.line.event = event;
        let (stop, _) = drive(alloc, &mut member.client, &mut self.line, 1);
        if stop == Stop::NoMemory {
            return Err(Fail::new("there is no memory"));
        }
        match event {
            Event::Killed => member.client = Client::fresh(alloc, member.plan)?,
            Event::Restarted => member.client = restarted(alloc, member.plan, &self.saved)?,
            Event::Served | Event::RequestLost | Event::ReplyLost | Event::Delayed => {
                self.saved = Some(text_of(alloc, &member.client)?);
            }
        }
        Ok(())
    }

    /// Whether each key has this verdict or the other, for each client.
    pub(crate) fn is_all(&self, verdict: Verdict, other: Verdict) -> bool {
        self.members.iter().all(|member| {
            let client = &member.client;
            (0..client.plan().count()).all(|key| {
                let found = client.verdict(key);
                found == verdict || found == other
            })
        })
    }

    /// How many objects there are.
    pub(crate) fn count(&self) -> usize {
        self.line.server.records().count()
    }

    /// How many objects of a name there are that stand so.
    pub(crate) fn count_of(&self, name: &str, state: KeyState) -> usize {
        let records = self.line.server.records();
        let mut found = 0usize;
        for place in 0..records.count() {
            let Some(row) = records.at(place) else {
                continue;
            };
            if row.attrs.name.as_str() == name && row.state == state {
                found = found.saturating_add(1);
            }
        }
        found
    }
}

/// The text of what a client knows.
fn text_of(alloc: Global, client: &Client<'_>) -> Result<Text, Fail> {
    let progress = client.progress(alloc)?;
    Ok(progress.write_text(alloc, client.plan())?)
}

/// A client that begins from a saved text, or from nothing where there is none.
fn restarted<'p>(alloc: Global, plan: &'p Plan, saved: &Option<Text>) -> Result<Client<'p>, Fail> {
    let Some(text) = saved else {
        return Ok(Client::fresh(alloc, plan)?);
    };
    let progress = Progress::read_text(alloc, plan, text.as_str())?;
    Ok(Client::resume(alloc, plan, &progress)?)
}
