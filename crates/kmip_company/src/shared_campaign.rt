//! A campaign over a link that another client of the plan uses too.
ghost use Rattle.std.specs.Prelude.{◌≡◌, None, IfOk};
ghost use Rattle.kmip_protocol.specs.Headline.{Safe};
ghost use Rattle.kmip_protocol.specs.Machine.{IsMirrored};
ghost use Rattle.kmip_protocol.specs.Sound.{Opening};
ghost use Rattle.kmip_runs.specs.Campaign.{MayBatch};
ghost use Rattle.kmip_runs.specs.MakesCampaigns.{MakesCampaign};
ghost use Rattle.kmip_company.specs.SharedCampaigns.{IsSharedCampaign, first_sharing, reported_by_both};
ghost use Rattle.kmip_company.specs.Sharing.{AreTogether, GoesOn, past_of, seen_of};

use crate::laws::the_laws_below_hold;
use crate::shared::Shared;
use kmip_client::Client;
use kmip_plan::Plan;
use kmip_plan::laws::a_plan_is_lawful;
use kmip_runs::{CampaignEnd, Run, campaign};
use kmip_scripted::{Script, Scripted};
use kmip_server::{IndexedStore, Server};
use kmip_store::{MOST_ROOM, SEED};
use kmip_ttlv::NoMemory;
use std::alloc::Global;

/// How the runs of a campaign went, over a link that another client of the plan used too.
#[derive(Drop)]
pub struct SharedCampaign<'p> {
    /// How the campaign ended.
    pub end: CampaignEnd,
    /// The link, with the other client.
    pub link: Shared<'p, IndexedStore>,
}

/// Makes runs of a plan over a link to a new server in memory that follows a script. Another client of the plan uses
/// the link too: it knows nothing at first, and takes a turn after each exchange. The server has no object, and room
/// for 10,000. If memory runs out in a run, the end says so and has the runs before it.
///
/// # Errors
/// If memory runs out for the other client.
pub fn campaign_with_another<'p>(
    alloc: Global,
    plan: &'p Plan,
    script: Script,
    runs: &[Run],
) -> Result<SharedCampaign<'p>, NoMemory>
    // Each run asks about one to eight keys at once.
    requires { MayBatch runs.now }
    // What happened is safe for all that the campaign reports and the other client counts.
    ensures safe { IfOk result (λ s. Safe plan.now (past_of s.link)
        (reported_by_both plan.now s.end s.link.other)) }
    // It is an image of a run of the plan machine.
    ensures machine { IfOk result (λ s. IsMirrored plan.now (past_of s.link)) }
    // The other client is one of the plan, and what it knows is true.
    ensures other { IfOk result (λ s. AreTogether plan.now s.link) }
    // The runs were made as `campaign` promises.
    ensures runs { IfOk result (λ s. IsSharedCampaign plan.now script runs.now s.end s.link) }
    // Unless memory ran out, the other client took a turn after each exchange.
    ensures turns { IfOk result (λ s. s.end.fault ≡ None
        → GoesOn (first_sharing plan.now script) s.link) }
{
    let other = Client::fresh(alloc, plan)?;
    let mut link = new_link(alloc, script, other);
    let end = campaign_over(alloc, plan, &mut link, runs);
    Ok(SharedCampaign { end, link })
}

/// A link to a new server, over which nothing has happened yet, and which this client uses too.
fn new_link<'p>(alloc: Global, script: Script, other: Client<'p>) -> Shared<'p, IndexedStore>
    ensures { result ≡ record (first_sharing other.entry.keys script) { other = other.entry } }
{
    let store = IndexedStore::new(alloc, SEED, MOST_ROOM);
    Shared::new(
        alloc,
        Scripted::new(alloc, Server::new(store), script),
        other,
    )
}

/// Makes the runs in a campaign over the link.
fn campaign_over<'p>(
    alloc: Global,
    plan: &'p Plan,
    link: &mut Shared<'p, IndexedStore>,
    runs: &[Run],
) -> CampaignEnd
    requires together { AreTogether plan.now link.old }
    requires opening { Opening plan.now (past_of link.old) }
    requires batches { MayBatch runs.now }
    ensures safe { Safe plan.now (past_of link.new)
        (reported_by_both plan.now result link.new.other) }
    ensures machine { IsMirrored plan.now (past_of link.new) }
    ensures other { AreTogether plan.now link.new }
    ensures runs { MakesCampaign (seen_of link.old) plan.now runs.now result (seen_of link.new)
        (GoesOn link.old link.new) }
{
    the_laws_below_hold(); // proof
    a_plan_is_lawful(plan); // proof
    campaign(alloc, plan, link, runs)
}
