//! A run of a client of a company.
ghost use Rattle.std.specs.Prelude.{◌≢◌};
ghost use Rattle.kmip_protocol.specs.Past.{is_planned};
ghost use Rattle.kmip_company.specs.Acting.{OccursInCompanies};

use kmip_client::Client;
use kmip_protocol::Link;
use kmip_runs::{Stop, drive};
use std::alloc::Global;

/// Drives a client over a link, as `drive` does. Over an honest link, what it does may occur in any company that the
/// client is in.
pub fn drive_in_company<L: Link>(
    alloc: Global,
    client: &mut Client<'_>,
    link: &mut L,
    limit: usize,
) -> (Stop, usize)
    ensures occurs { (L.seen link.old).honest (is_planned client.old.keys)
        → result.0 ≢ Stop.NoMemory
        → OccursInCompanies client.old client.new (L.seen link.old).past (L.seen link.new).past }
{
    drive(alloc, client, link, limit)
}
