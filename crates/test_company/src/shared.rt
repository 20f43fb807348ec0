//! Campaigns over a link that another client of the plan uses too.
use kmip_client::Client;
use kmip_company::{Shared, campaign_with_another};
use kmip_objects::KeyState;
use kmip_plan::read_plan;
use kmip_runs::{Run, Start, Stop, campaign};
use kmip_scripted::{Scripted, read_script};
use kmip_server::{Records, Server};
use kmip_store::ListStore;
use std::test::Fail;

const PLAN: &str = "[[key]]
name = \"a\"
algorithm = \"AES\"
length = 256
usage = [\"encrypt\"]
target = \"active\"

[[key]]
name = \"b\"
algorithm = \"AES\"
length = 256
usage = [\"encrypt\"]
target = \"destroyed\"
reason = \"superseded\"
";

/// What becomes of the messages of the campaign and of the other client, in turn. Behind these words nothing is lost.
const SCRIPTS: [&str; 5] = [
    "",
    "pass\npass\nlose-reply\nlose-reply\n",
    "pass\npass\nlose-request\nlose-reply\nagain 3\n",
    "lose-reply\nlose-request\npass\npass\nlose-reply\npass\nagain 5\nagain 6\nlose-reply\n",
    "pass\npass\npass\nlose-reply\nstale 1\nstale 2\nagain 4\npass\nlose-request\nlose-reply\n",
];

/// However the messages of the two are lost, repeated and mixed, the campaign finishes, and each key is made once.
#[test]
fn a_campaign_amid_another_client_makes_each_key_once(rt: HostRuntime) -> Result<(), Fail> {
    let alloc = rt.alloc();
    let plan = read_plan(alloc, PLAN)?;
    let run = Run {
        start: Start::Fresh,
        limit: 100,
        batch: 1,
        save: false,
    };
    for script in SCRIPTS {
        let server = Server::new(ListStore::new(alloc, [0; 32], 100));
        let link = Scripted::new(alloc, server, read_script(alloc, script)?);
        let mut shared = Shared::new(alloc, link, Client::fresh(alloc, &plan)?);
        let end = campaign(alloc, &plan, &mut shared, &[run]);
        let Some(first) = end.runs.first() else {
            return Err(Fail::new("the run has no end"));
        };
        assert!(rt; first.stop == Stop::AllFinished, "the campaign finishes");
        let records = shared.link().server().records();
        assert!(rt; records.count() == 2, "each key is made once");
        for (name, state) in [("a", KeyState::Active), ("b", KeyState::Destroyed)] {
            let mut found = false;
            for place in 0..records.count() {
                let row = records.at(place);
                found |= row.is_some_and(|row| row.attrs.name.as_str() == name
                    && row.state == state);
            }
            assert!(rt; found, "{name} stands as the plan wants it");
        }
    }
    Ok(())
}

/// Targets of a plan of one key. A client that meets no other makes this many exchanges: one Locate that finds nothing,
/// and one for each step (Create, Activate, Revoke, Destroy).
const WAYS: [(&str, usize); 4] = [
    ("target = \"created\"\n", 2),
    ("target = \"active\"\n", 3),
    ("target = \"revoked\"\nreason = \"superseded\"\n", 4),
    ("target = \"destroyed\"\nreason = \"superseded\"\n", 5),
];

/// The other client is always one exchange behind, so it has a question after each exchange of the campaign.
#[test]
fn the_other_client_asks_after_each_exchange(rt: HostRuntime) -> Result<(), Fail> {
    let alloc = rt.alloc();
    let run = Run {
        start: Start::Fresh,
        limit: 100,
        batch: 1,
        save: false,
    };
    for (target, exchanges) in WAYS {
        let text = format!(in alloc;
            "[[key]]\nname = \"a\"\nalgorithm = \"AES\"\nlength = 256\nusage = [\"encrypt\"]\n{target}"
        )?;
        let plan = read_plan(alloc, text.as_str())?;
        let made = campaign_with_another(alloc, &plan, read_script(alloc, "")?, &[run])?;
        let Some(first) = made.end.runs.first() else {
            return Err(Fail::new("the run has no end"));
        };
        assert!(rt; first.stop == Stop::AllFinished, "the campaign finishes");
        assert!(rt;
            first.exchanges == exchanges,
            "the campaign asks {exchanges} times"
        );
        let asked = made.link.link().requests().len();
        assert!(rt;
            asked == exchanges * 2,
            "{asked} requests were sent, half of them by the other"
        );
    }
    Ok(())
}
