//! Lines that were worked out by hand from RFC 8259, for names that JSON has to escape.
ghost use Rattle.kmip_progress.specs.Suiting.{Suits};

use crate::asserting::{PLAN, assert_lines, key};
use kmip_client::Client;
use kmip_plan::{Plan, PlanFault, Target, read_plan};
use kmip_plan_report::{
    push_check_after, push_check_lines, push_list, push_plan_refusal, push_progress_refusal,
};
use kmip_progress::{Known, Progress, ProgressFault, suits};
use kmip_report::{Cause, Fault, Form, no_memory_line, push_contradiction, push_fault};
use kmip_run_command::{Counting, Report, RunEnd, RunInput, Unsaved, push_run_end};
use kmip_runs::Stop;
use kmip_tally::RunTally;
use kmip_ttlv::{NoMemory, Text};
use std::alloc::Global;
use std::test::Fail;

const CHECK_LINES: [&str; 3] = [
    r#"{"version":1,"key":"a\"b\\c\u001f","algorithm":"AES","length":256,"usage":12,"target":"active","steps":["Create","Activate"]}"#,
    r#"{"version":1,"key":"k","algorithm":null,"length":64,"usage":511,"target":"created","steps":["Create"]}"#,
    r#"{"version":1,"key":"d","algorithm":"HMAC-SHA256","length":256,"usage":384,"target":"destroyed","steps":["Create","Activate","Revoke","Destroy"]}"#,
];

/// A plan that the plan does not prolong: the plan has not its key.
const EARLIER: &str = r#"
[[key]]
name = "other"
algorithm = "AES"
length = 256
usage = ["encrypt"]
target = "active"
"#;

const PROLONGS_LINES: [&str; 3] = [
    r#"{"version":1,"key":"a\"b\\c","algorithm":"AES","length":256,"usage":12,"target":"active","steps":["Create","Activate"]}"#,
    r#"{"version":1,"key":"second","algorithm":"HMAC-SHA256","length":256,"usage":128,"target":"discarded","steps":["Create","Destroy"]}"#,
    r#"{"version":1,"prolongs":true}"#,
];

const PROLONGS_NOT_LINES: [&str; 3] = [
    r#"{"version":1,"key":"a\"b\\c","algorithm":"AES","length":256,"usage":12,"target":"active","steps":["Create","Activate"]}"#,
    r#"{"version":1,"key":"second","algorithm":"HMAC-SHA256","length":256,"usage":128,"target":"discarded","steps":["Create","Destroy"]}"#,
    r#"{"version":1,"prolongs":false}"#,
];

const LIST_LINES: [&str; 3] = [
    r#"{"version":1,"key":"a\"b\\c","target":"active","done":2,"of":2,"verdict":"finished","identifier":"17\n"}"#,
    r#"{"version":1,"key":"second","target":"discarded","done":0,"of":2,"verdict":"working","identifier":null}"#,
    r#"{"version":1,"finished":1,"of":2}"#,
];

/// Of the 23 exchanges some brought a reply, and the run made as many as it may.
const RUN_LINES: [&str; 3] = [
    r#"{"version":1,"key":"a\"b\\c","target":"active","done":2,"of":2,"verdict":"finished","identifier":"17\n","steps":2}"#,
    r#"{"version":1,"key":"second","target":"discarded","done":0,"of":2,"verdict":"working","identifier":null,"steps":0}"#,
    r#"{"version":1,"end":"Limit","finished":1,"of":2,"exchanges":23,"lost":3,"refused":0,"unreadable":4,"steps":2,"milliseconds":412,"cause":"unanswered"}"#,
];

/// No exchange brought a reply, and the run gave up.
const GIVEN_UP_LINE: &str =
    r#"{"version":1,"end":"GaveUp","finished":1,"of":2,"exchanges":23,"lost":23,"refused":0,"unreadable":4,"steps":2,"milliseconds":412,"cause":"unreachable"}"#;

const RUN_TEXTS: [&str; 4] = [
    r#"a"b\c active 2/2 finished"#,
    "second discarded 0/2 working",
    "finished 1 of 2",
    "stop Limit 20",
];

const RUN_TEXTS_WITH_IDENTIFIERS: [&str; 4] = [
    r#"a"b\c active 2/2 finished 17\0A"#,
    "second discarded 0/2 working -",
    "finished 1 of 2",
    "stop Limit 20",
];

const UNSAVED_LINE: &str =
    r#"{"version":1,"fault":"cannot write","at":"over there","why":"disk full","cause":null}"#;

const FAULT_LINES: [&str; 7] = [
    r#"{"version":1,"fault":"plan refused","number":7,"name":"BadLength","field":null,"key":613,"line":4903,"at":"plan.toml","why":"the length is \"100\"","cause":null}"#,
    r#"{"version":1,"fault":"plan refused","number":5,"name":"Unknown","field":"\"\\\t","key":0,"line":null,"at":null,"why":null,"cause":null}"#,
    r#"{"version":1,"fault":"progress refused","number":2,"name":"Cut","at":"p","why":null,"cause":null}"#,
    r#"{"version":1,"fault":"cannot read","at":"/etc/plan.toml","why":"no such file or directory","cause":null}"#,
    r#"{"version":1,"fault":"no answer","at":null,"why":null,"cause":"unanswered"}"#,
    r#"{"version":1,"fault":"progress of another server","at":"p","why":"10.0.0.5:5696 contradicts what it says","cause":null,"keys":["k1","k2"]}"#,
    r#"{"version":1,"fault":"no memory","at":null,"why":null,"cause":null}"#,
];

const FAULT_TEXTS: [&str; 4] = [
    "cannot read /etc/plan.toml",
    "no answer",
    "progress of another server: p",
    "no memory",
];

#[test]
fn writes_what_is_checked(rt: HostRuntime) -> Result<(), Fail> {
    let alloc = rt.alloc();
    let keys = [
        key(alloc, "a\"b\\c\u{1f}", 3, 256, 12, Target::Active)?,
        key(alloc, "k", 1, 64, 511, Target::Created)?,
        key(alloc, "d", 9, 256, 384, Target::Destroyed)?,
    ];
    let mut text = Vec::new(alloc);
    push_check_lines(alloc, Form::Json, &keys, &mut text)?;
    assert_lines(&rt, alloc, text.as_slice(), &CHECK_LINES)?;
    Ok(())
}

#[test]
fn writes_whether_a_plan_prolongs(rt: HostRuntime) -> Result<(), Fail> {
    let alloc = rt.alloc();
    let plan: Plan = read_plan(alloc, PLAN)?;
    for (earlier, lines) in [(PLAN, &PROLONGS_LINES), (EARLIER, &PROLONGS_NOT_LINES)] {
        let mut text = Vec::new(alloc);
        push_check_after(alloc, Form::Json, &plan, earlier, None, &mut text)?;
        assert_lines(&rt, alloc, text.as_slice(), lines)?;
    }
    Ok(())
}

/// The first key is done, under an identifier with a line feed; nothing is known of the second.
fn saved(alloc: Global) -> Result<Progress, NoMemory> {
    let identifier = Text::copied(alloc, "17\n")?;
    let known = vec![in alloc;
        Known {
            identifier: Some(identifier),
            done: 2
        },
        Known {
            identifier: None,
            done: 0
        },
    ]?;
    Ok(Progress::new(known))
}

#[test]
fn writes_what_is_known(rt: HostRuntime) -> Result<(), Fail> {
    let alloc = rt.alloc();
    let plan: Plan = read_plan(alloc, PLAN)?;
    let saved = saved(alloc)?;
    assert!(rt; suits(&plan, &saved));
    let mut text = Vec::new(alloc);
    push_list(alloc, Form::Json, &plan, &saved, &mut text)?;
    assert_lines(&rt, alloc, text.as_slice(), &LIST_LINES)?;
    Ok(())
}

/// Counts 23 exchanges, of which this number brought no reply, and two steps of the first key.
#[derive(Drop)]
struct Counted {
    lost: u64,
}

impl Counting for Counted {
    fn tally(&mut self, alloc: Global, _client: &Client<'_>) -> Result<RunTally, NoMemory> {
        Ok(RunTally {
            exchanges: 23,
            lost: self.lost,
            unreadable: 4,
            refused: 0,
            milliseconds: 412,
            steps: vec![in alloc; 2u64]?,
            unanswered: None,
        })
    }
}

/// A disk that is full.
#[derive(Drop)]
struct FullDisk;

impl Unsaved for FullDisk {
    fn why(&self, alloc: Global) -> Result<Option<String>, NoMemory> {
        Ok(Some(String::from_str(alloc, "disk full")?))
    }
}

/// What a run is given that may make this number of exchanges.
fn input(form: Form, report: Report, limit: usize) -> RunInput<'static> {
    RunInput {
        form,
        report,
        path: "over there",
        limit,
    }
}

/// Appends the report of a run that went on from this progress, and stopped after 20 exchanges.
fn push_stopped(
    alloc: Global,
    plan: &Plan,
    saved: &Progress,
    input: &RunInput<'_>,
    lost: u64,
    text: &mut Vec<u8>,
) -> Result<bool, NoMemory>
    requires { Suits plan.now saved.now }
{
    let client = Client::resume(alloc, plan, saved)?;
    let end = RunEnd::Stopped {
        stop: Stop::Limit,
        exchanges: 20,
    };
    let mut counted = Counted { lost };
    push_run_end(alloc, input, &client, end, &FullDisk, &mut counted, text)
}

#[test]
fn writes_what_came_of_a_run(rt: HostRuntime) -> Result<(), Fail> {
    let alloc = rt.alloc();
    let plan: Plan = read_plan(alloc, PLAN)?;
    let saved = saved(alloc)?;
    assert!(rt; suits(&plan, &saved));
    let at_its_limit = input(Form::Json, Report::Plain, 20);
    let mut text = Vec::new(alloc);
    assert!(rt; push_stopped(alloc, &plan, &saved, &at_its_limit, 3, &mut text)?);
    assert_lines(&rt, alloc, text.as_slice(), &RUN_LINES)?;
    let given_up = input(Form::Json, Report::Identifiers, 21);
    let mut text = Vec::new(alloc);
    assert!(rt; push_stopped(alloc, &plan, &saved, &given_up, 23, &mut text)?);
    let lines = [RUN_LINES[0], RUN_LINES[1], GIVEN_UP_LINE];
    assert_lines(&rt, alloc, text.as_slice(), &lines)?;
    Ok(())
}

#[test]
fn writes_what_came_of_a_run_in_text(rt: HostRuntime) -> Result<(), Fail> {
    let alloc = rt.alloc();
    let plan: Plan = read_plan(alloc, PLAN)?;
    let saved = saved(alloc)?;
    assert!(rt; suits(&plan, &saved));
    for (report, lines) in [
        (Report::Plain, &RUN_TEXTS),
        (Report::Identifiers, &RUN_TEXTS_WITH_IDENTIFIERS),
    ] {
        let in_text = input(Form::Text, report, 21);
        let mut text = Vec::new(alloc);
        assert!(rt; push_stopped(alloc, &plan, &saved, &in_text, 23, &mut text)?);
        assert_lines(&rt, alloc, text.as_slice(), lines)?;
    }
    Ok(())
}

#[test]
fn writes_that_a_run_could_not_save(rt: HostRuntime) -> Result<(), Fail> {
    let alloc = rt.alloc();
    let plan: Plan = read_plan(alloc, PLAN)?;
    let client = Client::fresh(alloc, &plan)?;
    for (form, line) in [
        (Form::Json, UNSAVED_LINE),
        (Form::Text, "cannot write over there"),
    ] {
        let unsaved = input(form, Report::Plain, 20);
        let mut text = Vec::new(alloc);
        let mut counted = Counted { lost: 0 };
        let end = RunEnd::Unwritten;
        assert!(rt;
            push_run_end(
                alloc,
                &unsaved,
                &client,
                end,
                &FullDisk,
                &mut counted,
                &mut text,
            )?
        );
        assert_lines(&rt, alloc, text.as_slice(), &[line])?;
    }
    Ok(())
}

/// The lines of a file that cannot be read, of a server that does not answer, and of a progress that a
/// server contradicts.
fn push_faults(alloc: Global, form: Form, text: &mut Vec<u8>) -> Result<(), NoMemory> {
    let unread = Fault {
        fault: "cannot read",
        between: " ",
        at: Some("/etc/plan.toml"),
        why: Some("no such file or directory"),
        cause: None,
    };
    push_fault(alloc, form, &unread, text)?;
    let unanswered = Fault {
        fault: "no answer",
        between: ": ",
        at: None,
        why: None,
        cause: Some(Cause::Unanswered),
    };
    push_fault(alloc, form, &unanswered, text)?;
    let why = "10.0.0.5:5696 contradicts what it says";
    push_contradiction(alloc, form, "p", why, &["k1", "k2"], text)
}

#[test]
fn writes_faults_in_text(rt: HostRuntime) -> Result<(), Fail> {
    let alloc = rt.alloc();
    let mut text = Vec::new(alloc);
    push_faults(alloc, Form::Text, &mut text)?;
    text.extend_from_slice(no_memory_line(Form::Text).as_bytes())?;
    assert_lines(&rt, alloc, text.as_slice(), &FAULT_TEXTS)?;
    Ok(())
}

/// Appends the line of a plan at a path that is refused at line 4903 for this reason.
fn push_explained<'a>(
    alloc: Global,
    fault: &'a PlanFault,
    at: &'a str,
    why: &'a str,
    text: &mut Vec<u8>,
) -> Result<(), NoMemory> {
    push_plan_refusal(
        alloc,
        Form::Json,
        fault,
        Some(at),
        Some(4903),
        Some(why),
        text,
    )
}

/// Appends the line of a plan that is refused, of which no more is known.
fn push_alone(alloc: Global, fault: &PlanFault, text: &mut Vec<u8>) -> Result<(), NoMemory> {
    push_plan_refusal(alloc, Form::Json, fault, None, None, None, text)
}

/// Appends the line of a progress at a path that is cut.
fn push_cut(alloc: Global, at: &str, text: &mut Vec<u8>) -> Result<(), NoMemory> {
    push_progress_refusal(alloc, Form::Json, ProgressFault::Cut, Some(at), None, text)
}

#[test]
fn writes_what_went_wrong(rt: HostRuntime) -> Result<(), Fail> {
    let alloc = rt.alloc();
    let mut text = Vec::new(alloc);
    let fault = PlanFault::BadLength(613);
    push_explained(
        alloc,
        &fault,
        "plan.toml",
        "the length is \"100\"",
        &mut text,
    )?;
    let word = Text::copied(alloc, "\"\\\t")?;
    push_alone(alloc, &PlanFault::Unknown(word, 0), &mut text)?;
    push_cut(alloc, "p", &mut text)?;
    push_faults(alloc, Form::Json, &mut text)?;
    text.extend_from_slice(no_memory_line(Form::Json).as_bytes())?;
    assert_lines(&rt, alloc, text.as_slice(), &FAULT_LINES)?;
    let wanting = push_alone(alloc, &PlanFault::NoMemory, &mut text);
    assert!(rt; wanting.is_err());
    Ok(())
}
