//! What is counted of a run, and its text. The counts and the text were worked out by hand.

use Operation::{Activate, Create, Destroy, GetAttributes, Locate, Revoke};
use kmip_batch_items::Operation;
use kmip_plan::read_plan;
use kmip_run_record::{LastTimes, LookCounts, LookMetrics, Metrics};
use kmip_tally::{Course, RunTally, Spent, Standing};
use std::process::Abort;
use std::test::Fail;

/// A key that four steps lead to its target.
const PLAN: &str = "\
[[key]]
name = \"k1\"
algorithm = \"AES\"
length = 256
usage = [\"encrypt\"]
target = \"destroyed\"
";

/// How many steps of the key were known when the run began, what the run asked, how many steps are known
/// at its end, and how many of them it is credited with.
const COURSES: [(usize, &[Operation], usize, u64); 8] = [
    (0, &[Locate, Create, Activate], 2, 2),
    (0, &[Create, Activate, Revoke, Destroy], 4, 4),
    // The reply to the Create was lost, and the object was found: either way it counts once.
    (0, &[Locate, Create, Locate, GetAttributes], 1, 1),
    (0, &[Create, Locate, Create], 1, 1),
    // Asked, and not known to have taken effect.
    (0, &[Locate, Create], 0, 0),
    // Known, and not asked: it was done before the run, or by another.
    (2, &[GetAttributes], 2, 0),
    (0, &[Locate, GetAttributes], 3, 0),
    (1, &[GetAttributes, Activate], 3, 1),
];

/// With how many steps a run is credited.
fn taken(rt: &HostRuntime, row: &(usize, &[Operation], usize, u64)) -> Result<u64, Fail> {
    let (before, asked, now, _wanted) = row;
    let plan = read_plan(rt.alloc(), PLAN)?;
    let mut course = Course::new(*before);
    for operation in *asked {
        course.ask(*operation);
    }
    course.reach(*now);
    let key = plan.keys().first().ok_or("a key")?;
    Ok(course.taken(key))
}

#[test]
fn credits_what_was_asked_and_is_known(rt: HostRuntime) -> Result<(), Fail> {
    for row in &COURSES {
        let count = taken(&rt, row)?;
        assert_eq!(rt; count, row.3);
    }
    Ok(())
}

/// The metrics of a run that has not ended, by one that finished all keys before.
const BEGUN: &str = "\
# HELP kmipctl_keys Keys of the plan by their status: finished, working (more is to be done), or in conflict.
# TYPE kmipctl_keys gauge
kmipctl_keys{plan=\"plan.toml\",verdict=\"finished\"} 12
kmipctl_keys{plan=\"plan.toml\",verdict=\"working\"} 3
kmipctl_keys{plan=\"plan.toml\",verdict=\"conflict\"} 1
# HELP kmipctl_exchanges Exchanges of this run: answered, lost without a reply, or with a reply that cannot be read.
# TYPE kmipctl_exchanges gauge
kmipctl_exchanges{plan=\"plan.toml\",outcome=\"answered\"} 95
kmipctl_exchanges{plan=\"plan.toml\",outcome=\"lost\"} 4
kmipctl_exchanges{plan=\"plan.toml\",outcome=\"unreadable\"} 1
# HELP kmipctl_refused Requests of this run that the server refused.
# TYPE kmipctl_refused gauge
kmipctl_refused{plan=\"plan.toml\"} 7
# HELP kmipctl_steps Steps of keys that this run requested and knows to have taken effect.
# TYPE kmipctl_steps gauge
kmipctl_steps{plan=\"plan.toml\"} 6
# HELP kmipctl_run_seconds How long this run took, up to when this file was written.
# TYPE kmipctl_run_seconds gauge
kmipctl_run_seconds{plan=\"plan.toml\"} 61.002
# HELP kmipctl_run_in_progress 1 from the start of a run to its end, and after a run that was killed; otherwise 0.
# TYPE kmipctl_run_in_progress gauge
kmipctl_run_in_progress{plan=\"plan.toml\"} 1
# HELP kmipctl_plan_info 1 for the plan of this run, by the first 16 hexadecimal digits of the SHA-256 of its file.
# TYPE kmipctl_plan_info gauge
kmipctl_plan_info{plan=\"plan.toml\",digest=\"e3b0c44298fc1c14\"} 1
# HELP kmipctl_last_answer_timestamp_seconds When the server last replied to a run, in seconds since the start of 1970.
# TYPE kmipctl_last_answer_timestamp_seconds gauge
kmipctl_last_answer_timestamp_seconds{plan=\"plan.toml\"} 1795820401
# HELP kmipctl_last_finish_timestamp_seconds When a run that the server replied to last ended with all keys finished, in seconds since the start of 1970.
# TYPE kmipctl_last_finish_timestamp_seconds gauge
kmipctl_last_finish_timestamp_seconds{plan=\"plan.toml\"} 1795820400
";

/// The lines of a time, which are left out if it is not known.
const TIME_LINES: usize = 3;

/// The times in `BEGUN`.
const KNOWN_TIMES: LastTimes = LastTimes {
    answer: Some(1_795_820_401),
    finish: Some(1_795_820_400),
};

/// The text of the metrics of a run of the plan at this path.
fn text_of(rt: &HostRuntime, plan: &str, last: LastTimes) -> Result<String, Fail> {
    let tally = RunTally {
        exchanges: 100,
        lost: 4,
        unreadable: 1,
        refused: 7,
        milliseconds: 61_002,
        steps: vec![in rt.alloc(); 0, 2, 4]?,
        unanswered: None,
    };
    let metrics = Metrics {
        plan,
        is_in_progress: true,
        standing: Standing {
            finished: 12,
            working: 3,
            conflict: 1,
        },
        tally: &tally,
        digest: "e3b0c44298fc1c14",
        last,
    };
    Ok(metrics.text(rt.alloc())?)
}

/// Whether a text is another but for lines at its end.
fn is_without_its_end(text: &str, whole: &str, lines: usize) -> bool {
    whole.starts_with(text) && text.lines().count().saturating_add(lines) == whole.lines().count()
}

/// The condition holds.
fn assert_true(rt: &impl Abort, condition: bool, case: &str) {
    assert!(rt; condition, "{case}");
}

#[test]
fn tells_metrics(rt: HostRuntime) -> Result<(), Fail> {
    let text = text_of(&rt, "plan.toml", KNOWN_TIMES)?;
    assert_true(&rt, text.as_str() == BEGUN, "with both times");
    let last = LastTimes {
        finish: None,
        ..KNOWN_TIMES
    };
    let text = text_of(&rt, "plan.toml", last)?;
    let is_short = is_without_its_end(text.as_str(), BEGUN, TIME_LINES);
    assert_true(&rt, is_short, "without the time of a finish");
    Ok(())
}

/// Paths of plans, and how they are written as the value of a label.
const LABELS: [(&str, &str); 4] = [
    ("/etc/kmipctl/a b.toml", "plan=\"/etc/kmipctl/a b.toml\""),
    ("a\"b", "plan=\"a\\\"b\""),
    ("a\\b", "plan=\"a\\\\b\""),
    ("a\nb", "plan=\"a\\nb\""),
];

#[test]
fn escapes_the_path_of_a_plan(rt: HostRuntime) -> Result<(), Fail> {
    for (path, label) in &LABELS {
        let text = text_of(&rt, path, KNOWN_TIMES)?;
        let line = format!(in rt.alloc(); "\nkmipctl_refused{{{label}}} 7\n")?;
        assert_true(&rt, text.as_str().contains(line.as_str()), label);
    }
    Ok(())
}

/// A text, and the time of the last finish that it has.
const TIMES: [(&str, Option<u64>); 9] = [
    (BEGUN, Some(1_795_820_400)),
    ("kmipctl_last_finish_timestamp_seconds 0", Some(0)),
    (
        "kmipctl_last_finish_timestamp_seconds{plan=\"a b} 7\"} 5\n",
        Some(5),
    ),
    ("", None),
    ("kmipctl_steps 6\n", None),
    ("# TYPE kmipctl_last_finish_timestamp_seconds gauge\n", None),
    ("kmipctl_last_finish_timestamp_seconds\n", None),
    ("kmipctl_last_finish_timestamp_seconds -1\n", None),
    // One more than the largest number of 64 bits.
    (
        "kmipctl_last_finish_timestamp_seconds 18446744073709551616\n",
        None,
    ),
];

#[test]
fn reads_the_last_times(rt: HostRuntime) {
    for (text, wanted) in &TIMES {
        let is_right = Metrics::last_times(text).finish == *wanted;
        assert_true(&rt, is_right, text);
    }
    let answer = Metrics::last_times(BEGUN).answer;
    assert_true(&rt, answer == KNOWN_TIMES.answer, "the last answer");
}

/// How many seconds before second 2,000,000,000 the server last replied, whether all keys are finished, and the last
/// reply and finish that are known then, after those of `KNOWN_TIMES`.
const RENEWALS: [(Option<u64>, bool, Option<u64>, Option<u64>); 4] = [
    (None, false, Some(1_795_820_401), Some(1_795_820_400)),
    (None, true, Some(1_795_820_401), Some(1_795_820_400)),
    (Some(3), false, Some(1_999_999_997), Some(1_795_820_400)),
    (Some(3), true, Some(1_999_999_997), Some(2_000_000_000)),
];

#[test]
fn renews_times_only_by_a_reply(rt: HostRuntime) {
    for (answered, is_finished, answer, finish) in &RENEWALS {
        let last = KNOWN_TIMES.renewed(2_000_000_000, *answered, *is_finished);
        let is_right = last.answer == *answer && last.finish == *finish;
        assert_true(&rt, is_right, "the times after a command");
    }
}

/// The metrics of a look.
const LOOKED: &str = "\
# HELP kmipctl_look_keys Keys of the plan by what the server said: finished, working (more is to be done), in conflict, or not told.
# TYPE kmipctl_look_keys gauge
kmipctl_look_keys{plan=\"plan.toml\",verdict=\"finished\"} 5
kmipctl_look_keys{plan=\"plan.toml\",verdict=\"working\"} 3
kmipctl_look_keys{plan=\"plan.toml\",verdict=\"conflict\"} 2
kmipctl_look_keys{plan=\"plan.toml\",verdict=\"not_told\"} 1
# HELP kmipctl_look_exchanges Exchanges of this look: answered, or lost without a reply that can be read.
# TYPE kmipctl_look_exchanges gauge
kmipctl_look_exchanges{plan=\"plan.toml\",outcome=\"answered\"} 18
kmipctl_look_exchanges{plan=\"plan.toml\",outcome=\"lost\"} 4
# HELP kmipctl_look_seconds How long this look took.
# TYPE kmipctl_look_seconds gauge
kmipctl_look_seconds{plan=\"plan.toml\"} 0.045
# HELP kmipctl_look_last_answer_timestamp_seconds When the server last replied to a look, in seconds since the start of 1970.
# TYPE kmipctl_look_last_answer_timestamp_seconds gauge
kmipctl_look_last_answer_timestamp_seconds{plan=\"plan.toml\"} 1795820401
# HELP kmipctl_look_last_finish_timestamp_seconds When a look last found all keys finished, in seconds since the start of 1970.
# TYPE kmipctl_look_last_finish_timestamp_seconds gauge
kmipctl_look_last_finish_timestamp_seconds{plan=\"plan.toml\"} 1795820400
";

#[test]
fn tells_metrics_of_looks(rt: HostRuntime) -> Result<(), Fail> {
    let counts = LookCounts {
        finished: 5,
        working: 3,
        conflict: 2,
        not_told: 1,
    };
    let metrics = LookMetrics {
        plan: "plan.toml",
        counts,
        spent: Spent {
            exchanges: 22,
            lost: 4,
            refused: 0,
            seconds: 0,
        },
        milliseconds: 45,
        last: LookMetrics::last_times(LOOKED),
    };
    let text = metrics.text(rt.alloc())?;
    assert_true(&rt, text.as_str() == LOOKED, "of a look");
    assert_true(&rt, !counts.is_finished(), "not all are finished");
    Ok(())
}
