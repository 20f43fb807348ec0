//! Looks at the keys of a plan, over a link to a peer in memory.
ghost use Rattle.std.specs.Prelude.{IsTrue};
ghost use Rattle.kmip_messages.specs.Members.{may_have};

use crate::board::Board;
use crate::settings::batch_of;
use kmip_client::NoListener;
use kmip_look::Pause;
use kmip_look_command::{LookInput, run_look};
use kmip_plan::{Plan, read_plan};
use kmip_report::Form;
use std::alloc::Global;
use std::fs;
use std::str::from_utf8;
use std::test::Fail;

/// What the ids of a look's questions begin with, behind their operations.
const MARK: &[u8] = b"a mark..";

/// Lets so many questions be asked again.
#[derive(Drop)]
struct Times {
    left: usize,
    asked: usize,
    has_given_up: bool,
}

impl Times {
    fn new(left: usize) -> Times {
        Times {
            left,
            asked: 0,
            has_given_up: false,
        }
    }
}

impl Pause for Times {
    ghost has_given_up = { λ times. times.has_given_up };

    fn again(&mut self) -> bool {
        self.asked = self.asked.saturating_add(1);
        self.has_given_up = self.left == 0;
        self.left = self.left.saturating_sub(1);
        !self.has_given_up
    }
}

/// Looks as these words say, after `look of`, at a peer that answers as the lines say. Appends what
/// is written.
///
/// # Errors
/// If a line can't be read, the file of the plan is none, or memory runs out.
pub fn push_look(
    rt: &HostRuntime,
    text: &mut String,
    words: &str,
    lines: &str,
) -> Result<(), Fail> {
    let (words, times) = words.split_once(" again ").unwrap_or((words, "10"));
    let (path, batch) = words.split_once(" about ").unwrap_or((words, "1"));
    let plan = fs::read_to_string(rt, path)?;
    let plan = read_plan(rt.alloc(), plan.as_str())?;
    let batch = batch_of(batch.parse()?)?;
    look_over(rt.alloc(), text, &plan, batch, times.parse()?, lines)
}

/// Looks at the keys of a plan, about so many in a message.
fn look_over(
    alloc: Global,
    text: &mut String,
    plan: &Plan,
    batch: usize,
    times: usize,
    lines: &str,
) -> Result<(), Fail>
    requires { IsTrue (may_have batch) }
{
    let mut board = Board::of(alloc, lines)?;
    let mut pause = Times::new(times);
    let mut written = Vec::new(alloc);
    let input = LookInput {
        form: Form::Text,
        mark: MARK,
        batch,
    };
    let status = run_look(
        alloc,
        plan,
        &input,
        &mut board,
        &mut pause,
        &mut NoListener,
        &mut written,
    );
    text.push_str(from_utf8(written.as_slice())?)?;
    let (messages, waits) = (board.messages(), pause.asked);
    writeln!(
        text,
        "exit status {}, messages {messages}, waits {waits}",
        status.code()
    )?;
    Ok(())
}
