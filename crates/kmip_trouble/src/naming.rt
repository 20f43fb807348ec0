//! What the place of a plan is called.
ghost use Rattle.std.specs.Prelude.{◌≡◌, ◌≢◌, codes};

use crate::told::STANDARD_INPUT;

/// The path of a plan that stands for standard input.
pub const INPUT_PATH: &str = "-";

/// What the place of a plan is called: `standard input` for the path `-`, and else as the path.
pub fn plan_name(path: &str) -> &str
    // That of standard input.
    ensures input { path.now ≡ codes "-" → result.now ≡ codes "standard input" }
    // That of a file.
    ensures file { path.now ≢ codes "-" → result.now ≡ path.now }
{
    if path == INPUT_PATH {
        STANDARD_INPUT
    } else {
        path
    }
}
