//! Never waits, and never gives up.

use kmip_client::Client;
use kmip_desk::RunPatience;
use kmip_look::Pause;
use kmip_runs::{ExchangeNews, Patience};

/// Never waits and never gives up in a run, and asks nothing again in a look.
#[derive(Clone, Copy)]
pub struct Steady;

impl Patience for Steady {
    ghost use Rattle.std.specs.Prelude.{false, ◌^◌, ◌-◌};

    ghost has_given_up = { λ patience. false };

    ghost asked = { λ patience. 2 ^ 64 - 1 };

    fn exchanged(&mut self, _client: &Client<'_>, _news: ExchangeNews) {}

    fn go_on(&mut self) -> bool {
        true
    }
}

impl RunPatience for Steady {
    fn begin(&mut self) {}
}

impl Pause for Steady {
    ghost use Rattle.std.specs.Prelude.{true};

    ghost has_given_up = { λ pause. true };

    fn again(&mut self) -> bool {
        false
    }
}
