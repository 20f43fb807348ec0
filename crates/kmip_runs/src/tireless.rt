//! Never waits, and never gives up.
ghost use Rattle.std.specs.Prelude.{false, true};

use crate::exchange_news::ExchangeNews;
use crate::patience::Patience;
use kmip_client::Client;

/// Never waits, and never gives up.
#[derive(Clone, Copy)]
pub struct Tireless;

impl Patience for Tireless {
    ghost use Rattle.std.specs.Prelude.{false};
    ghost use Rattle.std.specs.Prelude.{◌^◌, ◌-◌};

    ghost has_given_up = { λ patience. false };

    ghost asked = { λ patience. 2 ^ 64 - 1 };

    fn exchanged(&mut self, _client: &Client<'_>, _news: ExchangeNews) {}

    fn go_on(&mut self) -> bool {
        true
    }
}
