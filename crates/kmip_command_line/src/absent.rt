//! What it means that an option is absent.
use crate::setting::Setting;
use Absent::{Fine, Means, Wrong, WrongUnlessSaid};

/// What it means that an option is absent.
#[derive(Clone, Copy)]
pub(crate) enum Absent {
    /// The command line is wrong.
    Wrong,
    /// The command line is wrong, unless the environment has its value.
    WrongUnlessSaid(Setting),
    /// Nothing: it need not be there.
    Fine,
    /// As if it were there with this value.
    Means(&'static str),
}
