//! What the variables of the environment say in the place of options that are absent.
ghost use Rattle.std.specs.Prelude.{◌≡◌};
ghost use Rattle.kmip_choices.specs.declared.variable.Variable.TheVariants.{Absent};

use crate::setting::Setting;
use crate::wrong_value::WrongValue;
use kmip_choices::Variable;

/// The variable that stands for `--connect`.
pub const CONNECT_VARIABLE: &str = "KMIPCTL_CONNECT";

/// The variable that stands for `--socket`.
pub const SOCKET_VARIABLE: &str = "KMIPCTL_SOCKET";

/// The variable that stands for `--plan`.
pub const PLAN_VARIABLE: &str = "KMIPCTL_PLAN";

/// The variable that stands for `--progress`.
pub const PROGRESS_VARIABLE: &str = "KMIPCTL_PROGRESS";

/// What the variables of the environment say in the place of options that are absent.
#[derive(Drop)]
pub struct Environment {
    /// What `KMIPCTL_CONNECT` says.
    pub connect: Variable,
    /// What `KMIPCTL_SOCKET` says.
    pub socket: Variable,
    /// What `KMIPCTL_PLAN` says.
    pub plan: Variable,
    /// What `KMIPCTL_PROGRESS` says.
    pub progress: Variable,
}

impl Environment {
    /// An environment that says nothing.
    pub fn empty() -> Environment
        ensures { result ≡ record {
          connect = Absent;
          socket = Absent;
          plan = Absent;
          progress = Absent;
        } }
    {
        Environment {
            connect: Variable::Absent,
            socket: Variable::Absent,
            plan: Variable::Absent,
            progress: Variable::Absent,
        }
    }

    /// What it says of this value.
    fn variable(&self, setting: Setting) -> &Variable {
        match setting {
            Setting::Connect => &self.connect,
            Setting::Socket => &self.socket,
            Setting::Plan => &self.plan,
            Setting::Progress => &self.progress,
        }
    }

    /// Whether it says anything of this value.
    pub(crate) fn has(&self, setting: Setting) -> bool {
        !self.variable(setting).is_absent()
    }

    /// Whether it says where a server is.
    pub(crate) fn has_server(&self) -> bool {
        self.has(Setting::Connect) || self.has(Setting::Socket)
    }

    /// This value; none where it says nothing of it.
    ///
    /// # Errors
    /// Where what it says is no text.
    pub(crate) fn value(&self, setting: Setting) -> Result<Option<&str>, WrongValue> {
        match self.variable(setting) {
            Variable::Absent => Ok(None),
            Variable::Is(value) => Ok(Some(value.as_str())),
            Variable::NoText => Err(WrongValue::NoText(setting)),
        }
    }
}
