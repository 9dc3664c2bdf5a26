//! How many commands a run accepted and refused.

ghost use Rattle.std.specs.Prelude.{◌≡◌, ◌+◌, ◌<◌, ◌-◌, ◌^◌};
ghost use Rattle.ctl_session.specs.Replies.{accepted_by, refused_by};

use crate::reply::Reply;

/// How many commands of a run were accepted, and how many were refused.
#[derive(Clone, Copy, Debug, PartialEq, Eq)]
pub struct Summary {
    /// The commands that were accepted, queries included.
    pub accepted: u32,
    /// The commands that were refused.
    pub refused: u32,
}

impl Summary {
    /// Counts a command.
    pub(crate) fn count(&mut self, reply: Reply)
        requires { self.old.accepted + self.old.refused < 2 ^ 32 - 1 }
        ensures accepted { self.new.accepted ≡ self.old.accepted + accepted_by reply }
        ensures refused { self.new.refused ≡ self.old.refused + refused_by reply }
        ensures both { self.new.accepted + self.new.refused ≡ self.old.accepted + self.old.refused + 1 }
    {
        match reply {
            Reply::Refused(_) => self.refused += 1,
            Reply::Answered | Reply::Changed => self.accepted += 1,
        }
    }
}
