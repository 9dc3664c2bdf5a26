//! Laws of the definitions.

ghost use Rattle.ctl_session.specs.State.{CacheState};
ghost use Rattle.ctl_session.specs.Script.{Command};
ghost use Rattle.ctl_session.specs.Effect.{HasOneOutcome};

/// Where neither a growth nor a pattern of `--rx` is refused, a command comes to one outcome over a state: its text and what it
/// leaves are settled.
pub fn commands_come_to_one_outcome()
    ensures { (state : CacheState) (command : Command) → HasOneOutcome state command }
{}
