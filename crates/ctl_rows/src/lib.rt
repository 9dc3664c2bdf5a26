//! Tests of scripts: worked scripts and what they come to, loads, runs that stop early, and the laws.
#![tactic(auto)]

ghost use Rattle.std.specs.Prelude.{◌≡◌, List, IfOk};
ghost use Rattle.ctl_session.specs.Script.{commands_of};
ghost use Rattle.ctl_session.specs.Outcome.{Outcome, text_of_all, state_after_all};
ghost use Rattle.ctl_session.specs.Run.{Runs};
ghost use Rattle.ctl_session.specs.State.{cache_state};

use ctl_session::{Fault, FromRead, FromWrite, Session, Summary};
use std::alloc::Global;

#[cfg(test)]
mod answers;
#[cfg(test)]
mod asking;
#[cfg(test)]
mod cuts;
#[cfg(test)]
mod faults;
#[cfg(test)]
mod laws;
#[cfg(test)]
mod limits;
#[cfg(test)]
mod loads;
pub mod made;
#[cfg(test)]
mod ordered;
#[cfg(test)]
mod pieces;
#[cfg(test)]
mod pin_laws;
#[cfg(test)]
mod program;
#[cfg(test)]
mod row_calls;
#[cfg(test)]
mod runs;
pub mod said;
#[cfg(test)]
mod scripts;
pub mod shown;
#[cfg(test)]
mod states;
#[cfg(test)]
mod tables;
pub mod texts;
#[cfg(test)]
mod worked;

/// Runs a script that is in memory. Gives what the run comes to, and what it writes: where it has no fault the text of the
/// script's commands, one after another.
pub fn run_script(
    alloc: Global,
    session: &mut Session,
    script: &[u8],
) -> (Result<Summary, Fault>, Vec<u8>)
    ensures { IfOk result.0 (λ _. (outcomes : List Outcome) × Runs (cache_state session.old.cache) (commands_of script.now) outcomes
        × (result.1.items ≡ text_of_all outcomes) × (cache_state session.new.cache ≡ state_after_all (cache_state session.old.cache) outcomes)) }
{
    let mut reader = FromRead::new(script);
    let mut writer = FromWrite::new(Vec::<u8>::new(alloc));
    let outcome = session.run(&mut reader, &mut writer);
    let _ = reader.into_inner();
    (outcome, writer.into_inner())
}
