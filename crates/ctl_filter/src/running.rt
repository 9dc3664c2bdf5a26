//! The value that steps leave.

ghost use Rattle.std.specs.Prelude.{◌≡◌, reverse, IfOk, OnOk};
ghost use Rattle.ctl_filter.specs.Filter.{value_at};
ghost use Rattle.ctl_filter.specs.Inside.Steps.{after_step, value_of};

use crate::token::Step;
use std::alloc::AllocError;

fn value_at(values: &[bool], n: usize) -> bool
    ensures { result ≡ value_at values.now n }
{
    match values.get(n) {
        Some(value) => *value,
        None => false,
    }
}

// The stack after a step, its top last.
fn take_step(values: &[bool], step: Step, stack: &mut Vec<bool>) -> Result<(), AllocError>
    ensures { OnOk result (reverse stack.new.items ≡ after_step values.now step (reverse stack.old.items)) }
{
    match step {
        Step::Value(n) => {
            stack.push(value_at(values, n))?;
        }
        Step::Not => {
            if let Some(v) = stack.pop() {
                stack.push(!v)?;
            }
        }
        Step::Both => {
            if let Some(v) = stack.pop() {
                match stack.pop() {
                    Some(w) => stack.push(w && v)?,
                    None => stack.push(v)?,
                }
            }
        }
        Step::Either => {
            if let Some(v) = stack.pop() {
                match stack.pop() {
                    Some(w) => stack.push(w || v)?,
                    None => stack.push(v)?,
                }
            }
        }
    }
    Ok(())
}

/// The value that the steps leave, by a stack whose room serves again.
pub(crate) fn value_of(
    values: &[bool],
    steps: &[Step],
    stack: &mut Vec<bool>,
) -> Result<bool, AllocError>
    ensures { IfOk result (λ v. v ≡ value_of steps.now values.now) }
{
    stack.clear();
    for step in steps {
        take_step(values, *step, stack)?;
    }
    Ok(stack.pop().unwrap_or(false))
}
