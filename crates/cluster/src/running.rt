// A list of steps is run.
ghost use Rattle.std.specs.Prelude.{◌≡◌, ◌<◌, ◌++◌, List, OnOk, OnErr, MatchResult, length, take};
ghost use Rattle.std.specs.Vec.{vec_capacity, vec_len};
ghost use Rattle.cluster.specs.Runs.{Took, TookAll};
ghost use Rattle.cluster.specs.Steps.{events_of};
ghost use Rattle.cluster.specs.declared.event.Event.{Event as AnyEvent};

use crate::{Event, Step, What, World};
use device::Device;
use std::alloc::AllocError;

// Appends what a step reported, under its number.
fn append(events: &mut Vec<Event>, number: usize, told: Option<What>)
    requires { vec_len events.old < vec_capacity events.old }
    ensures { events.new.items ≡ events.old.items ++ events_of number told }
{
    if let Some(what) = told {
        events.push_reserved(Event { step: number, what });
    }
}

// Takes the step of this number, and appends what it reports.
fn run_one<D: Device>(
    world: &mut World<D>,
    number: usize,
    step: &Step,
    events: &mut Vec<Event>,
) -> Result<(), AllocError>
    ensures ok { OnOk result ((more : List AnyEvent) × Took D.state D.honest D.moment D.left_since world.old number step.now more world.new × (events.new.items ≡ events.old.items ++ more)) }
    ensures err { OnErr result ((world.new ≡ world.old) × (events.new.items ≡ events.old.items)) }
{
    events.reserve(1)?;
    let told = world.take(step)?;
    append(events, number, told);
    Ok(())
}

/// Takes the steps, one after another, and appends what they report. If memory is refused to a step, returns its number: the steps before it were taken,
/// and their reports appended; it and those after it were not taken.
pub fn run<D: Device>(
    world: &mut World<D>,
    steps: &[Step],
    events: &mut Vec<Event>,
) -> Result<(), usize>
    ensures { MatchResult result
        (λ _. (more : List AnyEvent) × TookAll D.state D.honest D.moment D.left_since world.old 0 steps.now more world.new × (events.new.items ≡ events.old.items ++ more))
        (λ n. (n < length steps.now) × ((more : List AnyEvent) × TookAll D.state D.honest D.moment D.left_since world.old 0 (take n steps.now) more world.new × (events.new.items ≡ events.old.items ++ more))) }
{
    for (number, step) in steps.iter().enumerate() {
        if run_one(world, number, step, events).is_err() {
            return Err(number);
        }
    }
    Ok(())
}
