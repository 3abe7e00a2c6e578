// Calls on signals and on the shutdown.

ghost use Rattle.rt_model.specs.Rules.{MayCall};
ghost use Rattle.rt_world.specs.Calls.{Kept};

use crate::calls::{Making, Part, are_made, refused};
use rand_core::Rng;
use rt_core::{CompletionWait, Context, Error, NoMemory, Poller, Signal, Signaler};
use std::test::Fail;

/// Gives a signal up. Returns whether it was made.
#[tactic(auto, using(rt_world::proofs::Walked::close_laws))]
fn lets_go<G: Rng>(signal: Result<Signal, Error>, world: &mut Making<G>) -> bool
    requires { MayCall world.old.told.state world.old.out }
    ensures { Kept G.stream world.old world.new }
{
    match signal {
        Ok(signal) => {
            signal.give_up(world);
            true
        }
        Err(error) => refused(error),
    }
}

/// Gives two signals up. Returns whether the second was made.
#[tactic(auto, using(rt_world::proofs::Walked::close_laws))]
fn lets_both_go<G: Rng>(first: Signal, second: Result<Signal, Error>, world: &mut Making<G>) -> bool
    requires { MayCall world.old.told.state world.old.out }
    ensures { Kept G.stream world.old world.new }
{
    first.give_up(world);
    lets_go(second, world)
}

/// Gives two signals and their completion up. Returns whether the second was made.
#[tactic(auto, using(rt_world::proofs::Walked::close_laws))]
fn lets_all_go<G: Rng>(
    first: Signal,
    second: Result<Signal, Error>,
    completion: CompletionWait,
    world: &mut Making<G>,
) -> bool
    requires { MayCall world.old.told.state world.old.out }
    ensures { Kept G.stream world.old world.new }
{
    let made = lets_both_go(first, second, world);
    completion.give_up(world);
    made
}

/// Makes a further signal, gives the group its value, and gives all up. Returns whether the signal was made.
#[tactic(auto, using(rt_world::proofs::Walked::close_laws))]
fn gives<G: Rng>(signaler: Signaler, first: Signal, world: &mut Making<G>) -> bool
    requires { MayCall world.old.told.state world.old.out }
    ensures { Kept G.stream world.old world.new }
{
    let second = first.clone_signal(world);
    let completion = signaler.signal(world, 5);
    lets_all_go(first, second, completion, world)
}

/// Makes a group, gives its value, and gives up its two signals and its completion. Returns whether all were made.
#[tactic(auto, using(rt_world::proofs::Walked::close_laws))]
fn gives_a_value<G: Rng>(world: &mut Making<G>) -> bool
    requires { MayCall world.old.told.state world.old.out }
    ensures { Kept G.stream world.old world.new }
{
    match Signaler::new(world) {
        Ok((signaler, first)) => gives(signaler, first, world),
        Err(error) => refused(error),
    }
}

/// Makes a group, and gives its signaler up. Returns whether it was made.
#[tactic(auto, using(rt_world::proofs::Walked::close_laws))]
fn gives_none<G: Rng>(world: &mut Making<G>) -> bool
    requires { MayCall world.old.told.state world.old.out }
    ensures { Kept G.stream world.old world.new }
{
    let Ok((signaler, signal)) = Signaler::new(world) else {
        return false;
    };
    signaler.give_up(world);
    signal.give_up(world);
    true
}

/// Stops the run. Returns whether it was stopped.
#[tactic(auto, using(rt_world::proofs::Walked::close_laws))]
fn stops<G: Rng>(world: &mut Making<G>) -> bool
    requires { MayCall world.old.told.state world.old.out }
    ensures { Kept G.stream world.old world.new }
{
    match world.stop(9) {
        Ok(completion) => {
            world.close_completion(completion);
            true
        }
        Err(NoMemory) => false,
    }
}

/// Gives up a copy of a signal, and then the signal. Returns whether both were made.
#[tactic(auto, using(rt_world::proofs::Walked::close_laws))]
fn copies<G: Rng>(signal: Result<Signal, Error>, world: &mut Making<G>) -> bool
    requires { MayCall world.old.told.state world.old.out }
    ensures { Kept G.stream world.old world.new }
{
    match signal {
        Ok(signal) => {
            let copy = signal.clone_signal(world);
            signal.give_up(world);
            lets_go(copy, world)
        }
        Err(error) => refused(error),
    }
}

/// Makes a signal of the shutdown, and gives it up. Returns whether it was made.
#[tactic(auto, using(rt_world::proofs::Walked::close_laws))]
fn opens<G: Rng>(context: &Context, world: &mut Making<G>) -> bool
    requires { MayCall world.old.told.state world.old.out }
    ensures { Kept G.stream world.old world.new }
{
    let before = context.stopped(world);
    lets_go(before, world)
}

/// Makes a signal of the shutdown that began, and gives it and a copy up. Returns whether both were made.
#[tactic(auto, using(rt_world::proofs::Walked::close_laws))]
fn holds<G: Rng>(context: &Context, world: &mut Making<G>) -> bool
    requires { MayCall world.old.told.state world.old.out }
    ensures { Kept G.stream world.old world.new }
{
    let behind = context.stopped(world);
    copies(behind, world)
}

/// Makes signals of the shutdown before it begins and after that. Returns whether all were made.
#[tactic(auto, using(rt_world::proofs::Walked::close_laws))]
fn begins_the_shutdown<G: Rng>(context: &Context, world: &mut Making<G>) -> bool
    requires { MayCall world.old.told.state world.old.out }
    ensures { Kept G.stream world.old world.new }
{
    let open = opens(context, world);
    let stopped = stops(world);
    let held = holds(context, world);
    open & stopped & held
}

/// The same, on a context that is closed then.
#[tactic(auto, using(rt_world::proofs::Walked::close_laws))]
fn shuts_down<G: Rng>(context: Context, world: &mut Making<G>) -> bool
    requires { MayCall world.old.told.state world.old.out }
    ensures { Kept G.stream world.old world.new }
{
    let began = begins_the_shutdown(&context, world);
    context.close(world);
    began
}

/// Makes a group that is given a value, and one that is given none. Returns whether both were made.
#[tactic(auto, using(rt_world::proofs::Walked::close_laws))]
fn makes_groups<G: Rng>(world: &mut Making<G>) -> bool
    requires { MayCall world.old.told.state world.old.out }
    ensures { Kept G.stream world.old world.new }
{
    let given = gives_a_value(world);
    let closed = gives_none(world);
    given & closed
}

/// Makes each call once, and closes the context. Returns whether all were made.
#[tactic(auto, using(rt_world::proofs::Walked::close_laws))]
pub fn answers_signals<G: Rng>(context: Context, world: &mut Making<G>) -> bool
    requires { MayCall world.old.told.state world.old.out }
    ensures { Kept G.stream world.old world.new }
{
    let groups = makes_groups(world);
    let shutdown = shuts_down(context, world);
    groups & shutdown
}

#[test]
fn signals(rt: HostRuntime) -> Result<(), Fail> {
    assert!(rt; are_made(rt.clone()?, rt.alloc(), Part::Signals));
    Ok(())
}
