// Many things that wait at once, and many draws, made before a root.

ghost use Rattle.rt_model.specs.Rules.{MayCall};
ghost use Rattle.rt_world.specs.Calls.{Kept};

use rand_chacha::ChaCha12Rng;
use rand_core::{Rng, SeedableRng};
use rt_audit::{FinishCause, Journal};
use rt_core::{
    AbortOnDrop, AbortOnDropOf, Convert, Error, HandleOf, JoinAll, NoMemory, NoPoller, Poller,
    Signaler,
};
use rt_errand::Napper;
use rt_model::Begin;
use rt_super::Stopped;
use rt_world::WorldOf;
use std::alloc::Global;
use std::process::Abort;
use std::test::Fail;

/// How many of each there are at once.
const MANY: usize = 1_000;

/// How many bytes are drawn at once.
const MEBIBYTE: usize = 1_048_576;

/// How these runs begin.
const BEGIN: Begin = Begin {
    start: 0,
    cycle: 1_000_000,
    deadline: None,
    first: 0,
    catch: false,
};

/// The world of a run whose maker is under way.
type Making<G> = WorldOf<Napper, G>;

/// Makes so many slots, and gives their ends up once all are made. Answers whether all were made.
#[tactic(auto, using(rt_world::proofs::Walked::close_laws))]
fn makes_slots<G: Rng>(world: &mut Making<G>, left: usize) -> bool
    requires { MayCall world.old.told.state world.old.out }
    ensures { Kept G.stream world.old world.new }
{
    if left == 0 {
        return true;
    }
    let Ok((sender, receiver)) = world.result_slot() else {
        return false;
    };
    let all = makes_slots(world, left - 1);
    sender.give_up(world);
    receiver.give_up(world);
    all
}

/// Makes so many groups of signals, and gives them up once all are made. Answers whether all were made.
#[tactic(auto, using(rt_world::proofs::Walked::close_laws))]
fn makes_groups<G: Rng>(world: &mut Making<G>, left: usize) -> bool
    requires { MayCall world.old.told.state world.old.out }
    ensures { Kept G.stream world.old world.new }
{
    if left == 0 {
        return true;
    }
    let Ok((signaler, signal)) = Signaler::new(world) else {
        return false;
    };
    let all = makes_groups(world, left - 1);
    signaler.give_up(world);
    signal.give_up(world);
    all
}

/// Makes so many signals of the shutdown, and gives them up once all are made. Answers whether all were made.
#[tactic(auto, using(rt_world::proofs::Walked::close_laws))]
fn waits_for_the_shutdown<G: Rng>(world: &mut Making<G>, left: usize) -> bool
    requires { MayCall world.old.told.state world.old.out }
    ensures { Kept G.stream world.old world.new }
{
    if left == 0 {
        return true;
    }
    let Ok(Stopped::Waiting(signal)) = world.stopped() else {
        return false;
    };
    let all = waits_for_the_shutdown(world, left - 1);
    world.close_signal(signal);
    all
}

/// Takes each number.
#[derive(Clone, Copy)]
struct Takes;

impl Convert<u64, u64> for Takes {
    ghost use Rattle.std.specs.Prelude.{Ok};

    ghost converted = { λ takes number. Ok number };

    fn convert(&self, output: u64) -> Result<u64, Error> {
        Ok(output)
    }
}

/// A group of so many numbers.
fn grouped<R: Abort>(rt: &R, alloc: Global, count: usize) -> JoinAll<Napper, NoPoller, u64, Takes> {
    let mut guards: Vec<AbortOnDrop<Napper>> = Vec::new(alloc);
    for number in 0..count {
        match guards.push(HandleOf::ready(Ok(number as u64)).abort_on_drop()) {
            Ok(()) => {}
            Err(_left) => panic!(rt; "out of memory"),
        }
    }
    match AbortOnDropOf::join_all(guards, Takes) {
        Ok(group) => group,
        Err(_refused) => panic!(rt; "out of memory"),
    }
}

/// Makes a group of many, and gives it up.
#[tactic(auto, using(rt_world::proofs::Walked::close_laws))]
fn joins<R: Abort, G: Rng>(rt: &R, alloc: Global, world: &mut Making<G>)
    requires { MayCall world.old.told.state world.old.out }
    ensures { Kept G.stream world.old world.new }
{
    grouped(rt, alloc, MANY).give_up(world);
}

/// Makes many of each. Answers whether all were made.
#[tactic(auto, using(rt_world::proofs::Walked::close_laws))]
fn makes_many<R: Abort, G: Rng>(rt: &R, alloc: Global, world: &mut Making<G>) -> bool
    requires { MayCall world.old.told.state world.old.out }
    ensures { Kept G.stream world.old world.new }
{
    let slots = makes_slots(world, MANY);
    let groups = makes_groups(world, MANY);
    let signals = waits_for_the_shutdown(world, MANY);
    joins(rt, alloc, world);
    slots & groups & signals
}

/// Whether a number of each width is drawn.
#[tactic(auto, using(rt_world::proofs::Walked::close_laws))]
fn draws_two<G: Rng>(world: &mut Making<G>) -> bool
    requires { MayCall world.old.told.state world.old.out }
    ensures { Kept G.stream world.old world.new }
{
    let short = world.next_u32().is_ok();
    let long = world.next_u64().is_ok();
    short & long
}

/// Draws so many numbers of each width. Answers whether all were drawn.
#[tactic(auto, using(rt_world::proofs::Walked::close_laws))]
fn draws_numbers<G: Rng>(world: &mut Making<G>, left: usize) -> bool
    requires { MayCall world.old.told.state world.old.out }
    ensures { Kept G.stream world.old world.new }
{
    if left == 0 {
        return true;
    }
    let drawn = draws_two(world);
    let all = draws_numbers(world, left - 1);
    drawn & all
}

/// Asks so often for the digest. Answers whether all were told.
#[tactic(auto, using(rt_world::proofs::Walked::close_laws))]
fn asks_for_digests<G: Rng>(world: &mut Making<G>, left: usize) -> bool
    requires { MayCall world.old.told.state world.old.out }
    ensures { Kept G.stream world.old world.new }
{
    if left == 0 {
        return true;
    }
    let told = world.auditor().is_ok();
    let all = asks_for_digests(world, left - 1);
    told & all
}

/// Draws many numbers, and many bytes at once. Answers whether all were drawn, and each digest was told.
#[tactic(auto, using(rt_world::proofs::Walked::close_laws))]
fn draws_many<G: Rng>(world: &mut Making<G>, bytes: &mut [u8]) -> bool
    requires { MayCall world.old.told.state world.old.out }
    ensures { Kept G.stream world.old world.new }
{
    let numbers = draws_numbers(world, MANY);
    let filled = world.fill_bytes(bytes).is_ok();
    let told = asks_for_digests(world, MANY);
    numbers & filled & told
}

/// Whether many of each are made, and how many entries their run has.
#[tactic(auto, unfolding(rt_model::specs::Effects::after, rt_model::specs::State::begun))]
fn made<R: Abort>(rt: &R, alloc: Global) -> Result<(bool, usize), NoMemory> {
    let rng = ChaCha12Rng::seed_from_u64(1);
    let Ok(mut world) = Making::<ChaCha12Rng>::begin(alloc, Journal::new(alloc), BEGIN, rng) else {
        return Err(NoMemory);
    };
    let made = makes_many(rt, alloc, &mut world);
    let cause = world.cleanup_unmade(None, FinishCause::NoMemory);
    let (journal, _, _) = world.into_parts();
    Ok((made && cause == FinishCause::NoMemory, journal.len()))
}

/// Whether many numbers, bytes and digests are had, and how many entries their run has.
#[tactic(auto, unfolding(rt_model::specs::Effects::after, rt_model::specs::State::begun))]
fn drawn(alloc: Global) -> Result<(bool, usize), NoMemory> {
    let mut bytes = vec![in alloc; 0; MEBIBYTE]?;
    let rng = ChaCha12Rng::seed_from_u64(1);
    let Ok(mut world) = Making::<ChaCha12Rng>::begin(alloc, Journal::new(alloc), BEGIN, rng) else {
        return Err(NoMemory);
    };
    let drawn = draws_many(&mut world, &mut bytes);
    let cause = world.cleanup_unmade(None, FinishCause::NoMemory);
    let (journal, _, _) = world.into_parts();
    Ok((drawn && cause == FinishCause::NoMemory, journal.len()))
}

#[test]
fn many_of_each(rt: HostRuntime) -> Result<(), Fail> {
    // the start, three entries for each slot, each group and each signal, and four of the cleanup
    assert!(rt; made(&rt, rt.alloc())? == (true, 9_005));
    Ok(())
}

#[test]
fn many_draws(rt: HostRuntime) -> Result<(), Fail> {
    // the start, two entries for each number and for the bytes, one for each digest, and four of the cleanup
    assert!(rt; drawn(rt.alloc())? == (true, 5_007));
    Ok(())
}
