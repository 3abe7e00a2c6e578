// A run by the calls of the world. Whole runs of runners are compared in the crates above.

ghost use Rattle.std.specs.Prelude.{◌≡◌, ◌≤◌, [], None, false};
ghost use Rattle.rt_model.specs.State.{Between};
ghost use Rattle.rt_model.specs.Rules.{MayCall};
ghost use Rattle.rt_world.specs.Calls.{Kept};

use crate::steady::Steady;
use rand_core::Rng;
use rt_audit::{FinishCause, Journal};
use rt_base::{Error, Execution, MAX_TIME, Nanos, NoMemory, Poll, Text};
use rt_journals::BEGIN;
use rt_model::Begin;
use rt_world::{Answer, Cx, Makes, Outcome, Spawned, Task, World, WorldOf};
use std::alloc::Global;
use std::process::Abort;
use std::test::Fail;

/// A task that is ready at once.
#[derive(Drop)]
struct Probe;

impl Outcome for Probe {
    type Output = u64;
}

#[tactic(auto, using(rt_world::proofs::Walked::task_laws, rt_world::proofs::Walked::poller_laws))]
impl Task for Probe {
    ghost use Rattle.rt_audit.specs.declared.call.Call.TheVariants.{CloseNode};
    ghost use Rattle.rt_model.specs.declared.answer.Answer.TheVariants.{Ready};
    ghost use Rattle.rt_model.specs.Turns.{Plainly};
    ghost use Rattle.rt_model.specs.Walk.{Spends, Gives};

    ghost steps = { record { next = λ probe now task. Gives (Ready 7) probe; last = λ probe now task. Spends (Plainly (CloseNode 0)) (Gives tt tt) } };

    fn poll<G: Rng>(&mut self, _world: &mut World<Self, u64, G>, _cx: &Cx) -> Answer<u64> {
        Answer::Ready(7)
    }

    fn end<G: Rng>(self, world: &mut World<Self, u64, G>) {
        world.close_node(0);
    }
}

/// Makes probes.
#[derive(Drop)]
struct ProbeMaker;

impl Makes<Probe> for ProbeMaker {
    ghost callable = { λ maker. Unit {0} };

    ghost makes = { λ maker node probe. Unit {0} };

    fn make(self, _node: u64) -> Probe {
        Probe
    }
}

/// A run that is over: its output, its last cause, and how many entries it has.
type Came = (Option<u64>, FinishCause, usize);

/// What a world came to that was cleaned up.
fn taken_apart(world: WorldOf<Probe, Steady>, output: Option<u64>, cause: FinishCause) -> Came
    requires { world.held.tasks ≡ [] }
{
    let (journal, _, _) = world.into_parts();
    (output, cause, journal.len())
}

/// Runs a root that was taken in to its end.
#[tactic(auto, using(rt_world::proofs::Running::run_laws), unfolding(rt_model::specs::Effects::after))]
fn run_root(mut world: WorldOf<Probe, Steady>) -> Came
    requires phase { world.told.state.phase ≡ Between }
    requires none_out { world.out ≡ None }
    requires unmarked { world.lacked ≡ None }
    requires cycle { 1 ≤ world.told.state.clock.fixed.cycle }
{
    match world.run_rounds() {
        Ok(output) => {
            let cause = world.cleanup(FinishCause::Completed);
            taken_apart(world, Some(output), cause)
        }
        Err(cause) => {
            let cause = world.cleanup(cause);
            taken_apart(world, None, cause)
        }
    }
}

/// Runs a root from before a run to its end. A root that can't be taken in is ended.
#[tactic(auto, unfolding(rt_model::specs::Effects::after, rt_model::specs::State::begun))]
fn run(alloc: Global, taken_in: bool) -> Result<Came, NoMemory> {
    let Ok(mut world) = WorldOf::<Probe, Steady>::begin(alloc, Journal::new(alloc), BEGIN, Steady)
    else {
        return Err(NoMemory);
    };
    if !taken_in || !world.has_number_left() {
        let cause = world.cleanup_unmade(Some(Probe), FinishCause::NoMemory);
        return Ok(taken_apart(world, None, cause));
    }
    match world.register_root(Probe) {
        Err(root) => {
            let cause = world.cleanup_unmade(Some(root), FinishCause::NoMemory);
            Ok(taken_apart(world, None, cause))
        }
        Ok(_) => Ok(run_root(world)),
    }
}

/// A call of a world.
enum WorldCall {
    Now,
    Sleep(Nanos),
    Wake(u64),
    Child(u64),
    CloseNode(u64),
    Spawn(u64),
    Executions,
    Join(u64),
    Abort(u64),
    AbortTask(u64),
    GiveUpTask(u64),
    Slot,
    Send(u64, u64),
    SendError(u64),
    SendText(u64),
    Close(u64),
    Poll(u64),
    GiveUp(u64),
    AbortWait(u64),
    Signaler,
    Signal(u64, i32),
    CloneSignal(u64),
    PollSignal(u64),
    FillNothing,
}

/// The text of an error that is sent.
const NO_HOST: &str = "no such host";

/// What is heard of a call.
#[derive(Clone, Copy, PartialEq, Eq)]
enum Heard {
    Done,
    Time(Nanos),
    Alarm(Option<u64>),
    Number(u64),
    Node(u64, bool),
    Task(u64, u64),
    Dedicated(u64),
    Pending,
    Value(u64),
    Shown(i32),
    SendFailed,
    NoHost,
    Closed,
    Aborted,
    Unknown,
    Other,
}

/// Calls on nodes, tasks and the time, in a world that begins at 3.
const CALLS: &[(WorldCall, Heard)] = &[
    (WorldCall::Sleep(3), Heard::Alarm(None)),
    (WorldCall::Sleep(5), Heard::Alarm(Some(0))),
    (WorldCall::Wake(9), Heard::Unknown),
    (WorldCall::Child(0), Heard::Node(1, false)),
    (WorldCall::Spawn(1), Heard::Task(0, 2)),
    (WorldCall::Spawn(1), Heard::Unknown),
    (WorldCall::Executions, Heard::Dedicated(0)),
    (WorldCall::Join(0), Heard::Pending),
    (WorldCall::AbortTask(0), Heard::Done),
    (WorldCall::AbortTask(1), Heard::Unknown),
    (WorldCall::Abort(0), Heard::Done),
    (WorldCall::GiveUpTask(0), Heard::Done),
    (WorldCall::Join(0), Heard::Unknown),
    (WorldCall::CloseNode(0), Heard::Done),
    (WorldCall::Now, Heard::Time(3)),
];

/// Calls on slots. The last four find spent what they spend, and write nothing.
const SLOT_CALLS: &[(WorldCall, Heard)] = &[
    (WorldCall::Slot, Heard::Number(0)),
    (WorldCall::Poll(0), Heard::Pending),
    (WorldCall::Send(0, 9), Heard::Done),
    (WorldCall::Poll(0), Heard::Value(9)),
    (WorldCall::Poll(0), Heard::Closed),
    (WorldCall::Slot, Heard::Number(1)),
    (WorldCall::SendError(1), Heard::Done),
    (WorldCall::Poll(1), Heard::SendFailed),
    (WorldCall::Poll(1), Heard::SendFailed),
    (WorldCall::Slot, Heard::Number(2)),
    (WorldCall::Close(2), Heard::Done),
    (WorldCall::Poll(2), Heard::Closed),
    (WorldCall::Slot, Heard::Number(3)),
    (WorldCall::AbortWait(3), Heard::Done),
    (WorldCall::Poll(3), Heard::Aborted),
    (WorldCall::GiveUp(3), Heard::Done),
    (WorldCall::Poll(3), Heard::Unknown),
    (WorldCall::Send(0, 8), Heard::Done),
    (WorldCall::Close(2), Heard::Done),
    (WorldCall::AbortWait(3), Heard::Done),
    (WorldCall::GiveUp(3), Heard::Done),
];

/// An error with a text is handed out, a copy of a signal shows the value that came before it was made, and drawing no byte is
/// noted as any draw.
const SHOWN: &[(WorldCall, Heard)] = &[
    (WorldCall::Slot, Heard::Number(0)),
    (WorldCall::SendText(0), Heard::Done),
    (WorldCall::Poll(0), Heard::NoHost),
    (WorldCall::Signaler, Heard::Number(1)),
    (WorldCall::Signal(1, 5), Heard::Done),
    (WorldCall::CloneSignal(1), Heard::Number(2)),
    (WorldCall::PollSignal(2), Heard::Shown(5)),
    (WorldCall::FillNothing, Heard::Done),
];

fn slept(answer: Result<Option<u64>, NoMemory>) -> Heard {
    match answer {
        Ok(alarm) => Heard::Alarm(alarm),
        Err(NoMemory) => Heard::Other,
    }
}

fn hinted(executions: &[(u64, Execution)]) -> Heard {
    match executions {
        [(task, Execution::Dedicated)] => Heard::Dedicated(*task),
        _ => Heard::Other,
    }
}

fn polled(answer: Result<Option<u64>, Error>) -> Heard {
    match answer {
        Ok(None) => Heard::Pending,
        Ok(Some(value)) => Heard::Value(value),
        Err(error) => refused(error),
    }
}

fn answered(answer: Result<(), Error>) -> Heard {
    match answer {
        Ok(()) => Heard::Done,
        Err(error) => refused(error),
    }
}

fn made(answer: Result<(u64, bool), Error>) -> Heard {
    match answer {
        Ok((node, ended)) => Heard::Node(node, ended),
        Err(error) => refused(error),
    }
}

fn spawned(answer: Result<Spawned<ProbeMaker>, (Error, ProbeMaker)>) -> Heard {
    match answer {
        Ok(Spawned::Closed(ProbeMaker)) => Heard::Closed,
        Ok(Spawned::Runs { task, node }) => Heard::Task(task, node),
        Err((error, ProbeMaker)) => refused(error),
    }
}

fn numbered(answer: Result<u64, NoMemory>) -> Heard {
    match answer {
        Ok(number) => Heard::Number(number),
        Err(NoMemory) => Heard::Other,
    }
}

fn cloned(answer: Result<u64, Error>) -> Heard {
    match answer {
        Ok(number) => Heard::Number(number),
        Err(error) => refused(error),
    }
}

fn shown(answer: Result<Poll<i32>, Error>) -> Heard {
    match answer {
        Ok(Poll::Pending) => Heard::Pending,
        Ok(Poll::Ready(value)) => Heard::Shown(value),
        Err(error) => refused(error),
    }
}

fn named(error: &Error) -> Heard {
    match error {
        Error::ResolveFailed(text) if text.as_str() == NO_HOST => Heard::NoHost,
        Error::SendFailed => Heard::SendFailed,
        Error::Closed => Heard::Closed,
        Error::Aborted => Heard::Aborted,
        Error::UnknownToken => Heard::Unknown,
        _ => Heard::Other,
    }
}

fn refused(error: Error) -> Heard {
    let heard = named(&error);
    drop(error);
    heard
}

/// An error with a text of its own.
fn no_host(alloc: Global) -> Result<Error, NoMemory> {
    Ok(Error::ResolveFailed(Text::of(NO_HOST.to_owned(alloc)?)))
}

/// Sends an error with a text.
#[tactic(auto, using(rt_world::proofs::Walked::close_laws))]
fn sends_text<G: Rng>(alloc: Global, world: &mut WorldOf<Probe, G>, slot: u64) -> Heard
    requires { MayCall world.old.told.state world.old.out }
    ensures { Kept G.stream world.old world.new }
{
    match no_host(alloc) {
        Ok(error) => {
            world.slot_send(slot, Err(error));
            Heard::Done
        }
        Err(NoMemory) => Heard::Other,
    }
}

/// Draws no byte.
#[tactic(auto, using(rt_world::proofs::Walked::close_laws))]
fn fills_nothing<G: Rng>(world: &mut WorldOf<Probe, G>) -> Heard
    requires { MayCall world.old.told.state world.old.out }
    ensures { Kept G.stream world.old world.new }
{
    let mut none = [0u8; 0];
    match world.fill_bytes(&mut none) {
        Ok(()) => Heard::Done,
        Err(NoMemory) => Heard::Other,
    }
}

/// Makes a call: here one on a node, on a task or on the time.
#[tactic(auto, using(rt_world::proofs::Walked::close_laws))]
fn makes<G: Rng>(alloc: Global, world: &mut WorldOf<Probe, G>, call: &WorldCall) -> Heard
    requires { MayCall world.old.told.state world.old.out }
    ensures { Kept G.stream world.old world.new }
{
    match *call {
        WorldCall::Now => return Heard::Time(world.now()),
        WorldCall::Sleep(due) if due <= MAX_TIME => return slept(world.sleep_poll(due, None)),
        WorldCall::Wake(task) => return answered(world.wake(task)),
        WorldCall::Child(node) => return made(world.child(node, "left")),
        WorldCall::CloseNode(node) => world.close_node(node),
        WorldCall::Spawn(node) => {
            return spawned(world.spawn(node, Execution::Dedicated, ProbeMaker));
        }
        WorldCall::Executions => return hinted(world.executions()),
        WorldCall::Join(task) => return polled(world.join(task)),
        WorldCall::Abort(task) => world.abort(task),
        WorldCall::AbortTask(task) => return answered(world.abort_task(task)),
        WorldCall::GiveUpTask(task) => world.give_up(task),
        _ => return makes_on_slot(alloc, world, call),
    }
    Heard::Done
}

/// Makes a call on a slot or a signal, or one that draws no byte.
#[tactic(auto, using(rt_world::proofs::Walked::close_laws))]
fn makes_on_slot<G: Rng>(alloc: Global, world: &mut WorldOf<Probe, G>, call: &WorldCall) -> Heard
    requires { MayCall world.old.told.state world.old.out }
    ensures { Kept G.stream world.old world.new }
{
    match *call {
        WorldCall::Slot => return numbered(world.slot()),
        WorldCall::Poll(slot) => return polled(world.slot_poll(slot)),
        WorldCall::Send(slot, value) => world.slot_send(slot, Ok(value)),
        WorldCall::SendError(slot) => world.slot_send(slot, Err(Error::SendFailed)),
        WorldCall::SendText(slot) => return sends_text(alloc, world, slot),
        WorldCall::Close(slot) => world.slot_close(slot),
        WorldCall::GiveUp(slot) => world.slot_give_up(slot),
        WorldCall::AbortWait(slot) => world.abort_wait(slot),
        WorldCall::Signaler => return numbered(world.signaler()),
        WorldCall::Signal(signaler, value) => world.signal(signaler, value),
        WorldCall::CloneSignal(signal) => return cloned(world.clone_signal(signal)),
        WorldCall::PollSignal(signal) => return shown(world.poll_signal(signal)),
        WorldCall::FillNothing => return fills_nothing(world),
        _ => return Heard::Other,
    }
    Heard::Done
}

/// How many calls are answered as they should be, up to the first that isn't.
#[tactic(auto, using(rt_world::proofs::Walked::loop_laws))]
fn answers_each<G: Rng>(
    alloc: Global,
    world: &mut WorldOf<Probe, G>,
    calls: &[(WorldCall, Heard)],
) -> usize
    requires { MayCall world.old.told.state world.old.out }
    ensures { Kept G.stream world.old world.new }
{
    let mut answered = 0usize;
    for (call, wanted) in calls {
        if makes(alloc, world, call) != *wanted {
            return answered;
        }
        answered = answered.wrapping_add(1);
    }
    answered
}

/// How many of these calls are answered as they should be, in a world of their own, and how many entries it has.
#[tactic(auto, using(rt_world::proofs::Walked::close_laws), unfolding(rt_model::specs::Effects::after, rt_model::specs::State::begun))]
fn answer(alloc: Global, calls: &[(WorldCall, Heard)]) -> Result<(usize, usize), NoMemory> {
    let begin = Begin { start: 3, ..BEGIN };
    let Ok(mut world) = WorldOf::<Probe, Steady>::begin(alloc, Journal::new(alloc), begin, Steady)
    else {
        return Err(NoMemory);
    };
    let answered = answers_each(alloc, &mut world, calls);
    let cause = world.cleanup_unmade(None, FinishCause::NoMemory);
    let (_, _, entries) = taken_apart(world, None, cause);
    Ok((answered, entries))
}

/// Stops where one of these calls is answered otherwise, or another number of entries is written.
fn answers(rt: &impl Abort, alloc: Global, calls: &[(WorldCall, Heard)], wanted: usize) {
    let (answered, entries) = answer(alloc, calls).expect(rt, "room");
    assert!(rt; answered == calls.len(), "call {answered}");
    assert!(rt; entries == wanted, "{entries} entries");
}

#[test]
fn slots(rt: HostRuntime) {
    answers(&rt, rt.alloc(), SLOT_CALLS, 22);
}

#[test]
fn what_came_is_shown(rt: HostRuntime) {
    // the start, an entry for each call and a second for the draw, and four of the cleanup
    answers(&rt, rt.alloc(), SHOWN, 14);
}

#[test]
fn surface(rt: HostRuntime) -> Result<(), Fail> {
    let alloc = rt.alloc();
    assert!(rt; run(alloc, true)? == (Some(7), FinishCause::Completed, 12));
    assert!(rt; run(alloc, false)? == (None, FinishCause::NoMemory, 6));
    answers(&rt, alloc, CALLS, 19);
    Ok(())
}
