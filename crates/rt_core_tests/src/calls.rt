// Calls of a context that a maker is handed. They are made in a world of their own, so that nothing has to be said of them in
// advance, and the lines of its journal are compared.

ghost use Rattle.rt_model.specs.Rules.{MayCall};
ghost use Rattle.rt_world.specs.Calls.{Kept};

use crate::signal_tests::answers_signals;
use crate::tests::Probe;
use crate::told::{fails, has_lines, holds};
use rand_chacha::ChaCha12Rng;
use rand_core::SeedableRng;
use rt_audit::{FinishCause, Journal};
use rt_base::MetricError;
use rt_core::{
    AbortOnDrop, AbortOnDropOf, Cell, Context, Error, Execution, Handle, HandleOf, Name, NoMemory,
    Poller, Refused, Rng, RootMaker, Runner, Select, World, spawn_cell,
};
use rt_model::Begin;
use rt_world::WorldOf;
use std::alloc::Global;
use std::process::Abort;

/// How the world of the calls begins.
const BEGIN: Begin = Begin {
    start: 3,
    cycle: 1_000_000,
    deadline: None,
    first: 0,
    catch: false,
};

/// The world of a run whose maker is under way.
pub type Making<G> = WorldOf<Probe, G>;

/// Calls that are made together.
#[derive(Clone, Copy)]
pub enum Part {
    Contexts,
    Draws,
    Signals,
}

/// Contexts are named, refused and spawned on, and handles are given up.
const CONTEXTS: &str = "\
start 3 - 1000000 0; call - child 0 runtime -> err 14; call - child 0 left -> node 1; call - spawn 1 -> task 0 node 2
call - abort 0 -> ok; call - give-up 0 -> ok; call - child 0 stop -> node 3; call - close-node 3 -> ok
call - close-node 0 -> ok; call - abort-task 9 -> err 12; cleanup; nodeend 0; call 0 close-node 2 -> ok; answer 0 ended
crash; finish nomemory
";

/// A number of each width and three bytes are drawn, and the digest is told.
const DRAWS: &str = "\
start 3 - 1000000 0; event rand 6e6578745f753332; call - u32 -> 3543144545; event rand 6e6578745f753634
call - u64 -> 14703524129167383140; event rand 66696c6c5f6279746573; call - fill 3 -> 25d1f4; call - auditor -> 4b937da9
call - close-node 0 -> ok; cleanup; nodeend 0; crash; finish nomemory
";

/// A group of signals with a value, one without, and the shutdown.
const SIGNALS: &str = "\
start 3 - 1000000 0; call - signaler -> signal 1; call - clone-signal 1 -> signal 2; call - signal 1 5 -> ok
call - signal-close 1 -> ok; call - signal-close 2 -> ok; call - completion-close 1 -> ok; call - signaler -> signal 3
call - signaler-close 3 -> ok; call - signal-close 3 -> ok; event stopped; call - stopped -> signal 4
call - signal-close 4 -> ok; event stop 00000009; call - stop 9 -> completion 5; call - completion-close 5 -> ok
event stopped; call - stopped -> closed 9; call - close-node 0 -> ok; cleanup; nodeend 0; crash; finish nomemory
";

/// A maker that makes no root and no call.
const NO_ROOT: &str = "\
start 0 - 1000000 0; cleanup; nodeend 0; crash; finish nomemory
";

/// Drops the error of a call that should not be refused.
pub fn refused(error: Error) -> bool {
    drop(error);
    false
}

/// Whether a call was made that draws, or asks for the digest.
fn drawn<V: Drop>(answer: Result<V, Error>) -> bool {
    let is = answer.is_ok();
    drop(answer);
    is
}

/// Whether a label was refused as reserved.
fn is_reserved(error: Error) -> bool {
    let is = matches!(&error, Error::Metric(MetricError::Reserved));
    drop(error);
    is
}

/// Whether a token was refused as unknown.
fn is_unknown(answer: Result<(), Error>) -> bool {
    let is = matches!(&answer, Err(Error::UnknownToken));
    drop(answer);
    is
}

/// The context that a refusal hands back.
fn back_of(refused: Refused<Context>) -> Context {
    let Refused { back, error } = refused;
    drop(error);
    back
}

/// The context with this attribute, or as it was, and whether the key was refused as a bad label.
fn tagged(context: Context, key: &str, value: &str) -> (Context, bool) {
    match context.with_attribute(key, value) {
        Ok(context) => (context, false),
        Err(refused) => {
            let Refused { back, error } = refused;
            let bad = matches!(&error, Error::Metric(MetricError::BadLabel));
            drop(error);
            (back, bad)
        }
    }
}

/// A name as text: its label, and then each attribute.
fn name_text(alloc: Global, name: &Name) -> Result<String, NoMemory> {
    let mut text = name.label.as_str().to_owned(alloc)?;
    for attribute in name.attributes.as_slice() {
        text.push(' ')?;
        text.push_str(attribute.0.as_str())?;
        text.push('=')?;
        text.push_str(attribute.1.as_str())?;
    }
    Ok(text)
}

/// Whether a context has the name that is this as text.
fn has_name(alloc: Global, context: &Context, expected: &str) -> bool {
    let Some(name) = context.name().ok() else {
        return false;
    };
    let text = name_text(alloc, &name);
    drop(name);
    match text {
        Ok(text) => text.as_str() == expected,
        Err(NoMemory) => false,
    }
}

/// Spawns a probe on the context of a cell, and aborts it twice before its handle is given up. Returns whether it was spawned.
#[tactic(auto, using(rt_world::proofs::Walked::close_laws))]
fn spawns_aborted<G: Rng>(context: Context, world: &mut Making<G>) -> bool
    requires { MayCall world.old.told.state world.old.out }
    ensures { Kept G.stream world.old world.new }
{
    let mut cell = Cell::new(context);
    let spawned = spawn_cell!(
        cell,
        world,
        |fresh| Probe {
            context: fresh.into_present(),
            calls: false,
        }
    );
    match cell {
        Cell::Missing => {}
        Cell::Present(_left) => unreachable!(),
    }
    match spawned {
        Ok(mut handle) => {
            handle.abort(world);
            handle.abort_on_drop().give_up(world);
            true
        }
        Err(refused) => {
            back_of(refused).close(world);
            false
        }
    }
}

/// Whether attributes are taken and refused as they should be. The context comes back.
fn takes_attributes(alloc: Global, context: Context) -> (Context, bool) {
    let (context, late) = tagged(context, "b", "2");
    let (context, early) = tagged(context, "a", "1");
    let (context, again) = tagged(context, "b", "3");
    let (context, bad) = tagged(context, "9", "4");
    let named = has_name(alloc, &context, " a=1 b=3");
    (context, bad && !late && !early && !again && named)
}

/// Whether the label of a child is refused as reserved.
#[tactic(auto, using(rt_world::proofs::Walked::close_laws))]
fn refuses<G: Rng>(context: &Context, world: &mut Making<G>, label: &str) -> bool
    requires { MayCall world.old.told.state world.old.out }
    ensures { Kept G.stream world.old world.new }
{
    match context.child(world, label) {
        Ok(child) => {
            child.close(world);
            false
        }
        Err(error) => is_reserved(error),
    }
}

/// Whether a child has its name, and a task is spawned on it.
#[tactic(auto, using(rt_world::proofs::Walked::close_laws))]
fn spawns_on_a_child<G: Rng>(alloc: Global, context: &Context, world: &mut Making<G>) -> bool
    requires { MayCall world.old.told.state world.old.out }
    ensures { Kept G.stream world.old world.new }
{
    let Ok(child) = context.child(world, "left") else {
        return false;
    };
    let named = has_name(alloc, &child, "left a=1 b=3");
    let spawned = spawns_aborted(child.shared(true).dedicated(), world);
    named && spawned
}

/// Gives up a stop that wasn't polled, and a choice among no handles. Returns whether the stop had a context.
#[tactic(auto, using(rt_world::proofs::Walked::close_laws))]
fn gives_pollers_up<G: Rng>(alloc: Global, context: &Context, world: &mut Making<G>) -> bool
    requires { MayCall world.old.told.state world.old.out }
    ensures { Kept G.stream world.old world.new }
{
    let choice: Select<Probe> = HandleOf::select(Vec::new(alloc));
    choice.give_up(world);
    match context.child(world, "stop") {
        Ok(child) => {
            child.stop(7, Some(1)).give_up(world);
            true
        }
        Err(error) => refused(error),
    }
}

/// Two handles that hold a number each.
fn two_held(alloc: Global) -> Result<Vec<Handle<Probe>>, NoMemory> {
    let mut handles = Vec::with_capacity(alloc, 2)?;
    handles.push_reserved(HandleOf::ready(Ok(1)));
    handles.push_reserved(HandleOf::ready(Ok(2)));
    Ok(handles)
}

/// The same, guarded.
fn two_guarded(alloc: Global) -> Result<Vec<AbortOnDrop<Probe>>, NoMemory> {
    let mut guards = Vec::with_capacity(alloc, 2)?;
    guards.push_reserved(HandleOf::ready(Ok(1)).abort_on_drop());
    guards.push_reserved(HandleOf::ready(Ok(2)).abort_on_drop());
    Ok(guards)
}

/// Gives two guards up together. Returns whether there was memory for them.
#[tactic(auto, using(rt_world::proofs::Walked::close_laws))]
fn gives_guards_up<G: Rng>(alloc: Global, world: &mut Making<G>) -> bool
    requires { MayCall world.old.told.state world.old.out }
    ensures { Kept G.stream world.old world.new }
{
    let Ok(guards) = two_guarded(alloc) else {
        return false;
    };
    AbortOnDropOf::give_all_up(guards, world);
    true
}

/// Gives two handles up together. Returns whether there was memory for them.
#[tactic(auto, using(rt_world::proofs::Walked::close_laws))]
fn gives_handles_up<G: Rng>(alloc: Global, world: &mut Making<G>) -> bool
    requires { MayCall world.old.told.state world.old.out }
    ensures { Kept G.stream world.old world.new }
{
    let Ok(handles) = two_held(alloc) else {
        return false;
    };
    HandleOf::give_all_up(handles, world);
    true
}

/// Gives handles and guards up together. Returns whether there was memory for them.
#[tactic(auto, using(rt_world::proofs::Walked::close_laws))]
fn gives_all_up<G: Rng>(alloc: Global, world: &mut Making<G>) -> bool
    requires { MayCall world.old.told.state world.old.out }
    ensures { Kept G.stream world.old world.new }
{
    let handles = gives_handles_up(alloc, world);
    let guards = gives_guards_up(alloc, world);
    handles && guards
}

/// Gives pollers up, one by one and together. Returns whether all were there.
#[tactic(auto, using(rt_world::proofs::Walked::close_laws))]
fn gives_up<G: Rng>(alloc: Global, context: &Context, world: &mut Making<G>) -> bool
    requires { MayCall world.old.told.state world.old.out }
    ensures { Kept G.stream world.old world.new }
{
    let each = gives_pollers_up(alloc, context, world);
    let all = gives_all_up(alloc, world);
    each && all
}

/// Whether a task is spawned on a child, and the pollers are given up.
#[tactic(auto, using(rt_world::proofs::Walked::close_laws))]
fn works_on_children<G: Rng>(alloc: Global, context: &Context, world: &mut Making<G>) -> bool
    requires { MayCall world.old.told.state world.old.out }
    ensures { Kept G.stream world.old world.new }
{
    let spawned = spawns_on_a_child(alloc, context, world);
    let given_up = gives_up(alloc, context, world);
    spawned && given_up
}

/// Whether contexts are named, refused and spawned on as they should be.
#[tactic(auto, using(rt_world::proofs::Walked::close_laws))]
fn answers_contexts<G: Rng>(alloc: Global, context: Context, world: &mut Making<G>) -> bool
    requires { MayCall world.old.told.state world.old.out }
    ensures { Kept G.stream world.old world.new }
{
    let (context, attributes) = takes_attributes(alloc, context);
    let timed = context.current(world) == 3;
    let reserved = refuses(&context, world, "runtime");
    let worked = works_on_children(alloc, &context, world);
    context.close(world);
    let unknown = is_unknown(world.abort_task(9));
    let hinted = world.executions() == [(0, Execution::Dedicated)].as_slice();
    attributes && timed && reserved && worked && unknown && hinted
}

/// Whether a number of each width is drawn.
#[tactic(auto, using(rt_world::proofs::Walked::close_laws))]
fn draws_numbers<G: Rng>(context: &Context, world: &mut Making<G>) -> bool
    requires { MayCall world.old.told.state world.old.out }
    ensures { Kept G.stream world.old world.new }
{
    let short = drawn(context.next_u32(world));
    let long = drawn(context.next_u64(world));
    short && long
}

/// Whether three bytes are drawn, and the digest is told.
#[tactic(auto, using(rt_world::proofs::Walked::close_laws))]
fn draws_bytes<G: Rng>(context: &Context, world: &mut Making<G>) -> bool
    requires { MayCall world.old.told.state world.old.out }
    ensures { Kept G.stream world.old world.new }
{
    let mut bytes = [0; 3];
    let filled = drawn(context.fill_bytes(world, &mut bytes));
    let told = drawn(context.auditor(world));
    filled && told
}

/// Draws by each call and asks for the digest. Returns whether all were made.
#[tactic(auto, using(rt_world::proofs::Walked::close_laws))]
fn draws<G: Rng>(context: &Context, world: &mut Making<G>) -> bool
    requires { MayCall world.old.told.state world.old.out }
    ensures { Kept G.stream world.old world.new }
{
    let numbers = draws_numbers(context, world);
    let bytes = draws_bytes(context, world);
    numbers & bytes
}

/// The same, on a context that is closed then.
#[tactic(auto, using(rt_world::proofs::Walked::close_laws))]
fn draws_and_closes<G: Rng>(context: Context, world: &mut Making<G>) -> bool
    requires { MayCall world.old.told.state world.old.out }
    ensures { Kept G.stream world.old world.new }
{
    let drawn = draws(&context, world);
    context.close(world);
    drawn
}

/// Makes these calls. Returns whether they are answered as they should be.
#[tactic(auto, using(rt_world::proofs::Walked::close_laws))]
fn makes_calls<G: Rng>(alloc: Global, part: Part, context: Context, world: &mut Making<G>) -> bool
    requires { MayCall world.old.told.state world.old.out }
    ensures { Kept G.stream world.old world.new }
{
    match part {
        Part::Contexts => answers_contexts(alloc, context, world),
        Part::Draws => draws_and_closes(context, world),
        Part::Signals => answers_signals(context, world),
    }
}

/// The lines that these calls write.
fn lines_of(part: Part) -> &'static str {
    match part {
        Part::Contexts => CONTEXTS,
        Part::Draws => DRAWS,
        Part::Signals => SIGNALS,
    }
}

/// Whether these calls are answered and written as they should be, in a world of their own.
#[tactic(auto, unfolding(rt_model::specs::Effects::after, rt_model::specs::State::begun))]
fn are_written<R: Abort>(rt: &R, alloc: Global, part: Part, context: Context) -> bool {
    let rng = ChaCha12Rng::seed_from_u64(1);
    let Ok(mut world) = Making::<ChaCha12Rng>::begin(alloc, Journal::new(alloc), BEGIN, rng) else {
        panic!(rt; "out of memory");
    };
    let answered = makes_calls(alloc, part, context, &mut world);
    let cause = world.cleanup_unmade(None, FinishCause::NoMemory);
    let (journal, _, panic) = world.into_parts();
    answered
        && cause == FinishCause::NoMemory
        && panic.is_none()
        && has_lines(alloc, &journal, lines_of(part))
}

/// A maker that makes no root, and makes calls of its context in another world. It stops where they are not as they should be.
#[derive(Drop)]
struct RootCalls<R> {
    rt: R,
    alloc: Global,
    part: Part,
}

#[tactic(auto, using(rt_world::proofs::Walked::maker_laws))]
impl<R: Abort + Drop> RootMaker<Probe> for RootCalls<R> {
    ghost use Rattle.std.specs.Prelude.{false};
    ghost use Rattle.rt_model.specs.Walk.{Gives};
    ghost use Rattle.rt_core.specs.Contexts.{root_context};

    ghost first = { λ maker now. Gives tt (record { context = root_context; calls = false }) };

    fn make<G: Rng>(
        self,
        context: Context,
        _world: &mut World<Probe, u64, G>,
    ) -> Result<Probe, NoMemory> {
        let written = are_written(&self.rt, self.alloc, self.part, context);
        holds(&self.rt, lines_of(self.part), written);
        Err(NoMemory)
    }
}

/// Whether these calls are answered and written as they should be.
pub fn are_made<R: Abort + Drop>(rt: R, alloc: Global, part: Part) -> bool {
    let maker = RootCalls { rt, alloc, part };
    let cause = FinishCause::NoMemory;
    fails::<Probe, RootCalls<R>>(alloc, Runner::default(), maker, cause, NO_ROOT)
}
