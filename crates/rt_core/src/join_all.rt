//! Groups of handles that are joined together.

ghost use Rattle.std.specs.Prelude.{◌≡◌, ◌≤◌, [], true, map, IfOk, IfErr, None, Err, vec_len, vec_capacity};
ghost use Rattle.std.specs.VecDeque.{deque_len, deque_capacity};
ghost use Rattle.rt_base.specs.declared.error.Error.TheVariants.{NoMemory as LacksMemory};
ghost use Rattle.rt_base.specs.declared.poll.Poll.TheVariants.{Ready};
ghost use Rattle.rt_model.specs.Rules.{MayCall};
ghost use Rattle.rt_world.specs.Calls.{IsPolling, Kept};
ghost use Rattle.rt_world.specs.Walked.{Goes, SaysLack};
ghost use Rattle.rt_core.specs.Joins.{joining, answered, is_lack, lacks, turned, told, waits, gives_up, drains, fails, joins};

use crate::AbortOnDropOf;
use crate::handle::HandleOf;
use crate::select::{abort_all, let_go};
use rand_core::Rng;
use rt_base::{Error, Items, NoMemory, Poll, Refused};
use rt_world::{Cx, Outcome, Poller, World};
use std::alloc::Global;
use std::collections::VecDeque;
use std::marker::Model;
use std::mem;

/// A function that turns the output of each joined task into a `V`, as a value of a type of its own.
///
/// What it returns goes by itself and by the output alone, so it takes no memory.
pub trait Convert<O, V> {
    ghost use Rattle.std.specs.Prelude.{◌≡◌, Result};
    ghost use Rattle.rt_base.specs.declared.error.Error.{Error};

    // what an output is turned into
    ghost converted: { Self → O → Result V Error };

    /// Returns what an output is turned into, or refuses it.
    fn convert(&self, output: O) -> Result<V, Error>
        ensures { result ≡ converted self.now output };
}

/// A group of handles of tasks of this type, that are joined together.
pub type JoinAll<T, P, V, F> = JoinAllOf<<T as Outcome>::Output, P, V, F>;

/// A poller of what the outputs of its handles are turned into, in the order of the handles. It is a token: it must
/// be spent by [`give_up`](Poller::give_up), which aborts all handles that are left and then gives all up.
///
/// A poll joins the handles in order, up to the first that is pending; each is given up once it has answered. The
/// answer is the list of all that came of them, and of no handles the empty one. It has no capacity, so a `Vec` is
/// made of it without memory.
///
/// A handle that returns an error, or an output that is refused, is the failure: all handles that are left are
/// aborted, in order and this one first, which is given up then. The outputs are discarded. From then on each poll
/// polls all handles that are left, in order, and those that are ready are given up, their answers discarded. Once
/// none is left the answer is the failure.
///
/// `NoMemory` ends it at once: where it is the failure, or where a handle returns it later, all handles are given up,
/// and it is the answer. Once it has answered it returns `Closed`.
pub struct JoinAllOf<O, P, V, F> {
    handles: VecDeque<HandleOf<O, P>>,
    outputs: Vec<V>,
    failure: Option<Error>,
    convert: F,
}

impl<O, P, V, F> Model for JoinAllOf<O, P, V, F> {
    ghost use Rattle.std.specs.Prelude.{◌+◌, ◌≤◌, vec_len, vec_capacity};
    ghost use Rattle.std.specs.VecDeque.{deque_len};
    ghost use Rattle.rt_core.specs.Joins.{Joins};

    ghost Value = { Joins O P V F };

    ghost view = { λ j. record { handles = j.handles.items; outputs = j.outputs.items; failure = j.failure; convert = j.convert } };

    ghost invariant = { λ j. vec_len j.outputs + deque_len j.handles ≤ vec_capacity j.outputs };
}

impl<O, P> AbortOnDropOf<O, P> {
    /// Makes a poller that joins these tasks in order, and turns each output. It takes the room for all handles and
    /// outputs, so that a poll takes none but that of the calls on the world.
    ///
    /// Errors: `NoMemory`, with the guards.
    pub fn join_all<V: Drop, F: Convert<O, V> + Drop>(
        guards: Vec<AbortOnDropOf<O, P>>,
        convert: F,
    ) -> Result<JoinAllOf<O, P, V, F>, Refused<Vec<AbortOnDropOf<O, P>>>>
        ensures joins { IfOk result (λ group. group ≡ joining (map (λ guard. guard.handle) guards.items) convert) }
        ensures refused { IfErr result (λ refused. (refused.back ≡ guards) × (refused.error ≡ LacksMemory)) }
    {
        match room(*guards.allocator(), guards.len()) {
            Ok((handles, outputs)) => {
                Ok(JoinAllOf {
                    handles: filled(handles, guards),
                    outputs,
                    failure: None,
                    convert,
                })
            }
            Err(NoMemory) => {
                Err(Refused {
                    back: guards,
                    error: Error::NoMemory,
                })
            }
        }
    }
}

/// Room for so many handles, and for as many outputs.
fn room<O, P, V: Drop>(
    alloc: Global,
    count: usize,
) -> Result<(VecDeque<HandleOf<O, P>>, Vec<V>), NoMemory>
    ensures handles { IfOk result (λ room. (room.0.items ≡ []) × (count ≤ deque_capacity room.0)) }
    ensures outputs { IfOk result (λ room. (room.1.items ≡ []) × (count ≤ vec_capacity room.1)) }
{
    let outputs = Vec::with_capacity(alloc, count)?;
    let handles = VecDeque::with_capacity(alloc, count)?;
    Ok((handles, outputs))
}

/// The handles of these guards, in this room.
fn filled<O, P>(
    room: VecDeque<HandleOf<O, P>>,
    guards: Vec<AbortOnDropOf<O, P>>,
) -> VecDeque<HandleOf<O, P>>
    requires empty { room.items ≡ [] }
    requires fits { vec_len guards ≤ deque_capacity room }
    ensures handles { result.items ≡ map (λ guard. guard.handle) guards.items }
    ensures len { deque_len result ≡ vec_len guards }
{
    let mut handles = room;
    let mut rest = guards.into_iter();
    while let Some(guard) = rest.next() {
        handles.push_back_reserved(guard.join());
    }
    rest.destroy_empty();
    handles
}

#[tactic(auto, using(rt_world::proofs::Walked::poller_laws))]
impl<T: Outcome, P: Poller<T, T::Output>, V: Drop, F: Convert<T::Output, V> + Drop> Poller<
    T,
    Items<V>,
> for JoinAllOf<T::Output, P, V, F> {
    ghost use Rattle.rt_core.specs.Joins.{join_all_polls, join_all_spends};

    ghost polls = { λ j now task. join_all_polls (λ state. P.polls state now task) P.spends F.converted j };

    ghost spends = { λ j. join_all_spends P.spends j };

    fn poll<G: Rng>(
        &mut self,
        world: &mut World<T, T::Output, G>,
        cx: &Cx,
    ) -> Poll<Result<Items<V>, Error>> {
        match mem::replace(&mut self.failure, None) {
            None => join(self, world, cx),
            Some(failure) => drain(self, world, cx, failure),
        }
    }

    fn give_up<G: Rng>(self, world: &mut World<T, T::Output, G>) {
        let JoinAllOf {
            handles,
            outputs: _,
            failure: _,
            convert: _,
        } = self;
        let_go(world, handles.into_vec());
    }
}

/// Joins the handles in order, up to the first that is pending, or to the first failure.
#[tactic(auto, using(rt_world::proofs::Walked::poller_laws))]
fn join<T: Outcome, P: Poller<T, T::Output>, V: Drop, F: Convert<T::Output, V>, G: Rng>(
    group: &mut JoinAllOf<T::Output, P, V, F>,
    world: &mut World<T, T::Output, G>,
    cx: &Cx,
) -> Poll<Result<Items<V>, Error>>
    requires polling { IsPolling world.old cx.now.task }
    requires fine { group.old.failure ≡ None }
    ensures kept { Kept G.stream world.old world.new }
    ensures steps { Goes (joins (λ state. P.polls state world.old.told.state.clock.time cx.now.task) P.spends (F.converted group.old.convert) group.old.convert group.old.outputs group.old.handles) world.old world.new result group.new }
    ensures lack { SaysLack world.old world.new result }
{
    while let Some(mut handle) = group.handles.pop_front() {
        match handle.poll(world, cx) {
            Poll::Pending => {
                group.handles.push_front_reserved(handle);
                return Poll::Pending;
            }
            Poll::Ready(answer) => {
                match turned(&group.convert, answer) {
                    Ok(value) => {
                        group.outputs.push_reserved(value);
                        handle.give_up(world);
                    }
                    Err(error) => return fail(group, world, cx, handle, error),
                }
            }
        }
    }
    Poll::Ready(Ok(group.take_outputs()))
}

/// What an answer is turned into.
fn turned<O, V, F: Convert<O, V>>(convert: &F, answer: Result<O, Error>) -> Result<V, Error>
    ensures { result ≡ turned (F.converted convert.now) answer }
{
    match answer {
        Ok(output) => convert.convert(output),
        Err(error) => Err(error),
    }
}

/// Aborts this handle, which failed so, and those that are left. It is given up, and those are polled to their ends.
#[tactic(auto, using(rt_world::proofs::Walked::poller_laws))]
fn fail<T: Outcome, P: Poller<T, T::Output>, V: Drop, F, G: Rng>(
    group: &mut JoinAllOf<T::Output, P, V, F>,
    world: &mut World<T, T::Output, G>,
    cx: &Cx,
    handle: HandleOf<T::Output, P>,
    error: Error,
) -> Poll<Result<Items<V>, Error>>
    requires polling { IsPolling world.old cx.now.task }
    ensures kept { Kept G.stream world.old world.new }
    ensures steps { Goes (fails (λ state. P.polls state world.old.told.state.clock.time cx.now.task) P.spends group.old.convert error handle group.old.handles) world.old world.new result group.new }
    ensures lack { SaysLack world.old world.new result }
    ensures ends { is_lack error ≡ true → result ≡ Ready (Err LacksMemory) }
{
    let mut handle = handle;
    handle.abort(world);
    abort_all(world, group.handles.make_contiguous());
    handle.give_up(world);
    if is_lack(&error) {
        drop(error);
        return end(group, world);
    }
    drain(group, world, cx, error)
}

/// Polls all handles that are left once, in order. Those that answer are given up.
#[tactic(auto, using(rt_world::proofs::Walked::poller_laws))]
fn drain<T: Outcome, P: Poller<T, T::Output>, V: Drop, F, G: Rng>(
    group: &mut JoinAllOf<T::Output, P, V, F>,
    world: &mut World<T, T::Output, G>,
    cx: &Cx,
    failure: Error,
) -> Poll<Result<Items<V>, Error>>
    requires polling { IsPolling world.old cx.now.task }
    ensures kept { Kept G.stream world.old world.new }
    ensures steps { Goes (drains (λ state. P.polls state world.old.told.state.clock.time cx.now.task) P.spends group.old.convert failure [] group.old.handles) world.old world.new result group.new }
    ensures lack { SaysLack world.old world.new result }
{
    let mut left = group.handles.len();
    while left > 0 {
        let Some(mut handle) = group.handles.pop_front() else {
            unreachable!()
        };
        match handle.poll(world, cx) {
            Poll::Pending => group.handles.push_back_reserved(handle),
            Poll::Ready(answer) => {
                let ends = lacks(answer);
                handle.give_up(world);
                if ends {
                    drop(failure);
                    return end(group, world);
                }
            }
        }
        left -= 1;
    }
    group.answer(failure)
}

/// Gives up what is left, since memory is lacking.
#[tactic(auto, using(rt_world::proofs::Walked::poller_laws))]
fn end<T: Outcome, P: Poller<T, T::Output>, V: Drop, F, G: Rng>(
    group: &mut JoinAllOf<T::Output, P, V, F>,
    world: &mut World<T, T::Output, G>,
) -> Poll<Result<Items<V>, Error>>
    requires { MayCall world.old.told.state world.old.out }
    ensures kept { Kept G.stream world.old world.new }
    ensures lacked { world.new.lacked ≡ world.old.lacked }
    ensures steps { Goes (gives_up P.spends group.old.convert group.old.handles) world.old world.new result group.new }
    ensures ends { result ≡ Ready (Err LacksMemory) }
{
    let none = VecDeque::new(*group.handles.allocator());
    let handles = mem::replace(&mut group.handles, none);
    HandleOf::give_all_up(handles.into_vec(), world);
    group.close();
    Poll::Ready(Err(Error::NoMemory))
}

impl<O, P, V: Drop, F> JoinAllOf<O, P, V, F> {
    /// Takes the outputs, and is closed from then on.
    fn take_outputs(&mut self) -> Items<V>
        requires { self.old.handles ≡ [] }
        ensures outputs { result ≡ self.old.outputs }
        ensures closed { self.new ≡ answered self.old.convert }
    {
        let none = Vec::new(*self.outputs.allocator());
        let outputs = mem::replace(&mut self.outputs, none);
        self.close();
        Items::of(outputs)
    }

    /// The failure where no handle is left, which is closed from then on. Else it waits on.
    fn answer(&mut self, failure: Error) -> Poll<Result<Items<V>, Error>>
        ensures told { result ≡ told failure self.old.handles }
        ensures waits { self.new ≡ waits self.old.convert failure self.old.handles }
    {
        if self.handles.is_empty() {
            self.close();
            return Poll::Ready(Err(failure));
        }
        self.outputs.clear();
        drop(mem::replace(&mut self.failure, Some(failure)));
        Poll::Pending
    }

    /// It is closed from now on. No handle is left.
    fn close(&mut self)
        requires { self.old.handles ≡ [] }
        ensures { self.new ≡ answered self.old.convert }
    {
        self.outputs.clear();
        drop(mem::replace(&mut self.failure, Some(Error::Closed)));
    }
}

/// Whether it is the lack of memory.
fn is_lack(error: &Error) -> bool
    ensures { result ≡ is_lack error.now }
{
    matches!(error, Error::NoMemory)
}

/// Whether memory was lacking. The answer is discarded.
fn lacks<O: Drop>(answer: Result<O, Error>) -> bool
    ensures { result ≡ lacks answer }
{
    match answer {
        Ok(_output) => false,
        Err(error) => is_lack(&error),
    }
}
