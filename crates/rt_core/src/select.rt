//! Choices between handles.

ghost use Rattle.std.specs.Prelude.{◌≡◌, map};
ghost use Rattle.rt_model.specs.Rules.{MayCall};
ghost use Rattle.rt_world.specs.Calls.{Kept};
ghost use Rattle.rt_world.specs.Walked.{Spends};
ghost use Rattle.rt_core.specs.Handles.{aborted, handle_aborts};
ghost use Rattle.rt_core.specs.Select.{each, lets_go};

use crate::NoPoller;
use crate::handle::HandleOf;
use rand_core::Rng;
use rt_base::{Error, Poll};
use rt_world::{Cx, Outcome, Poller, World};
use std::marker::Model;
use std::mem;

/// A choice between handles of tasks of this type: a poller of the first ready one.
pub type Select<T, P = NoPoller> = SelectOf<<T as Outcome>::Output, P>;

/// A poller of what the first ready one of its handles returns. It is a token: it must be spent by
/// [`give_up`](Poller::give_up), which aborts all handles and then gives all up.
///
/// A poll polls the handles in order, up to the first that is ready. Then all are aborted in order, that one too, and
/// all given up. Without handles, and once it has answered, it returns `Closed`.
pub struct SelectOf<O, P> {
    handles: Vec<HandleOf<O, P>>,
}

impl<O, P> Model for SelectOf<O, P> {
    ghost use Rattle.std.specs.Prelude.{List};
    ghost use Rattle.rt_core.specs.declared.handle.Kind.{Kind};

    ghost Value = { List (Kind O P) };

    ghost view = { λ s. s.handles.items };
}

impl<O, P> HandleOf<O, P> {
    /// Makes a poller of what the first ready one of these handles returns.
    pub fn select(handles: Vec<HandleOf<O, P>>) -> SelectOf<O, P>
        ensures { result ≡ handles.items }
    {
        SelectOf { handles }
    }
}

#[tactic(auto, using(rt_world::proofs::Walked::poller_laws))]
impl<T: Outcome, P: Poller<T, T::Output>> Poller<T, T::Output> for SelectOf<T::Output, P> {
    ghost use Rattle.rt_core.specs.Select.{select_polls, lets_go};

    ghost polls = { λ s now task. select_polls (λ state. P.polls state now task) P.spends s };

    ghost spends = { λ s. lets_go P.spends s };

    fn poll<G: Rng>(
        &mut self,
        world: &mut World<T, T::Output, G>,
        cx: &Cx,
    ) -> Poll<Result<T::Output, Error>> {
        let mut place = 0;
        while place < self.handles.len() {
            match self.handles[place].poll(world, cx) {
                Poll::Pending => place += 1,
                Poll::Ready(answer) => {
                    let none = Vec::new(*self.handles.allocator());
                    let handles = mem::replace(&mut self.handles, none);
                    let_go(world, handles);
                    return Poll::Ready(answer);
                }
            }
        }
        if self.handles.is_empty() {
            return Poll::Ready(Err(Error::Closed));
        }
        Poll::Pending
    }

    fn give_up<G: Rng>(self, world: &mut World<T, T::Output, G>) {
        let SelectOf { handles } = self;
        let_go(world, handles);
    }
}

/// Aborts all handles, and then gives all up.
#[tactic(auto, using(rt_world::proofs::Walked::loop_laws))]
pub(crate) fn let_go<T: Outcome, P: Poller<T, T::Output>, G: Rng>(
    world: &mut World<T, T::Output, G>,
    handles: Vec<HandleOf<T::Output, P>>,
)
    requires { MayCall world.old.told.state world.old.out }
    ensures kept { Kept G.stream world.old world.new }
    ensures lacked { world.new.lacked ≡ world.old.lacked }
    ensures steps { Spends (lets_go P.spends handles.items) world.old world.new }
{
    let mut handles = handles;
    abort_all(world, handles.as_mut_slice());
    HandleOf::give_all_up(handles, world);
}

/// Aborts all handles, in their order.
#[tactic(auto, using(rt_world::proofs::Walked::loop_laws))]
pub(crate) fn abort_all<T, O: Drop, P, G: Rng>(
    world: &mut World<T, O, G>,
    handles: &mut [HandleOf<O, P>],
)
    requires { MayCall world.old.told.state world.old.out }
    ensures handles { handles.new ≡ map aborted handles.old }
    ensures kept { Kept G.stream world.old world.new }
    ensures lacked { world.new.lacked ≡ world.old.lacked }
    ensures steps { Spends (each handle_aborts handles.old) world.old world.new }
{
    let mut place = 0;
    while place < handles.len() {
        handles[place].abort(world);
        place += 1;
    }
}
