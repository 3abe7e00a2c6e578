//! The lines of a script on the shutdown of its run.

ghost use Rattle.std.specs.Prelude.{◌≡◌, ◌+◌, ◌<◌, ◌≤◌, [], length, vec_capacity, IfNone, None, Ok};
ghost use Rattle.rt_model.specs.Rules.{MayCall};
ghost use Rattle.rt_world.specs.Calls.{IsPolling, Kept};
ghost use Rattle.rt_world.specs.Walked.{Advanced};
ghost use Rattle.rt_scripts.specs.Script.{Next, Script, asks, awaits, stop_goes, stops};

use crate::Script;
use crate::held::Held;
use crate::script::{UNHELD, only_one};
use rt_core::{Answer, Cx, Nanos, Poll, Poller, Rng, Stop, World};

#[tactic(auto, using(rt_world::proofs::Walked::task_laws))]
impl Script {
    /// Keeps a signal of the shutdown under a name. `None`: continue with the next line.
    #[tactic(auto, using(rt_world::proofs::Walked::task_laws), unfolding(crate::specs::Script::asks))]
    pub(crate) fn ask_stopped<G: Rng>(
        &mut self,
        world: &mut World<Script, i64, G>,
        at: usize,
    ) -> Option<Answer<i64>>
        requires room { self.old.place < length self.old.text.lines }
        requires calling { MayCall world.old.told.state world.old.out }
        ensures kept { Kept G.stream world.old world.new }
        ensures place { IfNone result (self.new.place ≡ self.old.place + 1) }
        ensures text { self.new.text ≡ self.old.text }
        ensures steps { (on : Script → Next) → Advanced (asks self.old on at) (on self.new) world.old world.new result self.new }
    {
        self.release(world, at);
        let Ok(()) = self.make_room(at) else {
            world.lack();
            return Some(Answer::NoMemory);
        };
        match self.context.stopped(world) {
            Ok(signal) => {
                self.keep(at, Held::Signal(signal));
                self.pass(0);
                None
            }
            Err(error) => self.refuse(error),
        }
    }

    /// Polls the signal that a name holds, which stays. `None`: continue with the next line.
    #[tactic(auto, using(rt_world::proofs::Walked::task_laws), unfolding(crate::specs::Script::awaits))]
    pub(crate) fn wait<G: Rng>(
        &mut self,
        world: &mut World<Script, i64, G>,
        cx: &Cx,
        at: usize,
    ) -> Option<Answer<i64>>
        requires room { self.old.place < length self.old.text.lines }
        requires polling { IsPolling world.old cx.now.task }
        ensures kept { Kept G.stream world.old world.new }
        ensures place { IfNone result (self.new.place ≡ self.old.place + 1) }
        ensures text { self.new.text ≡ self.old.text }
        ensures steps { (on : Script → Next) → Advanced (awaits self.old on at) (on self.new) world.old world.new result self.new }
    {
        let Some(mut signal) = self.take_signal(at) else {
            self.pass(UNHELD);
            return None;
        };
        let shown = signal.poll(world, cx);
        self.keep(at, Held::Signal(signal));
        match shown {
            Poll::Pending => Some(Answer::Pending),
            Poll::Ready(Ok(value)) => {
                self.pass(value as i64);
                None
            }
            Poll::Ready(Err(error)) => self.refuse(error),
        }
    }

    /// Goes on with the stop under way, or begins one. `None`: continue with the next line.
    #[tactic(auto, using(rt_world::proofs::Walked::task_laws), unfolding(crate::specs::Script::stops))]
    pub(crate) fn stop<G: Rng>(
        &mut self,
        world: &mut World<Script, i64, G>,
        cx: &Cx,
        value: i32,
        limit: Option<Nanos>,
    ) -> Option<Answer<i64>>
        requires room { self.old.place < length self.old.text.lines }
        requires polling { IsPolling world.old cx.now.task }
        ensures kept { Kept G.stream world.old world.new }
        ensures place { IfNone result (self.new.place ≡ self.old.place + 1) }
        ensures text { self.new.text ≡ self.old.text }
        ensures steps { (on : Script → Next) → Advanced (stops self.old on value limit world.old.told.state.clock.time cx.now.task) (on self.new) world.old world.new result self.new }
    {
        let mut room = self.take_stop();
        if let Some(stop) = only_one(&mut room) {
            return self.poll_stop(world, cx, stop, room);
        }
        if room.reserve(1).is_err() {
            room.destroy_empty();
            world.lack();
            return Some(Answer::NoMemory);
        }
        match self.context.child(world, "stop") {
            Ok(context) => self.poll_stop(world, cx, context.stop(value, limit), room),
            Err(error) => {
                room.destroy_empty();
                self.refuse(error)
            }
        }
    }

    /// Polls a stop, which stays in this room where it is pending. `None`: continue with the next line.
    #[tactic(auto, using(rt_world::proofs::Walked::task_laws), unfolding(crate::specs::Script::stop_goes))]
    fn poll_stop<G: Rng>(
        &mut self,
        world: &mut World<Script, i64, G>,
        cx: &Cx,
        stop: Stop,
        room: Vec<Stop>,
    ) -> Option<Answer<i64>>
        requires empty { room.items ≡ [] }
        requires fits { 1 ≤ vec_capacity room }
        requires room { self.old.place < length self.old.text.lines }
        requires polling { IsPolling world.old cx.now.task }
        requires free { self.old.stop ≡ None }
        ensures kept { Kept G.stream world.old world.new }
        ensures place { IfNone result (self.new.place ≡ self.old.place + 1) }
        ensures text { self.new.text ≡ self.old.text }
        ensures steps { (on : Script → Next) → Advanced (stop_goes self.old on world.old.told.state.clock.time cx.now.task stop) (on self.new) world.old world.new result self.new }
    {
        let mut stop = stop;
        match stop.poll(world, cx) {
            Poll::Pending => {
                let mut room = room;
                room.push_reserved(stop);
                self.keep_stop(room);
                Some(Answer::Pending)
            }
            Poll::Ready(Ok(())) => {
                room.destroy_empty();
                stop.give_up(world);
                self.pass(0);
                None
            }
            Poll::Ready(Err(error)) => {
                room.destroy_empty();
                stop.give_up(world);
                self.refuse(error)
            }
        }
    }
}
