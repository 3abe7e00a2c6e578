//! The line of a script that waits for the first of several tasks.

ghost use Rattle.std.specs.Prelude.{◌≡◌, ◌+◌, ◌<◌, length, IfNone};
ghost use Rattle.rt_model.specs.Rules.{MayCall};
ghost use Rattle.rt_world.specs.Calls.{IsPolling, Kept};
ghost use Rattle.rt_world.specs.Walked.{Advanced, Goes, Spends};
ghost use Rattle.rt_scripts.specs.Program.{choices_in};
ghost use Rattle.rt_scripts.specs.Script.{Next, Script, Tries, aborted_at, aborted_in, aborts_chosen, aborts_of, choice_in, chooses, freed_of, goes_choosing, handle_at, leaves_choice, polls_choice, polls_chosen, polls_name, range_of, releases_chosen, unchosen};

use crate::Script;
use crate::held::Held;
use crate::script::UNHELD;
use rt_core::{Answer, Cx, Error, Poll, Poller, Rng, World};

#[tactic(auto, using(rt_world::proofs::Walked::task_laws))]
impl Script {
    /// Goes on with the choice under way, or begins one among these names. `None`: continue with the next line.
    #[tactic(auto, using(rt_world::proofs::Walked::task_laws), unfolding(crate::specs::Script::chooses))]
    pub(crate) fn select<G: Rng>(
        &mut self,
        world: &mut World<Script, i64, G>,
        cx: &Cx,
        first: usize,
        past: usize,
    ) -> Option<Answer<i64>>
        requires room { self.old.place < length self.old.text.lines }
        requires polling { IsPolling world.old cx.now.task }
        ensures kept { Kept G.stream world.old world.new }
        ensures place { IfNone result (self.new.place ≡ self.old.place + 1) }
        ensures text { self.new.text ≡ self.old.text }
        ensures steps { (on : Script → Next) → Advanced (chooses self.old on first past) (on self.new) world.old world.new result self.new }
    {
        if let Some((first, past)) = self.choosing() {
            return self.choose(world, cx, first, past);
        }
        if !self.hold_handles(first, past) {
            self.pass(UNHELD);
            return None;
        }
        self.choose(world, cx, first, past)
    }

    /// Goes on with a choice. `None`: continue with the next line.
    #[tactic(auto, using(rt_world::proofs::Walked::task_laws), unfolding(crate::specs::Script::goes_choosing))]
    fn choose<G: Rng>(
        &mut self,
        world: &mut World<Script, i64, G>,
        cx: &Cx,
        first: usize,
        past: usize,
    ) -> Option<Answer<i64>>
        requires room { self.old.place < length self.old.text.lines }
        requires polling { IsPolling world.old cx.now.task }
        ensures kept { Kept G.stream world.old world.new }
        ensures place { IfNone result (self.new.place ≡ self.old.place + 1) }
        ensures text { self.new.text ≡ self.old.text }
        ensures steps { (on : Script → Next) → Advanced (goes_choosing self.old on first past) (on self.new) world.old world.new result self.new }
    {
        match self.poll_choice(world, cx, first, past) {
            Poll::Pending => {
                self.wait_for_choice(first, past);
                Some(Answer::Pending)
            }
            Poll::Ready(Ok(value)) => {
                self.pass(value);
                None
            }
            Poll::Ready(Err(error)) => self.refuse(error),
        }
    }

    /// Polls the handles of these names, and lets them all go where one is ready.
    #[tactic(auto, using(rt_world::proofs::Walked::poller_laws))]
    fn poll_choice<G: Rng>(
        &mut self,
        world: &mut World<Script, i64, G>,
        cx: &Cx,
        first: usize,
        past: usize,
    ) -> Poll<Result<i64, Error>>
        requires polling { IsPolling world.old cx.now.task }
        ensures kept { Kept G.stream world.old world.new }
        ensures rest { self.new ≡ record self.old { held = self.new.held } }
        ensures steps { Goes (polls_choice (choices_in self.old.text first past) self.old) world.old world.new result self.new }
    {
        match self.poll_chosen(world, cx, first, past) {
            Poll::Pending => Poll::Pending,
            Poll::Ready(answer) => {
                self.leave_choice(world, first, past);
                Poll::Ready(answer)
            }
        }
    }

    /// Whether these names differ and all hold handles. Each handle is taken out and put back.
    fn hold_handles(&mut self, first: usize, past: usize) -> bool
        ensures { Tries (choices_in self.old.text first past) self.old result self.new }
    {
        if first >= past {
            return true;
        }
        let at = self.chosen_name(first);
        let Some(handle) = self.take_handle(at) else {
            return false;
        };
        let all = self.hold_handles(first + 1, past);
        self.keep(at, Held::Handle(handle));
        all
    }

    /// Polls the handles of these names in order, up to the first that is ready.
    #[tactic(auto, using(rt_world::proofs::Walked::poller_laws))]
    fn poll_chosen<G: Rng>(
        &mut self,
        world: &mut World<Script, i64, G>,
        cx: &Cx,
        first: usize,
        past: usize,
    ) -> Poll<Result<i64, Error>>
        requires polling { IsPolling world.old cx.now.task }
        ensures kept { Kept G.stream world.old world.new }
        ensures rest { self.new ≡ record self.old { held = self.new.held } }
        ensures steps { Goes (polls_chosen (choices_in self.old.text first past) self.old) world.old world.new result self.new }
    {
        if first >= past {
            return Poll::Pending;
        }
        match self.poll_name(world, cx, self.chosen_name(first)) {
            Poll::Pending => self.poll_chosen(world, cx, first + 1, past),
            ready => ready,
        }
    }

    /// Polls the handle that a name holds, which stays.
    #[tactic(auto, using(rt_world::proofs::Walked::poller_laws), unfolding(crate::specs::Script::polls_name))]
    fn poll_name<G: Rng>(
        &mut self,
        world: &mut World<Script, i64, G>,
        cx: &Cx,
        at: usize,
    ) -> Poll<Result<i64, Error>>
        requires polling { IsPolling world.old cx.now.task }
        ensures kept { Kept G.stream world.old world.new }
        ensures rest { self.new ≡ record self.old { held = self.new.held } }
        ensures steps { Goes (polls_name self.old at (handle_at self.old at)) world.old world.new result self.new }
    {
        let Some(mut handle) = self.take_handle(at) else {
            return Poll::Pending;
        };
        let told = handle.poll(world, cx);
        self.keep(at, Held::Handle(handle));
        told
    }

    /// Leaves the choice that is under way, if there is one.
    pub(crate) fn leave_under_way<G: Rng>(&mut self, world: &mut World<Script, i64, G>)
        requires { MayCall world.old.told.state world.old.out }
        ensures state { self.new ≡ unchosen (choice_in self.old.text (range_of self.old.waits)) self.old }
        ensures kept { Kept G.stream world.old world.new }
        ensures lacked { world.new.lacked ≡ world.old.lacked }
        ensures steps { Spends (leaves_choice (choice_in self.old.text (range_of self.old.waits)) self.old.held) world.old world.new }
    {
        if let Some((first, past)) = self.choosing() {
            self.leave_choice(world, first, past);
        }
    }

    /// Aborts the tasks of these names, and then gives their handles up.
    fn leave_choice<G: Rng>(&mut self, world: &mut World<Script, i64, G>, first: usize, past: usize)
        requires { MayCall world.old.told.state world.old.out }
        ensures state { self.new ≡ unchosen (choices_in self.old.text first past) self.old }
        ensures kept { Kept G.stream world.old world.new }
        ensures lacked { world.new.lacked ≡ world.old.lacked }
        ensures steps { Spends (leaves_choice (choices_in self.old.text first past) self.old.held) world.old world.new }
    {
        self.abort_chosen(world, first, past);
        self.release_chosen(world, first, past);
    }

    /// Aborts the tasks of these names, in order.
    fn abort_chosen<G: Rng>(&mut self, world: &mut World<Script, i64, G>, first: usize, past: usize)
        requires { MayCall world.old.told.state world.old.out }
        ensures state { self.new ≡ record self.old { held = aborted_in (choices_in self.old.text first past) self.old.held } }
        ensures kept { Kept G.stream world.old world.new }
        ensures lacked { world.new.lacked ≡ world.old.lacked }
        ensures steps { Spends (aborts_chosen (choices_in self.old.text first past) self.old.held) world.old world.new }
    {
        if first >= past {
            return;
        }
        self.abort_name(world, self.chosen_name(first));
        self.abort_chosen(world, first + 1, past);
    }

    /// Aborts by the handle that a name holds, which stays.
    fn abort_name<G: Rng>(&mut self, world: &mut World<Script, i64, G>, at: usize)
        requires { MayCall world.old.told.state world.old.out }
        ensures state { self.new ≡ record self.old { held = aborted_at at (handle_at self.old at) self.old.held } }
        ensures kept { Kept G.stream world.old world.new }
        ensures lacked { world.new.lacked ≡ world.old.lacked }
        ensures steps { Spends (aborts_of (handle_at self.old at)) world.old world.new }
    {
        let Some(mut handle) = self.take_handle(at) else {
            return;
        };
        handle.abort(world);
        self.keep(at, Held::Handle(handle));
    }

    /// Gives up what these names hold, in order.
    fn release_chosen<G: Rng>(
        &mut self,
        world: &mut World<Script, i64, G>,
        first: usize,
        past: usize,
    )
        requires { MayCall world.old.told.state world.old.out }
        ensures state { self.new ≡ record self.old { held = freed_of (choices_in self.old.text first past) self.old.held } }
        ensures kept { Kept G.stream world.old world.new }
        ensures lacked { world.new.lacked ≡ world.old.lacked }
        ensures steps { Spends (releases_chosen (choices_in self.old.text first past) self.old.held) world.old world.new }
    {
        if first >= past {
            return;
        }
        self.release(world, self.chosen_name(first));
        self.release_chosen(world, first + 1, past);
    }
}
