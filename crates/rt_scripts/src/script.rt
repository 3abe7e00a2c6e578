//! The task type of a scenario.

ghost use Rattle.std.specs.Prelude.{◌≡◌, ◌≢◌, ◌∷◌, ◌+◌, ◌<◌, ◌≤◌, List, length, pos, Ok, Err, Result, IfNone, IfSome, IfOk, OnOk, leb, is_some, slice_get, vec_capacity, vec_len, [], Some, None, ℕ, ℤ};
ghost use Rattle.rt_model.specs.Lists.{find};
ghost use Rattle.rt_model.specs.Rules.{MayCall};
ghost use Rattle.rt_model.specs.Walk.{Last};
ghost use Rattle.rt_world.specs.World.{World as AnyWorld};
ghost use Rattle.rt_model.specs.declared.answer.Answer.TheVariants.{NoMemory as LacksMemory};
ghost use Rattle.rt_base.specs.declared.error.Error.{Error};
ghost use Rattle.rt_base.specs.declared.poll.Poll.TheVariants.{Pending as IsPending};
ghost use Rattle.rt_core.specs.Sleeper.{Sleeper};
ghost use Rattle.rt_world.specs.Calls.{IsPolling, Kept};
ghost use Rattle.rt_world.specs.Walked.{Advanced, Leads, Spends, Spent};
ghost use Rattle.rt_scenario.specs.Within.{IsWithin};
ghost use Rattle.rt_scenario.specs.declared.line.Line.{Line};
ghost use Rattle.rt_scripts.specs.declared.script.Waits.TheVariants.{Chooses};
ghost use Rattle.rt_scripts.specs.Program.{choice_at, line_at, name_at, word_at};
ghost use Rattle.rt_scripts.specs.Script.{Next, Script, started, sleeps, yields, spawns, placed, joins, joins_within, limits, limit_in, left_by, aborts, releases_all, gives_stop_up, stops_waiting, limited, sleep_in, turn_in, aborts_itself, drops, releases, goes_on, passed, loosed, put_back, range_of, waiting, handle_at, signal_at, roomed, refused, value_of};

use crate::Program;
use crate::held::Held;
use crate::holdings::Holdings;
use crate::waited::Waited;
use rt_core::utils::reschedule;
use rt_core::{
    Answer, Context, Cx, Depth, Error, Handle, NoMemory, Outcome, Poll, Poller, Refused,
    Reschedule, Rng, Signal, Sleep, Stop, Task, World,
};
use rt_scenario::Line;
use std::marker::Model;
use std::mem;

/// The value that a name leaves that isn't held, or holds another kind.
pub(crate) const UNHELD: i64 = -99;

/// What a script waits for.
#[derive(Debug, Drop)]
pub enum Waits {
    Nothing,
    Sleeps(Sleep),
    Yields(Reschedule),
    /// Waits for the task of the handle at this place, and at most for this sleep.
    Limits(usize, Sleep),
    /// Waits for the first of the tasks of a choice, which has the names from one place on and before another.
    Chooses(usize, usize),
}

/// A script that runs as a task: it does its lines, one after another, and its end closes its context.
///
/// Contracts see all scripts of its scenario, its own text, the place of the line that it is at, the value of the one
/// before, what it waits for, the stop of its run that is under way, what it holds by the places of the names, and
/// its context.
pub struct Script {
    program: Program,
    script: usize,
    place: usize,
    last: i64,
    waits: Waits,
    // None or one. A token, and so apart from `waits`, which each line drops; and in a block of its own, since a script is moved
    // at each visit.
    stop: Vec<Stop>,
    held: Holdings,
    pub(crate) context: Context,
}

impl Model for Script {
    ghost use Rattle.std.specs.Prelude.{◌≡◌, ◌<◌, ◌≤◌, length, slice_get, vec_len};
    ghost use Rattle.rt_scenario.specs.Texts.{text_at};
    ghost use Rattle.rt_scripts.specs.Script.{Script};

    ghost Value = { Script };

    ghost view = { λ s. record { program = s.program; text = text_at s.program s.script; place = s.place; last = s.last; waits = s.waits; stop = slice_get s.stop.items 0; held = s.held.items; places = s.held.next; context = s.context } };

    ghost invariant = { λ s. (s.held.first ≡ 0) × (s.script < length s.program) × (vec_len s.stop ≤ 1) };
}

impl Outcome for Script {
    type Output = i64;
}

impl Script {
    /// Makes the script at this place of a program, at its first line.
    pub fn new(program: Program, script: usize, context: Context) -> Script
        requires { script < length program }
        ensures { result ≡ started program script context }
    {
        let held = Holdings::new(program.allocator());
        let stop = Vec::new(program.allocator());
        Script {
            program,
            script,
            place: 0,
            last: 0,
            waits: Waits::Nothing,
            stop,
            held,
            context,
        }
    }
}

#[tactic(auto, using(rt_world::proofs::Walked::task_laws))]
impl Script {
    /// Goes past a line, which left this value.
    pub(crate) fn pass(&mut self, value: i64)
        requires { self.old.place < length self.old.text.lines }
        ensures { self.new ≡ passed self.old value }
    {
        // the lines of a script are counted by a `usize`
        let _ = self.program.line_count(self.script);
        self.place += 1;
        self.last = value;
        self.waits = Waits::Nothing;
    }

    /// Goes past a line that was refused. Out of memory it doesn't go on.
    pub(crate) fn refuse(&mut self, error: Error) -> Option<Answer<i64>>
        requires { self.old.place < length self.old.text.lines }
        ensures goes { IfNone result ((error ≢ Error.NoMemory) × (self.new ≡ passed self.old (value_of error))) }
        ensures ends { IfSome result (λ answer. (answer ≡ LacksMemory) × (error ≡ Error.NoMemory) × (self.new ≡ self.old)) }
    {
        let value = match error {
            Error::NoMemory => return Some(Answer::NoMemory),
            Error::Exited => -1,
            Error::Closed => -2,
            Error::Aborted => -3,
            Error::Timeout => -4,
            Error::ClockOverflow => -11,
            Error::UnknownToken => -12,
            Error::TooManyTasks => -13,
            Error::Metric(_) => -14,
            _ => -23,
        };
        self.pass(value);
        None
    }

    /// Sleeps, or begins this sleep. `None`: continue with the next line.
    #[tactic(auto, using(rt_world::proofs::Walked::task_laws), unfolding(crate::specs::Script::sleeps))]
    fn sleep<G: Rng>(
        &mut self,
        world: &mut World<Script, i64, G>,
        cx: &Cx,
        fresh: Result<Sleep, Error>,
    ) -> Option<Answer<i64>>
        requires room { self.old.place < length self.old.text.lines }
        requires polling { IsPolling world.old cx.now.task }
        ensures kept { Kept G.stream world.old world.new }
        ensures place { IfNone result (self.new.place ≡ self.old.place + 1) }
        ensures text { self.new.text ≡ self.old.text }
        ensures steps { (on : Script → Next) → Advanced (sleeps self.old on fresh) (on self.new) world.old world.new result self.new }
    {
        let waits = mem::replace(&mut self.waits, Waits::Nothing);
        let Ok(mut sleep) = sleep_in(waits, fresh) else {
            self.pass(-11);
            return None;
        };
        match Waited::of(sleep.poll(world, cx)) {
            Waited::Pending => {
                self.waits = Waits::Sleeps(sleep);
                Some(Answer::Pending)
            }
            Waited::Over => {
                self.pass(0);
                None
            }
            Waited::NoMemory => Some(Answer::NoMemory),
        }
    }

    /// Gives way once. `None`: continue with the next line.
    #[tactic(auto, using(rt_world::proofs::Walked::task_laws), unfolding(crate::specs::Script::yields))]
    fn give_way<G: Rng>(
        &mut self,
        world: &mut World<Script, i64, G>,
        cx: &Cx,
    ) -> Option<Answer<i64>>
        requires room { self.old.place < length self.old.text.lines }
        requires polling { IsPolling world.old cx.now.task }
        ensures kept { Kept G.stream world.old world.new }
        ensures place { IfNone result (self.new.place ≡ self.old.place + 1) }
        ensures text { self.new.text ≡ self.old.text }
        ensures steps { (on : Script → Next) → Advanced (yields self.old on cx.now.task) (on self.new) world.old world.new result self.new }
    {
        let mut turn = turn_in(mem::replace(&mut self.waits, Waits::Nothing));
        match Waited::of(turn.poll(world, cx)) {
            Waited::Pending => {
                self.waits = Waits::Yields(turn);
                Some(Answer::Pending)
            }
            Waited::Over => {
                self.pass(0);
                None
            }
            Waited::NoMemory => Some(Answer::NoMemory),
        }
    }

    /// Gives up what a name holds.
    pub(crate) fn release<G: Rng>(&mut self, world: &mut World<Script, i64, G>, at: usize)
        requires { MayCall world.old.told.state world.old.out }
        ensures state { self.new ≡ loosed self.old at }
        ensures free { find at self.new.held ≡ None }
        ensures kept { Kept G.stream world.old world.new }
        ensures lacked { world.new.lacked ≡ world.old.lacked }
        ensures steps { Spends (releases (find at self.old.held)) world.old world.new }
    {
        let Some(held) = self.held.take(at as u64) else {
            return;
        };
        held.give_up(world);
    }

    /// Whether a name holds the handle of a task.
    fn holds_handle(&self, at: usize) -> bool
        ensures { result ≡ is_some (handle_at self.now at) }
    {
        matches!(self.held.get(at as u64), Some(Held::Handle(_)))
    }

    /// Takes out the handle that a name holds. Anything else stays.
    pub(crate) fn take_handle(&mut self, at: usize) -> Option<Handle<Script>>
        ensures handle { result ≡ handle_at self.old at }
        ensures taken { IfSome result (λ handle. (self.new ≡ loosed self.old at) × (at < self.old.places) × (find at self.new.held ≡ None)) }
        ensures stays { IfNone result (self.new ≡ self.old) }
    {
        if !self.holds_handle(at) {
            return None;
        }
        match self.held.take(at as u64) {
            Some(Held::Handle(handle)) => Some(handle),
            Some(Held::Signal(_signal)) => unreachable!(),
            None => unreachable!(),
        }
    }

    /// Whether a name holds a signal.
    fn holds_signal(&self, at: usize) -> bool
        ensures { result ≡ is_some (signal_at self.now at) }
    {
        matches!(self.held.get(at as u64), Some(Held::Signal(_)))
    }

    /// Takes out the signal that a name holds. Anything else stays.
    pub(crate) fn take_signal(&mut self, at: usize) -> Option<Signal>
        ensures signal { result ≡ signal_at self.old at }
        ensures taken { IfSome result (λ signal. (self.new ≡ loosed self.old at) × (at < self.old.places) × (find at self.new.held ≡ None)) }
        ensures stays { IfNone result (self.new ≡ self.old) }
    {
        if !self.holds_signal(at) {
            return None;
        }
        match self.held.take(at as u64) {
            Some(Held::Signal(signal)) => Some(signal),
            Some(Held::Handle(_handle)) => unreachable!(),
            None => unreachable!(),
        }
    }

    /// Takes out the stop that is under way, with its room.
    pub(crate) fn take_stop(&mut self) -> Vec<Stop>
        ensures stop { slice_get result.items 0 ≡ self.old.stop }
        ensures few { vec_len result ≤ 1 }
        ensures state { self.new ≡ record self.old { stop = None } }
    {
        let none = Vec::new(self.program.allocator());
        mem::replace(&mut self.stop, none)
    }

    /// Keeps the stop that is under way.
    pub(crate) fn keep_stop(&mut self, stop: Vec<Stop>)
        requires none { self.old.stop ≡ None }
        requires few { vec_len stop ≤ 1 }
        ensures { self.new ≡ record self.old { stop = slice_get stop.items 0 } }
    {
        mem::replace(&mut self.stop, stop).destroy_empty();
    }

    /// The place of the name that a choice takes.
    pub(crate) fn chosen_name(&self, choice: usize) -> usize
        ensures { result ≡ choice_at self.now.text choice }
    {
        self.program.choice(self.script, choice)
    }

    /// The choice that is under way.
    pub(crate) fn choosing(&self) -> Option<(usize, usize)>
        ensures { result ≡ range_of self.now.waits }
    {
        match self.waits {
            Waits::Chooses(first, past) => Some((first, past)),
            _ => None,
        }
    }

    /// Waits for the first of the tasks of a choice.
    pub(crate) fn wait_for_choice(&mut self, first: usize, past: usize)
        ensures { self.new ≡ waiting self.old (Chooses first past) }
    {
        self.waits = Waits::Chooses(first, past);
    }

    /// Keeps this under a name that holds nothing.
    pub(crate) fn keep(&mut self, at: usize, held: Held)
        requires place { at < self.old.places }
        requires free { find at self.old.held ≡ None }
        ensures { self.new ≡ put_back self.old at held }
    {
        self.held.put(at as u64, held);
    }

    /// Whether there is no place yet for what a name holds.
    fn has_no_place(&self, at: usize) -> bool
        ensures { result ≡ leb self.now.places at }
    {
        match self.held.next() {
            Some(next) => next <= at as u64,
            None => false,
        }
    }

    /// Takes a place for what a name holds.
    pub(crate) fn make_room(&mut self, at: usize) -> Result<(), NoMemory>
        ensures state { OnOk result (self.new ≡ roomed self.old at) }
        ensures rest { self.new ≡ record self.old { places = self.new.places } }
    {
        while self.has_no_place(at) {
            self.held.reserve(1)?;
            self.held.skip();
        }
        Ok(())
    }

    /// Takes a place for what a name holds, and another owner of the program.
    fn make_ready(&mut self, at: usize) -> Result<Program, NoMemory>
        ensures state { OnOk result (self.new ≡ roomed self.old at) }
        ensures rest { self.new ≡ record self.old { places = self.new.places } }
        ensures program { IfOk result (λ program. program ≡ self.old.program) }
    {
        self.make_room(at)?;
        self.program.share()
    }

    /// Spawns the script of a place, under this name. `None`: continue with the next line.
    #[tactic(auto, using(rt_world::proofs::Walked::task_laws), unfolding(crate::specs::Script::spawns))]
    fn spawn<G: Rng>(
        &mut self,
        world: &mut World<Script, i64, G>,
        at: usize,
        script: usize,
    ) -> Option<Answer<i64>>
        requires room { self.old.place < length self.old.text.lines }
        requires handle { at < length self.old.text.handles }
        requires script { script < length self.old.program }
        requires calling { MayCall world.old.told.state world.old.out }
        ensures kept { Kept G.stream world.old world.new }
        ensures place { IfNone result (self.new.place ≡ self.old.place + 1) }
        ensures text { self.new.text ≡ self.old.text }
        ensures steps { (on : Script → Next) → Advanced (spawns self.old on at script) (on self.new) world.old world.new result self.new }
    {
        self.release(world, at);
        let Ok(program) = self.make_ready(at) else {
            world.lack();
            return Some(Answer::NoMemory);
        };
        match self
            .context
            .child(world, self.program.handle_name(self.script, at))
        {
            Ok(context) => self.start(world, at, script, program, context),
            Err(error) => self.refuse(error),
        }
    }

    /// Spawns the script of a place on a fresh context, under this name. `None`: continue with the next line.
    fn start<G: Rng>(
        &mut self,
        world: &mut World<Script, i64, G>,
        at: usize,
        script: usize,
        program: Program,
        context: Context,
    ) -> Option<Answer<i64>>
        requires room { self.old.place < length self.old.text.lines }
        requires calling { MayCall world.old.told.state world.old.out }
        requires script { script < length self.old.program }
        requires place { at < self.old.places }
        requires free { find at self.old.held ≡ None }
        requires program { program ≡ self.old.program }
        ensures kept { Kept G.stream world.old world.new }
        ensures place { IfNone result (self.new.place ≡ self.old.place + 1) }
        ensures text { self.new.text ≡ self.old.text }
        ensures steps { (on : Script → Next) → Advanced (placed self.old on at script (Ok context)) (on self.new) world.old world.new result self.new }
    {
        let spawned = context.spawn(
            world,
            |context|
                requires { script < length program }
            { Script::new(program, script, context) },
        );
        match spawned {
            Ok(handle) => {
                self.keep(at, Held::Handle(handle));
                self.pass(0);
                None
            }
            Err(refused) => {
                let Refused { back, error } = refused;
                back.close(world);
                self.refuse(error)
            }
        }
    }

    /// Polls the handle that a name holds. `None`: continue with the next line.
    #[tactic(auto, using(rt_world::proofs::Walked::task_laws), unfolding(crate::specs::Script::joins))]
    fn join<G: Rng>(
        &mut self,
        world: &mut World<Script, i64, G>,
        cx: &Cx,
        at: usize,
    ) -> Option<Answer<i64>>
        requires room { self.old.place < length self.old.text.lines }
        requires polling { IsPolling world.old cx.now.task }
        ensures kept { Kept G.stream world.old world.new }
        ensures place { IfNone result (self.new.place ≡ self.old.place + 1) }
        ensures text { self.new.text ≡ self.old.text }
        ensures steps { (on : Script → Next) → Advanced (joins self.old on at) (on self.new) world.old world.new result self.new }
    {
        let Some(mut handle) = self.take_handle(at) else {
            self.pass(UNHELD);
            return None;
        };
        match handle.poll(world, cx) {
            Poll::Pending => {
                self.keep(at, Held::Handle(handle));
                Some(Answer::Pending)
            }
            Poll::Ready(Ok(value)) => {
                handle.give_up(world);
                self.pass(value);
                None
            }
            Poll::Ready(Err(error)) => {
                handle.give_up(world);
                self.refuse(error)
            }
        }
    }

    /// Polls the handle that a name holds for at most so long. `None`: continue with the next line.
    #[tactic(auto, using(rt_world::proofs::Walked::task_laws), unfolding(crate::specs::Script::joins_within))]
    fn join_within<G: Rng>(
        &mut self,
        world: &mut World<Script, i64, G>,
        cx: &Cx,
        at: usize,
        fresh: Result<Sleep, Error>,
    ) -> Option<Answer<i64>>
        requires room { self.old.place < length self.old.text.lines }
        requires polling { IsPolling world.old cx.now.task }
        ensures kept { Kept G.stream world.old world.new }
        ensures place { IfNone result (self.new.place ≡ self.old.place + 1) }
        ensures text { self.new.text ≡ self.old.text }
        ensures steps { (on : Script → Next) → Advanced (joins_within self.old on at fresh) (on self.new) world.old world.new result self.new }
    {
        let Some(handle) = self.take_handle(at) else {
            self.pass(UNHELD);
            return None;
        };
        match limit_in(mem::replace(&mut self.waits, Waits::Nothing), fresh) {
            Ok(sleep) => self.poll_within(world, cx, at, handle, sleep),
            Err(error) => {
                handle.give_up(world);
                self.refuse(error)
            }
        }
    }

    /// Polls a handle of this name, and then the limit. `None`: continue with the next line.
    #[tactic(auto, using(rt_world::proofs::Walked::task_laws), unfolding(crate::specs::Script::limits))]
    fn poll_within<G: Rng>(
        &mut self,
        world: &mut World<Script, i64, G>,
        cx: &Cx,
        at: usize,
        handle: Handle<Script>,
        sleep: Sleep,
    ) -> Option<Answer<i64>>
        requires room { self.old.place < length self.old.text.lines }
        requires polling { IsPolling world.old cx.now.task }
        requires place { at < self.old.places }
        requires free { find at self.old.held ≡ None }
        ensures kept { Kept G.stream world.old world.new }
        ensures place { IfNone result (self.new.place ≡ self.old.place + 1) }
        ensures text { self.new.text ≡ self.old.text }
        ensures steps { (on : Script → Next) → Advanced (limits self.old on at sleep handle) (on self.new) world.old world.new result self.new }
    {
        let mut handle = handle;
        match handle.poll(world, cx) {
            Poll::Pending => self.poll_limit(world, cx, at, handle, sleep),
            Poll::Ready(Ok(value)) => {
                handle.give_up(world);
                self.pass(value);
                None
            }
            Poll::Ready(Err(error)) => {
                handle.give_up(world);
                self.refuse(error)
            }
        }
    }

    /// Polls the limit of a wait for this handle. `None`: continue with the next line.
    #[tactic(auto, using(rt_world::proofs::Walked::task_laws))]
    fn poll_limit<G: Rng>(
        &mut self,
        world: &mut World<Script, i64, G>,
        cx: &Cx,
        at: usize,
        handle: Handle<Script>,
        sleep: Sleep,
    ) -> Option<Answer<i64>>
        requires room { self.old.place < length self.old.text.lines }
        requires polling { IsPolling world.old cx.now.task }
        requires place { at < self.old.places }
        requires free { find at self.old.held ≡ None }
        ensures kept { Kept G.stream world.old world.new }
        ensures place { IfNone result (self.new.place ≡ self.old.place + 1) }
        ensures text { self.new.text ≡ self.old.text }
        ensures steps { (on : Script → Next) → Advanced (limited self.old on at sleep IsPending handle) (on self.new) world.old world.new result self.new }
    {
        let mut sleep = sleep;
        match Waited::of(sleep.poll(world, cx)) {
            Waited::Pending => {
                self.keep(at, Held::Handle(handle));
                self.waits = Waits::Limits(at, sleep);
                Some(Answer::Pending)
            }
            Waited::Over => {
                handle.give_up(world);
                self.refuse(Error::Timeout)
            }
            Waited::NoMemory => {
                self.keep(at, Held::Handle(handle));
                Some(Answer::NoMemory)
            }
        }
    }

    /// Aborts by the handle that a name holds. The script goes on.
    #[tactic(auto, using(rt_world::proofs::Walked::task_laws), unfolding(crate::specs::Script::aborts))]
    fn abort<G: Rng>(&mut self, world: &mut World<Script, i64, G>, at: usize)
        requires room { self.old.place < length self.old.text.lines }
        requires calling { MayCall world.old.told.state world.old.out }
        ensures kept { Kept G.stream world.old world.new }
        ensures place { self.new.place ≡ self.old.place + 1 }
        ensures text { self.new.text ≡ self.old.text }
        ensures steps { (on : Script → Next) → Leads (aborts self.old on at) (on self.new) world.old world.new }
    {
        let Some(mut handle) = self.take_handle(at) else {
            return self.pass(UNHELD);
        };
        handle.abort(world);
        self.keep(at, Held::Handle(handle));
        self.pass(0);
    }

    /// Gives up the handle that a name holds. The script goes on.
    #[tactic(auto, using(rt_world::proofs::Walked::task_laws), unfolding(crate::specs::Script::drops))]
    fn drop_handle<G: Rng>(&mut self, world: &mut World<Script, i64, G>, at: usize)
        requires room { self.old.place < length self.old.text.lines }
        requires calling { MayCall world.old.told.state world.old.out }
        ensures kept { Kept G.stream world.old world.new }
        ensures place { self.new.place ≡ self.old.place + 1 }
        ensures text { self.new.text ≡ self.old.text }
        ensures steps { (on : Script → Next) → Leads (drops self.old on at) (on self.new) world.old world.new }
    {
        let Some(handle) = self.take_handle(at) else {
            return self.pass(UNHELD);
        };
        handle.give_up(world);
        self.pass(0);
    }

    /// Aborts its own task. `None`: continue with the next line.
    #[tactic(auto, using(rt_world::proofs::Walked::task_laws), unfolding(crate::specs::Script::aborts_itself))]
    fn abort_itself<G: Rng>(
        &mut self,
        world: &mut World<Script, i64, G>,
        cx: &Cx,
    ) -> Option<Answer<i64>>
        requires room { self.old.place < length self.old.text.lines }
        requires polling { IsPolling world.old cx.now.task }
        ensures kept { Kept G.stream world.old world.new }
        ensures place { IfNone result (self.new.place ≡ self.old.place + 1) }
        ensures text { self.new.text ≡ self.old.text }
        ensures steps { (on : Script → Next) → Advanced (aborts_itself self.old on cx.now.task) (on self.new) world.old world.new result self.new }
    {
        match world.abort_task(cx.task()) {
            Ok(()) => {
                self.pass(0);
                None
            }
            Err(error) => self.refuse(error),
        }
    }

    /// Whether the line at a place is a yield: of a line no more than its kind is read.
    fn is_yield(&self, place: usize) -> bool {
        matches!(self.program.line(self.script, place), Some(Line::Yield))
    }

    /// Does the line that the script is at. `None`: continue with the next line.
    #[tactic(auto, using(rt_world::proofs::Walked::task_laws), unfolding(crate::specs::Script::goes_on))]
    fn take_line<G: Rng>(
        &mut self,
        world: &mut World<Script, i64, G>,
        cx: &Cx,
        line: Line,
    ) -> Option<Answer<i64>>
        requires room { self.old.place < length self.old.text.lines }
        requires within { IsWithin (length self.old.program) self.old.text line }
        requires polling { IsPolling world.old cx.now.task }
        ensures kept { Kept G.stream world.old world.new }
        ensures place { IfNone result (self.new.place ≡ self.old.place + 1) }
        ensures text { self.new.text ≡ self.old.text }
        ensures steps { (lines : List Line) → Advanced (goes_on (line ∷ lines) self.old world.old.told.state.clock.time cx.now.task) (goes_on lines self.new world.old.told.state.clock.time cx.now.task) world.old world.new result self.new }
    {
        match line {
            Line::Sleep(duration) => {
                let fresh = self.context.sleep(world, duration);
                self.sleep(world, cx, fresh)
            }
            Line::Until(moment) => {
                let fresh = self.context.sleep_until(moment);
                self.sleep(world, cx, fresh)
            }
            Line::Yield => self.give_way(world, cx),
            Line::Draw => self.draw(world),
            Line::Pend => Some(Answer::Pending),
            Line::End(value) => Some(Answer::Ready(value)),
            Line::EndLast => Some(Answer::Ready(self.last)),
            Line::Panic(word) => match self.program.word(self.script, word) {
                Ok(text) => Some(Answer::Panicked(text)),
                Err(NoMemory) => Some(Answer::NoMemory),
            },
            Line::Spawn(at, script) => self.spawn(world, at, script),
            Line::Join(at) => self.join(world, cx, at),
            Line::Within(at, limit) => {
                let fresh = self.context.sleep(world, limit);
                self.join_within(world, cx, at, fresh)
            }
            Line::AbortSelf => self.abort_itself(world, cx),
            Line::Abort(at) => {
                self.abort(world, at);
                None
            }
            Line::Drop(at) => {
                self.drop_handle(world, at);
                None
            }
            Line::Select(first, past) => self.select(world, cx, first, past),
            Line::Stopped(at) => self.ask_stopped(world, at),
            Line::Wait(at) => self.wait(world, cx, at),
            Line::Stop(value) => self.stop(world, cx, value, None),
            Line::StopWithin(value, limit) => self.stop(world, cx, value, Some(limit)),
        }
    }
}

#[tactic(auto, using(rt_world::proofs::Walked::task_laws))]
impl Task for Script {
    ghost use Rattle.rt_scripts.specs.Script.{script_steps};

    ghost steps = { script_steps };

    fn poll<G: Rng>(&mut self, world: &mut World<Script, i64, G>, cx: &Cx) -> Answer<i64> {
        while let Some(line) = self.program.line(self.script, self.place) {
            // Most answers are pending: of these there is nothing more to copy.
            match self.take_line(world, cx, line) {
                None => {}
                Some(Answer::Pending) => return Answer::Pending,
                Some(answer) => return answer,
            }
        }
        Answer::Ready(0)
    }

    fn end<G: Rng>(self, world: &mut World<Script, i64, G>) {
        let mut script = self;
        script.leave_under_way(world);
        let Script {
            program: _,
            script: _,
            place: _,
            last: _,
            waits,
            stop,
            held,
            context,
        } = script;
        let mut room = stop;
        give_stop_up(world, only_one(&mut room));
        room.destroy_empty();
        let held = stop_waiting(world, waits, held);
        release_all(world, held);
        context.close(world);
    }

    /// Reads its place, its wait and its stop, which are in several lines of the cache; where its lines are; and the
    /// line that comes next with the one after it, since a poll may do both.
    fn touch(&self, depth: Depth) -> usize {
        match depth {
            Depth::State => {
                let goes_on = matches!(self.waits, Waits::Nothing);
                self.place ^ usize::from(goes_on) ^ self.stop.len()
            }
            Depth::Behind => self.program.line_count(self.script),
            Depth::Further => {
                let next = self.place.wrapping_add(1);
                usize::from(self.is_yield(self.place)) ^ usize::from(self.is_yield(next))
            }
        }
    }
}

/// The sleep under way, or this one.
fn sleep_in(waits: Waits, fresh: Result<Sleep, Error>) -> Result<Sleep, Error>
    ensures { result ≡ sleep_in waits fresh }
{
    match waits {
        Waits::Sleeps(sleep) => Ok(sleep),
        _ => fresh,
    }
}

/// The limit under way, or this one.
fn limit_in(waits: Waits, fresh: Result<Sleep, Error>) -> Result<Sleep, Error>
    ensures { result ≡ limit_in waits fresh }
{
    match waits {
        Waits::Limits(_, sleep) => Ok(sleep),
        _ => fresh,
    }
}

/// The turn of the others under way, or a new one.
fn turn_in(waits: Waits) -> Reschedule
    ensures { result ≡ turn_in waits }
{
    match waits {
        Waits::Yields(turn) => turn,
        _ => reschedule(),
    }
}

/// Takes out the stop that is in its room.
pub(crate) fn only_one(room: &mut Vec<Stop>) -> Option<Stop>
    requires { vec_len room.old ≤ 1 }
    ensures stop { result ≡ slice_get room.old.items 0 }
    ensures empty { room.new.items ≡ [] }
    ensures fits { IfSome result (λ stop. 1 ≤ vec_capacity room.new) }
{
    room.pop()
}

/// Gives up the stop that is under way.
#[tactic(auto, using(rt_world::proofs::Walked::task_laws))]
fn give_stop_up<G: Rng>(world: &mut World<Script, i64, G>, stop: Option<Stop>)
    requires { MayCall world.old.told.state world.old.out }
    ensures kept { Kept G.stream world.old world.new }
    ensures lacked { world.new.lacked ≡ world.old.lacked }
    ensures steps { Spends (gives_stop_up stop) world.old world.new }
{
    if let Some(stop) = stop {
        stop.give_up(world);
    }
}

/// Gives up what it waits for. Returns what is left of what the names hold.
#[tactic(auto, using(rt_world::proofs::Walked::task_laws))]
fn stop_waiting<G: Rng>(world: &mut World<Script, i64, G>, waits: Waits, held: Holdings) -> Holdings
    requires { MayCall world.old.told.state world.old.out }
    ensures left { result.items ≡ left_by waits held.items }
    ensures first { result.first ≡ held.first }
    ensures kept { Kept G.stream world.old world.new }
    ensures lacked { world.new.lacked ≡ world.old.lacked }
    ensures steps { Spends (stops_waiting waits held.items) world.old world.new }
{
    let mut held = held;
    match waits {
        Waits::Nothing => {}
        Waits::Sleeps(sleep) => sleep.give_up(world),
        Waits::Yields(turn) => turn.give_up(world),
        Waits::Chooses(_, _) => {}
        Waits::Limits(at, _) => {
            if let Some(one) = held.take(at as u64) {
                one.give_up(world);
            }
        }
    }
    held
}

/// Gives up all that names hold, in order of the names.
#[tactic(auto, using(rt_world::proofs::Walked::loop_laws))]
fn release_all<G: Rng>(world: &mut World<Script, i64, G>, held: Holdings)
    requires { MayCall world.old.told.state world.old.out }
    ensures kept { Kept G.stream world.old world.new }
    ensures lacked { world.new.lacked ≡ world.old.lacked }
    ensures steps { (next : Last Script ℤ) (end : AnyWorld Script ℤ G) → Spent next world.new end → Spent (releases_all held.items next) world.old end }
{
    let mut held = held;
    while let Some(at) = held.ends_next() {
        let Some(one) = held.take(at) else {
            unreachable!();
        };
        one.give_up(world);
    }
    held.destroy_empty();
}
