// Each call once. Whole runs of task types of one's own are those of `rt_errand_tests`.

ghost use Rattle.std.specs.Prelude.{◌≡◌};
ghost use Rattle.rt_core.specs.Pollers.{until};

use crate::calls::{Part, are_made};
use crate::told::{fails, holds};
use rand_chacha::ChaCha12Rng;
use rt_audit::FinishCause;
use rt_core::utils::reschedule;
use rt_core::{
    Answer, Config, ConfigError, Context, Cx, Failure, Finished, Handle, HandleOf, MAX_TIME, Nanos,
    NoMemory, Outcome, Poller, Rng, RootMaker, Runner, Sleep, Task, Timeout, World,
};
use std::alloc::Global;
use std::test::Fail;

/// A task that is ready at once, or polls a sleep and a turn of the others and breaks off then.
pub struct Probe {
    pub context: Context,
    pub calls: bool,
}

impl Outcome for Probe {
    type Output = u64;
}

#[tactic(auto, using(rt_world::proofs::Walked::task_laws), unfolding(rt_core::specs::Pollers::sleep_until))]
impl Task for Probe {
    ghost use Rattle.std.specs.Prelude.{if◌then◌else◌};
    ghost use Rattle.rt_model.specs.declared.answer.Answer.TheVariants.{Ready, NoMemory as LacksMemory};
    ghost use Rattle.rt_model.specs.Walk.{Gives, then, followed_by};
    ghost use Rattle.rt_core.specs.Pollers.{until, sleep_polls, sleep_spends, reschedule_polls, reschedule_spends, unqueued, closes};

    ghost steps = { record { next = λ probe now task. if probe.calls then (then) (sleep_polls (until 5)) (λ slept sleep. followed_by (sleep_spends sleep) ((then) (reschedule_polls unqueued task) (λ turned turn. followed_by (reschedule_spends turn) (Gives LacksMemory probe)))) else Gives (Ready 7) probe; last = λ probe now task. closes probe.context.node } };

    fn poll<G: Rng>(&mut self, world: &mut World<Self, u64, G>, cx: &Cx) -> Answer<u64> {
        if !self.calls {
            return Answer::Ready(7);
        }
        let Ok(mut sleep) = self.context.sleep_until(5) else {
            return Answer::NoMemory;
        };
        drop(sleep.poll(world, cx));
        sleep.give_up(world);
        let mut turn = reschedule();
        drop(turn.poll(world, cx));
        turn.give_up(world);
        Answer::NoMemory
    }

    fn end<G: Rng>(self, world: &mut World<Self, u64, G>) {
        let Probe { context, calls: _ } = self;
        context.close(world);
    }
}

/// Makes a probe, or closes its context and makes none.
#[derive(Clone, Copy)]
struct RootProbe {
    makes: bool,
    calls: bool,
}

#[tactic(auto, using(rt_world::proofs::Walked::maker_laws))]
impl RootMaker<Probe> for RootProbe {
    ghost use Rattle.std.specs.Prelude.{if◌then◌else◌};
    ghost use Rattle.rt_audit.specs.declared.call.Call.TheVariants.{CloseNode};
    ghost use Rattle.rt_model.specs.Turns.{Plainly};
    ghost use Rattle.rt_model.specs.Walk.{Gives, Spends};
    ghost use Rattle.rt_core.specs.Contexts.{root_context};

    ghost first = { λ maker now. if maker.makes then Gives tt (record { context = root_context; calls = maker.calls }) else Spends (Plainly (CloseNode 0)) (Gives tt (record { context = root_context; calls = maker.calls })) };

    fn make<G: Rng>(
        self,
        context: Context,
        world: &mut World<Probe, u64, G>,
    ) -> Result<Probe, NoMemory> {
        if !self.makes {
            context.close(world);
            return Err(NoMemory);
        }
        Ok(Probe {
            context,
            calls: self.calls,
        })
    }
}

/// A sleep that ends at 5 ms.
#[tactic(auto, unfolding(rt_core::specs::Pollers::sleep_until))]
fn five_millis(context: &Context) -> Sleep
    ensures { result ≡ until 5000000 }
{
    let Ok(sleep) = context.sleep_until(5_000_000) else {
        unreachable!();
    };
    sleep
}

/// A task that at each poll polls two sleeps and queues itself twice, and is never ready.
struct Juggler {
    context: Context,
    first: Sleep,
    second: Sleep,
}

impl Outcome for Juggler {
    type Output = u64;
}

#[tactic(auto, using(rt_world::proofs::Walked::task_laws))]
impl Task for Juggler {
    ghost use Rattle.rt_model.specs.declared.answer.Answer.TheVariants.{Pending};
    ghost use Rattle.rt_model.specs.Walk.{Gives, then, followed_by};
    ghost use Rattle.rt_core.specs.Pollers.{sleep_polls, sleep_spends, reschedule_polls, unqueued, closes};

    ghost steps = { record { next = λ j now task. then (sleep_polls j.first) (λ one first. then (sleep_polls j.second) (λ two second. then (reschedule_polls unqueued task) (λ three turn. then (reschedule_polls unqueued task) (λ four again. Gives Pending (record { context = j.context; first = first; second = second }))))); last = λ j now task. followed_by (sleep_spends j.first) (followed_by (sleep_spends j.second) (closes j.context.node)) } };

    fn poll<G: Rng>(&mut self, world: &mut World<Self, u64, G>, cx: &Cx) -> Answer<u64> {
        drop(self.first.poll(world, cx));
        drop(self.second.poll(world, cx));
        drop(reschedule().poll(world, cx));
        drop(reschedule().poll(world, cx));
        Answer::Pending
    }

    fn end<G: Rng>(self, world: &mut World<Self, u64, G>) {
        let Juggler {
            context,
            first,
            second,
        } = self;
        first.give_up(world);
        second.give_up(world);
        context.close(world);
    }
}

/// Makes a juggler whose sleeps end at 5 ms.
#[derive(Clone, Copy)]
struct RootJuggler;

#[tactic(auto, using(rt_world::proofs::Walked::maker_laws))]
impl RootMaker<Juggler> for RootJuggler {
    ghost use Rattle.rt_model.specs.Walk.{Gives};
    ghost use Rattle.rt_core.specs.Pollers.{until};
    ghost use Rattle.rt_core.specs.Contexts.{root_context};

    ghost first = { λ maker now. Gives tt (record { context = root_context; first = until 5000000; second = until 5000000 }) };

    fn make<G: Rng>(
        self,
        context: Context,
        _world: &mut World<Juggler, u64, G>,
    ) -> Result<Juggler, NoMemory> {
        let first = five_millis(&context);
        let second = five_millis(&context);
        Ok(Juggler {
            context,
            first,
            second,
        })
    }
}

/// A task that at each poll polls a handle of a sleep under a limit, and is never ready.
struct Hasty {
    context: Context,
    waits: Handle<Hasty, Timeout<Sleep>>,
}

impl Outcome for Hasty {
    type Output = ();
}

#[tactic(auto, using(rt_world::proofs::Walked::task_laws))]
impl Task for Hasty {
    ghost use Rattle.rt_model.specs.declared.answer.Answer.TheVariants.{Pending};
    ghost use Rattle.rt_model.specs.Walk.{Gives, then, followed_by};
    ghost use Rattle.rt_core.specs.Handles.{handle_polls, handle_spends};
    ghost use Rattle.rt_core.specs.Pollers.{sleep_polls, sleep_spends, closes};
    ghost use Rattle.rt_core.specs.Timeouts.{timeout_polls, timeout_spends};

    ghost steps = { record { next = λ h now task. then (handle_polls (λ limit. timeout_polls (λ sleep now task. sleep_polls sleep) limit now task) h.waits) (λ answer waits. Gives Pending (record { context = h.context; waits = waits })); last = λ h now task. followed_by (handle_spends (timeout_spends sleep_spends) h.waits) (closes h.context.node) } };

    fn poll<G: Rng>(&mut self, world: &mut World<Self, (), G>, cx: &Cx) -> Answer<()> {
        drop(self.waits.poll(world, cx));
        Answer::Pending
    }

    fn end<G: Rng>(self, world: &mut World<Self, (), G>) {
        let Hasty { context, waits } = self;
        waits.give_up(world);
        context.close(world);
    }
}

/// Makes a task whose sleep ends at 5 ms, and its limit 3 ms after its first poll. Its handle was guarded before.
#[derive(Clone, Copy)]
struct RootHasty;

#[tactic(auto, using(rt_world::proofs::Walked::maker_laws))]
impl RootMaker<Hasty> for RootHasty {
    ghost use Rattle.std.specs.Prelude.{None};
    ghost use Rattle.rt_model.specs.Walk.{Gives};
    ghost use Rattle.rt_core.specs.Handles.{polled_handle};
    ghost use Rattle.rt_core.specs.Pollers.{until};
    ghost use Rattle.rt_core.specs.Contexts.{root_context};

    ghost first = { λ maker now. Gives tt (record { context = root_context; waits = polled_handle (record { state = until 5000000; duration = 3000000; sleep = None }) }) };

    fn make<G: Rng>(
        self,
        context: Context,
        _world: &mut World<Hasty, (), G>,
    ) -> Result<Hasty, NoMemory> {
        let limit = context.timeout(3_000_000, five_millis(&context));
        let waits = HandleOf::from_future(limit).abort_on_drop().join();
        Ok(Hasty { context, waits })
    }
}

/// A probe that makes its calls, or is ready at once.
fn probing(calls: bool) -> RootProbe {
    RootProbe { makes: true, calls }
}

/// A poll that breaks off keeps its calls, and is cleaned up.
const BREAKS_OFF: &str = "\
start 0 - 1000000 0; root 0; round 0
visit 0; event process_task 00000000000000000000000000000000 -; call 0 sleep-poll 5 -> pending 0; call 0 wake 0 -> ok
wake 0; answer 0 nomemory; cleanup; nodeend 0; call 0 close-node 0 -> ok; answer 0 ended; crash; finish nomemory
";

/// A maker that makes no root is cleaned up too.
const UNMADE: &str = "\
start 0 - 1000000 0; call - close-node 0 -> ok; cleanup; nodeend 0; crash; finish nomemory
";

/// A task that is queued twice is visited twice, and its sleeps keep their alarms.
const VISITED_TWICE: &str = "\
start 0 2000000 1000000 0; root 0; round 0
visit 0; event process_task 00000000000000000000000000000000 -; call 0 sleep-poll 5000000 -> pending 0
call 0 sleep-poll 5000000 -> pending 1; call 0 wake 0 -> ok; wake 0; call 0 wake 0 -> ok; wake 0; answer 0 pending
advance 1000000; draw 9713269763989775522; round 0 0
visit 0; event process_task 00000000000000000000000000000000 -; call 0 sleep-poll 5000000 -> pending 0
call 0 sleep-poll 5000000 -> pending 1; call 0 wake 0 -> ok; wake 0; call 0 wake 0 -> ok; wake 0; answer 0 pending
visit 0; event process_task 00000000000000000000000000000000 -; call 0 sleep-poll 5000000 -> pending 0
call 0 sleep-poll 5000000 -> pending 1; call 0 wake 0 -> ok; wake 0; call 0 wake 0 -> ok; wake 0; answer 0 pending
advance 2000000; cleanup; nodeend 0; call 0 close-node 0 -> ok; answer 0 ended; crash; finish timeout
";

/// A limit is polled where its state isn't ready, and is over in time, and its handle polls it no more then.
const LIMITED: &str = "\
start 0 - 1000000 0; root 0; round 0
visit 0; event process_task 00000000000000000000000000000000 -; call 0 sleep-poll 5000000 -> pending 0
call 0 sleep-poll 3000000 -> pending 1; answer 0 pending
advance 1000000; skip 3000000; fire 1; wake 0; round 0
visit 0; event process_task 00000000000000000000000000000000 -; call 0 sleep-poll 5000000 -> pending 0
call 0 sleep-poll 3000000 -> ready; answer 0 pending
advance 4000000; skip 5000000; fire 0; wake 0; round 0
visit 0; event process_task 00000000000000000000000000000000 -; answer 0 pending
advance 6000000; cleanup; nodeend 0; call 0 close-node 0 -> ok; answer 0 ended; crash; finish stalled
";

/// Whether a poll that breaks off, and a maker that makes no root, are cleaned up.
fn breaks_off(alloc: Global) -> bool {
    let unmade = RootProbe {
        makes: false,
        calls: false,
    };
    let cause = FinishCause::NoMemory;
    fails::<Probe, RootProbe>(alloc, Runner::default(), probing(true), cause, BREAKS_OFF)
        && fails::<Probe, RootProbe>(alloc, Runner::default(), unmade, cause, UNMADE)
}

/// Whether a task is visited as often as it is queued, up to the end of its time.
fn visits_twice(alloc: Global) -> bool {
    let Ok(runner) = Runner::timed(2_000_000) else {
        return false;
    };
    let cause = FinishCause::Timeout;
    fails::<Juggler, RootJuggler>(alloc, runner, RootJuggler, cause, VISITED_TWICE)
}

/// Whether a limit ends where it should.
fn limits(alloc: Global) -> bool {
    let cause = FinishCause::Stalled;
    fails::<Hasty, RootHasty>(alloc, Runner::default(), RootHasty, cause, LIMITED)
}

fn is_seven(answer: Result<u64, Failure>) -> bool {
    let is = matches!(&answer, Ok(7));
    drop(answer);
    is
}

/// Whether a run with a timeout completes.
fn starts(alloc: Global) -> bool {
    match Runner::timed(5) {
        Ok(timed) => is_seven(timed.start::<Probe, RootProbe>(alloc, probing(false))),
        Err(_refusal) => false,
    }
}

/// Whether a run left its output, its time and its journal.
fn is_left(finished: Finished<u64, ChaCha12Rng>) -> bool {
    let Finished { output, checkpoint } = finished;
    let time = checkpoint.time();
    let entries = checkpoint.journal().len();
    let told = checkpoint.auditor() == checkpoint.journal().auditor();
    output == 7 && time == 0 && told && checkpoint.into_journal().len() == entries
}

/// Whether a run completes, and leaves what it should.
fn recovers(alloc: Global) -> bool {
    let run = Runner::default().start_and_recover::<Probe, RootProbe>(alloc, probing(false));
    match run {
        Ok(finished) => is_left(finished),
        Err(_failure) => false,
    }
}

/// Whether settings are kept and tested.
fn keeps_settings() -> bool {
    let config = Config::default()
        .with_cycle(2)
        .with_start_time(3)
        .with_timeout(Some(4));
    let kept = config.cycle() == 2 && config.start_time() == 3 && config.timeout() == Some(4);
    let catches_none = !config.catch_panics();
    let catching = config.with_catch_panics(true);
    let catches = catches_none && catching.catch_panics();
    let late = catching.with_timeout(Some(MAX_TIME));
    kept && catches
        && late.assert() == Err(ConfigError::DeadlineTooLate)
        && Runner::new(Config::new()).is_ok()
}

#[test]
fn surface(rt: HostRuntime) -> Result<(), Fail> {
    let alloc = rt.alloc();
    holds(&rt, "settings", keeps_settings());
    holds(&rt, "a run with a timeout", starts(alloc));
    holds(&rt, "a run that is recovered", recovers(alloc));
    holds(&rt, "a run that breaks off", breaks_off(alloc));
    holds(&rt, "a task that is queued twice", visits_twice(alloc));
    holds(&rt, "limits", limits(alloc));
    holds(
        &rt,
        "contexts",
        are_made(rt.clone()?, alloc, Part::Contexts),
    );
    holds(&rt, "draws", are_made(rt.clone()?, alloc, Part::Draws));
    Ok(())
}

/// Why settings are refused, if they are.
fn refusal(config: Config<ChaCha12Rng>) -> Option<ConfigError> {
    Runner::new(config).err()
}

/// Settings that start at the last moment.
fn last_moment(timeout: Nanos) -> Config<ChaCha12Rng> {
    Config::new()
        .with_start_time(MAX_TIME)
        .with_cycle(1)
        .with_timeout(Some(timeout))
}

#[test]
fn refused_settings(rt: HostRuntime) -> Result<(), Fail> {
    let past = Config::new().with_start_time(MAX_TIME + 1);
    assert!(rt; refusal(Config::new().with_cycle(0)) == Some(ConfigError::ZeroCycle));
    assert!(rt; refusal(past) == Some(ConfigError::StartTooLate));
    assert!(rt; refusal(last_moment(1)) == Some(ConfigError::DeadlineTooLate));
    assert!(rt; refusal(last_moment(0)) == None);
    Ok(())
}
