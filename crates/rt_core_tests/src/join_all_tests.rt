// Groups of handles in whole runs.

ghost use Rattle.std.specs.Prelude.{◌≡◌, ◌∷◌, []};
ghost use Rattle.rt_core.specs.Handles.{held_handle};
ghost use Rattle.rt_core.specs.Joins.{joining};

use crate::told::{fails, has_lines, holds};
use rt_audit::FinishCause;
use rt_core::{
    AbortOnDrop, AbortOnDropOf, Answer, Context, Convert, Cx, Error, HandleOf, Items, JoinAll,
    NoMemory, NoPoller, Outcome, Poll, Poller, Rng, RootMaker, Runner, Task, World,
};
use std::alloc::Global;
use std::process::Abort;
use std::test::Fail;

/// What a gatherer gives, or one of its handles.
#[derive(Debug, Drop)]
enum Gathered {
    Number(u64),
    Numbers(Items<u64>),
    Failed(Error),
}

/// Takes numbers, and refuses anything else.
#[derive(Clone, Copy)]
struct Takes;

impl Convert<Gathered, u64> for Takes {
    ghost use Rattle.std.specs.Prelude.{Ok, Err};
    ghost use Rattle.rt_base.specs.declared.error.Error.TheVariants.{Exited};
    ghost use Rattle.rt_core_tests.specs.declared.join_all_tests.Gathered.TheVariants.{Number, Numbers, Failed};

    ghost converted = { λ takes. elim [ Number number ↦ Ok number | Numbers numbers ↦ Err Exited | Failed error ↦ Err Exited ] };

    fn convert(&self, output: Gathered) -> Result<u64, Error> {
        match output {
            Gathered::Number(number) => Ok(number),
            Gathered::Numbers(_) | Gathered::Failed(_) => Err(Error::Exited),
        }
    }
}

/// A task that gives what its group gives. Without one it is never ready.
struct Gatherer {
    context: Context,
    group: Option<Group>,
}

/// A group of gatherers.
type Group = JoinAll<Gatherer, NoPoller, u64, Takes>;

/// A guard over the handle of a gatherer.
type Guard = AbortOnDrop<Gatherer>;

impl Outcome for Gatherer {
    type Output = Gathered;
}

#[tactic(auto, using(rt_world::proofs::Walked::task_laws))]
impl Task for Gatherer {
    ghost use Rattle.std.specs.Prelude.{Some, None, Ok, Err};
    ghost use Rattle.rt_base.specs.declared.poll.Poll.TheVariants.{Pending as IsPending, Ready as IsReady};
    ghost use Rattle.rt_model.specs.declared.answer.Answer.TheVariants.{Pending, Ready};
    ghost use Rattle.rt_model.specs.Walk.{Gives, then, followed_by};
    ghost use Rattle.rt_core.specs.Handles.{no_polls, no_spends};
    ghost use Rattle.rt_core.specs.Joins.{join_all_polls, join_all_spends};
    ghost use Rattle.rt_core.specs.Pollers.{closes};
    ghost use Rattle.rt_core_tests.specs.declared.join_all_tests.Gathered.TheVariants.{Numbers, Failed};

    ghost steps = { record { next = λ g now task. elim g.group [ None ↦ Gives Pending g | Some group ↦ then (join_all_polls no_polls no_spends ⟦<Takes as Convert<Gathered, u64>>⟧.converted group) (λ answer left. elim answer [ IsPending ↦ Gives Pending (record g { group = Some left }) | IsReady given ↦ elim given [ Ok numbers ↦ Gives (Ready (Numbers numbers)) (record g { group = Some left }) | Err error ↦ Gives (Ready (Failed error)) (record g { group = Some left }) ] ]) ]; last = λ g now task. elim g.group [ None ↦ closes g.context.node | Some group ↦ followed_by (join_all_spends no_spends group) (closes g.context.node) ] } };

    fn poll<G: Rng>(&mut self, world: &mut World<Self, Gathered, G>, cx: &Cx) -> Answer<Gathered> {
        let Some(group) = &mut self.group else {
            return Answer::Pending;
        };
        match group.poll(world, cx) {
            Poll::Pending => Answer::Pending,
            Poll::Ready(Ok(numbers)) => Answer::Ready(Gathered::Numbers(numbers)),
            Poll::Ready(Err(error)) => Answer::Ready(Gathered::Failed(error)),
        }
    }

    fn end<G: Rng>(self, world: &mut World<Self, Gathered, G>) {
        let Gatherer { context, group } = self;
        if let Some(group) = group {
            group.give_up(world);
            return context.close(world);
        }
        context.close(world);
    }
}

/// A group of the handles of these guards.
fn grouped<R: Abort>(
    rt: &R,
    alloc: Global,
    takes: Takes,
    first: Guard,
    second: Guard,
    third: Guard,
) -> Group
    ensures { result ≡ joining (first.handle ∷ second.handle ∷ third.handle ∷ []) takes }
{
    let mut guards = Vec::new(alloc);
    if guards.reserve(3).is_err() {
        panic!(rt; "out of memory");
    }
    guards.push_reserved(first);
    guards.push_reserved(second);
    guards.push_reserved(third);
    match AbortOnDropOf::join_all(guards, takes) {
        Ok(group) => group,
        Err(_refused) => panic!(rt; "out of memory"),
    }
}

/// A guard over a handle that holds this.
fn held(answer: Result<Gathered, Error>) -> Guard
    ensures { result.handle ≡ held_handle answer }
{
    HandleOf::ready(answer).abort_on_drop()
}

/// Makes a gatherer of three numbers.
#[derive(Drop)]
struct RootNumbers<R> {
    rt: R,
    alloc: Global,
    takes: Takes,
}

#[tactic(auto, using(rt_world::proofs::Walked::maker_laws))]
impl<R: Abort + Drop> RootMaker<Gatherer> for RootNumbers<R> {
    ghost use Rattle.std.specs.Prelude.{[], ◌∷◌, Some, Ok};
    ghost use Rattle.rt_model.specs.Walk.{Gives};
    ghost use Rattle.rt_core.specs.Contexts.{root_context};
    ghost use Rattle.rt_core.specs.Handles.{held_handle};
    ghost use Rattle.rt_core.specs.Joins.{joining};
    ghost use Rattle.rt_core_tests.specs.declared.join_all_tests.Gathered.TheVariants.{Number};

    ghost first = { λ maker now. Gives tt (record { context = root_context; group = Some (joining (held_handle (Ok (Number 1)) ∷ held_handle (Ok (Number 2)) ∷ held_handle (Ok (Number 3)) ∷ []) maker.takes) }) };

    fn make<G: Rng>(
        self,
        context: Context,
        _world: &mut World<Gatherer, Gathered, G>,
    ) -> Result<Gatherer, NoMemory> {
        let group = grouped(
            &self.rt,
            self.alloc,
            self.takes,
            held(Ok(Gathered::Number(1))),
            held(Ok(Gathered::Number(2))),
            held(Ok(Gathered::Number(3))),
        );
        Ok(Gatherer {
            context,
            group: Some(group),
        })
    }
}

/// Makes a gatherer of a number, of another one or an error, and of what a child gives that is never ready.
#[derive(Drop)]
struct RootParent<R> {
    rt: R,
    alloc: Global,
    takes: Takes,
    fails: bool,
}

#[tactic(auto, using(rt_world::proofs::Walked::maker_laws))]
impl<R: Abort + Drop> RootMaker<Gatherer> for RootParent<R> {
    ghost use Rattle.std.specs.Prelude.{[], ◌∷◌, None, Some, Ok, Err, codes, if◌then◌else◌};
    ghost use Rattle.rt_base.specs.declared.error.Error.TheVariants.{Closed};
    ghost use Rattle.rt_model.specs.Walk.{Gives, then};
    ghost use Rattle.rt_core.specs.Contexts.{root_context, childs, spawns};
    ghost use Rattle.rt_core.specs.Handles.{held_handle};
    ghost use Rattle.rt_core.specs.Joins.{joining};
    ghost use Rattle.rt_core_tests.specs.declared.join_all_tests.Gathered.TheVariants.{Number};

    ghost first = { λ maker now. (then) (childs root_context (codes "left")) (λ child told. elim child [ Ok context ↦ (then) (spawns context (λ context. record { context = context; group = None })) (λ spawned told. elim spawned [ Ok third ↦ Gives tt (record { context = root_context; group = Some (joining (held_handle (Ok (Number 1)) ∷ held_handle (if maker.fails then Err Closed else Ok (Number 2)) ∷ third ∷ []) maker.takes) }) | Err error ↦ Gives tt (record { context = root_context; group = None }) ]) | Err error ↦ Gives tt (record { context = root_context; group = None }) ]) };

    fn make<G: Rng>(
        self,
        context: Context,
        world: &mut World<Gatherer, Gathered, G>,
    ) -> Result<Gatherer, NoMemory> {
        let Ok(child) = context.child(world, "left") else {
            panic!(&self.rt; "no child");
        };
        let spawned = child.spawn(
            world,
            |context| Gatherer {
                context,
                group: None,
            },
        );
        let Ok(handle) = spawned else {
            panic!(&self.rt; "not spawned");
        };
        let second = if self.fails {
            Err(Error::Closed)
        } else {
            Ok(Gathered::Number(2))
        };
        let group = grouped(
            &self.rt,
            self.alloc,
            self.takes,
            held(Ok(Gathered::Number(1))),
            held(second),
            handle.abort_on_drop(),
        );
        Ok(Gatherer {
            context,
            group: Some(group),
        })
    }
}

/// A group of three numbers gives them in their order, without a call.
const IN_ORDER: &str = "\
start 0 - 1000000 0; root 0; round 0
visit 0; event process_task 00000000000000000000000000000000 -; answer 0 ready; cleanup; nodeend 0
call 0 close-node 0 -> ok; answer 0 ended; crash; finish ok
";

/// The first failure aborts the task that is left, and is the answer once that has ended.
const ABORTED: &str = "\
start 0 - 1000000 0; call - child 0 left -> node 1; call - spawn 1 -> task 0 node 2; root 1; draw 17971643333364160609
round 0 1
visit 0; event process_task 00000000000000000000000000000000 6c656674; answer 0 pending
visit 1; event process_task 00000000000000000000000000000001 -; call 1 abort 0 -> ok; wake 0; call 1 join 0 -> pending
answer 1 pending
advance 1000000; round 0
visit 0; event process_task 00000000000000000000000000000000 6c656674; call 0 close-node 2 -> ok; answer 0 ended; nodeend 1
wake 1
advance 2000000; round 1
visit 1; event process_task 00000000000000000000000000000001 -; call 1 join 0 -> err 2; call 1 give-up 0 -> ok
answer 1 ready; cleanup; nodeend 0; call 1 close-node 0 -> ok; answer 1 ended; crash; finish ok
";

/// A group that waits is aborted and given up at its task's end.
const GIVEN_UP: &str = "\
start 0 - 1000000 0; call - child 0 left -> node 1; call - spawn 1 -> task 0 node 2; root 1; draw 17971643333364160609
round 0 1
visit 0; event process_task 00000000000000000000000000000000 6c656674; answer 0 pending
visit 1; event process_task 00000000000000000000000000000001 -; call 1 join 0 -> pending; answer 1 pending
advance 1000000; cleanup; nodeend 0; call 0 close-node 2 -> ok; answer 0 ended; call 1 abort 0 -> ok; call 1 give-up 0 -> ok
call 1 close-node 0 -> ok; answer 1 ended; crash; finish stalled
";

/// What a run gives.
#[derive(Clone, Copy)]
enum Wanted {
    /// The numbers from 1 to 3.
    Three,
    /// The failure of the second handle.
    Closed,
}

/// Whether the run of this root gives this, and has these lines.
fn gathers<M: RootMaker<Gatherer> + Drop>(
    alloc: Global,
    seed: u64,
    maker: M,
    wanted: Wanted,
    expected: &str,
) -> bool {
    match Runner::seeded(seed).start_and_recover::<Gatherer, M>(alloc, maker) {
        Ok(finished) => {
            is_wanted(&finished.output, wanted)
                && has_lines(alloc, finished.checkpoint.journal(), expected)
        }
        Err(_failure) => false,
    }
}

fn is_wanted(output: &Gathered, wanted: Wanted) -> bool {
    match (output, wanted) {
        (Gathered::Numbers(numbers), Wanted::Three) => {
            numbers.as_slice() == [1, 2, 3].as_slice()
        }
        (Gathered::Failed(Error::Closed), Wanted::Closed) => true,
        _ => false,
    }
}

/// Whether a group that waits is given up at its task's end.
fn gives_up<R: Abort + Drop>(alloc: Global, maker: RootParent<R>) -> bool {
    let cause = FinishCause::Stalled;
    fails::<Gatherer, RootParent<R>>(alloc, Runner::seeded(1), maker, cause, GIVEN_UP)
}

/// Makes the root whose second handle fails, or is ready.
fn parent<R>(rt: R, alloc: Global, fails: bool) -> RootParent<R> {
    RootParent {
        rt,
        alloc,
        takes: Takes,
        fails,
    }
}

/// Makes the root of three numbers.
fn numbers<R>(rt: R, alloc: Global) -> RootNumbers<R> {
    RootNumbers {
        rt,
        alloc,
        takes: Takes,
    }
}

#[test]
fn join_all_in_order(rt: HostRuntime) -> Result<(), Fail> {
    let maker = numbers(rt.clone()?, rt.alloc());
    assert!(rt; gathers(rt.alloc(), 3, maker, Wanted::Three, IN_ORDER));
    Ok(())
}

#[test]
fn join_all_aborts_the_rest(rt: HostRuntime) -> Result<(), Fail> {
    let failing = parent(rt.clone()?, rt.alloc(), true);
    let failed = gathers(rt.alloc(), 1, failing, Wanted::Closed, ABORTED);
    holds(&rt, "a failure", failed);
    let waiting = parent(rt.clone()?, rt.alloc(), false);
    holds(&rt, "a group that waits", gives_up(rt.alloc(), waiting));
    Ok(())
}
