//! The maker of a scenario's root.

ghost use Rattle.std.specs.Prelude.{◌≡◌, ◌<◌, IfOk, length};
ghost use Rattle.std.specs.List.{All};
ghost use Rattle.rt_model.specs.Rules.{MayCall};
ghost use Rattle.rt_world.specs.Calls.{Kept};
ghost use Rattle.rt_core.specs.Contexts.{Context};
ghost use Rattle.rt_scripts.specs.Making.{Making, Prepares, beside, passed_over, placed_beside};

use crate::{Program, Script};
use rt_base::Items;
use rt_core::{Context, Error, NoMemory, Poller, Refused, Rng, RootMaker, World};
use std::marker::Model;

/// A maker of a run's root: it makes a script of a program the root, and spawns others beside it, in order.
///
/// Each is spawned on a child that has the script's name as its label, and its handle is given up at once. One that
/// is refused is skipped.
#[derive(Drop)]
pub struct RootScript {
    program: Program,
    root: usize,
    with: Items<usize>,
}

impl Model for RootScript {
    ghost use Rattle.std.specs.Prelude.{◌<◌, length};
    ghost use Rattle.std.specs.List.{All};
    ghost use Rattle.rt_scripts.specs.Making.{Maker};

    ghost Value = { Maker };

    ghost view = { λ m. record { program = m.program; root = m.root; with = m.with } };

    ghost invariant = { λ m. (m.root < length m.program) × All (λ place. place < length m.program) m.with };
}

impl RootScript {
    /// Makes a maker for the script at this place, with those at these places beside it.
    pub fn new(program: Program, root: usize, with: Items<usize>) -> RootScript
        requires root { root < length program }
        requires with { All (λ place. place < length program) with }
        ensures { result ≡ record { program = program; root = root; with = with } }
    {
        RootScript {
            program,
            root,
            with,
        }
    }
}

#[tactic(auto, using(rt_world::proofs::Walked::maker_laws))]
impl RootMaker<Script> for RootScript {
    ghost use Rattle.rt_scripts.specs.Making.{making};

    ghost first = { λ m now. making m };

    fn make<G: Rng>(
        self,
        context: Context,
        world: &mut World<Script, i64, G>,
    ) -> Result<Script, NoMemory> {
        let RootScript {
            program,
            root,
            with,
        } = self;
        let mut context = context;
        let mut rest = with.as_slice();
        while let Some((place, tail)) = rest.split_first() {
            context = spawn_beside(world, context, &program, *place)?;
            rest = tail;
        }
        Ok(Script::new(program, root, context))
    }
}

/// Spawns a script beside the root.
#[tactic(auto, using(rt_world::proofs::Walked::maker_laws), unfolding(crate::specs::Making::beside))]
fn spawn_beside<G: Rng>(
    world: &mut World<Script, i64, G>,
    context: Context,
    program: &Program,
    script: usize,
) -> Result<Context, NoMemory>
    requires script { script < length program.now }
    requires calling { MayCall world.old.told.state world.old.out }
    ensures context { IfOk result (λ back. back ≡ context) }
    ensures kept { Kept G.stream world.old world.new }
    ensures steps { (next : Making) → Prepares (beside context program.now script next) next world.old world.new result }
{
    let Ok(shared) = program.share() else {
        world.lack();
        context.close(world);
        return Err(NoMemory);
    };
    match context.child(world, program.script_name(script)) {
        Ok(child) => start_beside(world, context, child, shared, script),
        Err(error) => pass_over(world, context, error),
    }
}

/// Spawns a script on a child of the root's context, and gives its handle up.
#[tactic(auto, using(rt_world::proofs::Walked::maker_laws))]
fn start_beside<G: Rng>(
    world: &mut World<Script, i64, G>,
    context: Context,
    child: Context,
    program: Program,
    script: usize,
) -> Result<Context, NoMemory>
    requires script { script < length program }
    requires calling { MayCall world.old.told.state world.old.out }
    ensures context { IfOk result (λ back. back ≡ context) }
    ensures kept { Kept G.stream world.old world.new }
    ensures steps { (next : Making) → Prepares (placed_beside context program script next (Ok child)) next world.old world.new result }
{
    let spawned = child.spawn(
        world,
        |own|
            requires { script < length program }
        { Script::new(program, script, own) },
    );
    match spawned {
        Ok(handle) => {
            handle.give_up(world);
            Ok(context)
        }
        Err(refused) => {
            let Refused { back, error } = refused;
            back.close(world);
            pass_over(world, context, error)
        }
    }
}

/// Skips one that was refused. Out of memory the context is closed.
#[tactic(auto, using(rt_world::proofs::Walked::maker_laws))]
fn pass_over<G: Rng>(
    world: &mut World<Script, i64, G>,
    context: Context,
    error: Error,
) -> Result<Context, NoMemory>
    requires { MayCall world.old.told.state world.old.out }
    ensures context { IfOk result (λ back. back ≡ context) }
    ensures kept { Kept G.stream world.old world.new }
    ensures steps { (next : Making) → Prepares (passed_over context next error) next world.old world.new result }
{
    if let Error::NoMemory = error {
        context.close(world);
        return Err(NoMemory);
    }
    Ok(context)
}
