//! Runs of a job in memory, and what they leave.

use outside::{Actor, MemSink, MemSource, OpenGate, OutOfMemory};
use run_core::{
    Form, Order, PLAN_SLOTS, RECEIVE_ROOM, Rig, RunEnd, World, run_lockstep, run_schedule,
    run_threads,
};
use std::alloc::Global;
use std::sync::Wait;
use std::thread::Threads;

/// What a run leaves.
#[derive(Drop)]
pub(crate) struct Left<'a> {
    pub(crate) console: MemSink<'a>,
    pub(crate) steps: MemSink<'a>,
    pub(crate) end: RunEnd,
}

/// How many bytes a console has room for.
pub(crate) const ROOM: usize = 4000;

/// A run that has left nothing yet, with a console of so much room.
fn nothing(alloc: Global, room: usize) -> Result<Left<'static>, OutOfMemory> {
    Ok(Left {
        console: MemSink::new(alloc, room, &[])?,
        steps: MemSink::new(alloc, 4000, &[])?,
        end: World::<RECEIVE_ROOM, PLAN_SLOTS>::new(alloc, Form::One)?.end(),
    })
}

/// Runs a job in four threads, with a console of so much room.
pub(crate) fn in_threads<R: Threads + Wait + Sync>(
    rt: &R,
    alloc: Global,
    text: &str,
    room: usize,
) -> Result<Left<'static>, OutOfMemory> {
    let mut left = nothing(alloc, room)?;
    let mut job = MemSource::new(text.as_bytes(), 7, &[]);
    let mut rig = Rig::<RECEIVE_ROOM, PLAN_SLOTS>::new(alloc, Form::One)?;
    let Left {
        console,
        steps,
        end,
    } = &mut left;
    *end = run_threads(rt, &mut rig, &mut job, console, steps, &OpenGate);
    rig.join();
    Ok(left)
}

/// Runs it in lockstep, in the order of a seed. So many bytes are read at once at most.
pub(crate) fn in_lockstep<R: Wait>(
    rt: &R,
    alloc: Global,
    text: &str,
    piece: usize,
    seed: u64,
) -> Result<Left<'static>, OutOfMemory> {
    let mut left = nothing(alloc, ROOM)?;
    let mut job = MemSource::new(text.as_bytes(), piece.max(1), &[]);
    let mut world = World::<RECEIVE_ROOM, PLAN_SLOTS>::new(alloc, Form::One)?;
    let Left {
        console,
        steps,
        end,
    } = &mut left;
    run_lockstep(rt, &mut world, seed, &mut job, console, steps);
    *end = world.end();
    Ok(left)
}

/// Runs it in lockstep by a pulse that hands out subticks, in the order of a seed, and counts them.
pub(crate) fn by_subticks<R: Wait>(
    rt: &R,
    alloc: Global,
    text: &str,
    seed: u64,
) -> Result<(Left<'static>, u64), OutOfMemory> {
    let mut left = nothing(alloc, ROOM)?;
    let mut job = MemSource::new(text.as_bytes(), 7, &[]);
    let mut world = World::<RECEIVE_ROOM, PLAN_SLOTS>::smooth(alloc, Form::One)?;
    let Left {
        console,
        steps,
        end,
    } = &mut left;
    run_lockstep(rt, &mut world, seed, &mut job, console, steps);
    *end = world.end();
    Ok((left, world.pins()))
}

/// Runs it in four threads by such a pulse.
pub(crate) fn by_subticks_in_threads<R: Threads + Wait + Sync>(
    rt: &R,
    alloc: Global,
    text: &str,
) -> Result<Left<'static>, OutOfMemory> {
    let mut left = nothing(alloc, ROOM)?;
    let mut job = MemSource::new(text.as_bytes(), 7, &[]);
    let mut rig = Rig::<RECEIVE_ROOM, PLAN_SLOTS>::smooth(alloc, Form::One)?;
    let Left {
        console,
        steps,
        end,
    } = &mut left;
    *end = run_threads(rt, &mut rig, &mut job, console, steps, &OpenGate);
    rig.join();
    Ok(left)
}

/// Runs it by the first 40,000 turns of the order of a seed, of which each is taken by itself.
pub(crate) fn in_order(alloc: Global, text: &str, seed: u64) -> Result<Left<'static>, OutOfMemory> {
    let mut left = nothing(alloc, ROOM)?;
    let mut job = MemSource::new(text.as_bytes(), 7, &[]);
    let mut world = World::<RECEIVE_ROOM, PLAN_SLOTS>::new(alloc, Form::One)?;
    let mut order = Order { state: seed };
    let Left {
        console,
        steps,
        end,
    } = &mut left;
    for _ in 0..40_000 {
        world.turn(order.next(), &mut job, console, steps);
    }
    *end = world.end();
    Ok(left)
}

/// Runs it in a thousand rounds of all actors.
pub(crate) fn in_rounds(alloc: Global, text: &str) -> Result<Left<'static>, OutOfMemory> {
    let mut left = nothing(alloc, ROOM)?;
    let mut job = MemSource::new(text.as_bytes(), 7, &[]);
    let mut world = World::<RECEIVE_ROOM, PLAN_SLOTS>::new(alloc, Form::One)?;
    let everyone = [Actor::Host, Actor::Board, Actor::Pulse, Actor::Record];
    let Left {
        console,
        steps,
        end,
    } = &mut left;
    for _ in 0..1000 {
        run_schedule(&mut world, &everyone, &mut job, console, steps);
    }
    *end = world.end();
    Ok(left)
}
