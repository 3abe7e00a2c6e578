// The table of runs.

use crate::row::Begins::{Done, Naps, Waits, Wakes, Yields};
use crate::row::Root::{
    Chief, Client, Courier, Crew, Dealer, Errand, Heir, Keeper, Napper, Pair, Retry,
};
use crate::row::Row;
use crate::row::Setting::{LastMoment, NextTask, Seed, Timeout};
use rt_errand::Parcel::{Failure, Late, Nothing, Number, Unwanted};
use rt_errand::Plan::{Chooses, Holds, Limits, Watches};

pub const RUNS: &[Row] = &[
    Row("one_ready_root", &[], &[Errand(Done, 7)]),
    Row("sleeps_to_its_alarm", &[], &[Errand(Naps(10_000_000), 0)]),
    Row("sleeps_less_than_a_cycle", &[], &[Errand(Naps(500_000), 0)]),
    Row(
        "deadline_before_the_alarm",
        &[Timeout(10_000_000)],
        &[Errand(Naps(10_000_000), 0)],
    ),
    Row("deadline_of_zero", &[Timeout(0)], &[Errand(Done, 7)]),
    Row("pending_root_stalls", &[], &[Errand(Waits, 0)]),
    // It is visited once more behind its wake.
    Row("wakes_itself", &[], &[Errand(Wakes(0, 5_000_000), 3)]),
    Row("wakes_nobody", &[], &[Errand(Wakes(5, 5_000_000), 3)]),
    Row("clock_overflow", &[LastMoment], &[Errand(Yields(0), 0)]),
    Row(
        "sleep_past_the_end_of_time",
        &[LastMoment],
        &[Errand(Naps(1), 0)],
    ),
    Row("three_tries", &[], &[Retry]),
    Row("a_worker_is_joined", &[Seed(1)], &[Crew]),
    Row("the_root_is_ended_last", &[Timeout(2_000_000)], &[Crew]),
    Row("nobody_waits_for_a_worker", &[Seed(35)], &[Pair]),
    Row("spawn_on_an_ended_node", &[], &[Heir]),
    // No number is left for the root.
    Row(
        "last_task_number",
        &[NextTask(u64::MAX)],
        &[Errand(Done, 7)],
    ),
    // The worker naps up to the fourth millisecond. The chief's alarm is before that: its sleep is over, and it ends with its worker.
    Row(
        "a_sleep_that_is_over_first",
        &[Seed(1)],
        &[Chief(Watches(2_000_000))],
    ),
    // The chief's alarm is behind that of the worker, which is ready first.
    Row(
        "a_handle_that_is_ready_first",
        &[Seed(1)],
        &[Chief(Watches(10_000_000))],
    ),
    // The worker is polled under a limit, which is over as that sleep was.
    Row(
        "a_limit_on_a_handle",
        &[Seed(1)],
        &[Chief(Limits(2_000_000))],
    ),
    // The handle under its limit is ready at once.
    Row(
        "timeout_of_a_ready_state",
        &[Seed(1)],
        &[Chief(Holds(100_000_000, 42))],
    ),
    // The number that is held is ready, and the worker is let go.
    Row(
        "select_of_ready_and_pending",
        &[Seed(1)],
        &[Chief(Chooses(7))],
    ),
    // The worker sends, which wakes the client, and ends. The client gets what was sent, and gives it.
    Row("a_number_of_its_worker", &[], &[Client]),
    // The worker ends before its first poll, and gives the sender up.
    Row(
        "a_limit_before_its_worker",
        &[Timeout(1_000_000)],
        &[Client],
    ),
    // No number is left for the worker: the client gives up what it would have got, and all else.
    Row(
        "a_worker_without_a_number",
        &[NextTask(u64::MAX - 1)],
        &[Client],
    ),
    // A courier waits with both ends of its slot. At the end of its way its own send wakes it, and it is visited again. It gives what it
    // got, and gives its handle up.
    Row("a_number", &[], &[Courier(Number(7))]),
    Row("an_error", &[], &[Courier(Failure)]),
    Row("nothing", &[], &[Courier(Nothing)]),
    // What it sends comes too late.
    Row("a_number_too_late", &[], &[Courier(Late(7))]),
    // It has no handle any more.
    Row("a_number_for_nobody", &[], &[Courier(Unwanted(7))]),
    // It ends on its way, and gives both ends up.
    Row("a_limit", &[Timeout(1_000_000)], &[Courier(Number(7))]),
    // It is woken by the stop, shown its value, and ends before its closer is.
    Row("serves_until_its_signal_comes", &[], &[Keeper]),
    // The second run draws from the same generator, and its tasks are numbered from 0 on.
    Row(
        "resumed_times",
        &[Seed(7), NextTask(5)],
        &[Errand(Naps(6_000_000), 1), Errand(Naps(6_000_000), 2)],
    ),
    // The deadline is a moment, and stays.
    Row(
        "time_goes_on_over_runs",
        &[Seed(7), Timeout(10_000_000)],
        &[Errand(Naps(6_000_000), 1), Errand(Naps(4_000_000), 2)],
    ),
    // The second run draws what comes next, and sees the digest of both.
    Row("a_task_that_draws", &[Seed(1)], &[Dealer, Dealer]),
    // The nap is over once its sleep is and the others had their turn.
    Row("a_poller_of_ones_own", &[], &[Napper]),
];
