//! Journals of runs whose tasks spawn, join and abort others, panic and end.

/// The journals, each after its head.
pub const TASKS: &str = "\
== made begin | The maker spawns a task, which has a smaller number than the root.
start 0 - 1000000 0
call - child 0 side -> node 1
call - spawn 1 -> task 0 node 2
call - give-up 0 -> ok
root 1
round 0 1
visit 0
event process_task 0 side
answer 0 ready
call 0 close-node 2 -> ok
answer 0 ended
nodeend 1
visit 1
event process_task 1 -
answer 1 ready
cleanup
nodeend 0
call 1 close-node 0 -> ok
answer 1 ended
crash
finish ok
== aborts begin | A task aborts itself and finishes all the same.
start 0 - 1000000 0
root 0
round 0
visit 0
event process_task 0 -
call 0 child 0 h -> node 1
call 0 spawn 1 -> task 1 node 2
call 0 join 1 -> pending
answer 0 pending
advance 1000000
round 1
visit 1
event process_task 1 h
call 1 abort-task 1 -> ok
answer 1 ready
call 1 close-node 2 -> ok
answer 1 ended
wake 0
nodeend 1
advance 2000000
round 0
visit 0
event process_task 0 -
call 0 join 1 -> ready
call 0 give-up 1 -> ok
answer 0 ready
cleanup
nodeend 0
call 0 close-node 0 -> ok
answer 0 ended
crash
finish ok
== stops begin | A task aborts itself and is left pending: it ends in that visit, and its own node's end wakes it.
start 0 - 1000000 0
root 0
round 0
visit 0
event process_task 0 -
call 0 abort-task 0 -> err 12
call 0 child 0 h -> node 1
call 0 spawn 1 -> task 1 node 2
call 0 join 1 -> pending
answer 0 pending
advance 1000000
round 1
visit 1
event process_task 1 h
call 1 abort-task 1 -> ok
answer 1 pending
call 1 close-node 2 -> ok
answer 1 ended
nodeend 1
wake 1
wake 0
advance 2000000
round 1 0
visit 0
event process_task 0 -
call 0 join 1 -> err 2
call 0 give-up 1 -> ok
answer 0 ready
cleanup
nodeend 0
call 0 close-node 0 -> ok
answer 0 ended
crash
finish ok
== aborted begin | A task is aborted before its first visit, and who is below it ends unpolled too.
start 0 - 1000000 0
root 0
round 0
visit 0
event process_task 0 -
call 0 child 0 a -> node 1
call 0 spawn 1 -> task 1 node 2
call 0 child 2 b -> node 3
call 0 spawn 3 -> task 2 node 4
call 0 abort 1 -> ok
silent call 0 abort 1 -> ok
call 0 join 2 -> pending
answer 0 pending
advance 1000000
round 1 2
visit 1
event process_task 1 a
call 1 close-node 2 -> ok
silent call 1 close-node 2 -> ok
answer 1 ended
nodeend 1
visit 2
event process_task 2 a_b
call 2 abort-task 2 -> ok
call 2 abort-task 1 -> err 12
call 2 close-node 4 -> ok
answer 2 ended
wake 0
advance 2000000
round 0
visit 0
event process_task 0 -
call 0 join 1 -> err 2
call 0 join 2 -> err 2
call 0 abort 2 -> ok
silent call 0 abort 2 -> ok
call 0 wake 2 -> ok
wake 2
call 0 give-up 1 -> ok
silent call 0 give-up 1 -> ok
call 0 join 1 -> err 12
answer 0 pending
advance 3000000
round 2
advance 4000000
cleanup
nodeend 0
call 0 wake 0 -> ok
call 0 give-up 2 -> ok
call 0 close-node 0 -> ok
answer 0 ended
crash
finish stalled
== twice begin | A task wakes itself twice, ends at the first of its two visits, and is passed over at the second.
start 0 - 1000000 0
root 0
round 0
visit 0
event process_task 0 -
call 0 child 0 h -> node 1
call 0 spawn 1 -> task 1 node 2
call 0 join 1 -> pending
answer 0 pending
advance 1000000
round 1
visit 1
event process_task 1 h
call 1 wake 1 -> ok
wake 1
call 1 wake 1 -> ok
wake 1
answer 1 pending
advance 2000000
round 1 1
visit 1
event process_task 1 h
answer 1 ready
call 1 close-node 2 -> ok
answer 1 ended
wake 0
nodeend 1
wake 1
advance 3000000
round 0 1
visit 0
event process_task 0 -
call 0 join 1 -> ready
call 0 give-up 1 -> ok
call 0 wake 0 -> ok
wake 0
answer 0 pending
advance 4000000
round 0
visit 0
event process_task 0 -
answer 0 ready
cleanup
nodeend 0
call 0 close-node 0 -> ok
answer 0 ended
crash
finish ok
== family begin | A child ends with its parent, and goes unpolled; another task goes on.
start 0 - 1000000 0
root 0
round 0
visit 0
event process_task 0 -
call 0 child 0 p -> node 1
call 0 spawn 1 -> task 1 node 2
call 0 child 0 s -> node 3
call 0 spawn 3 -> task 2 node 4
call 0 join 1 -> pending
answer 0 pending
advance 1000000
round 1 2
visit 1
event process_task 1 p
call 1 child 2 c -> node 5
call 1 spawn 5 -> task 3 node 6
call 1 sleep-poll 6000000 -> pending 0
answer 1 pending
visit 2
event process_task 2 s
call 2 sleep-poll 10000000 -> pending 1
answer 2 pending
advance 2000000
round 3
visit 3
event process_task 3 p_c
answer 3 pending
advance 3000000
skip 6000000
fire 0
wake 1
round 1
visit 1
event process_task 1 p
call 1 sleep-poll 6000000 -> ready
answer 1 ready
call 1 give-up 3 -> ok
call 1 close-node 2 -> ok
answer 1 ended
wake 0
nodeend 1
wake 1
wake 3
advance 7000000
round 0 1 3
visit 0
event process_task 0 -
call 0 join 1 -> ready
call 0 give-up 1 -> ok
call 0 join 2 -> pending
answer 0 pending
visit 3
event process_task 3 p_c
call 3 close-node 6 -> ok
answer 3 ended
advance 8000000
skip 10000000
fire 1
wake 2
round 2
visit 2
event process_task 2 s
call 2 sleep-poll 10000000 -> ready
answer 2 ready
call 2 close-node 4 -> ok
answer 2 ended
wake 0
nodeend 3
wake 2
advance 11000000
round 0 2
visit 0
event process_task 0 -
call 0 join 2 -> ready
call 0 give-up 2 -> ok
answer 0 ready
cleanup
nodeend 0
call 0 close-node 0 -> ok
answer 0 ended
crash
finish ok
== waiters begin | The last who polled a result waits for it.
start 0 - 1000000 0
root 0
round 0
visit 0
event process_task 0 -
call 0 child 0 a -> node 1
call 0 spawn 1 -> task 1 node 2
call 0 child 0 b -> node 3
call 0 spawn 3 -> task 2 node 4
call 0 join 1 -> pending
call 0 join 2 -> pending
answer 0 pending
advance 1000000
round 1 2
visit 1
event process_task 1 a
call 1 sleep-poll 2000000 -> pending 0
answer 1 pending
visit 2
event process_task 2 b
call 2 join 1 -> pending
answer 2 pending
advance 2000000
fire 0
wake 1
round 1
visit 1
event process_task 1 a
answer 1 ready
call 1 close-node 2 -> ok
answer 1 ended
wake 2
nodeend 1
wake 1
advance 3000000
round 2 1
visit 2
event process_task 2 b
call 2 join 1 -> ready
call 2 join 1 -> err 2
answer 2 panicked
call 2 give-up 2 -> ok
call 2 close-node 4 -> ok
answer 2 ended
wake 0
nodeend 3
wake 2
advance 4000000
round 0 2
visit 0
event process_task 0 -
answer 0 stopped
cleanup
nodeend 0
call 0 give-up 1 -> ok
silent call 0 give-up 2 -> ok
call 0 close-node 0 -> ok
answer 0 ended
crash
finish panicked
== panic begin | A panic is kept. The root waits for that task, and so it is woken twice and visited once.
start 0 - 1000000 0
root 0
round 0
visit 0
event process_task 0 -
call 0 child 0 h -> node 1
call 0 spawn 1 -> task 1 node 2
call 0 join 1 -> pending
answer 0 pending
advance 1000000
round 1
visit 1
event process_task 1 h
answer 1 panicked
call 1 close-node 2 -> ok
answer 1 ended
wake 0
wake 0
nodeend 1
advance 2000000
round 0 0
visit 0
event process_task 0 -
answer 0 stopped
cleanup
nodeend 0
call 0 give-up 1 -> ok
call 0 close-node 0 -> ok
answer 0 ended
crash
finish panicked
== caught catching | The same panic is caught.
start 0 - 1000000 0
root 0
round 0
visit 0
event process_task 0 -
call 0 child 0 h -> node 1
call 0 spawn 1 -> task 1 node 2
call 0 join 1 -> pending
answer 0 pending
advance 1000000
round 1
visit 1
event process_task 1 h
answer 1 panicked
call 1 close-node 2 -> ok
answer 1 ended
wake 0
nodeend 1
advance 2000000
round 0
visit 0
event process_task 0 -
call 0 join 1 -> err 1
call 0 give-up 1 -> ok
answer 0 ready
cleanup
nodeend 0
call 0 close-node 0 -> ok
answer 0 ended
crash
finish ok
== root-panic begin catching | The root itself panics.
start 0 - 1000000 0
root 0
round 0
visit 0
event process_task 0 -
answer 0 panicked
cleanup
nodeend 0
call 0 close-node 0 -> ok
answer 0 ended
crash
finish panicked
== two-panics begin | The first of two panics is kept, and wakes the root.
start 0 - 1000000 0
root 0
round 0
visit 0
event process_task 0 -
call 0 child 0 a -> node 1
call 0 spawn 1 -> task 1 node 2
call 0 child 0 b -> node 3
call 0 spawn 3 -> task 2 node 4
answer 0 pending
advance 1000000
round 1 2
visit 1
event process_task 1 a
answer 1 panicked
call 1 close-node 2 -> ok
answer 1 ended
wake 0
nodeend 1
visit 2
event process_task 2 b
answer 2 panicked
call 2 close-node 4 -> ok
answer 2 ended
nodeend 3
advance 2000000
round 0
visit 0
event process_task 0 -
answer 0 stopped
cleanup
nodeend 0
call 0 close-node 0 -> ok
answer 0 ended
crash
finish panicked
== early-panic begin | A panic that comes before the root's first visit stops it there.
start 0 - 1000000 0
call - child 0 side -> node 1
call - spawn 1 -> task 0 node 2
root 1
round 0 1
visit 0
event process_task 0 side
answer 0 panicked
call 0 close-node 2 -> ok
answer 0 ended
nodeend 1
visit 1
event process_task 1 -
answer 1 stopped
cleanup
nodeend 0
call 1 give-up 0 -> ok
call 1 close-node 0 -> ok
answer 1 ended
crash
finish panicked
== node-ended begin | A task on node 0 ends it before the cleanup, which then ends no node.
start 0 - 1000000 0
call - spawn 0 -> task 0 node 1
root 1
round 0 1
visit 0
event process_task 0 -
answer 0 ready
call 0 close-node 1 -> ok
answer 0 ended
nodeend 0
visit 1
event process_task 1 -
answer 1 ready
cleanup
answer 1 ended
crash
finish ok
== refused begin | What calls return that are refused or come too late.
start 0 - 1000000 0
root 0
round 0
visit 0
event process_task 0 -
call 0 child 0 runtimes -> err 14
call 0 child 0 9a -> err 14
call 0 child 1 9a -> err 12
call 0 spawn 1 -> err 12
call 0 abort-task 9 -> err 12
call 0 wake 9 -> err 12
call 0 join 9 -> err 12
call 0 child 0 a -> node 1
call 0 child 1 runtime -> node 2
call 0 spawn 2 -> task 1 node 3
call 0 spawn 2 -> err 12
call 0 abort 1 -> ok
call 0 close-node 1 -> ok
call 0 spawn 1 -> err 12
answer 0 ready
cleanup
nodeend 0
call 1 child 3 b -> node 4 ended
call 1 spawn 4 -> closed
call 1 spawn 4 -> err 12
call 1 close-node 3 -> ok
answer 1 ended
call 0 join 1 -> err 2
call 0 give-up 1 -> ok
call 0 close-node 0 -> ok
answer 0 ended
crash
finish ok
== cleanup begin | A cleanup ends the tasks in order of their numbers, the root last, whose number is the middle one.
start 0 - 1000000 0
call - child 0 side -> node 1
call - spawn 1 -> task 0 node 2
call - give-up 0 -> ok
root 1
round 0 1
visit 0
event process_task 0 side
answer 0 pending
visit 1
event process_task 1 -
call 1 child 0 h -> node 3
call 1 spawn 3 -> task 2 node 4
answer 1 ready
cleanup
nodeend 0
call 0 close-node 2 -> ok
answer 0 ended
call 2 close-node 4 -> ok
answer 2 ended
call 1 give-up 2 -> ok
call 1 close-node 0 -> ok
answer 1 ended
crash
finish ok
== last-numbers two-left | The greatest number is no task's.
start 0 - 1000000 18446744073709551613
call - child 0 a -> node 1
call - spawn 1 -> task 18446744073709551613 node 2
root 18446744073709551614
round 18446744073709551613 18446744073709551614
visit 18446744073709551613
event process_task 18446744073709551613 a
call 18446744073709551613 child 2 b -> node 3
call 18446744073709551613 spawn 4 -> err 12
call 18446744073709551613 spawn 3 -> err 13
call 18446744073709551613 close-node 3 -> ok
call 18446744073709551613 spawn 3 -> err 12
answer 18446744073709551613 ready
call 18446744073709551613 close-node 2 -> ok
answer 18446744073709551613 ended
nodeend 1
visit 18446744073709551614
event process_task 18446744073709551614 -
call 18446744073709551614 wake 18446744073709551615 -> err 12
answer 18446744073709551614 ready
cleanup
nodeend 0
call 18446744073709551614 child 0 c -> node 4 ended
call 18446744073709551614 spawn 4 -> err 13
call 18446744073709551614 close-node 4 -> ok
call 18446744073709551614 close-node 0 -> ok
answer 18446744073709551614 ended
crash
finish ok
== no-number one-left | No number is left for the root.
start 0 - 1000000 18446744073709551614
call - child 0 a -> node 1
call - spawn 1 -> task 18446744073709551614 node 2
call - child 0 b -> node 3
call - spawn 3 -> err 13
call - close-node 3 -> ok
cleanup
nodeend 0
call 18446744073709551614 close-node 2 -> ok
answer 18446744073709551614 ended
call - close-node 0 -> ok
crash
finish tasks
== kin begin | A child that was never polled ends with its parent, which spawned it in that visit.
start 0 - 1000000 0
root 0
round 0
visit 0
event process_task 0 -
call 0 child 0 h -> node 1
call 0 spawn 1 -> task 1 node 2
call 0 join 1 -> pending
answer 0 pending
advance 1000000
round 1
visit 1
event process_task 1 h
call 1 child 2 h -> node 3
call 1 spawn 3 -> task 2 node 4
call 1 give-up 2 -> ok
answer 1 ready
call 1 close-node 2 -> ok
answer 1 ended
wake 0
nodeend 1
advance 2000000
round 2 0
visit 2
event process_task 2 h_h
call 2 close-node 4 -> ok
answer 2 ended
visit 0
event process_task 0 -
call 0 join 1 -> ready
call 0 give-up 1 -> ok
answer 0 ready
cleanup
nodeend 0
call 0 close-node 0 -> ok
answer 0 ended
crash
finish ok
";
