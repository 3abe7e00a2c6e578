//! Journals of runs that are drawn, are cut off, or have another order than that of numbers.

/// The journals, each after its head.
pub const OTHERS: &str = "\
== stall begin | A root that wakes itself twice, waits, and ends since there is nothing to do. A draw shuffles its round.
start 0 - 1000000 0
root 0
round 0
visit 0
event process_task 0 -
call 0 wake 0 -> ok
wake 0
call 0 wake 1 -> err 12
call 0 wake 0 -> ok
wake 0
answer 0 pending
advance 1000000
draw 7
round 0 0
visit 0
event process_task 0 -
answer 0 pending
visit 0
event process_task 0 -
answer 0 pending
advance 2000000
cleanup
nodeend 0
answer 0 ended
crash
finish stalled
== cut begin | A run that is cut off before its first round.
start 0 - 1000000 0
root 0
cleanup
nodeend 0
call 0 close-node 0 -> ok
answer 0 ended
crash
finish nomemory
== unmade begin | A run that is cut off before its root is taken in.
start 0 - 1000000 0
cleanup
nodeend 0
call - close-node 0 -> ok
crash
finish nomemory
== root-first begin | The root is ready before another task of its round is visited, and the cleanup ends the tasks.
start 0 - 1000000 0
call - child 0 side -> node 1
call - spawn 1 -> task 0 node 2
call - give-up 0 -> ok
root 1
round 1 0
visit 1
event process_task 1 -
call 1 child 0 h -> node 3
call 1 spawn 3 -> task 2 node 4
answer 1 ready
cleanup
nodeend 0
call 0 close-node 2 -> ok
answer 0 ended
call 2 close-node 4 -> ok
answer 2 ended
call 1 give-up 2 -> ok
call 1 close-node 0 -> ok
answer 1 ended
crash
finish ok
== draws begin | A root draws by each of the calls, and asks for the digest. It draws once more where it ends.
start 0 - 1000000 0
root 0
round 0
visit 0
event process_task 0 -
event rand next_u32
call 0 u32 -> 4294967295
event rand next_u64
call 0 u64 -> 18446744073709551615
event rand fill_bytes
call 0 fill 3 -> 0007ff
event rand fill_bytes
call 0 fill 0 -> -
call 0 auditor -> 01020304
answer 0 ready
cleanup
nodeend 0
event rand next_u64
call 0 u64 -> 7
call 0 close-node 0 -> ok
answer 0 ended
crash
finish ok
== polled-and-aborted begin | A task is aborted after its first poll, another before. Each ends in its next visit.
start 0 - 1000000 0
root 0
round 0
visit 0
event process_task 0 -
call 0 child 0 h -> node 1
call 0 spawn 1 -> task 1 node 2
call 0 child 0 s -> node 3
call 0 spawn 3 -> task 2 node 4
call 0 abort-task 2 -> ok
call 0 wake 0 -> ok
wake 0
answer 0 pending
advance 1000000
round 1 2 0
visit 1
event process_task 1 h
answer 1 pending
visit 2
event process_task 2 s
call 2 close-node 4 -> ok
answer 2 ended
nodeend 3
visit 0
event process_task 0 -
call 0 abort-task 1 -> ok
wake 1
answer 0 pending
advance 2000000
round 1
visit 1
event process_task 1 h
call 1 close-node 2 -> ok
answer 1 ended
nodeend 1
== sent-and-aborted begin | The wait for a slot is aborted that has what was sent.
start 0 - 1000000 0
root 0
round 0
visit 0
event process_task 0 -
call 0 slot -> slot 0
call 0 slot-poll 0 -> pending
call 0 slot-send 0 -> ok
wake 0
call 0 abort-wait 0 -> ok
call 0 slot-poll 0 -> err 3
== maker-lacks begin | A maker that closed its context runs out of memory.
start 0 - 1000000 0
call - close-node 0 -> ok
cleanup
nodeend 0
crash
finish nomemory
";
