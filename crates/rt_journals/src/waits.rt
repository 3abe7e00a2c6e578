//! Journals of runs that sleep, and of slots and signals.

/// The journals, each after its head.
pub const WAITS: &str = "\
== ready begin | A root that is ready at its first visit.
start 0 - 1000000 0
root 0
round 0
visit 0
event process_task 0 -
answer 0 ready
cleanup
nodeend 0
call 0 close-node 0 -> ok
answer 0 ended
crash
finish ok
== lacks-memory begin | A poll runs out of memory.
start 0 - 1000000 0
root 0
round 0
visit 0
event process_task 0 -
answer 0 nomemory
cleanup
nodeend 0
call 0 close-node 0 -> ok
answer 0 ended
crash
finish nomemory
== sleep begin | A root that sleeps to its alarm.
start 0 - 1000000 0
root 0
round 0
visit 0
event process_task 0 -
call 0 sleep-poll 10000000 -> pending 0
answer 0 pending
advance 1000000
skip 10000000
fire 0
wake 0
round 0
visit 0
event process_task 0 -
call 0 sleep-poll 10000000 -> ready
answer 0 ready
cleanup
nodeend 0
call 0 close-node 0 -> ok
answer 0 ended
crash
finish ok
== sleeps begin | Alarms are kept from poll to poll, wake who polled last, and go off for nobody and for who has ended.
start 0 - 1000000 0
call - child 0 a -> node 1
call - spawn 1 -> task 0 node 2
call - sleep-poll 1500000 -> pending 0
call - give-up 0 -> ok
root 1
round 0 1
visit 0
event process_task 0 a
call 0 sleep-poll 3000000 -> pending 1
answer 0 pending
visit 1
event process_task 1 -
call 1 sleep-poll 0 -> ready
call 1 sleep-poll 2500000 -> pending 2
call 1 wake 0 -> ok
wake 0
answer 1 pending
advance 1000000
round 0
visit 0
event process_task 0 a
call 0 sleep-poll 3000000 -> pending 1
call 0 sleep-poll 2500000 -> pending 2
answer 0 pending
advance 2000000
fire 0
skip 2500000
fire 2
wake 0
round 0
visit 0
event process_task 0 a
call 0 sleep-poll 2500000 -> ready
answer 0 ready
call 0 close-node 2 -> ok
answer 0 ended
nodeend 1
wake 0
advance 3500000
fire 1
wake 0
round 0 0
advance 4500000
cleanup
nodeend 0
call 1 close-node 0 -> ok
answer 1 ended
crash
finish stalled
== late timed | A root that sleeps to the deadline.
start 0 10000000 1000000 0
root 0
round 0
visit 0
event process_task 0 -
call 0 sleep-poll 10000000 -> pending 0
answer 0 pending
advance 1000000
skip 10000000
cleanup
nodeend 0
call 0 close-node 0 -> ok
answer 0 ended
crash
finish timeout
== past early | Time skips past the deadline, and no alarm goes off there.
start 0 500000 1000000 0
root 0
round 0
visit 0
event process_task 0 -
call 0 sleep-poll 10000000 -> pending 0
answer 0 pending
advance 1000000
skip 10000000
cleanup
nodeend 0
call 0 close-node 0 -> ok
answer 0 ended
crash
finish timeout
== slots begin | A value and an error are sent, a slot is closed, one was given up, and the wait for one is aborted.
start 0 - 1000000 0
root 0
round 0
visit 0
event process_task 0 -
call 0 child 0 h -> node 1
call 0 spawn 1 -> task 1 node 2
call 0 slot -> slot 0
call 0 slot -> slot 1
call 0 slot -> slot 2
call 0 slot -> slot 3
call 0 slot -> slot 4
call 0 slot-poll 0 -> pending
call 0 slot-poll 1 -> pending
call 0 slot-poll 2 -> pending
call 0 slot-give-up 3 -> ok
call 0 slot-poll 3 -> err 12
answer 0 pending
advance 1000000
round 1
visit 1
event process_task 1 h
call 1 slot-send 0 -> ok
wake 0
silent call 1 slot-send 0 -> ok
call 1 slot-close 1 -> ok
wake 0
call 1 abort-wait 2 -> ok
wake 0
silent call 1 abort-wait 2 -> ok
call 1 slot-send 3 -> ok
call 1 slot-send 4 -> ok
call 1 slot-send 2 -> ok
silent call 1 slot-close 2 -> ok
answer 1 ready
call 1 close-node 2 -> ok
answer 1 ended
nodeend 1
advance 2000000
round 0 0 0
visit 0
event process_task 0 -
call 0 slot-poll 0 -> ready
call 0 slot-poll 0 -> err 2
call 0 slot-poll 1 -> err 2
call 0 slot-poll 2 -> err 3
call 0 slot-poll 4 -> err 7
call 0 slot-poll 4 -> err 7
call 0 slot-give-up 4 -> ok
silent call 0 slot-give-up 4 -> ok
call 0 slot-poll 4 -> err 12
call 0 give-up 1 -> ok
call 0 slot -> slot 5
call 0 slot-close 5 -> ok
call 0 slot-poll 5 -> err 2
answer 0 ready
cleanup
nodeend 0
call 0 slot-give-up 0 -> ok
call 0 slot-give-up 1 -> ok
call 0 slot-give-up 2 -> ok
call 0 close-node 0 -> ok
answer 0 ended
crash
finish ok
== signals begin | A value wakes who waits for it. A completion is met once both signals were given up. A group is closed.
start 0 - 1000000 0
root 0
round 0
visit 0
event process_task 0 -
call 0 signaler -> signal 1
call 0 clone-signal 1 -> signal 2
call 0 clone-signal 9 -> err 12
call 0 child 0 h -> node 1
call 0 spawn 1 -> task 1 node 2
call 0 signal-poll 2 -> pending
call 0 completion-poll 1 -> pending
answer 0 pending
advance 1000000
round 1
visit 1
event process_task 1 h
call 1 signal-poll 1 -> pending
call 1 signal 1 -5 -> ok
wake 1
wake 0
silent call 1 signal 1 6 -> ok
silent call 1 signaler-close 1 -> ok
call 1 signal-poll 1 -> ok -5
call 1 completion-poll 1 -> pending
call 1 signal-close 2 -> ok
silent call 1 signal-close 2 -> ok
call 1 signal-close 1 -> ok
wake 1
call 1 completion-poll 1 -> ok
call 1 completion-close 1 -> ok
silent call 1 completion-close 1 -> ok
call 1 completion-poll 1 -> err 12
call 1 signal-poll 1 -> err 12
call 1 signaler -> signal 3
call 1 signal-poll 3 -> pending
call 1 signaler-close 3 -> ok
wake 1
call 1 signal-poll 3 -> err 2
answer 1 ready
call 1 close-node 2 -> ok
answer 1 ended
nodeend 1
advance 2000000
round 1 0 1 1
visit 0
event process_task 0 -
call 0 signal-poll 2 -> err 12
answer 0 ready
cleanup
nodeend 0
call 0 signal-close 3 -> ok
call 0 close-node 0 -> ok
answer 0 ended
crash
finish ok
== shutdown begin | The first stop decides the value. Completions are met once the signals of the shutdown were given up.
start 0 - 1000000 0
root 0
round 0
visit 0
event process_task 0 -
event stopped
call 0 stopped -> signal 1
call 0 child 0 h -> node 1
call 0 spawn 1 -> task 1 node 2
call 0 signal-poll 1 -> pending
answer 0 pending
advance 1000000
round 1
visit 1
event process_task 1 h
event stop 00000009
call 1 stop 9 -> completion 2
wake 0
event stop fffffff9
call 1 stop -7 -> completion 3
event stopped
call 1 stopped -> closed 9
call 1 completion-poll 2 -> pending
call 1 completion-poll 3 -> pending
answer 1 pending
advance 2000000
round 0
visit 0
event process_task 0 -
call 0 signal-poll 1 -> ok 9
call 0 signal-close 1 -> ok
wake 1
wake 1
answer 0 pending
advance 3000000
round 1 1
visit 1
event process_task 1 h
call 1 completion-poll 2 -> ok
call 1 completion-close 2 -> ok
call 1 completion-poll 3 -> ok
call 1 completion-close 3 -> ok
call 1 wake 0 -> ok
wake 0
answer 1 ready
call 1 close-node 2 -> ok
answer 1 ended
nodeend 1
wake 1
advance 4000000
round 0 1
visit 0
event process_task 0 -
answer 0 ready
cleanup
nodeend 0
call 0 close-node 0 -> ok
answer 0 ended
crash
finish ok
== late-signals begin | Who waits for a signal isn't woken in a cleanup, whatever the tasks that end do.
start 0 - 1000000 0
root 0
round 0
visit 0
event process_task 0 -
call 0 signaler -> signal 1
call 0 clone-signal 1 -> signal 2
call 0 child 0 a -> node 1
call 0 spawn 1 -> task 1 node 2
call 0 child 0 b -> node 3
call 0 spawn 3 -> task 2 node 4
call 0 wake 0 -> ok
wake 0
answer 0 pending
advance 1000000
round 1 2 0
visit 1
event process_task 1 a
call 1 signal-poll 1 -> pending
answer 1 pending
visit 2
event process_task 2 b
call 2 signal-poll 2 -> pending
event stopped
call 2 stopped -> signal 3
call 2 signal-poll 3 -> pending
call 2 completion-poll 1 -> pending
answer 2 pending
visit 0
event process_task 0 -
answer 0 ready
cleanup
nodeend 0
call 1 signal 1 4 -> ok
event stop 00000001
call 1 stop 1 -> completion 4
call 1 close-node 2 -> ok
answer 1 ended
call 2 signal-close 2 -> ok
call 2 signal-close 3 -> ok
call 2 close-node 4 -> ok
answer 2 ended
call 0 signal-close 1 -> ok
call 0 completion-close 1 -> ok
call 0 close-node 0 -> ok
answer 0 ended
crash
finish ok
== stops-itself begin | A root with two signals of the shutdown begins it twice, and sees the first value.
start 0 - 1000000 0
root 0
round 0
visit 0
event process_task 0 -
event stopped
call 0 stopped -> signal 1
call 0 signal-poll 1 -> pending
event stopped
call 0 stopped -> signal 2
event stop 00000009
call 0 stop 9 -> completion 3
wake 0
event stop 00000007
call 0 stop 7 -> completion 4
answer 0 pending
advance 1000000
round 0
visit 0
event process_task 0 -
call 0 signal-poll 1 -> ok 9
event stopped
call 0 stopped -> closed 9
answer 0 ready
cleanup
nodeend 0
call 0 close-node 0 -> ok
answer 0 ended
crash
finish ok
== lacks-behind-calls begin | A poll that closed the root's context runs out of memory, and so does the root's end.
start 0 - 1000000 0
root 0
round 0
visit 0
event process_task 0 -
call 0 sleep-poll 5 -> pending 0
call 0 close-node 0 -> ok
answer 0 nomemory
cleanup
nodeend 0
answer 0 ended
crash
finish nomemory
";
