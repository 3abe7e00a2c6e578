// Changes of one line of a journal, by each of which the copy is refused at that line.

/// For each journal, by its name after `=`: the place of an entry, what becomes of its line, the line that is there or before it
/// then, and what is wrong. A line that begins with `#` says what the ones below it are about.
pub const COPIES: &str = "\
= ready
# Over a ready root: what its start must say.
0 instead start 0 - 1000000 1 | another first number
0 instead start 1 - 1000000 0 | another first moment
0 instead start 0 - 1000001 0 | another cycle
0 instead start 0 0 1000000 0 | a deadline
= ready
# Over a ready root: to the answer of its visit.
0 missing | a cut-off front
1 before start 0 - 1000000 0 | two starts
1 instead root 1 | another number for the root
2 before root 1 | two roots
2 instead round | a round without a number
2 instead round 0 0 | a round with a number twice
2 instead round 1 | a round with another number
3 instead visit 1 | a visit of another task
4 missing | a visit without its event
5 before event process_task 0 - | two events of a visit
4 instead event process_task 1 - | the event of another task
4 before cleanup | a cleanup before the event of a visit
5 before cleanup | a cleanup in a poll
5 before draw 0 | a draw in a poll
5 instead answer 1 ready | another task's answer
5 instead answer 0 ended | an end in place of an answer
5 instead answer 0 stopped | a stop without a panic
= ready
# Over a ready root: its cleanup.
6 before advance 1000000 | an advance once the root is ready
6 before draw 0 | a draw once the root is ready
6 before nodeend 0 | a node that ends before the cleanup
7 before cleanup | two cleanups
7 before call 0 wake 0 -> ok | a call before the node's end
7 missing | a node that doesn't end
7 instead nodeend 1 | another node's end
8 before nodeend 0 | two ends of a node
9 before call 0 close-node 0 -> ok | a context that is closed twice
9 before call - wake 0 -> ok | a call by nobody with a task left
9 missing | a task that doesn't end
9 instead answer 1 ended | the end of another task
10 before call 0 wake 0 -> ok | a call of a dead task
10 before call - wake 0 -> ok | a call by nobody after the last end
10 missing | no crash
10 instead crash k | a crash with a choice
11 instead finish timeout | a wrong cause
12 before cleanup | an entry after the finish
10 before call - sleep-poll 5 -> pending 0 | a sleep of nobody after the last end
= sleep
# Over a root that sleeps: its sleep, and the clock.
5 instead call 1 sleep-poll 10000000 -> pending 0 | a call by another task
5 instead call 0 sleep-poll 10000000 -> ready | a sleep that ends too soon
5 instead call 0 sleep-poll 9223372036854775808000000000 -> pending 0 | a sleep past the last moment
5 instead call 0 sleep-poll 10000000 -> pending 1 | another alarm's number
7 instead advance 2000000 | an advance by another cycle
7 missing | no advance
8 before advance 2000000 | two advances
8 instead skip 9999999 | a skip to a sooner moment
8 instead skip 10000001 | a skip to a later moment
8 missing | a fire before its skip
9 before skip 10000000 | two skips
= sleep
# Over a root that sleeps: its alarm and its wake.
9 instead fire 1 | another alarm's fire
9 instead round 0 | a round with an alarm due
10 missing | a missing wake
10 instead wake 1 | a wake of another task
11 before wake 0 | a wake that nobody owes
11 before fire 0 | a fire of an alarm that is gone
11 instead round | a second round with its number missing
12 instead visit 1 | a visit of a task that doesn't run
14 instead call 0 sleep-poll 10000000 -> pending 1 | a sleep that goes on past its end
= late
# Over a root that sleeps to the deadline.
9 before fire 0 | a late fire
9 before round 0 | a round at the deadline
14 instead finish ok | a late cause that is ok
14 instead finish stalled | a late cause that is a stall
0 instead start 0 - 1000000 0 | a start without the deadline
0 instead start 0 10000001 1000000 0 | a start with a later deadline
= stall
# Over a root that wakes itself and stalls.
6 missing | a wake that isn't carried out
5 instead call 0 wake 0 -> err 12 | a refused wake of a task that is there
7 instead call 0 wake 1 -> ok | a wake of a task that isn't there
7 instead call 0 wake 1 -> err 2 | a wake that is refused for another reason
13 instead round 0 | a round with a number once that was woken twice
14 before draw 7 | a draw after its round
20 before visit 0 | a third visit of two
17 before advance 2000000 | a round that passes over a task that runs
= made
# Over a task of the maker: what spawns it, and its end.
1 instead call - child 0 side -> node 0 | a child at a node that is known
1 instead call - child 0 side -> node 1 ended | a child that has ended below a live node
1 instead call - child 1 side -> node 1 | a child of a context that isn't there
2 instead call - spawn 2 -> task 0 node 2 | a spawn on a context that isn't there
2 instead call - spawn 1 -> task 1 node 2 | another number for the task
2 instead call - spawn 1 -> task 0 node 1 | a context of its own that is known
2 instead call - spawn 1 -> closed | a spawn that finds a live node closed
2 instead call - spawn 1 -> err 12 | a refused spawn on a context that is there
3 instead call - give-up 1 -> ok | a handle that isn't there
4 instead root 0 | the task's number for the root
5 instead round 1 | a round without the task
6 instead visit 1 | a visit out of order
7 instead event process_task 0 - | an event without the task's label
7 instead event process_task 1 side | the event of the root
8 instead answer 0 stopped | a stop without a panic
9 before call 0 close-node 1 -> err 12 | a refused close of a spent context
10 instead answer 1 ended | the end of the root
11 instead nodeend 2 | the end of another node
11 missing | a node that doesn't end
16 instead nodeend 1 | a node that ends again in place of the root's
= made
# Over a task of the maker: it ends within its visit.
9 instead call 1 sleep-poll 5 -> pending 0 | a call of the root at the task's end
9 instead call - wake 1 -> ok | a call by nobody at the task's end
9 instead answer 1 ended | the end of the root at the task's end
9 instead answer 0 ready | a second answer
9 instead visit 1 | a visit before the task has ended
9 instead cleanup | a cleanup before the task has ended
11 instead call 0 wake 1 -> ok | a call after the end of its state
11 instead visit 1 | a visit after the end of its state
11 instead cleanup | a cleanup after the end of its state
12 instead visit 0 | a visit of it after the end of its node
12 instead answer 0 ended | a second end of its state
12 instead advance 1000000 | an advance before the round is over
9 instead call - close-node 2 -> ok | a close by nobody at the task's end
= aborts
# Over a task that aborts itself and finishes.
7 instead call 0 join 1 -> ready | a result before the task's visit
7 instead call 0 join 1 -> err 2 | an end before the task's visit
7 instead call 0 join 2 -> pending | a join by a handle that isn't there
13 instead call 1 abort-task 2 -> ok | an abort of a task that isn't there
13 instead call 1 abort-task 1 -> err 12 | a refused abort of a task that is there
17 missing | a joiner that isn't woken
17 instead wake 1 | a wake of the task in place of its joiner
18 instead wake 1 | a wake in place of the node's end
23 instead call 0 join 1 -> pending | a pending join of a task that is over
23 instead call 0 join 1 -> err 1 | a panic that nobody reported
24 instead call 0 join 1 -> ready | a result that is returned twice
= stops
# Over a task that aborts itself and is left pending.
5 instead call 0 abort-task 0 -> ok | an abort of the root by its number
15 instead answer 1 stopped | a stop without a panic
16 instead visit 0 | a visit before the task has ended
18 instead wake 0 | a wake in place of the node's end
19 missing | a task whose own number isn't queued
20 missing | a joiner that isn't woken
22 instead round 0 | a round without the stopped task
22 instead round 1 1 | a round with a number twice in place of another
23 instead visit 1 | a visit of the stopped task
25 instead call 0 join 1 -> ready | a result of the stopped task
25 instead call 0 join 1 -> pending | a pending join of the stopped task
= family
# Over a child that ends with its parent.
26 instead event process_task 3 c | a label without the parent's
40 missing | a joiner that isn't woken
40 instead wake 1 | a wake of the parent in place of its joiner
41 instead nodeend 5 | the child's node in place of the parent's
42 missing | a parent whose own number isn't queued
42 instead wake 3 | the child's number before the parent's
43 missing | a child whose number isn't queued
43 instead wake 2 | the number of a task that goes on in place of the child's
45 instead round 0 3 | a round without the parent
52 instead visit 1 | a visit of the parent after its end
54 instead answer 3 pending | a poll of the child
55 instead answer 3 pending | a child that goes on
56 instead nodeend 5 | the end of a node that has ended before
69 missing | another task whose own number isn't queued
8 instead call 0 spawn 3 -> task 1 node 4 | a task's number that was given before
63 instead answer 2 ended | the end of a task beside one that ended
= twice
# Over a task that wakes itself twice and ends at the first of its two visits.
19 instead round 1 | a round with a number once that was woken twice
27 missing | no wake of a task that was left pending
28 before visit 1 | a second visit of a task that has ended
29 instead round 0 | a round without the number of a task that has ended
37 before visit 1 | a visit of that task in the next round
= caught
# Over a caught panic.
16 missing | no wake of the root that joins
17 before wake 0 | a wake of a root that isn't stopped
19 instead round 0 0 | a round with the root twice
22 before answer 0 stopped | a stop without a panic that is kept
22 instead call 0 join 1 -> ready | a value of a task that panicked
22 instead call 0 join 1 -> err 2 | a task that panicked as closed
= root-panic
# Over a panic of the root.
6 before answer 0 ended | an end of the root in its visit
6 before call 0 wake 0 -> ok | a call after the panic
6 before advance 1000000 | an advance after the panic
11 instead finish ok | a finish as if nobody panicked
= cut
# Over a run that is cut off before its first round.
2 before answer 0 pending | an answer of a root that wasn't visited
5 missing | a root that doesn't end
7 instead finish ok | a finish as if the root was ready
7 instead finish stalled | a finish as of a stall
= unmade
# Over a run that is cut off before its root.
3 instead call 0 close-node 0 -> ok | a call by a root that wasn't taken in
3 before root 0 | a root in the cleanup
4 before answer 0 ended | the end of a root that wasn't taken in
5 instead finish tasks | too many tasks while numbers are left
= panic
# Over a panic that is kept.
17 missing | a second wake that is missing
18 missing | a node that doesn't end
20 instead round 0 | a round with a number once that was woken twice
23 instead answer 0 ready | a root that is ready after a panic
23 instead answer 0 pending | a root that is pending after a panic
23 instead call 0 join 1 -> err 1 | a poll of the root after a panic
24 instead visit 0 | a visit after a panic
30 instead finish ok | a wrong cause
= refused
# Over calls that are refused or come too late.
5 instead call 0 child 0 runtimes -> err label | a reserved label that is refused as bad
5 instead call 0 child 0 runtimes -> node 1 | a reserved label that is taken
6 instead call 0 child 0 9a -> err reserved | a bad label that is refused as reserved
6 instead call 0 child 0 9a -> err 12 | a bad label that is refused as an unknown context
7 instead call 0 child 1 9a -> err label | a bad label on a context that isn't there
8 instead call 0 spawn 1 -> err 13 | too many tasks on a context that isn't there
9 instead call 0 abort-task 9 -> ok | an abort of a task that isn't there
10 instead call 0 wake 0 -> err 12 | a refused wake of a task that is there
11 instead call 0 join 9 -> err 2 | an end by a handle that isn't there
13 instead call 0 child 1 runtime -> err reserved | a label that is reserved at the top alone
15 instead call 0 spawn 2 -> task 2 node 4 | a second spawn on a context
17 before call 0 abort 1 -> ok | a second abort by the handle
18 before call 0 close-node 1 -> ok | a second close of a context
18 before call 0 child 1 b -> node 4 | a child of a closed context
= refused
# Over the same calls: a spawn on an ended node.
22 instead call 1 child 3 b -> node 4 | a live child of an ended node
23 instead call 1 spawn 4 -> task 2 node 5 | a spawn on an ended node
23 instead call 1 spawn 4 -> err 12 | a refused spawn on a context that is there
24 instead call 1 spawn 4 -> closed | a second spawn on a spent context
25 instead wake 1 | a wake in place of a close
27 instead call 0 join 1 -> pending | a pending join of a task that is over
14 instead call 0 spawn 2 -> err 13 | too many tasks while numbers are left
= last-numbers
# Over two tasks that take the last numbers.
3 instead root 18446744073709551615 | the greatest number for the root
8 instead call 18446744073709551613 spawn 4 -> err 13 | too many tasks on a context that isn't there
9 instead call 18446744073709551613 spawn 3 -> task 18446744073709551615 node 4 | the greatest number for a task
11 instead call 18446744073709551613 spawn 3 -> err 13 | a spent context that is refused for too many tasks
18 instead call 18446744073709551614 wake 18446744073709551615 -> ok | a wake of the greatest number
= no-number
# Over a maker that leaves no number for the root.
4 instead call - spawn 3 -> task 18446744073709551615 node 4 | a task by the greatest number
6 before root 18446744073709551615 | a root by the greatest number
6 before round 18446744073709551614 | a round without a root
12 instead finish stalled | a finish as of a stall
= root-first
# Over a cleanup of three tasks.
11 instead visit 0 | a visit once the root is ready
13 instead answer 1 ended | the root's end before any other
13 instead call 1 close-node 0 -> ok | the root's call first
13 instead call 2 close-node 4 -> ok | the last task's call first
14 instead answer 1 ended | the root's end first
15 instead nodeend 1 | the end of a node in the cleanup
16 instead answer 1 ended | the root's end before the last task's
16 missing | a task that doesn't end
20 instead nodeend 0 | a second end of the first node
= two-panics
# Over a task that is polled once another's panic is kept.
21 instead answer 2 ended | the end of a task that nothing ends
= node-ended
# Over a first node that ended before the cleanup.
9 instead cleanup | a cleanup before the node's end
14 instead nodeend 0 | a second end of the node
= slots
# Over slots: their numbers and what is polled of them.
8 instead call 0 slot -> slot 0 | a slot's number that was given before
8 instead call 0 slot -> slot 2 | a number that is passed over
12 instead call 0 slot-poll 0 -> ready | a value before the send
12 instead call 0 slot-poll 0 -> err 3 | an abort of a wait that goes on
12 instead call 0 slot-poll 5 -> pending | a wait for a slot that isn't there
16 instead call 0 slot-poll 3 -> pending | a wait for a slot that was given up
16 instead call 0 slot-poll 3 -> err 2 | a slot that was given up and is refused as closed
39 instead call 0 slot-poll 0 -> pending | a wait for what was sent
40 instead call 0 slot-poll 0 -> ready | a value that is returned twice
41 instead call 0 slot-poll 1 -> err 3 | an abort of a wait that nobody aborted
42 instead call 0 slot-poll 2 -> ready | a value after an abort
44 instead call 0 slot-poll 4 -> pending | a wait for an error that was returned
46 instead call 0 slot-poll 4 -> err 7 | an error that is returned after the giving up
= slots
# Over slots: what is done to them, and whom it wakes.
22 instead call 1 slot-send 5 -> ok | a send into a slot that isn't there
23 missing | a receiver that isn't woken by a send
23 instead wake 1 | a wake of the sender in place of the receiver
24 before call 1 slot-send 0 -> ok | a second send
24 before call 1 slot-close 0 -> ok | a close after the send
25 missing | a receiver that isn't woken by a close
27 missing | a receiver that isn't woken by an abort
28 before call 1 abort-wait 2 -> ok | a second abort of a wait
29 before wake 0 | a wake for a slot that was given up
30 before wake 0 | a wake for a slot that nobody waits for
31 before wake 0 | a wake after an abort
46 before call 0 slot-give-up 4 -> ok | a second giving up
41 instead call 0 slot-poll 1 -> pending | a wait for a slot that was closed
= signals
# Over a group of signals.
5 instead call 0 signaler -> signal 2 | a signaler of another number
6 instead call 0 clone-signal 3 -> signal 2 | a further signal of one that isn't there
6 instead call 0 clone-signal 1 -> err 12 | a refused one of one that is there
10 instead call 0 signal-poll 2 -> ok -5 | a value before it was given
11 instead call 0 completion-poll 1 -> ok | a completion that is met before
18 instead call 1 signal 2 -5 -> ok | a value by a signaler that isn't there
19 missing | one who waits isn't woken by the value
19 instead wake 0 | the wakes in the other order
21 before wake 0 | the completion's wait is met by the value
21 before call 1 signal 1 6 -> ok | a second value
21 before call 1 signaler-close 1 -> ok | a signaler that is given up after its value
21 instead call 1 signal-poll 1 -> ok 6 | another value
21 instead call 1 signal-poll 1 -> pending | pending after the value
22 instead call 1 completion-poll 1 -> ok | a completion that is met with two open signals
24 before call 1 completion-poll 1 -> ok | a completion that is met with an open signal
24 before call 1 signal-close 2 -> ok | a second giving up of a signal
24 before call 1 signal-poll 2 -> ok -5 | a poll of a signal that was given up
25 missing | one who waits isn't woken by the last signal
26 instead call 1 completion-poll 1 -> ready | a completion that returns ready
28 before call 1 completion-close 1 -> ok | a second giving up of a completion
34 instead call 1 signal-poll 3 -> ok -5 | a value of a closed group
34 instead call 1 signal-poll 3 -> pending | pending in a closed group
34 before call 1 completion-close 3 -> ok | a completion of a closed group
20 missing | the second who waits isn't woken by the value
= shutdown
# Over a shutdown.
5 missing | a signal of the shutdown without its event
6 instead call 0 stop 9 -> completion 1 | the event of another call
6 instead call 0 stopped -> signal 0 | a signal of another number
6 instead call 0 stopped -> closed 9 | a value before the stop
9 before call 0 signal 0 9 -> ok | a signaler of the shutdown
6 before event stopped | two events before a call
16 instead call 1 stop 8 -> completion 2 | an event of another value
16 instead call 1 stop 9 -> completion 3 | a completion of another number
17 missing | one who waits isn't woken by the stop
20 before wake 0 | a wake by the second stop
21 instead call 1 stopped -> signal 4 | another signal after the stop
21 instead call 1 stopped -> closed -7 | the value of the second stop
22 instead call 1 completion-poll 2 -> ok | a completion that is met with an open signal
29 instead call 0 signal-poll 1 -> ok -7 | the second stop's value is shown
32 missing | one wake for two completions
= draws
# Over a root that draws and asks for the digest.
6 instead call 0 u32 -> 4294967296 | 32 bits that are more
6 instead call 0 u32 -> ok 7 | a value where a number was drawn
8 instead call 0 u64 -> bytes 0000000000000007 | bytes where a number was drawn
7 missing | a draw without its event
8 instead call 0 u32 -> 7 | the event of another draw
7 instead event rand next_u16 | the event of no draw
7 instead event random next_u64 | an event of another label
7 instead event rand | an event without a name
7 instead event rand next_u64 next_u32 | an event of two draws
8 before event rand next_u64 | two events before a draw
10 instead call 0 fill 3 -> 0007 | one byte too few
10 instead call 0 fill 3 -> number 7 | a number where bytes were drawn
12 instead call 0 auditor -> 01020304 | a digest after the event of a draw
13 instead call 0 auditor -> 010203 | a digest of three bytes
17 missing | a draw at the end without its event
= late-signals
# Over signals in a cleanup.
33 before event process_task 1 a | an event of a visit in the cleanup
34 before wake 1 | a wake in the cleanup
34 before call 1 signal 1 5 -> ok | a second value
34 missing | a stop in the cleanup without its event
= kin
# Over a child that ends with its parent before its first poll.
25 instead answer 2 ready | a poll of a child below an ended node
27 instead nodeend 3 | the end of the child's node, which has ended before
= polled-and-aborted
# Over a task that is aborted after its first poll, and one before.
20 instead answer 2 ready | a poll of a task that was aborted before its first
32 instead answer 1 ready | a poll of a task that was aborted after its first
= sent-and-aborted
# Over a wait that is aborted after the send.
10 instead call 0 slot-poll 0 -> ready | what was sent, after an abort of the wait
= stops-itself
# Over a root that stops its own run twice.
20 instead call 0 signal-poll 1 -> ok 7 | the second stop's value is shown to who stopped
";
