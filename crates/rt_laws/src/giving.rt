//! The definitions of what a generator gives, tried on any stream.

ghost use Rattle.std.specs.Prelude.{◌≡◌, ◌≢◌, ◌<◌, ◌%◌, ◌++◌, ◌↔◌, [], ◌∷◌, ℕ, List, length, map};
ghost use Rattle.std.specs.List.Sorted.{IsPermutation};
ghost use Rattle.rand_core.specs.Stream.{Stream, Call, next_u32, next_u64, fill_bytes};
ghost use Rattle.rt_audit.specs.declared.entry.Entry.TheVariants.{Round};
ghost use Rattle.rt_model.specs.Draws.{Drawn, Short, Long, Filled};
ghost use Rattle.rt_machine.specs.Draws.{Gave, Draws, Orders, Drains};
ghost use Rattle.rt_machine.specs.Told.{Told, pushed};
ghost use Rattle.rt_laws.specs.Giving.{asked_for, Fills, counting};

/// Of a stream that gave these one stream is left (`gave`), and so it is where they stand behind all that was drawn before
/// (`draws`).
pub fn what_a_stream_gave_leaves_one_stream()
    ensures gave { (from left other : Stream) (drawn : List Drawn) → Gave from drawn left → Gave from drawn other → left ≡ other }
    ensures draws { (from left other : Stream) (old new : List Drawn) → Draws from left old new → Draws from other old new → left ≡ other }
{}

/// A stream and what it is asked for, in its order, decide what it gives.
pub fn a_stream_decides_what_it_gives()
    ensures { (from left other : Stream) (one two : List Drawn) → map asked_for one ≡ map asked_for two → Gave from one left → Gave from two other → one ≡ two }
{}

/// A stream decides into which order it puts numbers (`order`), which stream is left of it then (`leaves`), and what is told
/// once a round has begun (`round`). The order has each number as often as it stood there (`permutes`).
pub fn a_stream_decides_the_order_of_a_round()
    ensures order { (from left other : Stream) (numbers one two : List ℕ) → Orders from left numbers one → Orders from other numbers two → one ≡ two }
    ensures leaves { (from left other : Stream) (numbers one two : List ℕ) → Orders from left numbers one → Orders from other numbers two → left ≡ other }
    ensures permutes { (from left : Stream) (numbers order : List ℕ) → Orders from left numbers order → IsPermutation numbers order }
    ensures round { (from left other : Stream) (old new last : Told) (one two : List ℕ) → Drains from left old new one → Drains from other old last two → (new ≡ last) × (one ≡ two) × (left ≡ other) }
{}

/// One number has its order without a draw (`single`), and so has a round of one that is ready (`round`). Of two numbers an even
/// draw puts the second in front (`even`), and an odd one leaves them as they stood (`odd`). Where they differ, neither does what
/// the other does (`not_kept`, `not_turned`).
pub fn a_draw_orders_two_numbers()
    ensures single { (from : Stream) (one : ℕ) → Orders from from (one ∷ []) (one ∷ []) }
    ensures round { (from : Stream) (old : Told) (one : ℕ) → old.state.ready ≡ one ∷ [] → old.state.draws ≡ [] → Drains from from old (pushed old (Round (one ∷ []))) (one ∷ []) }
    ensures even { (from : Stream) (one two : ℕ) → (next_u64 from).0 % 2 ≡ 0 → Orders from (next_u64 from).1 (one ∷ two ∷ []) (two ∷ one ∷ []) }
    ensures odd { (from : Stream) (one two : ℕ) → (next_u64 from).0 % 2 ≡ 1 → Orders from (next_u64 from).1 (one ∷ two ∷ []) (one ∷ two ∷ []) }
    ensures not_kept { (from left : Stream) (one two : ℕ) → one ≢ two → (next_u64 from).0 % 2 ≡ 0 → Orders from left (one ∷ two ∷ []) (one ∷ two ∷ []) → ⊥ }
    ensures not_turned { (from left : Stream) (one two : ℕ) → one ≢ two → (next_u64 from).0 % 2 ≡ 1 → Orders from left (one ∷ two ∷ []) (two ∷ one ∷ []) → ⊥ }
{}

/// Each stream gives the number of 32 bits that it answers next, and then the number of 64 bits that it answers behind that
/// (`numbers`), and the bytes with which it fills a buffer (`bytes`). One that fills every buffer gives something for any calls, in
/// their order (`calls`). Where nothing is drawn, the stream is left as it was, and not otherwise (`nothing`, `no_more`).
pub fn a_stream_gives_what_it_answers()
    ensures numbers { (from : Stream) → Gave from (Short (next_u32 from).0 ∷ Long (next_u64 (next_u32 from).1).0 ∷ []) (next_u64 (next_u32 from).1).1 }
    ensures bytes { (from : Stream) (count : ℕ) → length (fill_bytes count from).0 ≡ count → Gave from (Filled (fill_bytes count from).0 ∷ []) (fill_bytes count from).1 }
    ensures calls { (from : Stream) → Fills from → (calls : List Call) → (drawn : List Drawn) × (left : Stream) × (map asked_for drawn ≡ calls) × Gave from drawn left }
    ensures nothing { (from left : Stream) → Gave from [] left ↔ (left ≡ from) }
    ensures no_more { (from left : Stream) (old : List Drawn) → Draws from left old old ↔ (left ≡ from) }
{}

/// A stream that counts its calls gives the counts, whatever it is asked for (`counts`). It doesn't give them the other way round
/// (`turned`), one twice (`twice`), the second without the first (`late`), or bytes that differ in one place (`byte`). And it fills
/// every buffer (`fills`).
pub fn a_counting_stream_gives_its_counts()
    ensures counts { (left : Stream) × Gave counting (Short 0 ∷ Long 1 ∷ Filled (2 ∷ 2 ∷ []) ∷ Long 3 ∷ []) left }
    ensures turned { (left : Stream) → Gave counting (Long 1 ∷ Short 0 ∷ []) left → ⊥ }
    ensures twice { (left : Stream) → Gave counting (Short 0 ∷ Short 0 ∷ []) left → ⊥ }
    ensures late { (left : Stream) → Gave counting (Long 1 ∷ []) left → ⊥ }
    ensures byte { (left : Stream) → Gave counting (Filled (0 ∷ 1 ∷ []) ∷ []) left → ⊥ }
    ensures fills { Fills counting }
{}

/// What a stream gave in two parts it gave in one, and back: a stream is left of the first part, and gave the second.
pub fn a_stream_gives_in_parts_what_it_gives()
    ensures { (from left : Stream) (one two : List Drawn) → Gave from (one ++ two) left ↔ ((middle : Stream) × Gave from one middle × Gave middle two left) }
{}

/// No other number (`short`, `long`) and no other bytes (`bytes`) are given than the stream answers. Of two numbers the first is its
/// first answer, and the second the next (`order`): where they differ they aren't given the other way round (`turned`), nor is the
/// second given without the first (`left_out`). What was drawn before isn't lost (`lost`), nor changed at any place (`changed`).
pub fn near_misses_of_giving_are_not_given()
    ensures short { (from left : Stream) (number : ℕ) (more : List Drawn) → number ≢ (next_u32 from).0 → Gave from (Short number ∷ more) left → ⊥ }
    ensures long { (from left : Stream) (number : ℕ) (more : List Drawn) → number ≢ (next_u64 from).0 → Gave from (Long number ∷ more) left → ⊥ }
    ensures bytes { (from left : Stream) (bytes : List ℕ) (more : List Drawn) → bytes ≢ (fill_bytes (length bytes) from).0 → Gave from (Filled bytes ∷ more) left → ⊥ }
    ensures order { (from left : Stream) (one two : ℕ) → Gave from (Long one ∷ Long two ∷ []) left → (one ≡ (next_u64 from).0) × (two ≡ (next_u64 (next_u64 from).1).0) }
    ensures turned { (from left other : Stream) (one two : ℕ) → one ≢ two → Gave from (Long one ∷ Long two ∷ []) left → Gave from (Long two ∷ Long one ∷ []) other → ⊥ }
    ensures left_out { (from left other : Stream) (one two : ℕ) → one ≢ two → Gave from (Long one ∷ Long two ∷ []) left → Gave from (Long two ∷ []) other → ⊥ }
    ensures lost { (from left : Stream) (old new : List Drawn) → length new < length old → Draws from left old new → ⊥ }
    ensures changed { (from left : Stream) (one two : Drawn) (front old new : List Drawn) → one ≢ two → Draws from left (front ++ one ∷ old) (front ++ two ∷ new) → ⊥ }
{}
