// Published checksums, and digests that another program has worked out.

use crate::bufs::chunks;
use crate::told::{holds, same};
use rand_chacha::ChaCha12Rng;
use rand_core::{Rng, SeedableRng};
use rt_audit::{
    AuditEnv, AuditHasher, Auditor, Crc32c, Dice, Entry, EventFields, EventLabel, Journal, Label,
    Note, Order, ShortLabel,
};
use rt_base::{Env, Event, Items, Text};
use std::alloc::Global;
use std::process::Abort;

fn checksum(bytes: &[u8]) -> u32 {
    let mut checksum = Crc32c::new();
    checksum.update(bytes);
    checksum.finish()
}

// The definition's own program, bit by bit.
fn bit_by_bit(bytes: &[u8]) -> u32 {
    let mut register = u32::MAX;
    for byte in bytes {
        register ^= *byte as u32;
        for _ in 0..8 {
            let falls_out = register % 2 == 1;
            register /= 2;
            if falls_out {
                register ^= 0x82F6_3B78;
            }
        }
    }
    register ^ u32::MAX
}

const RISING: [u8; 32] = [
    0, 1, 2, 3, 4, 5, 6, 7, 8, 9, 10, 11, 12, 13, 14, 15, 16, 17, 18, 19, 20, 21, 22, 23, 24, 25,
    26, 27, 28, 29, 30, 31,
];

// The check value of the checksum's catalogue, and the examples of RFC 3720, appendix B.4.
#[test]
fn checksum_of_nine_digits(rt: HostRuntime) {
    let published: [(&[u8], u32); 5] = [
        (b"123456789", 0xe306_9283),
        (&[0; 32], 0x8a91_36aa),
        (&[255; 32], 0x62a8_ab43),
        (&RISING, 0x46dd_794e),
        (b"", 0),
    ];
    for (bytes, wanted) in published {
        assert!(rt; checksum(bytes) == wanted, "{wanted}");
    }
}

fn checksum_of_two(front: &[u8], back: &[u8]) -> u32 {
    let mut pieces = Crc32c::new();
    pieces.update(front);
    pieces.update(back);
    pieces.finish()
}

#[test]
fn words_as_bit_by_bit(rt: HostRuntime) {
    for first in 0..RISING.len() {
        let (front, back) = RISING.split_at(first);
        assert!(rt; checksum(back) == bit_by_bit(back), "from {first}");
        let pieces = checksum_of_two(front, back);
        assert!(rt; pieces == bit_by_bit(&RISING), "cut at {first}");
    }
}

fn hashes(rt: &impl Abort, what: &str, fields: &[&[u8]], wanted: [u8; 4]) {
    let mut hasher = AuditHasher::new();
    for field in fields {
        hasher.update(field);
    }
    same(rt, what, hasher.finalize(), wanted);
}

#[test]
fn lengths_keep_fields_apart(rt: HostRuntime) {
    hashes(&rt, "none", &[], [0; 4]);
    hashes(&rt, "an empty one", &[b""], [0x8c, 0x28, 0xb2, 0x8a]);
    hashes(&rt, "a, bc", &[b"a", b"bc"], [0x41, 0x3c, 0x92, 0x58]);
    hashes(&rt, "ab, c", &[b"ab", b"c"], [0x59, 0x72, 0xdf, 0x7a]);
}

#[test]
fn chunks_are_one_field(rt: HostRuntime) {
    let bufs = chunks(&rt, rt.alloc(), &["ab", "c", "de"]);
    let mut hasher = AuditHasher::new();
    hasher.update_bufs(&bufs);
    same(&rt, "a hash", hasher.finalize(), [0x60, 0xbc, 0x59, 0x28]);
}

/// Fields of zeros, of these sizes.
fn zeros(rt: &impl Abort, alloc: Global, sizes: &[usize]) -> Items<Items<u8>> {
    let mut fields = Vec::new(alloc);
    for &size in sizes {
        let field = Items::of(vec![in alloc; 0u8; size].expect(rt, "room"));
        fields.push(field).expect(rt, "room");
    }
    Items::of(fields)
}

fn event(rt: &impl Abort, alloc: Global, label: &str, sizes: &[usize]) -> Event {
    let label = Text::of(label.to_owned(alloc).expect(rt, "room"));
    let fields = zeros(rt, alloc, sizes);
    Event { label, fields }
}

fn entry(rt: &impl Abort, alloc: Global, label: &str, sizes: &[usize]) -> Entry {
    let label = EventLabel::named(alloc, label).expect(rt, "room");
    let fields = EventFields::listed(zeros(rt, alloc, sizes));
    Entry::Event { label, fields }
}

fn tell(auditor: &mut Auditor, event: Event) {
    auditor.event(&event);
}

fn has_state(rt: &impl Abort, alloc: Global, auditor: &Auditor, wanted: &str) {
    let state = auditor.state(alloc).expect(rt, "room");
    holds(rt, wanted, state.as_str() == wanted);
}

#[test]
fn fresh_auditor(rt: HostRuntime) {
    let alloc = rt.alloc();
    let mut auditor = Auditor::new();
    has_state(&rt, alloc, &auditor, "00000000");
    has_state(&rt, alloc, &Auditor::default(), "00000000");
    tell(&mut auditor, event(&rt, alloc, "process_task", &[16, 0]));
    has_state(&rt, alloc, &auditor, "32ffd0c0");
    tell(&mut auditor, event(&rt, alloc, "ok", &[]));
    has_state(&rt, alloc, &auditor, "07b84907");
}

fn has_digest(rt: &impl Abort, what: &str, journal: &Journal, wanted: [u8; 4]) {
    same(rt, what, journal.digest(), wanted);
}

#[test]
fn digest_of_a_journal(rt: HostRuntime) {
    let alloc = rt.alloc();
    let mut journal = Journal::new(alloc);
    has_digest(&rt, "no event", &journal, [0; 4]);
    journal.reserve(4).expect(&rt, "room");
    push(&rt, &mut journal, Entry::Wake { task: 1 });
    let visit = entry(&rt, alloc, "process_task", &[16, 0]);
    push(&rt, &mut journal, visit);
    push(&rt, &mut journal, Entry::Draw { value: 1 });
    has_digest(&rt, "one event", &journal, [0x32, 0xff, 0xd0, 0xc0]);
    push(&rt, &mut journal, entry(&rt, alloc, "ok", &[]));
    has_state(&rt, alloc, &journal.auditor(), "07b84907");
}

fn push_round(rt: &impl Abort, alloc: Global, journal: &mut Journal, numbers: &[u64]) {
    let order = Order::of(alloc, numbers).expect(rt, "room");
    push(rt, journal, Entry::Round { order });
}

#[test]
fn rounds_of_a_journal(rt: HostRuntime) {
    let mut journal = Journal::new(rt.alloc());
    same(&rt, "no round", journal.rounds(), 0);
    push_round(&rt, rt.alloc(), &mut journal, &[0]);
    push(&rt, &mut journal, Entry::Cleanup);
    push_round(&rt, rt.alloc(), &mut journal, &[1, 0]);
    same(&rt, "two rounds", journal.rounds(), 2);
}

/// The fields of a visit, with the label behind a pointer.
pub fn kept(rt: &impl Abort, alloc: Global, task: u64, label: &str) -> EventFields {
    EventFields::of_task(task, Label::of(alloc, label).expect(rt, "room"))
}

/// The same with a short label.
pub fn in_place(rt: &impl Abort, task: u64, label: &str) -> EventFields {
    EventFields::of_short_task(task, ShortLabel::of(label).expect(rt, "at most 22 bytes"))
}

/// Adds a copy of a field.
fn push_field(rt: &impl Abort, alloc: Global, list: &mut Vec<Items<u8>>, field: &[u8]) {
    let copy = field.to_vec(alloc).expect(rt, "room");
    list.push(Items::of(copy)).expect(rt, "room");
}

/// The fields of a visit, in a list.
pub fn listed(rt: &impl Abort, alloc: Global, task: u64, label: &str) -> EventFields {
    let fields = kept(rt, alloc, task, label);
    let mut list = Vec::new(alloc);
    for place in 0..fields.len() {
        let field = fields.get(place).expect(rt, "a field");
        push_field(rt, alloc, &mut list, field);
    }
    EventFields::listed(Items::of(list))
}

/// Makes room for an entry in a journal, and adds it.
pub fn push(rt: &impl Abort, journal: &mut Journal, entry: Entry) {
    journal.reserve(1).expect(rt, "room");
    journal.push(entry);
}

fn push_visit(rt: &impl Abort, journal: &mut Journal, fields: EventFields) {
    let label = EventLabel::process_task();
    push(rt, journal, Entry::Event { label, fields });
}

/// Stops where a journal of two visits has another digest than is known of them.
fn are_digested(rt: &impl Abort, alloc: Global, what: &str, visits: (EventFields, EventFields)) {
    let mut journal = Journal::new(alloc);
    push_visit(rt, &mut journal, visits.0);
    push_visit(rt, &mut journal, visits.1);
    has_digest(rt, what, &journal, [0xec, 0x89, 0x45, 0x7e]);
}

#[test]
fn visits_are_digested_alike(rt: HostRuntime) {
    let alloc = rt.alloc();
    let first = kept(&rt, alloc, 258, "ab");
    let visits = (first, kept(&rt, alloc, 70_000, ""));
    are_digested(&rt, alloc, "kept", visits);
    let visits = (in_place(&rt, 258, "ab"), in_place(&rt, 70_000, ""));
    are_digested(&rt, alloc, "in place", visits);
    let first = listed(&rt, alloc, 258, "ab");
    let visits = (first, listed(&rt, alloc, 70_000, ""));
    are_digested(&rt, alloc, "listed", visits);
}

/// What an environment that is told an event has for its auditor, and draws next.
fn told_env(rt: &impl Abort, event: Event) -> (Auditor, u64) {
    let mut env = AuditEnv::new(ChaCha12Rng::seed_from_u64(7));
    env.reserve(usize::MAX).expect(rt, "room");
    env.event(event);
    let drawn = env.draw();
    (env.auditor(), drawn)
}

fn told_journal(rt: &impl Abort, alloc: Global, entry: Entry) -> Auditor {
    let mut journal = Journal::new(alloc);
    push(rt, &mut journal, entry);
    journal.auditor()
}

/// Whether an environment, an auditor and a journal that are told one event agree on it, and the environment draws from
/// its generator.
pub fn agree_on_an_event(rt: &impl Abort, alloc: Global) -> bool {
    let (of_env, drawn) = told_env(rt, event(rt, alloc, "ok", &[3]));
    let mut auditor = Auditor::default();
    tell(&mut auditor, event(rt, alloc, "ok", &[3]));
    let of_journal = told_journal(rt, alloc, entry(rt, alloc, "ok", &[3]));
    let next = ChaCha12Rng::seed_from_u64(7).next_u64();
    (of_env == auditor) & (of_journal == auditor) & (drawn == next)
}

/// Whether dice keep what they are told and what is drawn, and draw from their generator.
pub fn note_all(rt: &impl Abort, alloc: Global) -> bool {
    let mut dice = Dice::new(alloc, ChaCha12Rng::seed_from_u64(7));
    dice.reserve(2).expect(rt, "room");
    dice.event(event(rt, alloc, "ok", &[3]));
    let drawn = dice.draw();
    let next = ChaCha12Rng::seed_from_u64(7).next_u64();
    match dice.notes.as_slice() {
        [Note::Happened(event), Note::Drawn(number)] => {
            (event.label.as_str() == "ok") & (*number == drawn) & (drawn == next)
        }
        _ => false,
    }
}
