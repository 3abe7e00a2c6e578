// What no clause says: printed texts, and that calls succeed where there is memory.

use crate::told::{holds, same};
use rt_base::{
    Addr, BLOB_PAGE_SIZE, BlobLayout, BlobVersion, Cell, Choice, DEFAULT_BLOB_LAYOUT,
    DEFAULT_BLOB_VERSION, Env, Error, Event, Execution, Failed, IoKind, Ip, Items, ListSink,
    ListSource, MAX_TIME, MetricError, Name, NoEnv, NoMemory, Poll, ReadOptions, Refused, SafeSink,
    SafeSource, Sink8, SmallText, Source, StdSink, StdSource, Text, Unread, WriteOptions,
    add_attribute, check_child_label, child_label, error_text, prefixed_name, read_retried,
    read_whole, spawn_cell, validate_label, write_retried, write_whole,
};
use std::alloc::Global;
use std::io;
use std::io::{Read, Write};
use std::process::Abort;

fn text(rt: &impl Abort, alloc: Global, bytes: &str) -> Text {
    Text::of(String::from_str(alloc, bytes).expect(rt, "room"))
}

fn failed<T: Drop, E: Drop + PartialEq>(answer: Result<T, E>, why: E) -> bool {
    match answer {
        Ok(_) => false,
        Err(error) => error == why,
    }
}

#[test]
fn surface(rt: HostRuntime) {
    let alloc = rt.alloc();
    copies(&rt, alloc, "ab");
    items(&rt, alloc);
    small_types(&rt);
    read_options(&rt);
    write_options(&rt);
    holds(&rt, "layouts and versions", layouts_and_versions());
    version_is_printed(&rt, alloc);
    errors(&rt, alloc);
    same(&rt, "a label", validate_label("a_1"), Ok(()));
    names(&rt, alloc);
    environment(&rt, alloc);
    sources(&rt, alloc);
    keeps(&rt, alloc, b"run");
    keeps_two_of_three(&rt, alloc);
}

fn reads(rt: &impl Abort, seen: &str, wanted: &str) {
    assert!(rt; seen == wanted, "{wanted}");
}

/// Makes and copies a text.
fn copies(rt: &impl Abort, alloc: Global, letters: &str) {
    let word = text(rt, alloc, letters);
    reads(rt, word.as_str(), letters);
    let copy = word.clone_value().expect(rt, "room");
    same(rt, "a copy", text(rt, alloc, letters), copy);
    same(rt, "its letters", word.into_inner().len(), letters.len());
}

fn items(rt: &impl Abort, alloc: Global) {
    let items: Items<u64> = Items::of(vec![in alloc; 1u64, 2].expect(rt, "room"));
    holds(rt, "items", items.as_slice() == [1u64, 2].as_slice());
    same(rt, "two items", items.into_inner().len(), 2);
}

fn small_types(rt: &impl Abort) {
    holds(rt, "a poll", Poll::Ready(3u64) != Poll::Pending);
    holds(rt, "a choice", Choice::Kept != Choice::Prefix(0));
    let own = Execution::Shared(false);
    same(rt, "by default", Execution::default(), own);
    let seconds = MAX_TIME / 1_000_000_000;
    same(rt, "the last second", seconds, 9223372036854775807);
}

fn read_options(rt: &impl Abort) {
    let none = ReadOptions::default();
    let mut read = none;
    let lacks = !read.contains(ReadOptions::DONT_CACHE);
    holds(rt, "none", (read.bits() == 0) & lacks);
    read |= ReadOptions::DONT_CACHE;
    same(rt, "one", read, ReadOptions::DONT_CACHE | none);
    same(rt, "none again", read.without(read), none);
}

/// Whether options don't have this one, and come to these bits with it.
fn adds(write: &mut WriteOptions, option: WriteOptions, bits: u8) -> bool {
    let lacked = !write.contains(option);
    *write |= option;
    lacked & write.contains(option) & (write.bits() == bits)
}

fn write_options(rt: &impl Abort) {
    let mut write = WriteOptions::default();
    holds(rt, "one", adds(&mut write, WriteOptions::SYNC, 1));
    holds(rt, "two", adds(&mut write, WriteOptions::DONT_CACHE, 3));
    let both = WriteOptions::SYNC | WriteOptions::DONT_CACHE;
    same(rt, "both", write, both);
    same(rt, "the other", write.without(WriteOptions::SYNC).bits(), 2);
}

fn layouts_and_versions() -> bool {
    let paged = (BLOB_PAGE_SIZE == 4096) & (DEFAULT_BLOB_LAYOUT == BlobLayout::ALL.1);
    let version = BlobVersion::new(65535);
    let greater = (DEFAULT_BLOB_VERSION < version) & (version.get() == 65535);
    let own = BlobVersion::default() == DEFAULT_BLOB_VERSION;
    paged & (BlobLayout::ALL.0 < BlobLayout::V1) & greater & own
}

fn version_is_printed(rt: &impl Abort, alloc: Global) {
    let version = BlobVersion::new(65535);
    let printed = format!(in alloc; "{version}").expect(rt, "room");
    reads(rt, printed.as_str(), "65535");
}

fn missing(rt: &impl Abort, alloc: Global) -> Error {
    Error::BlobMissing(text(rt, alloc, "p"), text(rt, alloc, "62"))
}

/// The parts of a refusal are those that it was made of.
fn is_given_back(rt: &impl Abort, refused: Refused<u64>, wanted: Error) {
    let Refused { back, error } = refused;
    same(rt, "an error", error, wanted);
    same(rt, "what was given", back, 7);
}

fn differ<T: Drop + PartialEq>(rt: &impl Abort, seen: T, other: T) {
    assert!(rt; seen != other);
}

fn errors(rt: &impl Abort, alloc: Global) {
    let error = missing(rt, alloc);
    let copy = error.clone_value().expect(rt, "room");
    same(rt, "a copy", copy, missing(rt, alloc));
    is_given_back(rt, Refused { back: 7, error }, missing(rt, alloc));
    let other = Error::from(MetricError::OtherHelp);
    differ(rt, missing(rt, alloc), other);
    let failure = Error::from(IoKind::InjectedSyncFailure);
    differ(rt, failure, Error::Io(IoKind::InjectedStorageFault));
    same(rt, "a cause", Error::from(NoMemory), Error::NoMemory);
}

const ATTRIBUTES: &[(&str, &str)] = &[("b", "1"), ("a", "2"), ("c", "3"), ("b", "4")];

fn name(rt: &impl Abort, alloc: Global) -> Name {
    let label = Text::of(child_label(alloc, "p", "c").expect(rt, "room"));
    let mut attributes = Vec::new(alloc);
    for &(key, value) in ATTRIBUTES {
        add_attribute(alloc, &mut attributes, key, value).expect(rt, "room");
    }
    let attributes = Items::of(attributes);
    Name { label, attributes }
}

fn line_of(rt: &impl Abort, alloc: Global, name: &Name) -> String {
    let mut line = prefixed_name(alloc, "", name.label.as_str()).expect(rt, "room");
    for (key, value) in name.attributes.as_slice() {
        write!(line, " {key}={value}").expect(rt, "room");
    }
    line
}

fn names(rt: &impl Abort, alloc: Global) {
    let name = name(rt, alloc);
    let copy = name.clone_value().expect(rt, "room");
    let line = line_of(rt, alloc, &name);
    reads(rt, line.as_str(), "p_c a=2 b=4 c=3");
    same(rt, "a copy", copy, name);
}

fn environment(rt: &impl Abort, alloc: Global) {
    let mut none = NoEnv;
    none.reserve(2).expect(rt, "room");
    let label = text(rt, alloc, "stop");
    let fields = Items::of(Vec::new(alloc));
    none.event(Event { label, fields });
    same(rt, "a draw", none.draw(), 0);
}

fn three_bytes(rt: &impl Abort, alloc: Global) -> Vec<u8> {
    vec![in alloc; 1u8, 2, 3].expect(rt, "room")
}

fn are(rt: &impl Abort, seen: &[u8], wanted: &[u8]) {
    assert!(rt; seen == wanted);
}

/// All is read of a source.
fn is_read<S: Source + Drop>(rt: &impl Abort, alloc: Global, mut source: S, wanted: &[u8]) {
    let read = read_whole(alloc, &mut source, wanted.len()).expect(rt, "all bytes");
    are(rt, read.as_slice(), wanted);
}

/// A source has more than so many bytes.
fn is_too_long<S: Source + Drop>(rt: &impl Abort, alloc: Global, mut source: S, limit: usize) {
    let refused = failed(read_whole(alloc, &mut source, limit), Unread::TooLong);
    holds(rt, "a long source", refused);
}

/// Reads at most four bytes.
fn gives<S: Source>(rt: &impl Abort, source: &mut S, wanted: Result<usize, Failed>) {
    let mut piece = [0u8; 4];
    same(rt, "a piece", source.read(&mut piece), wanted);
}

fn sources(rt: &impl Abort, alloc: Global) {
    let safe = SafeSource::new(three_bytes(rt, alloc));
    is_read(rt, alloc, safe, &[1, 2, 3]);
    let long = SafeSource::new(three_bytes(rt, alloc));
    is_too_long(rt, alloc, long, 2);
    let failing = vec![in alloc; 2u64].expect(rt, "room");
    let mut list = ListSource::new(three_bytes(rt, alloc), failing, 2);
    gives(rt, &mut list, Ok(2));
    gives(rt, &mut list, Err(Failed));
    gives(rt, &mut list, Ok(1));
    gives(rt, &mut list, Ok(0));
}

fn keeps(rt: &impl Abort, alloc: Global, bytes: &[u8]) {
    let mut safe = SafeSink::new(alloc);
    same(rt, "a write", write_whole(&mut safe, bytes), Ok(()));
    are(rt, safe.as_slice(), bytes);
}

/// Writes three bytes to a sink of single ones, whose third write fails.
fn keeps_two_of_three(rt: &impl Abort, alloc: Global) {
    let failing = vec![in alloc; 3u64].expect(rt, "room");
    let mut list = ListSink::new(alloc, failing, 1);
    same(rt, "a write", write_whole(&mut list, b"run"), Err(Failed));
    are(rt, list.as_slice(), b"ru");
    takes(rt, &mut list, b"n", 1);
}

/// Writes bytes to a sink, which takes so many.
fn takes<S: Sink8>(rt: &impl Abort, sink: &mut S, bytes: &[u8], taken: usize) {
    same(rt, "a write", sink.write(bytes), Ok(taken));
}

#[test]
fn standard_input_and_output(rt: HostRuntime) {
    let mut input = StdSource::new(&rt);
    gives(&rt, &mut input, Ok(0));
    let mut output = StdSink::new(&rt);
    takes(&rt, &mut output, b"", 0);
    takes(&rt, &mut output, b"\n", 1);
}

/// A reader or a writer whose next `left` calls fail with this number of the system.
#[derive(Drop)]
struct Failing<T> {
    inner: T,
    left: u8,
    code: i32,
}

impl<T> Failing<T> {
    fn fail(&mut self) -> io::Result<()> {
        match self.left.checked_sub(1) {
            None => Ok(()),
            Some(left) => {
                self.left = left;
                Err(io::Error::from_raw_os_error(self.code))
            }
        }
    }
}

impl<R: Read> Read for Failing<R> {
    fn read(&mut self, buf: &mut [u8]) -> io::Result<usize> {
        self.fail()?;
        self.inner.read(buf)
    }
}

impl<W: Write> Write for Failing<W> {
    fn write(&mut self, buf: &[u8]) -> io::Result<usize> {
        self.fail()?;
        self.inner.write(buf)
    }

    fn flush(&mut self) -> io::Result<()> {
        self.inner.flush()
    }
}

/// How many calls fail first, with which number of the system, what is returned, and how many failures are counted.
type CutShort = (u8, i32, Result<usize, Failed>, u64);

/// The number of a call that a signal cut short.
const CUT_SHORT: i32 = 4;

/// The number of a call that fails otherwise.
const BROKEN: i32 = 5;

const CALLS: &[CutShort] = &[
    (0, CUT_SHORT, Ok(3), 0),
    (1, CUT_SHORT, Ok(3), 1),
    (63, CUT_SHORT, Ok(3), 63),
    (64, CUT_SHORT, Err(Failed), 64),
    (1, BROKEN, Err(Failed), 1),
];

/// Reads and writes three bytes.
fn is_made_again(rt: &impl Abort, alloc: Global, call: CutShort) {
    let (left, code, answer, counted) = call;
    let inner = b"run".as_slice();
    let mut reader = Failing { inner, left, code };
    let mut errors = 0;
    let mut piece = [0u8; 4];
    let read = read_retried(&mut reader, &mut errors, &mut piece);
    let was_read = read == answer && errors == counted;
    let inner = Vec::new(alloc);
    let mut writer = Failing { inner, left, code };
    let mut errors = 0;
    let written = write_retried(&mut writer, &mut errors, b"run");
    let was_written = written == answer && errors == counted;
    let was_kept = writer.inner.len() == answer.unwrap_or(0);
    let all = was_read && was_written && was_kept;
    assert!(rt; all, "{left} failures of {code}");
}

#[test]
fn calls_that_a_signal_cut_short_are_made_again(rt: HostRuntime) {
    for &call in CALLS {
        is_made_again(&rt, rt.alloc(), call);
    }
}

/// Writes bytes to a sink that takes a thousand at once.
fn keeps_pieces(rt: &impl Abort, alloc: Global, bytes: &[u8]) {
    let mut list = ListSink::new(alloc, Vec::new(alloc), 1000);
    same(rt, "a write", write_whole(&mut list, bytes), Ok(()));
    are(rt, list.as_slice(), bytes);
}

fn reads_once(rt: &impl Abort, alloc: Global, bytes: &[u8]) {
    let size = bytes.len();
    let mut reader = bytes;
    let mut errors = 0;
    let mut read = vec![in alloc; 0u8; size].expect(rt, "room");
    let answer = read_retried(&mut reader, &mut errors, read.as_mut_slice());
    same(rt, "a read", (answer, errors), (Ok(size), 0));
    are(rt, read.as_slice(), bytes);
}

fn writes_once(rt: &impl Abort, alloc: Global, bytes: &[u8]) {
    let mut errors = 0;
    let mut writer = Vec::new(alloc);
    let answer = write_retried(&mut writer, &mut errors, bytes);
    same(rt, "a write", (answer, errors), (Ok(bytes.len()), 0));
    are(rt, writer.as_slice(), bytes);
}

/// Reads a copy by pieces of a thousand bytes.
fn reads_pieces(rt: &impl Abort, alloc: Global, bytes: &[u8]) {
    let copy = Vec::from_slice(alloc, bytes).expect(rt, "room");
    let list = ListSource::new(copy, Vec::new(alloc), 1000);
    is_read(rt, alloc, list, bytes);
}

#[test]
fn a_mebibyte(rt: HostRuntime) {
    let alloc = rt.alloc();
    let size = 1_048_576;
    let bytes = vec![in alloc; b'a'; size].expect(&rt, "room");
    keeps(&rt, alloc, bytes.as_slice());
    keeps_pieces(&rt, alloc, bytes.as_slice());
    reads_once(&rt, alloc, bytes.as_slice());
    writes_once(&rt, alloc, bytes.as_slice());
    let letters = str::from_utf8(bytes.as_slice());
    copies(&rt, alloc, letters.expect(&rt, "letters"));
    reads_pieces(&rt, alloc, bytes.as_slice());
    is_too_long(&rt, alloc, SafeSource::new(bytes), size - 1);
}

/// What errors and addresses say, in the order in which they are added.
const WORDS: &str = "\
exited|closed|aborted|timeout|unknown token|clock overflow|too many tasks|no memory|\
bind failed|connection failed|write failed|read failed|send failed|recv failed|ports exhausted|\
blob insufficient length|invalid or missing checksum|offset overflow|\
blob layout mismatch: expected one of V0..=V1, found V0|\
blob version mismatch: expected one of 1..=20, found 300|\
metric error: bad label|metric error: reserved|metric error: other type|metric error: other help|\
io error: injected storage fault|io error: injected sync failure|\
io error: injected write failure|io error: injected partition sync fault|\
dns resolution failed: a|partition name invalid, must only contain alphanumeric, dash ('-'), or underscore ('_') characters: a|\
partition creation failed: a|partition missing: a|partition corrupt: a|\
blob already open: a/b|blob missing: a/b|blob corrupt: a/b reason: c|\
blob open failed: a/b error: injected storage fault|\
blob resize failed: a/b error: injected write failure|\
blob sync failed: a/b error: injected sync failure|\
127.0.0.1:4000|[2001:db8:0:0:0:0:0:1f]:0|";

/// Adds the words of an error, which come next.
fn add(rt: &impl Abort, said: &mut String, error: Error) {
    let added = write!(said, "{error}|");
    drop(error);
    added.expect(rt, "room");
    let text = said.as_str();
    assert!(rt; WORDS.starts_with(text), "{text}");
}

fn add_plain(rt: &impl Abort, said: &mut String) {
    add(rt, said, Error::Exited);
    add(rt, said, Error::Closed);
    add(rt, said, Error::Aborted);
    add(rt, said, Error::Timeout);
    add(rt, said, Error::UnknownToken);
    add(rt, said, Error::ClockOverflow);
    add(rt, said, Error::TooManyTasks);
    add(rt, said, Error::NoMemory);
    add(rt, said, Error::BindFailed);
    add(rt, said, Error::ConnectionFailed);
    add(rt, said, Error::WriteFailed);
    add(rt, said, Error::ReadFailed);
    add(rt, said, Error::SendFailed);
    add(rt, said, Error::RecvFailed);
    add(rt, said, Error::PortsExhausted);
    add(rt, said, Error::BlobInsufficientLength);
    add(rt, said, Error::InvalidChecksum);
    add(rt, said, Error::OffsetOverflow);
}

fn add_mismatches_and_causes(rt: &impl Abort, said: &mut String) {
    let (expected, found) = (BlobLayout::ALL, BlobLayout::V0);
    add(rt, said, Error::BlobLayoutMismatch { expected, found });
    let expected = (BlobVersion::new(1), BlobVersion::new(20));
    let found = BlobVersion::new(300);
    add(rt, said, Error::BlobVersionMismatch { expected, found });
    add(rt, said, Error::Metric(MetricError::BadLabel));
    add(rt, said, Error::Metric(MetricError::Reserved));
    add(rt, said, Error::Metric(MetricError::OtherType));
    add(rt, said, Error::Metric(MetricError::OtherHelp));
    add(rt, said, Error::Io(IoKind::InjectedStorageFault));
    add(rt, said, Error::Io(IoKind::InjectedSyncFailure));
    add(rt, said, Error::Io(IoKind::InjectedWriteFailure));
    add(rt, said, Error::Io(IoKind::InjectedPartitionSyncFault));
}

fn partition_name(rt: &impl Abort, alloc: Global) -> Text {
    text(rt, alloc, "a")
}

fn both(rt: &impl Abort, alloc: Global) -> (Text, Text) {
    (partition_name(rt, alloc), text(rt, alloc, "b"))
}

fn add_named(rt: &impl Abort, alloc: Global, said: &mut String) {
    add(rt, said, Error::ResolveFailed(text(rt, alloc, "a")));
    let partition = partition_name(rt, alloc);
    add(rt, said, Error::PartitionNameInvalid(partition));
    let partition = partition_name(rt, alloc);
    add(rt, said, Error::PartitionCreationFailed(partition));
    let partition = partition_name(rt, alloc);
    add(rt, said, Error::PartitionMissing(partition));
    let partition = partition_name(rt, alloc);
    add(rt, said, Error::PartitionCorrupt(partition));
}

fn add_of_blobs(rt: &impl Abort, alloc: Global, said: &mut String) {
    let (partition, name) = both(rt, alloc);
    add(rt, said, Error::BlobAlreadyOpen(partition, name));
    let (partition, name) = both(rt, alloc);
    add(rt, said, Error::BlobMissing(partition, name));
    let (partition, name) = both(rt, alloc);
    let why = text(rt, alloc, "c");
    add(rt, said, Error::BlobCorrupt(partition, name, why));
    let (partition, name) = both(rt, alloc);
    let kind = IoKind::InjectedStorageFault;
    add(rt, said, Error::BlobOpenFailed(partition, name, kind));
    let (partition, name) = both(rt, alloc);
    let kind = IoKind::InjectedWriteFailure;
    add(rt, said, Error::BlobResizeFailed(partition, name, kind));
    let (partition, name) = both(rt, alloc);
    let kind = IoKind::InjectedSyncFailure;
    add(rt, said, Error::BlobSyncFailed(partition, name, kind));
}

fn add_addr(rt: &impl Abort, said: &mut String, ip: Ip, port: u16) {
    let addr = Addr { ip, port };
    write!(said, "{addr}|").expect(rt, "room");
}

#[test]
fn words_of_errors_and_addresses(rt: HostRuntime) {
    let alloc = rt.alloc();
    let mut said = String::new(alloc);
    add_plain(&rt, &mut said);
    add_mismatches_and_causes(&rt, &mut said);
    add_named(&rt, alloc, &mut said);
    add_of_blobs(&rt, alloc, &mut said);
    add_addr(&rt, &mut said, Ip::V4([127, 0, 0, 1]), 4000);
    let ip = Ip::V6([0x2001, 0xdb8, 0, 0, 0, 0, 0, 0x1f]);
    add_addr(&rt, &mut said, ip, 0);
    assert!(rt; said.as_str() == WORDS, "{said}");
}

#[test]
fn texts_of_errors_in_events(rt: HostRuntime) {
    let rows = [
        (Error::Closed, Some("closed")),
        (Error::BindFailed, Some("bind failed")),
        (Error::ConnectionFailed, Some("connection failed")),
        (Error::SendFailed, Some("send failed")),
        (Error::RecvFailed, Some("recv failed")),
        (Error::PortsExhausted, Some("ports exhausted")),
        (Error::ClockOverflow, Some("clock overflow")),
        (Error::UnknownToken, Some("unknown token")),
        (missing(&rt, rt.alloc()), Some("other")),
        (Error::NoMemory, None),
    ];
    for (error, wanted) in &rows {
        assert!(rt; error_text(error) == *wanted, "{error}");
    }
}

const BAD_LABELS: &[&str] = &["", "9a", "_a", "a-b", "a b", "\u{e9}"];

/// A prefix, a label, and why it is refused.
const REFUSED_LABELS: &[(&str, &str, MetricError)] = &[
    ("", "runtimes", MetricError::Reserved),
    ("runtime", "a", MetricError::Reserved),
    ("", "9a", MetricError::BadLabel),
    ("runtime", "9a", MetricError::BadLabel),
];

fn refuses_child(rt: &impl Abort, alloc: Global, prefix: &str, label: &str, kind: MetricError) {
    same(rt, label, check_child_label(prefix, label), Err(kind));
    let refused = failed(child_label(alloc, prefix, label), Error::Metric(kind));
    assert!(rt; refused, "at {label}");
}

#[test]
fn refused_labels(rt: HostRuntime) {
    for label in BAD_LABELS {
        let why = Err(MetricError::BadLabel);
        same(&rt, label, validate_label(label), why);
    }
    for &(prefix, label, kind) in REFUSED_LABELS {
        refuses_child(&rt, rt.alloc(), prefix, label, kind);
    }
}

const LONG: &str = "abcdefghijk";

/// A prefix, a name, the prefixed name, and whether it is kept in place.
const SMALL_TEXTS: &[(&str, &str, &str, bool)] = &[
    ("", "", "", true),
    ("", "c", "c", true),
    ("p", "c", "p_c", true),
    (LONG, "abcdefghij", "abcdefghijk_abcdefghij", true),
    (LONG, LONG, "abcdefghijk_abcdefghijk", false),
];

/// Stops where a prefixed name has another text, or isn't so kept.
fn is_kept(rt: &impl Abort, text: SmallText, full: &str, in_place: bool) {
    let kept = text.as_str() == full && text.short().is_some() == in_place;
    drop(text);
    assert!(rt; kept, "at {full}");
}

#[test]
fn small_texts(rt: HostRuntime) {
    for &(prefix, name, full, in_place) in SMALL_TEXTS {
        let text = SmallText::prefixed(rt.alloc(), prefix, name).expect(&rt, "room");
        is_kept(&rt, text, full, in_place);
    }
}

/// What stands for a context: it is spawned on by its number, and the new one has the next.
struct Numbered(u8);

impl Numbered {
    fn spawn<R, F: FnOnce(Numbered) -> R>(self, spawned: &mut u8, make: F) -> R
        requires { F.IsAlwaysCallable make }
    {
        let Numbered(number) = self;
        *spawned = number;
        make(Numbered(number.wrapping_add(1)))
    }
}

/// The number of a context that is there.
fn number_of(cell: Cell<Numbered>) -> Option<u8> {
    match cell {
        Cell::Present(Numbered(number)) => Some(number),
        Cell::Missing => None,
    }
}

#[test]
fn cells(rt: HostRuntime) {
    let mut cell = Cell::new(7u8);
    assert!(rt; cell.is_present() && !cell.is_missing() && *cell.as_present() == 7);
    *cell.as_present_mut() = 8;
    assert!(rt; cell.take() == 8);
    assert!(rt; cell.is_missing() && !cell.is_present());
    cell.restore(9);
    assert!(rt; cell.into_present() == 9);
}

#[test]
fn a_cell_is_spawned_on(rt: HostRuntime) {
    let mut cell = Cell::new(Numbered(3));
    let mut spawned = 0;
    let own = spawn_cell!(cell, &mut spawned, |fresh| number_of(fresh));
    assert!(rt; spawned == 3 && own == Some(4));
    assert!(rt; number_of(cell).is_none());
}
