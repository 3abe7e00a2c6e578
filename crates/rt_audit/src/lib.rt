//! The journal of a run: its entries, how each is printed, the list that keeps them, and the digest of its events.
#![tactic(auto)]

mod answer;
mod audit_env;
mod auditor;
mod call;
mod code;
mod dice;
mod digit_pairs;
mod entry;
mod event_fields;
mod event_label;
mod finish;
mod journal;
mod label;
mod line;
mod moment;
mod order;
mod payload;
mod refusal;
mod reply;
mod slot_call;

pub use answer::AnswerKind;
pub use audit_env::AuditEnv;
pub use auditor::Auditor;
pub use call::Call;
pub use code::error_code;
pub use dice::{Dice, Note};
pub use entry::{Caller, Entry};
pub use event_fields::EventFields;
pub use event_label::EventLabel;
pub use finish::FinishCause;
pub use journal::Journal;
pub use label::{Label, ShortLabel};
pub use moment::Moment;
pub use order::Order;
pub use payload::Payload;
pub use refusal::Refusal;
pub use reply::CallReply;
pub use rt_hasher::{AuditHasher, Crc32c};
pub use slot_call::SlotCall;
