// Labels of tasks and names of metrics.
ghost use Rattle.std.specs.Prelude.{◌≡◌, ◌↔◌, IfOk, IfErr, OnErr, OnOk, IsTrue, Err, false, is_ok, string_bytes, ◌⊎◌};
ghost use Rattle.std.specs.List.{list_all};
ghost use Rattle.rt_base.specs.Label.{is_label, is_reserved, is_word_byte, prefixed};

use crate::error::Error;
use crate::metric_error::MetricError;
use crate::no_memory::NoMemory;
use crate::text::Text;
use std::alloc::Global;

/// Checks that a label is a letter and then letters, digits and underscores.
///
/// Error: `BadLabel`.
pub fn validate_label(label: &str) -> Result<(), MetricError>
    ensures valid { is_ok result ≡ is_label label.now }
    ensures cause { IfErr result (λ kind. kind ≡ MetricError.BadLabel) }
{
    if is_label(label.as_bytes()) {
        Ok(())
    } else {
        Err(MetricError::BadLabel)
    }
}

/// Returns whether the bytes are a letter and then letters, digits and underscores.
pub fn is_label(text: &[u8]) -> bool
    ensures { result ≡ is_label text.now }
{
    match text {
        [first, rest @ ..] => first.is_ascii_alphabetic() && are_word_bytes(rest),
        [] => false,
    }
}

fn are_word_bytes(text: &[u8]) -> bool
    ensures { result ≡ list_all is_word_byte text.now }
{
    text.iter().all(|b| b.is_ascii_alphanumeric() || *b == b'_')
}

/// Returns the prefix, an underscore and the name, or the name alone where the prefix is empty.
pub fn prefixed_name(alloc: Global, prefix: &str, name: &str) -> Result<String, NoMemory>
    ensures { IfOk result (λ full. string_bytes full ≡ prefixed prefix.now name.now) }
{
    if prefix.is_empty() {
        return Ok(name.to_owned(alloc)?);
    }
    let most = prefix.len().saturating_add(1).saturating_add(name.len());
    let mut full = String::with_capacity(alloc, most)?;
    full.push_str(prefix)?;
    full.push_str("_")?;
    full.push_str(name)?;
    Ok(full)
}

/// Checks whether a child of a node with the label `prefix` may have this label. It takes no memory.
///
/// Errors: `BadLabel` where `label` isn't a label, then `Reserved` where the full label begins with `runtime`.
pub fn check_child_label(prefix: &str, label: &str) -> Result<(), MetricError>
    ensures bad_label { (result ≡ Err MetricError.BadLabel) ↔ (is_label label.now ≡ false) }
    ensures reserved { (result ≡ Err MetricError.Reserved) ↔ (IsTrue (is_label label.now) × IsTrue (is_reserved (prefixed prefix.now label.now))) }
    ensures causes { IfErr result (λ kind. (kind ≡ MetricError.BadLabel) ⊎ (kind ≡ MetricError.Reserved)) }
{
    validate_label(label)?;
    if is_reserved_name(prefix, label) {
        return Err(MetricError::Reserved);
    }
    Ok(())
}

/// Returns the full label of a child: the prefix, an underscore and the label, or the label alone where the prefix is
/// empty.
///
/// Errors: `Metric(BadLabel)` where `label` isn't a label, then `Metric(Reserved)` where the full label begins with
/// `runtime`; `NoMemory`.
pub fn child_label(alloc: Global, prefix: &str, label: &str) -> Result<String, Error>
    ensures full { IfOk result (λ full. string_bytes full ≡ prefixed prefix.now label.now) }
    ensures bad_label { (result ≡ Err (Error.Metric MetricError.BadLabel)) ↔ (is_label label.now ≡ false) }
    ensures reserved { (result ≡ Err (Error.Metric MetricError.Reserved)) ↔ (IsTrue (is_label label.now) × IsTrue (is_reserved (prefixed prefix.now label.now))) }
    ensures causes { IfErr result (λ error. (error ≡ Error.NoMemory) ⊎ (error ≡ Error.Metric MetricError.BadLabel) ⊎ (error ≡ Error.Metric MetricError.Reserved)) }
{
    check_child_label(prefix, label)?;
    Ok(prefixed_name(alloc, prefix, label)?)
}

/// Returns whether the prefixed name begins with `runtime`.
fn is_reserved_name(prefix: &str, name: &str) -> bool
    ensures { result ≡ is_reserved (prefixed prefix.now name.now) }
{
    if prefix.is_empty() {
        name.starts_with("runtime")
    } else {
        prefix.starts_with("runtime")
    }
}
