// The pieces of the text, each added at its end.
ghost use Rattle.std.specs.Prelude.{◌≡◌, ◌++◌, OnOk, string_bytes, encode_utf8};
ghost use Rattle.std.specs.List.{flat_map};
ghost use Rattle.rt_metrics.specs.MetricText.{escape, escaped, label_text, labels_text, more_labels, in_braces, sample_text, sample_line, sample_name, header};

use crate::family::Family;
use crate::kind::Kind;
use crate::sample::Sample;
use itoa::Buffer;
use rt_base::{NoMemory, Text};

/// Adds a piece as it is.
pub fn write_piece(text: &mut String, piece: &str) -> Result<(), NoMemory>
    ensures { OnOk result (string_bytes text.new ≡ string_bytes text.old ++ piece.now) }
{
    text.push_str(piece)?;
    Ok(())
}

/// A character of a label's value.
fn write_char(text: &mut String, c: char) -> Result<(), NoMemory>
    ensures { OnOk result (string_bytes text.new ≡ string_bytes text.old ++ escaped (encode_utf8 c)) }
{
    match c {
        '\\' => text.push_str("\\\\")?,
        '"' => text.push_str("\\\"")?,
        '\n' => text.push_str("\\n")?,
        _ => text.push(c)?,
    }
    Ok(())
}

/// Adds the value of a label.
fn write_escaped(text: &mut String, value: &str) -> Result<(), NoMemory>
    ensures { OnOk result (string_bytes text.new ≡ string_bytes text.old ++ escaped value.now) }
{
    for c in value.chars() {
        write_char(text, c)?;
    }
    Ok(())
}

/// Adds a label.
pub fn write_label(text: &mut String, key: &str, value: &str) -> Result<(), NoMemory>
    ensures { OnOk result (string_bytes text.new ≡ string_bytes text.old ++ label_text key.now value.now) }
{
    text.push_str(key)?;
    text.push_str("=\"")?;
    write_escaped(text, value)?;
    write_piece(text, "\"")
}

/// Adds labels, joined by commas.
pub fn write_labels(text: &mut String, labels: &[(Text, Text)]) -> Result<(), NoMemory>
    ensures { OnOk result (string_bytes text.new ≡ string_bytes text.old ++ labels_text labels.now) }
{
    let Some((first, more)) = labels.split_first() else {
        return Ok(());
    };
    write_label(text, first.0.as_str(), first.1.as_str())?;
    write_more_labels(text, more)
}

/// Further labels, each after a comma.
fn write_more_labels(text: &mut String, labels: &[(Text, Text)]) -> Result<(), NoMemory>
    ensures { OnOk result (string_bytes text.new ≡ string_bytes text.old ++ more_labels labels.now) }
{
    let mut rest = labels;
    while let Some((label, more)) = rest.split_first() {
        text.push_str(",")?;
        write_label(text, label.0.as_str(), label.1.as_str())?;
        rest = more;
    }
    Ok(())
}

/// Adds the attributes of a metric and the labels of a child, in braces where there are any.
fn write_braces(
    text: &mut String,
    attributes: &[(Text, Text)],
    labels: &str,
) -> Result<(), NoMemory>
    ensures { OnOk result (string_bytes text.new ≡ string_bytes text.old ++ in_braces attributes.now labels.now) }
{
    if attributes.is_empty() && labels.is_empty() {
        return Ok(());
    }
    text.push_str("{")?;
    write_labels(text, attributes)?;
    if !attributes.is_empty() && !labels.is_empty() {
        text.push_str(",")?;
    }
    text.push_str(labels)?;
    write_piece(text, "}")
}

/// A value.
fn write_sample(text: &mut String, sample: Sample) -> Result<(), NoMemory>
    ensures { OnOk result (string_bytes text.new ≡ string_bytes text.old ++ sample_text sample) }
{
    let mut buffer = Buffer::new();
    match sample {
        Sample::Count(count) => write_piece(text, buffer.format(count)),
        Sample::Level(level) => write_piece(text, buffer.format(level)),
    }
}

/// Adds the line of a sample.
pub fn write_line(
    text: &mut String,
    name: &str,
    kind: Kind,
    attributes: &[(Text, Text)],
    labels: &str,
    sample: Sample,
) -> Result<(), NoMemory>
    ensures { OnOk result (string_bytes text.new ≡ string_bytes text.old ++ sample_line (sample_name name.now kind) attributes.now labels.now sample) }
{
    text.push_str(name)?;
    text.push_str(kind.suffix())?;
    write_braces(text, attributes, labels)?;
    text.push_str(" ")?;
    write_sample(text, sample)?;
    write_piece(text, "\n")
}

/// Adds the two lines that a family has above its samples.
pub fn write_header(text: &mut String, name: &str, family: &Family) -> Result<(), NoMemory>
    ensures { OnOk result (string_bytes text.new ≡ string_bytes text.old ++ header name.now family.now) }
{
    text.push_str("# HELP ")?;
    text.push_str(name)?;
    text.push_str(" ")?;
    text.push_str(family.help.as_str())?;
    text.push_str(".\n# TYPE ")?;
    text.push_str(name)?;
    text.push_str(" ")?;
    text.push_str(family.kind.word())?;
    write_piece(text, "\n")
}
