// The text of a registry.
ghost use Rattle.std.specs.Prelude.{◌≡◌, ◌++◌, OnOk, IfOk, string_bytes};
ghost use Rattle.rt_metrics.specs.MetricText.{line_of, metric_lines, members_lines, family_text, families_text, registry_text, sample_name, header};

use crate::family::Family;
use crate::kind::Kind;
use crate::registry::Registry;
use crate::writing::{write_header, write_line, write_piece};
use rt_base::{NoMemory, Text};

impl Registry {
    /// Returns the text of all metrics, in the form of OpenMetrics.
    ///
    /// It is no OpenMetrics where names or helps clash: a counter `foo` beside a metric `foo_total`, a family's own label
    /// among the attributes of a name, or a help with a newline or a backslash, none of which is escaped or refused.
    pub fn encode(&self) -> Result<String, NoMemory>
        ensures { IfOk result (λ text. string_bytes text ≡ registry_text self.now) }
    {
        let mut text = String::new(self.allocator());
        for (name, family) in self.families() {
            self.write_family(&mut text, name.as_str(), family)?;
        }
        write_piece(&mut text, "# EOF\n")?;
        Ok(text)
    }

    /// Adds a family with its header, which is taken back where no line follows it.
    fn write_family(&self, text: &mut String, name: &str, family: &Family) -> Result<(), NoMemory>
        ensures { OnOk result (string_bytes text.new ≡ string_bytes text.old ++ family_text self.now name.now family.now) }
    {
        let start = text.len();
        write_header(text, name, family)?;
        let headed = text.len();
        for (_, id) in &family.members {
            self.write_metric(text, name, family.kind, *id)?;
        }
        if text.len() == headed {
            text.truncate(start);
        }
        Ok(())
    }

    /// Adds the sample of a metric, and those of its children.
    fn write_metric(
        &self,
        text: &mut String,
        name: &str,
        kind: Kind,
        id: u64,
    ) -> Result<(), NoMemory>
        ensures { OnOk result (string_bytes text.new ≡ string_bytes text.old ++ metric_lines self.now (sample_name name.now kind) id) }
    {
        let Some(entry) = self.entry(id) else {
            return Ok(());
        };
        let attributes = entry.attributes.as_slice();
        self.write_value(text, name, kind, attributes, "", id)?;
        for (labels, child) in &entry.children {
            self.write_value(text, name, kind, attributes, labels.as_str(), *child)?;
        }
        Ok(())
    }

    /// Adds the line of a sample, where there is one of this number.
    fn write_value(
        &self,
        text: &mut String,
        name: &str,
        kind: Kind,
        attributes: &[(Text, Text)],
        labels: &str,
        id: u64,
    ) -> Result<(), NoMemory>
        ensures { OnOk result (string_bytes text.new ≡ string_bytes text.old ++ line_of self.now (sample_name name.now kind) attributes.now labels.now id) }
    {
        match self.sample(id) {
            Some(sample) => write_line(text, name, kind, attributes, labels, sample),
            None => Ok(()),
        }
    }
}
