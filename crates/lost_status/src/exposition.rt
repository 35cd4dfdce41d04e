//! The lines of Prometheus' text format, version 0.0.4.
ghost use Rattle.std.specs.Prelude.{◌≡◌, ◌++◌, OnOk, string_bytes};
ghost use Rattle.lost_status.specs.Exposition.{description, metric, sample, type_name};

use std::alloc::AllocError;
use std::fmt::Write;

/// The type of a metric.
#[derive(Clone, Copy, PartialEq, Eq, Debug)]
pub(crate) enum MetricType {
    /// A number that never falls.
    Counter,
    /// A number that rises and falls.
    Gauge,
}

impl MetricType {
    /// The name of the type.
    fn name(self) -> &'static str
        ensures { result.now ≡ type_name self }
    {
        match self {
            MetricType::Counter => "counter",
            MetricType::Gauge => "gauge",
        }
    }
}

/// Writes the help text and the type of a metric.
pub(crate) fn describe(
    text: &mut String,
    kind: MetricType,
    name: &str,
    help: &str,
) -> Result<(), AllocError>
    ensures { OnOk result (string_bytes text.new
        ≡ string_bytes text.old ++ description name.now (type_name kind) help.now) }
{
    let kind = kind.name();
    write!(text, "# HELP {name} {help}\n# TYPE {name} {kind}\n")
}

/// Writes a metric without labels: its help text, its type and its value.
#[tactic(auto, unfolding(crate::specs::Exposition::metric))]
pub(crate) fn write_metric(
    text: &mut String,
    kind: MetricType,
    name: &str,
    help: &str,
    value: u64,
) -> Result<(), AllocError>
    ensures { OnOk result (string_bytes text.new ≡ string_bytes text.old ++ metric kind name.now help.now value) }
{
    describe(text, kind, name, help)?;
    write_sample(text, name, value)
}

/// Writes the value of a metric without labels.
fn write_sample(text: &mut String, name: &str, value: u64) -> Result<(), AllocError>
    ensures { OnOk result (string_bytes text.new ≡ string_bytes text.old ++ sample name.now value) }
{
    write!(text, "{name} {value}\n")
}
