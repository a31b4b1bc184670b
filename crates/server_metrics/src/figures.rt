//! Figures in the text format of Prometheus.
ghost use Rattle.std.specs.Prelude.{◌≡◌, ◌++◌, OnOk, map, string_bytes};
ghost use Rattle.server_metrics.specs.Figures.{family_text, figure_text, help_line, kind_line, label_text, labels_text, more_labels, number_text, pair_of};

use crate::families::{Family, help_text, kind_text, name_text};
use itoa::Buffer;
use std::alloc::AllocError;

/// What a figure is of: a name of bytes of `a-z` and `_`, and a value without a quotation mark, a backslash or a line end.
#[derive(Clone, Copy)]
pub(crate) struct Label<'a> {
    pub name: &'static str,
    pub value: &'a str,
}

/// Appends the two lines that come before the figures of a family. Where an allocation fails, a part of them may be there.
pub(crate) fn put_family(text: &mut String, family: Family) -> Result<(), AllocError>
    ensures { OnOk result (string_bytes text.new ≡ string_bytes text.old ++ family_text family) }
{
    put_help(text, family)?;
    put_kind(text, family)
}

// Appends the line that says what the figures count, but for its end.
fn put_help(text: &mut String, family: Family) -> Result<(), AllocError>
    ensures { OnOk result (string_bytes text.new ≡ string_bytes text.old ++ help_line family) }
{
    text.push_str("# HELP ")?;
    text.push_str(name_text(family))?;
    text.push_str(" ")?;
    text.push_str(help_text(family))
}

// Appends that end, and the line that says whether they may fall.
fn put_kind(text: &mut String, family: Family) -> Result<(), AllocError>
    ensures { OnOk result (string_bytes text.new ≡ string_bytes text.old ++ kind_line family) }
{
    text.push_str("\n# TYPE ")?;
    text.push_str(name_text(family))?;
    text.push_str(kind_text(family))
}

/// Appends the line of a family's figure. Where an allocation fails, a part of it may be there.
pub(crate) fn put_figure(
    text: &mut String,
    family: Family,
    labels: &[Label<'_>],
    number: u64,
) -> Result<(), AllocError>
    ensures { OnOk result (string_bytes text.new
        ≡ string_bytes text.old ++ figure_text family (map pair_of labels.now) number) }
{
    text.push_str(name_text(family))?;
    put_labels(text, labels)?;
    put_number(text, number)
}

/// Appends the labels in their brackets, or nothing where there are none.
pub(crate) fn put_labels(text: &mut String, labels: &[Label<'_>]) -> Result<(), AllocError>
    ensures { OnOk result (string_bytes text.new
        ≡ string_bytes text.old ++ labels_text (map pair_of labels.now)) }
{
    match labels {
        [] => Ok(()),
        [first, more @ ..] => {
            text.push_str("{")?;
            put_label(text, first)?;
            put_more(text, more)?;
            text.push_str("}")
        }
    }
}

// Appends the labels behind the first.
fn put_more(text: &mut String, labels: &[Label<'_>]) -> Result<(), AllocError>
    ensures { OnOk result (string_bytes text.new
        ≡ string_bytes text.old ++ more_labels (map pair_of labels.now)) }
{
    for label in labels {
        text.push_str(",")?;
        put_label(text, label)?;
    }
    Ok(())
}

fn put_label(text: &mut String, label: &Label<'_>) -> Result<(), AllocError>
    ensures { OnOk result (string_bytes text.new
        ≡ string_bytes text.old ++ label_text (pair_of label.now)) }
{
    put_pair(text, label.name, label.value)
}

// Appends a label with its value.
fn put_pair(text: &mut String, name: &str, value: &str) -> Result<(), AllocError>
    ensures { OnOk result (string_bytes text.new
        ≡ string_bytes text.old ++ label_text (name.now, value.now)) }
{
    text.push_str(name)?;
    text.push_str("=\"")?;
    text.push_str(value)?;
    text.push_str("\"")
}

/// Appends a number behind its name and labels, and ends the line.
pub(crate) fn put_number(text: &mut String, number: u64) -> Result<(), AllocError>
    ensures { OnOk result (string_bytes text.new ≡ string_bytes text.old ++ number_text number) }
{
    text.push_str(" ")?;
    let mut buffer = Buffer::new();
    text.push_str(buffer.format(number))?;
    text.push_str("\n")
}
