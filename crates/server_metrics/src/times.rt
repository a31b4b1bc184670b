//! How long lines took, as a histogram of Prometheus.
ghost use Rattle.std.specs.Prelude.{◌≡◌, ◌++◌, OnOk, map, string_bytes};
ghost use Rattle.server_metrics.specs.Figures.{pair_of};
ghost use Rattle.server_metrics.specs.TimesText.{bucket_text, buckets_text, part_text, sum_text, times_text};

use crate::families::{Family, name_text};
use crate::figures::{Label, put_family, put_labels, put_number};
use itoa::Buffer;
use std::alloc::AllocError;

/// How many lines took no longer than this.
#[derive(Clone, Copy)]
pub struct TimeRow {
    /// So many seconds, as text; in the last row `+Inf`.
    pub within: &'static str,
    pub lines: u64,
}

/// How long lines took, from the read that brought them to the write of their answers.
#[derive(Drop)]
pub struct LineSeconds {
    /// Rows of rising times, each with the lines of those before it.
    pub rows: Vec<TimeRow>,
    /// How many lines there were.
    pub lines: u64,
    /// How many microseconds they took together.
    pub micros: u64,
}

/// Appends how long the lines took, as this family. Where an allocation fails, a part of that may be there.
#[tactic(auto, unfolding(crate::specs::TimesText::times_text))]
pub(crate) fn put_times(
    text: &mut String,
    family: Family,
    times: &LineSeconds,
) -> Result<(), AllocError>
    ensures { OnOk result (string_bytes text.new
        ≡ string_bytes text.old ++ times_text family times.now) }
{
    put_family(text, family)?;
    put_buckets(text, family, &times.rows)?;
    put_sum(text, family, times.micros)?;
    put_part(text, family, "_count", &[], times.lines)
}

// Appends a line of each row.
fn put_buckets(text: &mut String, family: Family, rows: &[TimeRow]) -> Result<(), AllocError>
    ensures { OnOk result (string_bytes text.new
        ≡ string_bytes text.old ++ buckets_text family rows.now) }
{
    for row in rows {
        put_bucket(text, family, row)?;
    }
    Ok(())
}

// Appends the line of a row.
fn put_bucket(text: &mut String, family: Family, row: &TimeRow) -> Result<(), AllocError>
    ensures { OnOk result (string_bytes text.new
        ≡ string_bytes text.old ++ bucket_text family row.now) }
{
    let labels = [Label {
        name: "le",
        value: row.within,
    }];
    put_part(text, family, "_bucket", &labels, row.lines)
}

// Appends the seconds that all lines took: their microseconds, and a power of ten.
fn put_sum(text: &mut String, family: Family, micros: u64) -> Result<(), AllocError>
    ensures { OnOk result (string_bytes text.new
        ≡ string_bytes text.old ++ sum_text family micros) }
{
    text.push_str(name_text(family))?;
    text.push_str("_sum ")?;
    let mut buffer = Buffer::new();
    text.push_str(buffer.format(micros))?;
    text.push_str("e-6\n")
}

// Appends a line whose name has this end.
fn put_part(
    text: &mut String,
    family: Family,
    end: &str,
    labels: &[Label<'_>],
    number: u64,
) -> Result<(), AllocError>
    ensures { OnOk result (string_bytes text.new
        ≡ string_bytes text.old ++ part_text family end.now (map pair_of labels.now) number) }
{
    text.push_str(name_text(family))?;
    text.push_str(end)?;
    put_labels(text, labels)?;
    put_number(text, number)
}
