//! Whether a server is well, and of which limits little is left.
ghost use Rattle.std.specs.Prelude.{◌≡◌, ◌++◌, OnOk, string_bytes};
ghost use Rattle.std.specs.List.{list_any};
ghost use Rattle.server_metrics.specs.Health.{has_full, has_scarce, health_head, health_status, health_text, is_full_row, is_scarce, is_scarce_row, is_used_up, left_words, partition_text, place_text, room_text, scarce_row_text, scarce_rows_text, sessions_text, share_text};

use crate::answer::{Status, words_of};
use crate::metrics::{Row, ServerReadings};
use itoa::Buffer;
use std::alloc::AllocError;

/// With which status a request for the health of a server is answered: 200 where it is well and no limit is used up, 507 where one is,
/// and 503 where it is not well.
pub(crate) fn health_status(readings: &ServerReadings<'_>) -> Status
    ensures { result ≡ health_status readings.now }
{
    if !readings.is_well() {
        return Status::NotWell;
    }
    if has_full(readings) {
        return Status::Full;
    }
    Status::Well
}

/// Appends the words for this status, and where the server is well a line for each limit of which less than a quarter is left.
/// Where an allocation fails, a part of them may be there.
pub(crate) fn put_health(text: &mut String, readings: &ServerReadings<'_>) -> Result<(), AllocError>
    ensures { OnOk result (string_bytes text.new
        ≡ string_bytes text.old ++ health_text readings.now) }
{
    if !readings.is_well() {
        return text.push_str(words_of(Status::NotWell));
    }
    text.push_str(health_head(readings))?;
    put_scarce_rows(text, &readings.rows)?;
    put_sessions(text, readings.open, readings.most)
}

// The first line for a server that is well.
fn health_head(readings: &ServerReadings<'_>) -> &'static str
    ensures { result.now ≡ health_head readings.now }
{
    if has_full(readings) {
        return words_of(Status::Full);
    }
    if has_scarce(readings) {
        return "degraded: less than a quarter of a limit is left\n";
    }
    words_of(Status::Well)
}

// Whether the items or the versions of a tenant at a partition are used up, or the sessions.
fn has_full(readings: &ServerReadings<'_>) -> bool
    ensures { result ≡ has_full readings.now }
{
    is_used_up(readings.open, readings.most) || has_full_row(&readings.rows)
}

// Whether less than a quarter of one of these limits is left.
fn has_scarce(readings: &ServerReadings<'_>) -> bool
    ensures { result ≡ has_scarce readings.now }
{
    is_scarce(readings.open, readings.most) || has_scarce_row(&readings.rows)
}

fn has_full_row(rows: &[Row<'_>]) -> bool
    ensures { result ≡ list_any is_full_row rows.now }
{
    rows.iter().any(|row| is_full_row(row))
}

fn has_scarce_row(rows: &[Row<'_>]) -> bool
    ensures { result ≡ list_any is_scarce_row rows.now }
{
    rows.iter().any(|row| is_scarce_row(row))
}

// Whether the items or the versions of a tenant at a partition are used up.
fn is_full_row(row: &Row<'_>) -> bool
    ensures { result ≡ is_full_row row.now }
{
    is_used_up(u64::from(row.items), u64::from(row.items_limit))
        || is_used_up(u64::from(row.versions), u64::from(row.versions_limit))
}

// Whether less than a quarter of one of these is left.
fn is_scarce_row(row: &Row<'_>) -> bool
    ensures { result ≡ is_scarce_row row.now }
{
    is_scarce(u64::from(row.items), u64::from(row.items_limit))
        || is_scarce(u64::from(row.versions), u64::from(row.versions_limit))
}

// Whether nothing is left of a limit.
fn is_used_up(used: u64, limit: u64) -> bool
    ensures { result ≡ is_used_up used limit }
{
    limit <= used
}

// Whether less than a quarter is left of a limit.
fn is_scarce(used: u64, limit: u64) -> bool
    ensures { result ≡ is_scarce used limit }
{
    limit <= used || limit - used < limit / 4
}

// How much is left of a limit of which less than a quarter is.
fn left_words(used: u64, limit: u64) -> &'static str
    ensures { result.now ≡ left_words used limit }
{
    if limit <= used {
        return "full: ";
    }
    if limit - used < limit / 10 {
        return "less than a tenth is left: ";
    }
    "less than a quarter is left: "
}

// Appends the lines of each row.
fn put_scarce_rows(text: &mut String, rows: &[Row<'_>]) -> Result<(), AllocError>
    ensures { OnOk result (string_bytes text.new
        ≡ string_bytes text.old ++ scarce_rows_text rows.now) }
{
    for row in rows {
        put_scarce_row(text, row)?;
    }
    Ok(())
}

// Appends a line for the items of a row and one for its versions, each where less than a quarter is left of them.
fn put_scarce_row(text: &mut String, row: &Row<'_>) -> Result<(), AllocError>
    ensures { OnOk result (string_bytes text.new
        ≡ string_bytes text.old ++ scarce_row_text row.now) }
{
    put_room(
        text,
        row,
        u64::from(row.items),
        u64::from(row.items_limit),
        " items",
    )?;
    put_room(
        text,
        row,
        u64::from(row.versions),
        u64::from(row.versions_limit),
        " versions",
    )
}

// Appends a line for what a tenant uses of a limit at a partition, where less than a quarter is left of it.
fn put_room(
    text: &mut String,
    row: &Row<'_>,
    used: u64,
    limit: u64,
    what: &str,
) -> Result<(), AllocError>
    ensures { OnOk result (string_bytes text.new
        ≡ string_bytes text.old ++ room_text row.now used limit what.now) }
{
    if !is_scarce(used, limit) {
        return Ok(());
    }
    put_share(text, used, limit, what)?;
    put_place(text, row.tenant, row.partition)
}

// Appends a line for the sessions, where less than a quarter is left of them.
fn put_sessions(text: &mut String, used: u64, limit: u64) -> Result<(), AllocError>
    ensures { OnOk result (string_bytes text.new
        ≡ string_bytes text.old ++ sessions_text used limit) }
{
    if !is_scarce(used, limit) {
        return Ok(());
    }
    put_share(text, used, limit, " sessions\n")
}

// Appends how much is left of a limit, and how much of it is used.
fn put_share(text: &mut String, used: u64, limit: u64, what: &str) -> Result<(), AllocError>
    ensures { OnOk result (string_bytes text.new
        ≡ string_bytes text.old ++ share_text used limit what.now) }
{
    text.push_str(left_words(used, limit))?;
    let mut buffer = Buffer::new();
    text.push_str(buffer.format(used))?;
    text.push_str(" of ")?;
    let mut buffer = Buffer::new();
    text.push_str(buffer.format(limit))?;
    text.push_str(what)
}

// Appends whose it is and where, and ends the line.
fn put_place(text: &mut String, tenant: &str, partition: u32) -> Result<(), AllocError>
    ensures { OnOk result (string_bytes text.new
        ≡ string_bytes text.old ++ place_text tenant.now partition) }
{
    text.push_str(" of tenant ")?;
    text.push_str(tenant)?;
    put_partition(text, partition)
}

// Appends at which partition it is, and ends the line.
fn put_partition(text: &mut String, partition: u32) -> Result<(), AllocError>
    ensures { OnOk result (string_bytes text.new
        ≡ string_bytes text.old ++ partition_text partition) }
{
    text.push_str(" at partition ")?;
    let mut buffer = Buffer::new();
    text.push_str(buffer.format(partition))?;
    text.push_str("\n")
}
