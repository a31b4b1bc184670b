//! What was read of a server, in the text format of Prometheus.
ghost use Rattle.std.specs.Prelude.{◌≡◌, ◌-◌, ◌++◌, OnOk, if◌then◌else◌, not, string_bytes};
ghost use Rattle.std.specs.List.{list_all};
ghost use Rattle.std.specs.Option.{option_map};
ghost use Rattle.server_metrics.specs.Figures.{figure_text};
ghost use Rattle.server_metrics.specs.MetricsText.{all_tenants_text, client_text, clients_number, clients_text, connections_text, families_text, is_well, metrics_text, number_of, operation_rows_text, operation_text, operations_of, operations_text, place_of, plain_text, process_text, refusal_rows_text, refusal_text, refusals_of, refusals_text, refused_text, row_text, rows_text, server_text, table_text, tenant_answers_text, tenant_refusal_rows_text, tenant_refusal_text, tenant_refusals_text, tenants_text};

use crate::families::{Family, OF_ROWS};
use crate::figures::{Label, put_family, put_figure};
use crate::times::{LineSeconds, put_times};
use itoa::Buffer;
use std::alloc::AllocError;

/// How much one tenant uses of one partition, of which limits, and how the epochs of its journal there were.
#[derive(Clone, Copy)]
pub struct Row<'a> {
    pub tenant: &'a str,
    pub partition: u32,
    pub items: u32,
    pub items_limit: u32,
    pub versions: u32,
    pub versions_limit: u32,
    pub marks: u32,
    pub marks_limit: u32,
    /// Calls that were served, collections among them.
    pub calls: u64,
    /// Its collections there.
    pub collections: u64,
    /// Epochs that were cut.
    pub cut: u64,
    /// How many of them were checked and right, where epochs are checked.
    pub checked: Option<u64>,
    /// Whether an epoch was not right, or could not be checked.
    pub is_wrong: bool,
}

/// How many client numbers of a tenant were used, of how many, and what its sessions did.
#[derive(Drop)]
pub struct ClientRow<'a> {
    pub tenant: &'a str,
    pub clients: u64,
    pub limit: u64,
    /// Its sessions that are open.
    pub sessions: u64,
    /// Its operations that ended well, by kind.
    pub puts: u64,
    pub gets: u64,
    pub finds: u64,
    /// A row of each refusal but 12 that its clients were answered.
    pub refusals: Vec<RefusalRow>,
}

/// How many lines were answered by one refusal.
#[derive(Clone, Copy)]
pub struct RefusalRow {
    /// The number by which lines name it.
    pub number: u8,
    pub lines: u64,
}

/// What was read of a server.
#[derive(Drop)]
pub struct ServerReadings<'a> {
    /// For each partition a row of each tenant.
    pub rows: Vec<Row<'a>>,
    /// A row of each tenant.
    pub clients: Vec<ClientRow<'a>>,
    /// A row of each refusal but 12.
    pub refusals: Vec<RefusalRow>,
    /// How many lines `hello` were refused 12, since the client number has a session.
    pub busy: u64,
    /// How many lines were answered by a restart.
    pub restarts: u64,
    /// How long lines took.
    pub times: LineSeconds,
    /// The connections that are open, how many are served at a time, and how many were begun in all.
    pub open: u64,
    pub most: u64,
    pub begun: u64,
    /// When the server started, in seconds since 1970.
    pub started: u64,
    /// Which program it is.
    pub version: &'static str,
    /// Whether each partition is there.
    pub is_whole: bool,
}

impl ServerReadings<'_> {
    /// Whether the server is well: each partition is there, and no epoch was found that is not right or could not be checked.
    pub fn is_well(&self) -> bool
        ensures { result ≡ is_well self.now }
    {
        self.is_whole && are_right(&self.rows)
    }
}

// Whether no row is wrong.
fn are_right(rows: &[Row<'_>]) -> bool
    ensures { result ≡ list_all (λ row. not row.is_wrong) rows.now }
{
    rows.iter().all(|row| !row.is_wrong)
}

/// Appends the metrics that were read. Where an allocation fails, a part of them may be there.
pub fn put_metrics(text: &mut String, readings: &ServerReadings<'_>) -> Result<(), AllocError>
    ensures { OnOk result (string_bytes text.new
        ≡ string_bytes text.old ++ metrics_text readings.now) }
{
    put_table(text, &readings.rows)?;
    put_all_tenants(text, &readings.clients)?;
    put_refusals(text, &readings.refusals)?;
    put_times(text, Family::Times, &readings.times)?;
    put_server(text, readings)
}

// Appends all families of rows.
#[tactic(auto, unfolding(crate::specs::MetricsText::table_text))]
fn put_table(text: &mut String, rows: &[Row<'_>]) -> Result<(), AllocError>
    ensures { OnOk result (string_bytes text.new ≡ string_bytes text.old ++ table_text rows.now) }
{
    put_families(text, &OF_ROWS, rows)
}

// Appends families of rows, each with its number of each row.
fn put_families(text: &mut String, families: &[Family], rows: &[Row<'_>]) -> Result<(), AllocError>
    ensures { OnOk result (string_bytes text.new
        ≡ string_bytes text.old ++ families_text rows.now families.now) }
{
    for family in families {
        put_family(text, *family)?;
        put_rows(text, *family, rows)?;
    }
    Ok(())
}

// Appends a family's number of each row.
fn put_rows(text: &mut String, family: Family, rows: &[Row<'_>]) -> Result<(), AllocError>
    ensures { OnOk result (string_bytes text.new
        ≡ string_bytes text.old ++ rows_text family rows.now) }
{
    for row in rows {
        put_row(text, family, row)?;
    }
    Ok(())
}

// Appends a family's number of a row, if the row has it.
fn put_row(text: &mut String, family: Family, row: &Row<'_>) -> Result<(), AllocError>
    ensures { OnOk result (string_bytes text.new
        ≡ string_bytes text.old ++ row_text family row.now) }
{
    let Some(number) = number_of(family, row) else {
        return Ok(());
    };
    let mut buffer = Buffer::new();
    let partition = buffer.format(row.partition);
    put_placed(text, family, row.tenant, partition, number)
}

// Appends a family's number of a tenant at a partition.
fn put_placed<'a>(
    text: &mut String,
    family: Family,
    tenant: &'a str,
    partition: &'a str,
    number: u64,
) -> Result<(), AllocError>
    ensures { OnOk result (string_bytes text.new
        ≡ string_bytes text.old ++ figure_text family (place_of tenant.now partition.now) number) }
{
    let labels = [
        Label {
            name: "tenant",
            value: tenant,
        },
        Label {
            name: "partition",
            value: partition,
        },
    ];
    put_figure(text, family, &labels, number)
}

// A family's number of a row, if the row has it.
fn number_of(family: Family, row: &Row<'_>) -> Option<u64>
    ensures { result ≡ number_of family row.now }
{
    match family {
        Family::Items => Some(u64::from(row.items)),
        Family::ItemsLimit => Some(u64::from(row.items_limit)),
        Family::Versions => Some(u64::from(row.versions)),
        Family::VersionsLimit => Some(u64::from(row.versions_limit)),
        Family::Marks => Some(u64::from(row.marks)),
        Family::MarksLimit => Some(u64::from(row.marks_limit)),
        Family::Calls => Some(row.calls),
        Family::Collections => Some(row.collections),
        Family::Cut => Some(row.cut),
        Family::Checked => row.checked,
        Family::Waiting => waiting_of(row),
        Family::Wrong => wrong_of(row),
        _ => None,
    }
}

// How many epochs wait for their check, where epochs are checked.
fn waiting_of(row: &Row<'_>) -> Option<u64>
    ensures { result ≡ option_map (λ checked. row.now.cut - checked) row.now.checked }
{
    match row.checked {
        Some(checked) => Some(row.cut.saturating_sub(checked)),
        None => None,
    }
}

// 1 where an epoch was not right, else 0, where epochs are checked.
fn wrong_of(row: &Row<'_>) -> Option<u64>
    ensures { result ≡ option_map (λ checked. if row.now.is_wrong then 1 else 0) row.now.checked }
{
    if row.checked.is_none() {
        return None;
    }
    Some(if row.is_wrong { 1 } else { 0 })
}

// Appends how many client numbers of each tenant were used and may be, its open sessions, its operations and its refusals.
#[tactic(auto, unfolding(crate::specs::MetricsText::all_tenants_text))]
fn put_all_tenants(text: &mut String, rows: &[ClientRow<'_>]) -> Result<(), AllocError>
    ensures { OnOk result (string_bytes text.new
        ≡ string_bytes text.old ++ all_tenants_text rows.now) }
{
    put_tenants(text, Family::Clients, rows)?;
    put_tenants(text, Family::ClientsLimit, rows)?;
    put_tenants(text, Family::Sessions, rows)?;
    put_tenant_answers(text, rows)
}

// Appends what the tenants' lines were answered: their operations and refusals.
#[tactic(auto, unfolding(crate::specs::MetricsText::tenant_answers_text))]
fn put_tenant_answers(text: &mut String, rows: &[ClientRow<'_>]) -> Result<(), AllocError>
    ensures { OnOk result (string_bytes text.new
        ≡ string_bytes text.old ++ tenant_answers_text rows.now) }
{
    put_operations(text, rows)?;
    put_tenant_refusals(text, rows)
}

// Appends the family of the operations.
fn put_operations(text: &mut String, rows: &[ClientRow<'_>]) -> Result<(), AllocError>
    ensures { OnOk result (string_bytes text.new
        ≡ string_bytes text.old ++ operations_text rows.now) }
{
    put_family(text, Family::Operations)?;
    put_operation_rows(text, rows)
}

// Appends the lines of each tenant's operations.
fn put_operation_rows(text: &mut String, rows: &[ClientRow<'_>]) -> Result<(), AllocError>
    ensures { OnOk result (string_bytes text.new
        ≡ string_bytes text.old ++ operation_rows_text rows.now) }
{
    for row in rows {
        put_operations_of(text, row)?;
    }
    Ok(())
}

// Appends the lines of a tenant's operations.
#[tactic(auto, unfolding(crate::specs::MetricsText::operations_of))]
fn put_operations_of(text: &mut String, row: &ClientRow<'_>) -> Result<(), AllocError>
    ensures { OnOk result (string_bytes text.new
        ≡ string_bytes text.old ++ operations_of row.now) }
{
    put_operation(text, row.tenant, "put", row.puts)?;
    put_operation(text, row.tenant, "get", row.gets)?;
    put_operation(text, row.tenant, "find", row.finds)
}

// Appends the line of a tenant's operations of a kind.
fn put_operation<'a>(
    text: &mut String,
    tenant: &'a str,
    kind: &'a str,
    number: u64,
) -> Result<(), AllocError>
    ensures { OnOk result (string_bytes text.new
        ≡ string_bytes text.old ++ operation_text tenant.now kind.now number) }
{
    let labels = [
        Label {
            name: "tenant",
            value: tenant,
        },
        Label {
            name: "kind",
            value: kind,
        },
    ];
    put_figure(text, Family::Operations, &labels, number)
}

// Appends the family of the tenants' refusals.
#[tactic(auto, unfolding(crate::specs::MetricsText::tenant_refusals_text))]
fn put_tenant_refusals(text: &mut String, rows: &[ClientRow<'_>]) -> Result<(), AllocError>
    ensures { OnOk result (string_bytes text.new
        ≡ string_bytes text.old ++ tenant_refusals_text rows.now) }
{
    put_family(text, Family::TenantRefusals)?;
    put_tenant_refusal_rows(text, rows)
}

// Appends the lines of each tenant's refusals.
fn put_tenant_refusal_rows(text: &mut String, rows: &[ClientRow<'_>]) -> Result<(), AllocError>
    ensures { OnOk result (string_bytes text.new
        ≡ string_bytes text.old ++ tenant_refusal_rows_text rows.now) }
{
    for row in rows {
        put_refusals_of(text, row.tenant, &row.refusals)?;
    }
    Ok(())
}

// Appends the lines of a tenant's refusals.
fn put_refusals_of(
    text: &mut String,
    tenant: &str,
    refusals: &[RefusalRow],
) -> Result<(), AllocError>
    ensures { OnOk result (string_bytes text.new
        ≡ string_bytes text.old ++ refusals_of tenant.now refusals.now) }
{
    for row in refusals {
        put_tenant_refusal(text, tenant, row)?;
    }
    Ok(())
}

// Appends the line of a tenant's refusal.
#[tactic(auto, unfolding(crate::specs::MetricsText::tenant_refusal_text))]
fn put_tenant_refusal(text: &mut String, tenant: &str, row: &RefusalRow) -> Result<(), AllocError>
    ensures { OnOk result (string_bytes text.new
        ≡ string_bytes text.old ++ tenant_refusal_text tenant.now row.now) }
{
    let mut buffer = Buffer::new();
    let number = buffer.format(row.number);
    put_refused(text, tenant, number, row.lines)
}

// Appends how many lines of a tenant's clients were answered by the refusal of this number.
fn put_refused<'a>(
    text: &mut String,
    tenant: &'a str,
    number: &'a str,
    lines: u64,
) -> Result<(), AllocError>
    ensures { OnOk result (string_bytes text.new
        ≡ string_bytes text.old ++ refused_text tenant.now number.now lines) }
{
    let labels = [
        Label {
            name: "tenant",
            value: tenant,
        },
        Label {
            name: "number",
            value: number,
        },
    ];
    put_figure(text, Family::TenantRefusals, &labels, lines)
}

// Appends a family with its number of each tenant.
fn put_tenants(text: &mut String, family: Family, rows: &[ClientRow<'_>]) -> Result<(), AllocError>
    ensures { OnOk result (string_bytes text.new
        ≡ string_bytes text.old ++ tenants_text family rows.now) }
{
    put_family(text, family)?;
    put_clients(text, family, rows)
}

// Appends a family's number of each tenant.
fn put_clients(text: &mut String, family: Family, rows: &[ClientRow<'_>]) -> Result<(), AllocError>
    ensures { OnOk result (string_bytes text.new
        ≡ string_bytes text.old ++ clients_text family rows.now) }
{
    for row in rows {
        put_client(text, family, row)?;
    }
    Ok(())
}

// Appends a family's number of a tenant.
fn put_client(text: &mut String, family: Family, row: &ClientRow<'_>) -> Result<(), AllocError>
    ensures { OnOk result (string_bytes text.new
        ≡ string_bytes text.old ++ client_text family row.now) }
{
    let labels = [Label {
        name: "tenant",
        value: row.tenant,
    }];
    put_figure(text, family, &labels, clients_number(family, row))
}

// A family's number of a tenant.
fn clients_number(family: Family, row: &ClientRow<'_>) -> u64
    ensures { result ≡ clients_number family row.now }
{
    match family {
        Family::ClientsLimit => row.limit,
        Family::Sessions => row.sessions,
        _ => row.clients,
    }
}

// Appends how many lines were answered by each refusal.
#[tactic(auto, unfolding(crate::specs::MetricsText::refusals_text))]
fn put_refusals(text: &mut String, rows: &[RefusalRow]) -> Result<(), AllocError>
    ensures { OnOk result (string_bytes text.new
        ≡ string_bytes text.old ++ refusals_text rows.now) }
{
    put_family(text, Family::Refusals)?;
    put_refusal_rows(text, Family::Refusals, rows)
}

// Appends a family's line of each refusal.
fn put_refusal_rows(
    text: &mut String,
    family: Family,
    rows: &[RefusalRow],
) -> Result<(), AllocError>
    ensures { OnOk result (string_bytes text.new
        ≡ string_bytes text.old ++ refusal_rows_text family rows.now) }
{
    for row in rows {
        put_refusal(text, family, row)?;
    }
    Ok(())
}

// Appends a family's line of a refusal.
fn put_refusal(text: &mut String, family: Family, row: &RefusalRow) -> Result<(), AllocError>
    ensures { OnOk result (string_bytes text.new
        ≡ string_bytes text.old ++ refusal_text family row.now) }
{
    let mut buffer = Buffer::new();
    let labels = [Label {
        name: "number",
        value: buffer.format(row.number),
    }];
    put_figure(text, family, &labels, row.lines)
}

// Appends what was read of the sessions and the process.
#[tactic(auto, unfolding(crate::specs::MetricsText::server_text))]
fn put_server(text: &mut String, readings: &ServerReadings<'_>) -> Result<(), AllocError>
    ensures { OnOk result (string_bytes text.new
        ≡ string_bytes text.old ++ server_text readings.now) }
{
    put_plain(text, Family::HellosBusy, readings.busy)?;
    put_plain(text, Family::Restarts, readings.restarts)?;
    put_connections(text, readings)?;
    put_process(text, readings)
}

// Appends how many connections there are, may be and were begun.
fn put_connections(text: &mut String, readings: &ServerReadings<'_>) -> Result<(), AllocError>
    ensures { OnOk result (string_bytes text.new
        ≡ string_bytes text.old ++ connections_text readings.now) }
{
    put_plain(text, Family::Connections, readings.open)?;
    put_plain(text, Family::ConnectionsLimit, readings.most)?;
    put_plain(text, Family::ConnectionsBegun, readings.begun)
}

// Appends when the server started, and which program it is.
fn put_process(text: &mut String, readings: &ServerReadings<'_>) -> Result<(), AllocError>
    ensures { OnOk result (string_bytes text.new
        ≡ string_bytes text.old ++ process_text readings.now) }
{
    put_plain(text, Family::Started, readings.started)?;
    put_family(text, Family::Build)?;
    let labels = [Label {
        name: "version",
        value: readings.version,
    }];
    put_figure(text, Family::Build, &labels, 1)
}

// Appends a family of one number.
fn put_plain(text: &mut String, family: Family, number: u64) -> Result<(), AllocError>
    ensures { OnOk result (string_bytes text.new
        ≡ string_bytes text.old ++ plain_text family number) }
{
    put_family(text, family)?;
    put_figure(text, family, &[], number)
}
