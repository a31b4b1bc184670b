//! The families of the metrics: their names, and what they count.
ghost use Rattle.std.specs.Prelude.{◌≡◌};
ghost use Rattle.server_metrics.specs.Families.{help_text, kind_text, name_text};

/// Numbers of one name.
#[derive(Clone, Copy)]
pub enum Family {
    Items,
    ItemsLimit,
    Versions,
    VersionsLimit,
    Marks,
    MarksLimit,
    Calls,
    Collections,
    Cut,
    Checked,
    Waiting,
    Wrong,
    Clients,
    ClientsLimit,
    Sessions,
    Operations,
    TenantRefusals,
    Refusals,
    HellosBusy,
    Restarts,
    Times,
    Connections,
    ConnectionsLimit,
    ConnectionsBegun,
    Started,
    Build,
}

/// The families that have a number for each tenant at each partition.
pub(crate) const OF_ROWS: [Family; 12] = [
    Family::Items,
    Family::ItemsLimit,
    Family::Versions,
    Family::VersionsLimit,
    Family::Marks,
    Family::MarksLimit,
    Family::Calls,
    Family::Collections,
    Family::Cut,
    Family::Checked,
    Family::Waiting,
    Family::Wrong,
];

/// The name of a family's numbers.
pub(crate) fn name_text(family: Family) -> &'static str
    ensures { result.now ≡ name_text family }
{
    match family {
        Family::Items => "ramp_items",
        Family::ItemsLimit => "ramp_items_limit",
        Family::Versions => "ramp_versions",
        Family::VersionsLimit => "ramp_versions_limit",
        Family::Marks => "ramp_marks",
        Family::MarksLimit => "ramp_marks_limit",
        Family::Calls => "ramp_calls_served_total",
        Family::Collections => "ramp_collections_total",
        Family::Cut => "ramp_epochs_cut_total",
        Family::Checked => "ramp_epochs_checked_total",
        Family::Waiting => "ramp_epochs_waiting",
        Family::Wrong => "ramp_journal_wrong",
        Family::Clients => "ramp_clients",
        Family::ClientsLimit => "ramp_clients_limit",
        Family::Sessions => "ramp_sessions",
        Family::Operations => "ramp_operations_total",
        Family::TenantRefusals => "ramp_tenant_refusals_total",
        Family::Refusals => "ramp_refusals_total",
        Family::HellosBusy => "ramp_hellos_busy_total",
        Family::Restarts => "ramp_restarts_total",
        Family::Times => "ramp_line_seconds",
        Family::Connections => "ramp_connections",
        Family::ConnectionsLimit => "ramp_connections_limit",
        Family::ConnectionsBegun => "ramp_connections_total",
        Family::Started => "process_start_time_seconds",
        Family::Build => "ramp_build_info",
    }
}

/// What a family's numbers count, in one line.
pub(crate) fn help_text(family: Family) -> &'static str
    ensures { result.now ≡ help_text family }
{
    match family {
        Family::Items => "Items that a tenant has at a partition.",
        Family::ItemsLimit => "Items that a tenant may have at a partition.",
        Family::Versions => "Versions that are kept of a tenant's items at a partition.",
        Family::VersionsLimit => "Versions that may be kept of a tenant's items at a partition.",
        Family::Marks => "Clients of a tenant that have a discard watermark at a partition.",
        Family::MarksLimit =>
            "Clients of a tenant that may have a discard watermark at a partition.",
        Family::Calls => "Calls of a tenant that a partition served, collections among them.",
        Family::Collections => "Collections of a tenant at a partition.",
        Family::Cut => "Epochs that were cut off a tenant's journal at a partition.",
        Family::Checked =>
            "Epochs of a tenant's journal at a partition that were checked and right.",
        Family::Waiting => "Epochs of a tenant's journal at a partition that wait for their check.",
        Family::Wrong =>
            "1 where an epoch of a tenant's journal at a partition was not right or not checked, else 0.",
        Family::Clients => "Client numbers of a tenant that were used.",
        Family::ClientsLimit => "Client numbers that a tenant may use.",
        Family::Sessions => "Sessions of a tenant that are open.",
        Family::Operations =>
            "Lines put, get and find of a tenant that were answered done, read and list.",
        Family::TenantRefusals =>
            "Lines of a tenant's clients that were answered by this refusal, but 12.",
        Family::Refusals => "Lines of sessions that were answered by this refusal, but 12.",
        Family::HellosBusy =>
            "Lines hello that were refused 12, since the client number has a session: clients then draw another.",
        Family::Restarts => "Lines of sessions that were answered by a restart.",
        Family::Times =>
            "How long lines took, from the read that brought them to the write of their answers.",
        Family::Connections => "Connections that are served now.",
        Family::ConnectionsLimit => "Connections that are served at a time.",
        Family::ConnectionsBegun => "Connections that were begun.",
        Family::Started => "When the server started, in seconds since 1970.",
        Family::Build => "1, with the version of the program.",
    }
}

/// The end of the line that says whether its numbers may fall: those of a counter and of a histogram never do while
/// the server runs.
pub(crate) fn kind_text(family: Family) -> &'static str
    ensures { result.now ≡ kind_text family }
{
    match family {
        Family::Calls
        | Family::Collections
        | Family::Cut
        | Family::Checked
        | Family::Operations
        | Family::TenantRefusals
        | Family::Refusals
        | Family::HellosBusy
        | Family::Restarts
        | Family::ConnectionsBegun => " counter\n",
        Family::Times => " histogram\n",
        _ => " gauge\n",
    }
}
