//! What a scrape reads of a running server.
ghost use Rattle.std.specs.Prelude.{◌≡◌, ◌≢◌, ◌<◌, ◌-◌, ◌^◌, [], min, IfOk, IsTrue, vec_len, length};
ghost use mathlib.Core.List.{IsPrefix};
ghost use Rattle.server_metrics.specs.TimesText.{AreRising};
ghost use Rattle.server_status.specs.Reported.{AreChecksAt, AreClientRows, AreRefusalRows, AreRowsAt, AreRowsBefore, AreRowsBehind, IsCheckOf, IsReadOf, IsRowAt, IsRowOf, known_in};

use hub::{Front, Gate, Hub, Naming, TenantUsage};
use line_protocol::Name;
use server_metrics::{ClientRow, LineSeconds, RefusalRow, Row, ServerReadings, TimeRow};
use server_sessions::{AnswerCounts, LineTimes, Listener, Server, TenantCount};
use server_verdicts::{CheckProgress, Checked, JournalChecks, Standing, progress_at};
use stamps::Limits;
use std::alloc::{AllocError, Global};
use std::sync::{Mutex, Wait};

/// The number by which a `hello` is refused whose client number has a session. Clients draw numbers until one is free, so these lines are
/// no trouble, and have a count of their own.
const BUSY: u8 = 12;

/// What a status port reports of.
#[derive(Drop)]
pub struct Watched<'s, G: Naming, C = Mutex<Checked>> {
    /// The running store whose figures are read.
    pub hub: &'s Hub<G>,
    /// The names of its tenants.
    pub names: &'s [Name],
    /// What serves its sessions.
    pub server: &'s Server<Listener, G, &'s [Name]>,
    /// What is known of its journals, where epochs are checked.
    pub known: Option<&'s Vec<Vec<C>>>,
    /// When the server started, in seconds since 1970.
    pub started: u64,
    /// Which program it is.
    pub version: &'static str,
}

impl<'s, G: Gate + Naming, C: JournalChecks> Watched<'s, G, C> {
    /// Reads all that is reported, one partition after another, each under its own lock. It takes time for each tenant at each
    /// partition, and visits none of what they hold. It waits for no session, but where an epoch is being checked for that
    /// check. It sees the store's history as it is at each partition: what a tenant uses there is what all calls left that the history has of
    /// the partition then. Who reads with what it saw before reads nothing older. The one error is that an allocation failed.
    pub fn read<H: Wait>(
        &self,
        rt: &H,
        alloc: Global,
        seen: &mut Front<G>,
    ) -> Result<ServerReadings<'s>, AllocError>
        ensures read { IfOk result (IsReadOf C.has_told self.now seen.old seen.new) }
        ensures later { IsPrefix seen.old seen.new }
    {
        let mut rows = Vec::new(alloc);
        let is_whole = self.read_partitions(rt, alloc, &mut rows, seen)?;
        let connections = self.server.connections(rt);
        Ok(ServerReadings {
            rows,
            // Before those of tenants, so that no tenant's lacks in them.
            refusals: read_refusals(alloc, self.server.answers(), None)?,
            clients: self.read_clients(rt, alloc)?,
            busy: self.server.answers().refusals(BUSY),
            restarts: self.server.answers().restarts(),
            times: read_times(alloc, self.server.times())?,
            open: connections.open as u64,
            most: connections.most as u64,
            begun: connections.begun,
            started: self.started,
            version: self.version,
            is_whole,
        })
    }

    // Puts a row of each tenant at each partition into the rows, of which there are none. Says whether each partition is there.
    fn read_partitions<H: Wait>(
        &self,
        rt: &H,
        alloc: Global,
        rows: &mut Vec<Row<'s>>,
        seen: &mut Front<G>,
    ) -> Result<bool, AllocError>
        requires { rows.old.items ≡ [] }
        ensures rows { IfOk result (λ is_whole. IsTrue is_whole
            → AreRowsBefore C.has_told self.now seen.old seen.new
            self.now.hub.now.parts rows.new.items) }
        ensures later { IsPrefix seen.old seen.new }
    {
        let mut is_whole = true;
        for partition in 0..self.hub.parts() {
            if !self.read_partition(rt, alloc, partition, rows, seen)? {
                is_whole = false;
            }
        }
        Ok(is_whole)
    }

    // Puts a row of each tenant at a partition behind the rows. Says whether the partition is there, with all tenants of the store: the
    // rows are then of one moment.
    fn read_partition<H: Wait>(
        &self,
        rt: &H,
        alloc: Global,
        partition: u32,
        rows: &mut Vec<Row<'s>>,
        seen: &mut Front<G>,
    ) -> Result<bool, AllocError>
        ensures rows { IfOk result (λ is_there. IsTrue is_there
            → AreRowsAt C.has_told self.now seen.new partition rows.old.items rows.new.items) }
        ensures later { IsPrefix seen.old seen.new }
    {
        let mut usages = Vec::new(alloc);
        if !self.hub.status(rt, partition, &mut usages, seen)? {
            return Ok(false);
        }
        // Behind the epochs that were cut, since a read of the checks waits: meanwhile more are cut, of which none seems to wait.
        let checks = self.read_checks(rt, alloc, partition)?;
        self.put_rows(partition, &usages, &checks, rows)
    }

    // How far the checks of each tenant's journal at a partition have come.
    fn read_checks<H: Wait>(
        &self,
        rt: &H,
        alloc: Global,
        partition: u32,
    ) -> Result<Vec<Option<CheckProgress>>, AllocError>
        ensures { IfOk result (λ checks. AreChecksAt C.has_told self.now partition checks.items) }
    {
        let mut checks = Vec::new(alloc);
        for tenant in 0..tenants_of(self.names) {
            checks.push(self.read_check(rt, partition, tenant))?;
        }
        Ok(checks)
    }

    // How far the checks of a tenant's journal at a partition have come, where epochs are checked and it is there.
    fn read_check<H: Wait>(&self, rt: &H, partition: u32, tenant: u32) -> Option<CheckProgress>
        ensures { IsCheckOf C.has_told (known_in self.now.known partition tenant) result }
    {
        match self.known {
            Some(known) => progress_at(rt, known, partition, tenant),
            None => None,
        }
    }

    // Puts a row of each usage behind the rows. Says whether each is of a tenant that has a name.
    fn put_rows(
        &self,
        partition: u32,
        usages: &[TenantUsage],
        checks: &[Option<CheckProgress>],
        rows: &mut Vec<Row<'s>>,
    ) -> Result<bool, AllocError>
        ensures { IfOk result (λ is_there. IsTrue is_there
            → AreRowsBehind partition self.now.names.now self.now.hub.now.limits
            checks.now usages.now rows.old.items rows.new.items) }
    {
        let limits = self.hub.limits();
        for (tenant, used) in usages.iter().enumerate() {
            let (Some(name), Some(limits), Some(progress)) = (
                self.names.get(tenant),
                limits.get(tenant),
                checks.get(tenant),
            ) else {
                return Ok(false);
            };
            rows.push(row_of(text_of(name), partition, used, limits, *progress))?;
        }
        Ok(true)
    }

    // The row of a tenant's clients, of which so many numbers were used, and which were answered these refusals.
    fn client_row(
        &self,
        tenant: u32,
        name: &'s Name,
        limits: &Limits,
        used: u64,
        refusals: Vec<RefusalRow>,
    ) -> ClientRow<'s>
        ensures { (result.tenant.now ≡ name.now) × (result.clients ≡ used)
            × (result.limit ≡ limits.now.clients) × (result.refusals ≡ refusals) }
    {
        let answers = self.server.answers();
        // Behind it others may be opened, and none of these seems to be closed.
        let closed = answers.of_tenant(tenant, TenantCount::Closed);
        let opened = answers.of_tenant(tenant, TenantCount::Opened);
        ClientRow {
            tenant: text_of(name),
            clients: used,
            limit: u64::from(limits.clients),
            sessions: opened.saturating_sub(closed),
            puts: answers.of_tenant(tenant, TenantCount::Puts),
            gets: answers.of_tenant(tenant, TenantCount::Gets),
            finds: answers.of_tenant(tenant, TenantCount::Finds),
            refusals,
        }
    }

    // A row of each tenant's clients.
    fn read_clients<H: Wait>(&self, rt: &H, alloc: Global) -> Result<Vec<ClientRow<'s>>, AllocError>
        ensures all { IfOk result (λ rows. vec_len rows
            ≡ min (min (length self.now.names.now) (2 ^ 32 - 1)) (length self.now.hub.now.limits)) }
        ensures each { IfOk result
            (λ rows. AreClientRows self.now.names.now self.now.hub.now.limits rows.items) }
    {
        let mut clients = Vec::new(alloc);
        let limits = self.hub.limits();
        for tenant in 0..tenants_of(self.names) {
            let (Some(name), Some(limits)) = (
                self.names.get(tenant as usize),
                limits.get(tenant as usize),
            ) else {
                break;
            };
            let used = self.hub.clients(rt, tenant) as u64;
            let refusals = read_refusals(alloc, self.server.answers(), Some(tenant))?;
            clients.push(self.client_row(tenant, name, limits, used, refusals))?;
        }
        Ok(clients)
    }
}

// How many tenants have these names.
fn tenants_of(names: &[Name]) -> u32
    ensures { result ≡ min (length names.now) (2 ^ 32 - 1) }
{
    u32::try_from(names.len()).unwrap_or(u32::MAX)
}

// A row of each refusal but 12 that was answered, to this tenant's clients or to all.
fn read_refusals(
    alloc: Global,
    answers: &AnswerCounts,
    tenant: Option<u32>,
) -> Result<Vec<RefusalRow>, AllocError>
    ensures { IfOk result (λ rows. AreRefusalRows 0 43 rows.items) }
{
    let mut refusals = Vec::new(alloc);
    for number in 0..AnswerCounts::NUMBERS {
        let lines = lines_of(answers, tenant, number);
        if lines > 0 {
            refusals.push(RefusalRow { number, lines })?;
        }
    }
    Ok(refusals)
}

// How many lines were answered by this refusal, but 12: this tenant's clients' or all.
fn lines_of(answers: &AnswerCounts, tenant: Option<u32>, number: u8) -> u64
    ensures { 0 < result → number ≢ BUSY }
{
    if number == BUSY {
        return 0;
    }
    match tenant {
        Some(tenant) => answers.of_tenant(tenant, TenantCount::Refusals(number)),
        None => answers.refusals(number),
    }
}

// How long lines took.
fn read_times(alloc: Global, times: &LineTimes) -> Result<LineSeconds, AllocError>
    ensures { IfOk result (λ told. AreRising 0 told.rows.items told.lines) }
{
    let mut rows = Vec::new(alloc);
    let mut lines = 0u64;
    for class in 0..LineTimes::CLASSES {
        lines = lines.saturating_add(times.lines(class));
        rows.push(TimeRow {
            within: LineTimes::edge(class),
            lines,
        })?;
    }
    Ok(LineSeconds {
        rows,
        lines,
        micros: times.micros(),
    })
}

// The row of a tenant at a partition.
fn row_of<'s>(
    tenant: &'s str,
    partition: u32,
    used: &TenantUsage,
    limits: &Limits,
    progress: Option<CheckProgress>,
) -> Row<'s>
    ensures { IsRowOf used.now result
        × IsRowAt partition tenant.now limits.now progress result }
{
    let usage = &used.usage;
    let cut = usage.epoch.saturating_sub(1);
    let (checked, is_wrong) = match progress {
        Some(its) => (Some(its.checked.min(cut)), its.standing != Standing::Right),
        None => (None, false),
    };
    Row {
        tenant,
        partition,
        items: usage.holdings.items,
        items_limit: limits.items,
        versions: usage.holdings.versions,
        versions_limit: limits.slots,
        marks: usage.holdings.marks,
        marks_limit: limits.clients,
        calls: usage.served,
        collections: used.collections,
        cut,
        checked,
        is_wrong,
    }
}

// The name as text.
#[tactic(auto, using(crate::proofs::Names::name_is_utf8))]
fn text_of(name: &Name) -> &str
    ensures { result.now ≡ name.now }
{
    str::from_utf8(name.as_bytes()).unwrap()
}
