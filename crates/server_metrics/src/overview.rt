//! The page that shows a server in a browser, in one text: its script reads the metrics and the health once a second, and draws them.

/// The page, as HTML. It loads nothing from elsewhere, and asks for `/metrics` and `/health` alone.
pub(crate) const OVERVIEW: &str = r#"<!doctype html>
<html lang="en">
<head>
<meta charset="utf-8">
<meta name="viewport" content="width=device-width, initial-scale=1">
<title>ramp</title>
<style>
:root {
  color-scheme: light dark;
  --page: #f6f7f9; --card: #ffffff; --line: #dfe3e8; --grid: #e9ecf0; --text: #1b2129; --soft: #5c6773;
  --one: #2563c4; --two: #c2570c; --three: #0c8a6a; --good: #18794e; --warn: #96600a; --bad: #c4262e;
}
@media (prefers-color-scheme: dark) {
  :root {
    --page: #11151a; --card: #191f26; --line: #2b333d; --grid: #252c35; --text: #e6eaef; --soft: #97a3b0;
    --one: #6ea8fe; --two: #f0985a; --three: #4cc9a4; --good: #4cc38a; --warn: #e5b25d; --bad: #ff7b80;
  }
}
* { box-sizing: border-box; }
body { margin: 0; background: var(--page); color: var(--text); font: 15px/1.45 system-ui, sans-serif; }
main { max-width: 1560px; margin: 0 auto; padding: 16px; }
header { display: flex; flex-wrap: wrap; gap: 6px 14px; align-items: baseline; margin-bottom: 14px; }
h1 { margin: 0; font-size: 22px; }
h2 { margin: 0; font-size: 14px; font-weight: 600; }
#health { padding: 1px 10px; border-radius: 999px; border: 1px solid currentColor; font-weight: 600; }
.good { color: var(--good); } .warn { color: var(--warn); } .bad { color: var(--bad); }
.soft { color: var(--soft); }
pre { margin: 0 0 14px; padding: 10px 12px; border: 1px solid var(--line); border-radius: 8px; background: var(--card); font: 13px/1.5 ui-monospace, monospace; white-space: pre-wrap; overflow-wrap: anywhere; max-height: 18em; overflow-y: auto; }
.tiles { display: grid; gap: 10px; grid-template-columns: repeat(auto-fit, minmax(140px, 1fr)); margin-bottom: 14px; }
.tiles .two { grid-column: span 2; }
.charts { display: grid; gap: 14px; grid-template-columns: repeat(auto-fit, minmax(min(100%, 350px), 1fr)); margin-bottom: 14px; }
section { padding: 12px 14px; border: 1px solid var(--line); border-radius: 8px; background: var(--card); min-width: 0; }
.tiles b { display: block; font-size: 22px; font-weight: 600; font-variant-numeric: tabular-nums; line-height: 1.25; overflow-wrap: anywhere; }
.tiles span { color: var(--soft); font-size: 13px; }
.keys { display: flex; flex-wrap: wrap; gap: 2px 14px; min-height: 22px; margin-bottom: 6px; font-size: 13px; color: var(--soft); font-variant-numeric: tabular-nums; }
.keys i { display: inline-block; width: 10px; height: 10px; border-radius: 2px; margin-right: 5px; }
svg { display: block; width: 100%; height: 150px; overflow: visible; }
svg text { fill: var(--soft); font: 11px system-ui, sans-serif; }
svg .grid { stroke: var(--grid); } svg .base { stroke: var(--line); }
svg path { fill: none; stroke-width: 2; stroke-linejoin: round; }
.wide { overflow-x: auto; margin-bottom: 14px; }
table { width: 100%; border-collapse: collapse; font-variant-numeric: tabular-nums; margin-top: 6px; }
th { text-align: left; font-size: 12px; font-weight: 600; color: var(--soft); }
th, td { padding: 5px 10px 5px 0; border-bottom: 1px solid var(--grid); }
.number, .share { white-space: nowrap; }
td:first-child { overflow-wrap: anywhere; }
tr:last-child td { border-bottom: 0; }
.number { text-align: right; }
.bar { display: inline-block; vertical-align: middle; width: 90px; height: 8px; border-radius: 4px; background: var(--grid); overflow: hidden; margin-right: 8px; }
.bar i { display: block; height: 100%; background: var(--one); }
.bar i.warn { background: var(--warn); } .bar i.bad { background: var(--bad); }
@media (max-width: 560px) {
  main { padding: 10px; }
  .tiles { grid-template-columns: repeat(2, 1fr); }
  section { padding: 10px; }
  th, td { padding-right: 6px; font-size: 12px; }
  th.number { white-space: normal; }
  .bar { display: block; width: 100%; min-width: 50px; margin: 2px 0 0; }
}
</style>
</head>
<body>
<main>
<header>
  <h1>ramp</h1> <span id="health" class="soft" role="status">waiting</span>
  <span class="soft" id="since"></span> <span class="soft" id="state"></span>
</header>
<noscript>This page needs JavaScript. The numbers are at /metrics, the health is at /health.</noscript>
<pre id="concerns" hidden></pre>
<div class="tiles" id="tiles"></div>
<div class="charts" id="charts"></div>
<section class="wide"><h2>Tenants, and the client numbers they have used</h2><table id="tenants"></table></section>
<section class="wide"><h2>Room, by tenant and partition, and epochs that wait</h2> <span class="soft" id="more"></span><table id="rooms"></table></section>
<section class="wide"><h2>Refusals since the start, by number</h2><table id="refusals"></table></section>
</main>
<script>
"use strict";
// How many samples are kept, of one second each, and how many rows of rooms are shown.
const KEPT = 600, ROWS = 64;
const samples = [];
let failedSince = 0;

const at = id => document.getElementById(id);
const sum = numbers => numbers.reduce((all, one) => all + one, 0);

function element(name, text, kind) {
  const made = document.createElement(name);
  if (text !== undefined) made.textContent = text;
  if (kind) made.className = kind;
  return made;
}

// The text format of Prometheus: of each name its numbers, with their labels.
function parse(text) {
  const families = new Map();
  for (const line of text.split("\n")) {
    const found = /^([a-z_]+)(?:\{(.*)\})? (\S+)$/.exec(line);
    if (!found) continue;
    const labels = {};
    for (const [, name, value] of (found[2] || "").matchAll(/([a-z]+)="([^"]*)"/g)) labels[name] = value;
    if (!families.has(found[1])) families.set(found[1], []);
    families.get(found[1]).push({ labels, value: Number(found[3]) });
  }
  return families;
}

const rows = (families, name) => families.get(name) || [];
const those = (families, name, label, value) => rows(families, name).filter(row => row.labels[label] === value);
const total = (families, name) => sum(rows(families, name).map(row => row.value));
const of = (families, name, label, value) => sum(those(families, name, label, value).map(row => row.value));

function short(number) {
  if (!isFinite(number)) return "-";
  const [size, unit] = [[1e9, " G"], [1e6, " M"], [1e4, " k"]].find(([least]) => number >= least) || [1, ""];
  return places(number / (size === 1e4 ? 1e3 : size)) + unit;
}

const places = number => number >= 100 || Number.isInteger(number) ? Math.round(number).toString() : number.toFixed(1);

const cores = number => isFinite(number) ? number.toFixed(2) : "-";

function span(seconds) {
  const days = Math.floor(seconds / 86400), hours = Math.floor(seconds / 3600) % 24, minutes = Math.floor(seconds / 60) % 60;
  if (days) return days + " d " + hours + " h";
  if (hours) return hours + " h " + minutes + " min";
  return minutes ? minutes + " min" : Math.floor(seconds) + " s";
}

// How fast a counter grew from the sample before this one.
function rate(nth, read) {
  if (nth < 1) return NaN;
  const [before, now] = [samples[nth - 1], samples[nth]];
  return Math.max(0, read(now.families) - read(before.families)) / ((now.time - before.time) / 1000);
}

// The time that this share of the lines of the last ten seconds took at most. Within a class they are taken to spread evenly.
function quantile(nth, share) {
  if (nth < 1) return NaN;
  const name = "ramp_line_seconds_bucket", before = samples[Math.max(0, nth - 10)].families;
  const classes = rows(samples[nth].families, name).map(row => ({ edge: Number(row.labels.le), lines: row.value - of(before, name, "le", row.labels.le) }));
  const wanted = share * (classes.length ? classes[classes.length - 1].lines : 0);
  if (!(wanted > 0)) return NaN;
  const place = classes.findIndex(it => it.lines >= wanted), high = classes[place], low = place ? classes[place - 1] : { edge: 0, lines: 0 };
  return isFinite(high.edge) ? low.edge + (high.edge - low.edge) * (wanted - low.lines) / (high.lines - low.lines) : low.edge;
}

function memory(bytes) {
  if (!isFinite(bytes)) return "-";
  const unit = [[1e9, " GB"], [1e6, " MB"], [1e3, " KB"]].find(([size]) => bytes >= size);
  return unit ? places(bytes / unit[0]) + unit[1] : bytes + " B";
}

function time(seconds) {
  if (!isFinite(seconds)) return "-";
  if (seconds >= 1) return seconds.toFixed(1) + " s";
  return seconds >= 1e-3 ? places(seconds * 1e3) + " ms" : Math.round(seconds * 1e6) + " \u00b5s";
}

const operations = kind => families => of(families, "ramp_operations_total", "kind", kind);
const calls = families => total(families, "ramp_calls_served_total");
const refusals = families => total(families, "ramp_refusals_total");
const worked = families => total(families, "process_cpu_seconds_total");

const CHARTS = [
  { title: "Operations per second", format: short, needs: "ramp_operations_total", lines: [
    ["put", "--one", nth => rate(nth, operations("put"))],
    ["get", "--two", nth => rate(nth, operations("get"))],
    ["find", "--three", nth => rate(nth, operations("find"))]] },
  { title: "Calls of partitions per second", format: short, needs: "ramp_calls_served_total", lines: [
    ["calls", "--one", nth => rate(nth, calls)]] },
  { title: "Time of a line, in the last 10 seconds", format: time, needs: "ramp_line_seconds_bucket", lines: [
    ["p50", "--one", nth => quantile(nth, 0.5)],
    ["p99", "--two", nth => quantile(nth, 0.99)]] },
  { title: "Refusals and restarts per second", format: short, needs: "ramp_restarts_total", lines: [
    ["refusals", "--two", nth => rate(nth, refusals)],
    ["restarts", "--three", nth => rate(nth, families => total(families, "ramp_restarts_total"))]] },
  { title: "Epochs that wait for their check", format: short, needs: "ramp_epochs_waiting", lines: [
    ["waiting", "--one", nth => total(samples[nth].families, "ramp_epochs_waiting")]] },
  { title: "Memory of the server", format: memory, needs: "process_resident_memory_bytes", lines: [
    ["held", "--one", nth => total(samples[nth].families, "process_resident_memory_bytes")]] },
  { title: "CPU time of the server, in cores", format: cores, needs: "process_cpu_seconds_total", lines: [
    ["cores", "--one", nth => rate(nth, worked)]] },
];

function svg(name, attributes, text) {
  const made = document.createElementNS("http://www.w3.org/2000/svg", name);
  for (const key in attributes) made.setAttribute(key, attributes[key]);
  if (text !== undefined) made.textContent = text;
  return made;
}

// A round number that is no less, for the top of a scale.
function above(number) {
  if (!(number > 0)) return 1;
  const ten = 10 ** Math.floor(Math.log10(number));
  return [1, 2, 5, 10].find(step => step * ten >= number) * ten;
}

function drawing(chart, width) {
  const height = 150, left = 52, right = width - 8, top = 8, bottom = height - 20;
  const made = svg("svg", { viewBox: `0 0 ${width} ${height}`, role: "img", "aria-label": chart.title });
  const lines = chart.lines.map(([, color, read]) => [color, samples.map((_, nth) => read(nth))]);
  const most = above(Math.max(0, ...lines.flatMap(([, points]) => points.filter(isFinite))));
  const shown = [60, 300, KEPT].find(seconds => seconds >= samples.length);
  const x = nth => right - (samples.length - 1 - nth) * (right - left) / (shown - 1);
  const y = value => bottom - value / most * (bottom - top);
  for (const share of [0, 0.5, 1]) {
    made.append(svg("line", { class: share ? "grid" : "base", x1: left, x2: right, y1: y(share * most), y2: y(share * most) }),
      svg("text", { x: left - 6, y: y(share * most) + 4, "text-anchor": "end" }, share ? chart.format(share * most) : "0"));
  }
  made.append(svg("text", { x: left, y: height - 4 }, `${shown / 60} min ago`), svg("text", { x: right, y: height - 4, "text-anchor": "end" }, "now"));
  for (const [color, points] of lines) {
    let path = "", was = false;
    points.forEach((value, nth) => {
      if (isFinite(value)) path += `${was ? "L" : "M"}${x(nth).toFixed(1)} ${y(value).toFixed(1)}`;
      was = isFinite(value);
    });
    if (path) made.append(svg("path", { d: path, style: `stroke: var(${color})` }));
  }
  return made;
}

function drawCharts(families) {
  const charts = CHARTS.filter(chart => rows(families, chart.needs).length);
  while (at("charts").children.length < charts.length) at("charts").append(element("section"));
  charts.forEach((chart, place) => {
    const section = at("charts").children[place], keys = element("div", undefined, "keys");
    for (const [name, color, read] of chart.lines) {
      const key = element("span"), mark = element("i");
      mark.style.background = `var(${color})`;
      key.append(mark, `${name} ${chart.format(read(samples.length - 1))}`);
      keys.append(key);
    }
    section.replaceChildren(element("h2", chart.title), keys, drawing(chart, Math.max(240, section.clientWidth - 30)));
  });
}

function tile(name, value, kind, width) {
  const made = element("section", undefined, width);
  made.append(element("b", value, kind), element("span", name));
  return made;
}

// What the server holds, how much it takes at most, and what is free: that may be less than what it still takes.
function memoryTile(families) {
  const has = name => rows(families, name).length > 0, [held, most, free, all] = ["process_resident_memory_bytes", "ramp_memory_planned_bytes",
    "ramp_memory_free_bytes", "ramp_memory_total_bytes"].map(name => total(families, name));
  const planned = has("ramp_memory_planned_bytes") ? `, ${memory(most)} at most` : "", left = has("ramp_memory_free_bytes") ? `; ${memory(free)} are free` : "";
  return tile(`memory${planned}${left}`, memory(held), !left || free >= most - held ? "" : free < 0.1 * all ? "bad" : "warn");
}

function drawTiles(families) {
  const last = samples.length - 1, one = name => total(families, name);
  const kinds = rows(families, "ramp_operations_total").length;
  const busy = one("ramp_connections") >= one("ramp_connections_limit");
  const tiles = [
    kinds ? tile("operations per second", short(sum(["put", "get", "find"].map(kind => rate(last, operations(kind))))))
      : tile("calls per second", short(rate(last, calls))),
    tile(`sessions, of ${short(one("ramp_connections_limit"))}`, short(one("ramp_connections")), busy ? "bad" : ""),
    tile("p50 of a line, p99", `${time(quantile(last, 0.5))}, ${time(quantile(last, 0.99))}`, "", "two"),
    tile("refusals since the start", short(refusals(families))),
    tile("restarts since the start", short(one("ramp_restarts_total"))),
  ];
  if (rows(families, "ramp_epochs_waiting").length) {
    tiles.push(tile("epochs checked", short(one("ramp_epochs_checked_total"))), tile("epochs waiting", short(one("ramp_epochs_waiting"))));
  }
  // rampd adds what the system says of the process.
  if (rows(families, "process_resident_memory_bytes").length) {
    tiles.push(memoryTile(families), tile("CPU cores that it uses", cores(rate(last, worked))));
  }
  at("tiles").replaceChildren(...tiles);
}

function table(id, heads, lines) {
  const head = element("tr"), body = lines.map(cells => {
    const row = element("tr");
    cells.forEach((cell, place) => {
      const made = element("td", undefined, heads[place].number ? "number" : "");
      made.append(cell);
      row.append(made);
    });
    return row;
  });
  heads.forEach(it => head.append(element("th", it.name, it.number ? "number" : "")));
  at(id).replaceChildren(head, ...body);
}

const text = name => ({ name }), number = name => ({ name, number: true });

// How much of a limit is used, as a bar and in figures.
function share(used, limit) {
  const made = element("span", undefined, "share"), bar = element("span", undefined, "bar"), left = limit ? (limit - used) / limit : 0;
  const fill = element("i", undefined, left < 0.1 ? "bad" : left < 0.25 ? "warn" : "");
  fill.style.width = Math.min(100, 100 * (1 - left)) + "%";
  bar.append(fill);
  made.append(bar, `${short(used)} / ${short(limit)}`);
  return made;
}

function drawTenants(families) {
  const last = samples.length - 1, kinds = rows(families, "ramp_operations_total").length, sessions = rows(families, "ramp_sessions").length;
  const heads = [text("tenant")], lines = [];
  if (sessions) heads.push(number("sessions"));
  heads.push(number("clients"), ...(kinds ? ["put/s", "get/s", "find/s"] : ["calls/s"]).map(number));
  for (const { labels, value } of rows(families, "ramp_clients")) {
    const tenant = labels.tenant, mine = (name, kind) => families => sum(those(families, name, "tenant", tenant)
      .filter(row => !kind || row.labels.kind === kind).map(row => row.value));
    const line = [tenant];
    if (sessions) line.push(short(mine("ramp_sessions")(families)));
    line.push(`${short(value)} / ${short(mine("ramp_clients_limit")(families))}`);
    if (kinds) line.push(...["put", "get", "find"].map(kind => short(rate(last, mine("ramp_operations_total", kind)))));
    else line.push(short(rate(last, mine("ramp_calls_served_total"))));
    lines.push(line);
  }
  table("tenants", heads, lines);
}

function drawRooms(families) {
  const places = new Map();
  for (const name of ["items", "items_limit", "versions", "versions_limit", "epochs_waiting"]) {
    for (const { labels, value } of rows(families, "ramp_" + name)) {
      const key = labels.tenant + " " + labels.partition;
      if (!places.has(key)) places.set(key, { tenant: labels.tenant, partition: labels.partition });
      places.get(key)[name] = value;
    }
  }
  const full = it => Math.max(it.items / it.items_limit, it.versions / it.versions_limit);
  let all = [...places.values()];
  if (all.length > ROWS) all = all.sort((one, other) => full(other) - full(one)).slice(0, ROWS);
  at("more").textContent = all.length < places.size ? `The ${ROWS} fullest of ${places.size}.` : "";
  const checks = rows(families, "ramp_epochs_waiting").length, heads = [text("tenant"), text("partition"), text("items"), text("versions")];
  if (checks) heads.push(number("epochs"));
  table("rooms", heads, all.map(it => {
    const line = [it.tenant, it.partition, share(it.items, it.items_limit), share(it.versions, it.versions_limit)];
    return checks ? [...line, short(it.epochs_waiting)] : line;
  }));
}

const REFUSALS = { 10: "no such tenant, or a partition did not serve", 11: "no session", 13: "no item, too many, or one twice", 14: "stamps used up", 15: "no slot is free",
  16: "no item is free", 19: "stopped", 20: "another record has the stamp", 22: "inconsistent reply", 23: "a search found more than 16 items", 24: "client numbers used up", 25: "late call",
  26: "rows used up", 27: "no discard watermark is free", 28: "discarded stamp", 30: "out of memory", 40: "a line that fits no form, as with CR LF", 41: "line too long", 42: "cut line" };

// Whose lines were refused so, the most first.
function tenantsRefused(families, number) {
  const whose = rows(families, "ramp_tenant_refusals_total").filter(row => row.labels.number === number);
  return whose.sort((one, other) => other.value - one.value).map(row => row.labels.tenant).join(", ");
}

function drawRefusals(families) {
  const lines = rows(families, "ramp_refusals_total").map(({ labels, value }) =>
    [labels.number, REFUSALS[labels.number] || "", tenantsRefused(families, labels.number), value.toLocaleString("en")]);
  const drawn = rows(families, "ramp_hellos_busy_total");
  if (drawn.length) lines.push(["12", "hello with a client number that has a session; clients then draw another", "", total(families, "ramp_hellos_busy_total").toLocaleString("en")]);
  table("refusals", [text("number"), text("cause"), text("tenants that were refused"), number("lines")], lines.length ? lines : [["none", "", "", "0"]]);
}

function drawHead(families) {
  const started = total(families, "process_start_time_seconds"), build = rows(families, "ramp_build_info")[0];
  at("since").textContent = `${build ? build.labels.version : ""} up ${span(Math.max(0, Date.now() / 1000 - started))}`;
}

function draw() {
  const families = samples[samples.length - 1].families;
  drawHead(families);
  drawTiles(families);
  drawCharts(families);
  drawTenants(families);
  drawRooms(families);
  drawRefusals(families);
}

async function ask(path) {
  const answer = await fetch(path, { cache: "no-store", signal: AbortSignal.timeout(5000) });
  return { status: answer.status, text: await answer.text() };
}

function showHealth({ status, text }) {
  const lines = text.trim().split("\n"), word = status === 503 ? "not well" : lines[0].split(":")[0];
  at("health").textContent = word;
  at("health").className = word === "ok" ? "good" : word === "degraded" ? "warn" : "bad";
  at("concerns").hidden = word === "ok";
  at("concerns").textContent = lines.join("\n");
}

async function look() {
  try {
    const metrics = await ask("/metrics"), health = await ask("/health");
    if (metrics.status !== 200) throw new Error("status " + metrics.status);
    samples.push({ time: performance.now(), families: parse(metrics.text) });
    if (samples.length > KEPT) samples.shift();
    failedSince = 0;
    at("state").textContent = "";
    showHealth(health);
    draw();
  } catch (error) {
    failedSince = failedSince || Date.now();
    at("health").textContent = "no answer";
    at("health").className = "bad";
    at("state").textContent = `for ${span((Date.now() - failedSince) / 1000)}; the figures are older`;
  }
  setTimeout(look, 1000);
}

addEventListener("resize", () => { if (samples.length) draw(); });
look();
</script>
</body>
</html>
"#;
