//! The fixed parts of the page.

/// How the page begins, with its colours and lengths. What is inside the picture has classes of one letter.
pub(crate) const HEAD: &str = "<!DOCTYPE html>
<!-- A report of ecplan -->
<html lang=\"en\">
<head>
<meta charset=\"utf-8\">
<meta name=\"viewport\" content=\"width=device-width, initial-scale=1\">
<title>Plan of an EtherCAT line</title>
<style>
body{font:15px/1.45 sans-serif;color:#111;background:#fff;max-width:82em;margin:0 auto;padding:1em 1.5em}
h1{font-size:1.6em;margin:.4em 0}
h2{font-size:1.25em;margin:1.8em 0 .5em}
p{max-width:46em;margin:.5em 0}
table{border-collapse:collapse;font-size:.9em}
th,td{border:1px solid #777;padding:.15em .55em;text-align:left;vertical-align:top}
thead th{background:#eee;vertical-align:bottom}
tbody{border-top:2px solid #333}
.number{text-align:right}
.hex{font-family:monospace;white-space:nowrap}
.hex wbr{display:none}
.name{overflow-wrap:anywhere;min-width:7em}
.wide{overflow-x:auto}
@media print{
@page{margin:14mm 12mm}
body{font-size:9pt;max-width:none;padding:0}
h2,h2+p{break-after:avoid}
table{font-size:8pt}
thead{display:table-header-group}
tr,svg{break-inside:avoid}
th,td{padding:.1em .35em}
.hex wbr{display:inline}
.wide{overflow:visible}
.wide svg{max-width:100%;height:auto}
}
</style>
</head>
<body>
<h1>Plan of an EtherCAT line</h1>
<p>In which tick and in which frame each unit of the line travels, and where its process bytes lie. ecplan, a planner for EtherCAT
frames, made this page of a unit text, which names the slaves. Units that travel in one datagram are a group. A certificate is a proof of
a plan that a checker takes. Times are those of the bytes on the wire, 80 ns each.</p>
";

/// What stands before the table of the plan's numbers.
pub(crate) const FACTS: &str = "<h2>What is planned</h2>
<table>
";

/// What stands before what is proved.
pub(crate) const CLAIM: &str = "</table>
<h2>What is proved</h2>
";

/// What isn't counted, and what stands before the picture.
pub(crate) const PICTURE: &str =
    "<p>Not counted are the delay of slaves and of the cable, distributed clocks, mailboxes and retries. They need time in
each tick beside what the frames take.</p>
<h2>What each tick costs</h2>
<div class=\"wide\">
";

/// What stands before the table of units.
pub(crate) const UNITS: &str = "</div>
<h2>Units</h2>
<p>A unit travels in each tick T, counted from 0, for which T modulo its period is its phase. Units of one slot, period and
phase are a group.</p>
<div class=\"wide\"><table>
<thead><tr><th>Unit</th><th>Slot</th><th>Period, ticks</th><th>Phase, ticks</th><th>Group</th><th>Slaves</th>\
<th>Process data, bytes</th><th>Adds to the working counter</th></tr></thead>
<tbody>
";

/// What stands before the table of groups.
pub(crate) const GROUPS: &str = "</tbody></table></div>
<h2>Groups</h2>
<p>A group has one logical read-write datagram (LRW). It has to come back with the working counter that is told here: 2
for each slave with outputs, and 1 for each slave with inputs.</p>
<div class=\"wide\"><table>
<thead><tr><th>Group</th><th>Slot</th><th>Period, ticks</th><th>Phase, ticks</th><th>Logical address</th>\
<th>Begin in the image, bytes</th><th>Length, bytes</th><th>Expected working counter</th></tr></thead>
<tbody>
";

/// What stands before the table of slaves.
pub(crate) const SLAVES: &str = "</tbody></table></div>
<h2>Slaves</h2>
<p>In file order, numbered from 0. The start frames of ecplan find each slave by its position: where they are sent, the order on
the cable has to be this one, and no other device, as a coupler, may be on it. Where the unit text gives no out_at or in_at, 0x1000 and
0x2000 stand as the address in the slave, where few devices have their data. The record of the outputs is written
to 0x0600 of the slave, that of the inputs to 0x0610. The last column is the working counter of the slave's group.</p>
<div class=\"wide\"><table>
<thead><tr><th>Slave</th><th>Unit</th><th>Station</th><th>Data</th><th>Bytes</th><th>Logical address</th>\
<th>Begin in the image, bytes</th><th>Address in the slave</th><th>FMMU record</th><th>Group</th>\
<th>Expected working counter</th></tr></thead>
";

/// What stands before the table of frames.
pub(crate) const FRAMES: &str = "</table></div>
<h2>Frames of each tick</h2>
<p>A frame has a datagram for each of its groups, in this order. Its length is 16 bytes of headers, and for each group its data and
12 bytes, at least 60. On the wire these are 24 more: preamble, frame check sequence and gap.</p>
<div class=\"wide\"><table>
<thead><tr><th>Tick</th><th>All frames on the wire, bytes</th><th>Time, ns</th><th>Slot</th><th>Groups</th>\
<th>Frame, bytes</th><th>Frame on the wire, bytes</th></tr></thead>
<tbody>
";

/// How the page ends.
pub(crate) const END: &str = "</tbody></table></div>
</body>
</html>
";
