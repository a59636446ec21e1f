//! Parts that are the same in each picture.

/// The styles of marks. While the pointer is on a mark, those of other colours are dimmed.
pub const STYLES: &[u8] = b"\
<style>
text{font-family:Helvetica,Arial,sans-serif;font-size:11px;fill:#222}
.title{font-size:15px;font-weight:600}.told{fill:#555}.lane{font-weight:600}.tick{font-size:9px;fill:#999}
.m0{color:#0072b2}.m1{color:#d55e00}.m2{color:#009e73}.m3{color:#cc79a7}
.m4{color:#56b4e9}.m5{color:#e69f00}.m6{color:#c8b900}.m7{color:#555}.key{color:#888}
rect{stroke:currentColor;stroke-width:1.6}.floor{fill:#ddd;stroke:none}.grid{stroke:#eee}
.ran{fill:currentColor;fill-opacity:.85}.free{fill:#fff;stroke-dasharray:4 2}.begun{fill:#fff}
.rolled{fill:url(#rolled)}.stuck{fill:url(#stuck)}.crossed{fill:url(#crossed)}
.place{fill:#555}.on{stroke:currentColor;stroke-dasharray:2 3}.way,.stale{stroke:#c00;marker-end:url(#point)}.stale{stroke-dasharray:3 2}
.start{stroke:#999;marker-end:url(#started)}.wake{stroke:#070;stroke-dasharray:5 3;marker-end:url(#woken)}
.field{fill:#fff;stroke:none}.number{font-weight:700}.tie{stroke:currentColor;stroke-dasharray:1 3}
.sign,.back,.entry,.below{text-anchor:middle}.below{font-size:8px;fill:#999}.print{text-anchor:middle;font-weight:700}
.sign,.back{font-size:10px}.sign,.back,.entry{font-weight:700;paint-order:stroke;stroke:#fff;stroke-width:2px}.back{fill:#c00}.idle{fill:#bbb}
svg:has(.m0:hover) g[class^=m]:not(.m0),svg:has(.m1:hover) g[class^=m]:not(.m1),svg:has(.m2:hover) g[class^=m]:not(.m2),
svg:has(.m3:hover) g[class^=m]:not(.m3),svg:has(.m4:hover) g[class^=m]:not(.m4),svg:has(.m5:hover) g[class^=m]:not(.m5),
svg:has(.m6:hover) g[class^=m]:not(.m6),svg:has(.m7:hover) g[class^=m]:not(.m7){opacity:.2}
</style>
";

/// The hatchings, and the point of an arrow.
pub const HATCHINGS: &[u8] = b"\
<defs>
<pattern id=\"rolled\" width=\"6\" height=\"6\" patternUnits=\"userSpaceOnUse\">
<path d=\"M0 0h6v6h-6z\" fill=\"#fff\"/><path d=\"M0 6L6 0\" stroke=\"#999\" stroke-width=\"1.6\"/></pattern>
<pattern id=\"stuck\" width=\"6\" height=\"6\" patternUnits=\"userSpaceOnUse\">
<path d=\"M0 0h6v6h-6z\" fill=\"#fff\"/><path d=\"M0 6L6 0\" stroke=\"#c80\" stroke-width=\"1.6\"/></pattern>
<pattern id=\"crossed\" width=\"8\" height=\"8\" patternUnits=\"userSpaceOnUse\">
<path d=\"M0 0h8v8h-8z\" fill=\"#fff\"/><path d=\"M0 8L8 0M0 0L8 8\" stroke=\"#999\"/></pattern>
<marker id=\"point\" viewBox=\"0 0 8 8\" refX=\"7\" refY=\"4\" markerWidth=\"7\" markerHeight=\"7\" orient=\"auto\">
<path d=\"M0 0 8 4 0 8z\" fill=\"#c00\"/></marker>
<marker id=\"started\" viewBox=\"0 0 8 8\" refX=\"7\" refY=\"4\" markerWidth=\"7\" markerHeight=\"7\" orient=\"auto\">
<path d=\"M0 0 8 4 0 8z\" fill=\"#999\"/></marker>
<marker id=\"woken\" viewBox=\"0 0 8 8\" refX=\"7\" refY=\"4\" markerWidth=\"7\" markerHeight=\"7\" orient=\"auto\">
<path d=\"M0 0 8 4 0 8z\" fill=\"#070\"/></marker>
</defs>
";

/// The meaning of boxes.
pub const BOX_KEYS: &[u8] = b"\
<rect class=\"ran\" width=\"22\" height=\"14\" rx=\"3\"/><text x=\"28\" y=\"11\">committed</text>
<rect class=\"rolled\" x=\"110\" width=\"22\" height=\"14\" rx=\"3\"/><text x=\"138\" y=\"11\">rolled back</text>
<rect class=\"stuck\" x=\"220\" width=\"22\" height=\"14\" rx=\"3\"/><text x=\"248\" y=\"11\">false condition</text>
<rect class=\"free\" x=\"350\" width=\"22\" height=\"14\" rx=\"3\"/><text x=\"378\" y=\"11\">unprotected</text>
<rect class=\"crossed\" x=\"470\" width=\"22\" height=\"14\" rx=\"3\"/><text x=\"498\" y=\"11\">cut off, too high</text>
";

/// The meaning of signs and lines.
pub const KEYS: &[u8] = b"\
<text y=\"34\">signs: r reads, w writes, + makes a location, o home again, x turns back, ? false condition, u undoes, - nothing to begin</text>
<text y=\"50\">dotted: goes on; grey: started by; green: woken by; red: in the way, dashed: a read that is not valid; bars: owners, hatched: undone</text>
</g>
";

/// The meaning of columns and lines in a picture by fragments.
pub const COURSE_KEYS: &[u8] = b"\
<text y=\"34\">a column an entry of the journal, or a try that left none, behind the entries where it was valid last</text>
<text y=\"50\">dotted: from the entry that started a task down to its lane</text>
</g>
";

/// The beginning of a text that is not shown, before its name, and the end.
pub const HIDDEN: &[u8] = b"<metadata id=\"";

pub const HIDDEN_END: &[u8] = b"</metadata>\n";

/// The beginning of the events of seats.
pub const EVENTS_BEGIN: &[u8] = b"\
{\"traceEvents\":[
{\"name\":\"process_name\",\"ph\":\"M\",\"pid\":1,\"args\":{\"name\":\"a run of ame, a microsecond a pick\"}}";

/// The beginning of the events of fragments.
pub const COURSE_BEGIN: &[u8] = b"\
{\"traceEvents\":[
{\"name\":\"process_name\",\"ph\":\"M\",\"pid\":1,\"args\":{\"name\":\"a run of ame, a microsecond an entry or a try\"}}";

/// The end of events.
pub const EVENTS_END: &[u8] = b"\n]}\n";
