//! The page up to the record's text.
//!
//! Made by `tools/embed_page` of the files of `page/`: change those.

/// The text.
pub const BEFORE: &str = "\
<!doctype html>\n\
<html lang=\"en\">\n\
<head>\n\
<meta charset=\"utf-8\">\n\
<meta name=\"viewport\" content=\"width=device-width, initial-scale=1\">\n\
<title>The life of a heap</title>\n\
<style>\n\
/* Parts have the colours of Okabe and Ito, which people with any kind of colour blindness tell apart, and patterns besides. */\
\n\
:root {\n\
\x20 --marked: #009e73;\n\
\x20 --dead: #d55e00;\n\
\x20 --new: #56b4e9;\n\
\x20 --filler: #b3b3b3;\n\
\x20 --grey: #cc79a7;\n\
\x20 --pause: #e69f00;\n\
\x20 --dirty: #f0e442;\n\
\x20 --deep: #0072b2;\n\
\x20 --link: #005488;\n\
\x20 --paper: #ffffff;\n\
\x20 --sheet: #f5f5f2;\n\
\x20 --ink: #1a1a1a;\n\
\x20 --soft: #555555;\n\
\x20 --line: #c4c4bf;\n\
\x20 --edge: #8a8a85;\n\
\x20 --on-part: #000000;\n\
\x20 color-scheme: light;\n\
\x20 font: 16px/1.45 system-ui, \"Segoe UI\", \"DejaVu Sans\", sans-serif;\n\
}\n\
:root[data-theme=\"dark\"] {\n\
\x20 --marked: #1fb58a;\n\
\x20 --dead: #e2711d;\n\
\x20 --new: #6bbcec;\n\
\x20 --filler: #7d7d7d;\n\
\x20 --grey: #d88fb6;\n\
\x20 --paper: #16181b;\n\
\x20 --sheet: #1f2226;\n\
\x20 --ink: #ececea;\n\
\x20 --soft: #b4b4b0;\n\
\x20 --line: #43474d;\n\
\x20 --edge: #777c84;\n\
\x20 --deep: #7cc4f5;\n\
\x20 --link: #8fcdf7;\n\
\x20 color-scheme: dark;\n\
}\n\
* { box-sizing: border-box; }\n\
html { scroll-padding-top: 60px; }\n\
body { margin: 0 auto; padding: 0 20px 28px; background: var(--paper); color: var(--ink); max-width: 1720px; }\n\
header { display: flex; flex-wrap: wrap; align-items: center; gap: 4px 18px; padding: 10px 0 6px; }\n\
h1 { font-size: 1.35rem; margin: 0; }\n\
h2 { font-size: 1.02rem; margin: 14px 0 6px; }\n\
h1 .file { font-weight: 500; overflow-wrap: anywhere; }\n\
h3 { font-size: 1rem; margin: 0 0 6px; }\n\
p { margin: 0; }\n\
#sizes, #thinned { color: var(--soft); }\n\
#thinned, .note { border-left: 4px solid var(--pause); padding-left: 8px; }\n\
#sizes, #thinned, #answer { flex-basis: 100%; }\n\
#answer:empty { display: none; }\n\
.note { margin-bottom: 8px; }\n\
.tools { display: flex; gap: 6px; }\n\
#find { display: flex; align-items: center; gap: 6px; margin-left: auto; }\n\
input[type=\"text\"], textarea {\n\
\x20 font: inherit; color: inherit; background: var(--paper); border: 1px solid var(--edge); border-radius: 6px; padding: 3px 8px;\
\n\
}\n\
#wanted { width: 12.5em; }\n\
::placeholder { color: var(--soft); opacity: 1; }\n\
button {\n\
\x20 font: inherit; color: inherit; background: var(--sheet); border: 1px solid var(--edge); border-radius: 6px; padding: 3px 10px;\
\n\
\x20 cursor: pointer;\n\
}\n\
button:hover { border-color: var(--ink); }\n\
button.name {\n\
\x20 min-width: 24px; min-height: 24px; padding: 0 2px; border-color: transparent; background: none; color: var(--link);\n\
\x20 text-decoration: underline;\n\
}\n\
a { color: var(--link); }\n\
summary { cursor: pointer; min-height: 24px; }\n\
:focus-visible { outline: 3px solid var(--deep); outline-offset: 2px; }\n\
kbd { display: inline-block; font: inherit; border: 1px solid var(--edge); border-radius: 4px; padding: 0 6px; background: var(-\
-sheet); }\n\
#keys {\n\
\x20 display: grid; grid-template-columns: repeat(auto-fill, minmax(min(100%, 400px), 1fr)); gap: 5px 22px;\n\
\x20 margin: 0 0 8px; padding: 10px; background: var(--sheet); border-radius: 8px;\n\
}\n\
#keys[hidden] { display: none; }\n\
#keys div { display: flex; gap: 10px; }\n\
#keys dt { flex: none; max-width: 60%; }\n\
#keys dd { margin: 0; color: var(--soft); }\n\
#time {\n\
\x20 position: sticky; top: 0; z-index: 3; display: flex; flex-wrap: wrap; align-items: center; gap: 4px 12px;\n\
\x20 padding: 6px 0; background: var(--paper); border-bottom: 1px solid var(--line);\n\
}\n\
#moves { display: flex; gap: 6px; }\n\
#time button { width: 42px; height: 34px; padding: 4px; display: grid; place-items: center; }\n\
#time button svg { width: 22px; height: 22px; fill: currentColor; stroke: currentColor; stroke-width: 2; stroke-linejoin: round\
; }\n\
#slider { flex: 1 1 260px; min-width: 180px; height: 24px; accent-color: var(--deep); }\n\
#now { flex: 1 1 460px; min-height: 1.45em; font-variant-numeric: tabular-nums; }\n\
#now code { font-size: 0.98em; background: var(--sheet); padding: 1px 6px; border-radius: 4px; }\n\
code, .mono { font-family: ui-monospace, \"DejaVu Sans Mono\", Menlo, Consolas, monospace; }\n\
main { display: grid; grid-template-columns: minmax(0, 1fr) 370px; gap: 0 26px; align-items: start; }\n\
.legend {\n\
\x20 list-style: none; display: flex; flex-wrap: wrap; gap: 2px 16px; margin: 2px 0; padding: 0; font-size: 0.9rem; color: var(--so\
ft);\n\
}\n\
.legend li { display: flex; align-items: center; gap: 6px; }\n\
.legend svg { flex: none; }\n\
#legend { margin: 0 0 6px; font-size: 0.9rem; color: var(--soft); }\n\
#lanes svg { display: block; width: 100%; overflow: visible; }\n\
#lanes { overflow: auto; max-height: 62vh; padding: 5px; }\n\
text { fill: var(--ink); font-size: 13px; }\n\
text.soft { fill: var(--soft); }\n\
text.small { font-size: 12px; }\n\
.lane { cursor: pointer; }\n\
.lane .bed { fill: var(--sheet); stroke: var(--line); }\n\
.lane:hover .bed { stroke: var(--ink); }\n\
.lane.used .bed { stroke: var(--edge); }\n\
.lane.current .bed { stroke: var(--ink); stroke-width: 2; }\n\
.lane.chosen .bed { stroke: var(--deep); stroke-width: 3; }\n\
.lane:focus { outline: none; }\n\
.lane:focus-visible .halo { stroke: var(--deep); stroke-width: 3; }\n\
.halo { fill: none; stroke: none; }\n\
.part { pointer-events: none; }\n\
.part.marked { fill: var(--marked); }\n\
.part.dead { fill: var(--dead); }\n\
.part.new { fill: var(--new); }\n\
.part.filler { fill: var(--filler); }\n\
.tile { stroke: var(--paper); stroke-width: 1; pointer-events: none; }\n\
.tile-name { fill: var(--on-part); font-size: 12.5px; text-anchor: middle; pointer-events: none; }\n\
.lost { stroke: var(--on-part); stroke-width: 2.5; pointer-events: none; }\n\
.tile.grey { stroke: var(--grey); stroke-width: 4; }\n\
.tile.scanned { stroke: var(--ink); stroke-width: 2; }\n\
.ghost { pointer-events: none; }\n\
.ghost .part, .ghost .tile { opacity: 0.3; }\n\
.ghost .tile-name { fill: var(--ink); }\n\
.run { stroke: var(--ink); stroke-width: 2; fill: none; pointer-events: none; }\n\
.top { stroke: var(--ink); stroke-width: 2; pointer-events: none; }\n\
.top.next { stroke-dasharray: 3 2; }\n\
.top-head { fill: var(--ink); pointer-events: none; }\n\
.top-head.next { fill: var(--paper); stroke: var(--ink); stroke-width: 1.5; }\n\
.buffer { fill: url(#hatch); stroke: var(--ink); stroke-width: 1.5; stroke-dasharray: 4 3; pointer-events: none; }\n\
.dirty { fill: var(--dirty); stroke: var(--ink); stroke-width: 1.2; pointer-events: none; }\n\
.dirty.logged { fill: var(--paper); }\n\
.dirty.fresh { fill: var(--pause); }\n\
.deleted { fill: var(--paper); stroke: var(--ink); stroke-width: 2; pointer-events: none; }\n\
.greys { fill: var(--grey); stroke: var(--ink); stroke-width: 0.8; pointer-events: none; }\n\
.tag { font-size: 12px; pointer-events: none; }\n\
.arrow { fill: none; stroke: var(--ink); stroke-width: 1.8; pointer-events: none; marker-end: url(#head); }\n\
.arrow.copy { stroke: var(--pause); stroke-width: 2.4; marker-end: url(#head-copy); }\n\
.arrow.card { stroke: var(--deep); marker-end: url(#head-card); }\n\
.arrow.weak { stroke-dasharray: 5 4; }\n\
.bundle { font-size: 12px; font-weight: 600; text-anchor: middle; pointer-events: none; }\n\
.bundle, .framed { fill: var(--ink); paint-order: stroke; stroke: var(--paper); stroke-width: 4; }\n\
.evacuated { fill: none; stroke: var(--pause); stroke-width: 2.5; stroke-dasharray: 7 4; pointer-events: none; }\n\
.freed { fill: none; stroke: var(--deep); stroke-width: 2.5; stroke-dasharray: 2 4; pointer-events: none; }\n\
#what, #region, #object, #naming { margin-top: 10px; }\n\
#what:empty, #region:empty, #object:empty { margin-top: 0; }\n\
#pair { display: grid; grid-template-columns: repeat(auto-fit, minmax(min(100%, 330px), 1fr)); gap: 0 10px; align-items: start; \
}\n\
#objects { margin-top: 10px; }\n\
#roots { margin-top: 10px; }\n\
#roots .card + .card { margin-top: 10px; }\n\
.roots { display: flex; flex-wrap: wrap; align-items: center; gap: 5px; margin-bottom: 6px; }\n\
.roots .whose { min-width: 6.2em; color: var(--soft); }\n\
.root { min-height: 26px; padding: 0 7px; color: var(--link); text-decoration: underline; }\n\
.root b { color: var(--ink); font-weight: 600; }\n\
.root.chosen { border-color: var(--deep); box-shadow: inset 0 0 0 1px var(--deep); }\n\
.rest, .label { color: var(--soft); }\n\
#naming textarea { width: 100%; font-family: ui-monospace, \"DejaVu Sans Mono\", Menlo, Consolas, monospace; }\n\
#naming p { margin: 6px 0; }\n\
input[type=\"file\"] { font: inherit; max-width: 100%; min-height: 26px; }\n\
.share { display: inline-block; margin-right: 14px; }\n\
.card {\n\
\x20 border: 1px solid var(--line); border-left: 5px solid var(--edge); border-radius: 8px; padding: 10px 14px; background: var(--s\
heet);\n\
}\n\
.card.pause { border-left-color: var(--pause); }\n\
.card.marking { border-left-color: var(--grey); }\n\
.card.cleanup { border-left-color: var(--deep); }\n\
.card p + p, .card ul { margin-top: 4px; }\n\
.card ul { margin-bottom: 0; padding-left: 20px; }\n\
.card .close { float: right; margin-left: 10px; }\n\
.card h3:focus { outline: none; }\n\
.card h3:focus-visible { outline: 3px solid var(--deep); }\n\
.card .close + h3 { display: inline-block; }\n\
table { border-collapse: collapse; font-size: 0.92rem; font-variant-numeric: tabular-nums; margin-top: 6px; }\n\
th, td { text-align: left; padding: 2px 14px 2px 0; vertical-align: baseline; }\n\
th { color: var(--soft); font-weight: 500; }\n\
tr.chosen td { background: color-mix(in srgb, var(--deep) 18%, transparent); }\n\
.number { text-align: right; }\n\
#objects th { white-space: nowrap; }\n\
th[scope=\"row\"] { font-variant-numeric: tabular-nums; color: var(--ink); }\n\
.scroll { max-height: 330px; overflow: auto; }\n\
.swatch {\n\
\x20 display: inline-block; width: 12px; height: 12px; border-radius: 3px; margin-right: 5px; vertical-align: -1px;\n\
\x20 border: 1px solid var(--edge);\n\
}\n\
.swatch.marked { background: var(--marked); }\n\
.swatch.dead { background: var(--dead); }\n\
.swatch.new { background: var(--new); }\n\
.swatch.filler { background: var(--filler); }\n\
.swatch.free { background: var(--sheet); }\n\
#side {\n\
\x20 position: sticky; top: 52px; display: flex; flex-direction: column; height: calc(100vh - var(--head, 140px) - 8px); min-height\
: 420px;\n\
}\n\
#record-view { flex: 1 1 0; min-height: 0; display: flex; flex-direction: column; }\n\
#steps {\n\
\x20 list-style: none; margin: 0; padding: 0; flex: 1 1 0; min-height: 0; overflow: auto;\n\
\x20 border: 1px solid var(--line); border-radius: 8px; font-size: 0.92rem;\n\
}\n\
#steps li { border-left: 5px solid transparent; }\n\
#steps button {\n\
\x20 display: flex; gap: 8px; width: 100%; min-height: 24px; padding: 2px 8px; border: 0; border-radius: 0; background: none; text-\
align: left;\n\
}\n\
#steps button:focus-visible { outline-offset: -3px; }\n\
#steps li.collector button { font-weight: 600; }\n\
#steps li:hover { background: var(--sheet); }\n\
#steps .count { color: var(--soft); min-width: 3.2em; text-align: right; font-variant-numeric: tabular-nums; }\n\
#steps .reply { color: var(--soft); margin-left: auto; text-align: right; }\n\
#steps li.gap { color: var(--soft); text-align: center; font-style: italic; padding: 2px 8px; }\n\
#steps li[aria-current] { background: color-mix(in srgb, var(--deep) 20%, transparent); border-left-color: var(--deep); }\n\
#steps li.next { border-left-color: var(--edge); }\n\
#plots svg { display: block; width: 100%; cursor: pointer; }\n\
.told-end { stroke: var(--ink); stroke-width: 1.5; stroke-dasharray: 3 3; }\n\
.curve { fill: none; stroke: var(--deep); stroke-width: 2; }\n\
.curve.live { stroke: var(--marked); }\n\
.curve.free { stroke: var(--edge); }\n\
.curve.queued { stroke: var(--dead); }\n\
.curve.copied { stroke: var(--pause); }\n\
.band { fill: var(--grey); opacity: 0.22; }\n\
.pause-tick { stroke: var(--pause); stroke-width: 1.6; }\n\
.here { stroke: var(--ink); stroke-width: 1.5; }\n\
.axis { stroke: var(--line); }\n\
@media (max-width: 1000px) {\n\
\x20 html { scroll-padding-top: 140px; }\n\
\x20 th, td { padding-right: 9px; }\n\
\x20 body { padding-inline: 12px; }\n\
\x20 main { grid-template-columns: minmax(0, 1fr); }\n\
\x20 #find { margin-left: 0; }\n\
\x20 #side { display: contents; }\n\
\x20 #curves { order: -1; }\n\
\x20 #steps { flex: none; max-height: 320px; }\n\
\x20 #now { flex-basis: 100%; min-height: 2.9em; }\n\
\x20 #time button { width: 40px; }\n\
}\n\
@media (prefers-reduced-motion: no-preference) {\n\
\x20 .part { transition: width 90ms linear, x 90ms linear; }\n\
}\n\
</style>\n\
</head>\n\
<body>\n\
<header>\n\
<h1 id=\"title\">The life of a heap</h1>\n\
<form id=\"find\" role=\"search\">\n\
<label for=\"wanted\">Find</label>\n\
<input id=\"wanted\" type=\"text\" placeholder=\"event, #name or r0\" autocomplete=\"off\" spellcheck=\"false\" aria-keyshortcut\
s=\"/\"\n\
aria-label=\"Find an event (12), an object (#12) or a root (r0, g0)\">\n\
<button type=\"submit\">Go</button>\n\
</form>\n\
<p class=\"tools\">\n\
<button id=\"kind\" type=\"button\" aria-keyshortcuts=\"t\">Tiles</button>\n\
<button id=\"theme\" type=\"button\" aria-keyshortcuts=\"d\">Dark</button>\n\
<button id=\"help\" type=\"button\" aria-keyshortcuts=\"?\" aria-expanded=\"false\" aria-controls=\"keys\">Keys</button>\n\
</p>\n\
<p id=\"answer\" role=\"status\"></p>\n\
<p id=\"sizes\"></p>\n\
<p id=\"thinned\" hidden></p>\n\
</header>\n\
<dl id=\"keys\" hidden>\n\
<div><dt><kbd>Left</kbd> <kbd>Right</kbd></dt><dd>one moment back or on</dd></div>\n\
<div><dt><kbd>Shift</kbd> <kbd>Left</kbd> <kbd>Right</kbd></dt><dd>to the collector's step before or after</dd></div>\n\
<div><dt><kbd>Page Up</kbd> <kbd>Page Down</kbd></dt><dd>a twentieth of the events back or on</dd></div>\n\
<div><dt><kbd>Home</kbd> <kbd>End</kbd> <kbd>f</kbd></dt><dd>the first moment, the last one, the fullest one</dd></div>\n\
<div><dt><kbd>/</kbd></dt><dd>to the field that finds an event, an object or a root</dd></div>\n\
<div><dt><kbd>Space</kbd></dt><dd>play, pause</dd></div>\n\
<div><dt><kbd>+</kbd> <kbd>-</kbd></dt><dd>play faster, slower</dd></div>\n\
<div><dt><kbd>Tab</kbd> to a region, arrows, <kbd>Enter</kbd></dt><dd>choose a region and open it</dd></div>\n\
<div><dt><kbd>Tab</kbd> to a step, <kbd>Up</kbd> <kbd>Down</kbd>, <kbd>Enter</kbd></dt><dd>choose a step and go to its moment</d\
d></div>\n\
<div><dt><kbd>Esc</kbd></dt><dd>close what is open</dd></div>\n\
<div><dt><kbd>t</kbd> <kbd>d</kbd> <kbd>?</kbd></dt><dd>tiles or shares, dark or light, these keys</dd></div>\n\
</dl>\n\
<section id=\"time\" aria-label=\"Moments\">\n\
<div id=\"moves\">\n\
<button id=\"first\" type=\"button\" title=\"The first moment (Home)\" aria-label=\"The first moment\">\n\
<svg viewBox=\"0 0 24 24\" aria-hidden=\"true\"><path d=\"M5 4v16M19 5L9 12l10 7z\"/></svg></button>\n\
<button id=\"back\" type=\"button\" title=\"The collector's step before (Shift Left)\" aria-label=\"The collector's step before\
\">\n\
<svg viewBox=\"0 0 24 24\" aria-hidden=\"true\"><path d=\"M12 5L3 12l9 7zM21 5l-9 7 9 7z\"/></svg></button>\n\
<button id=\"play\" type=\"button\" title=\"Play (Space)\" aria-label=\"Play\">\n\
<svg viewBox=\"0 0 24 24\" aria-hidden=\"true\"><path d=\"M6 4l14 8-14 8z\"/></svg></button>\n\
<button id=\"on\" type=\"button\" title=\"The collector's step after (Shift Right)\" aria-label=\"The collector's step after\">\
\n\
<svg viewBox=\"0 0 24 24\" aria-hidden=\"true\"><path d=\"M12 5l9 7-9 7zM3 5l9 7-9 7z\"/></svg></button>\n\
<button id=\"last\" type=\"button\" title=\"The last moment (End)\" aria-label=\"The last moment\">\n\
<svg viewBox=\"0 0 24 24\" aria-hidden=\"true\"><path d=\"M19 4v16M5 5l10 7-10 7z\"/></svg></button>\n\
<button id=\"fullest\" type=\"button\" title=\"The fullest moment (f)\" aria-label=\"The fullest moment\">\n\
<svg viewBox=\"0 0 24 24\" aria-hidden=\"true\"><path d=\"M3 14h3v6H3zM10.5 4h3v16h-3zM18 10h3v10h-3z\"/></svg></button>\n\
</div>\n\
<input id=\"slider\" type=\"range\" min=\"0\" value=\"0\" aria-label=\"Moment\">\n\
<output id=\"now\" for=\"slider\" aria-live=\"polite\"></output>\n\
</section>\n\
<main>\n\
<section id=\"heap\" aria-labelledby=\"heap-title\">\n\
<h2 id=\"heap-title\">Regions</h2>\n\
<ul id=\"parts\" class=\"legend\" aria-label=\"Words of a region\"></ul>\n\
<details id=\"legend\">\n\
<summary>What is drawn over them</summary>\n\
<ul id=\"marks\" class=\"legend\"></ul>\n\
</details>\n\
<div id=\"told\"></div>\n\
<div id=\"lanes\"></div>\n\
<div id=\"object\"></div>\n\
<div id=\"region\"></div>\n\
<div id=\"pair\">\n\
<div>\n\
<div id=\"roots\"></div>\n\
<div id=\"what\" aria-live=\"polite\"></div>\n\
</div>\n\
<div id=\"objects\"></div>\n\
</div>\n\
<details id=\"naming\">\n\
<summary>Names for shapes</summary>\n\
<p id=\"naming-how\">A line for each name: pointers, weak slots, data words, the first data word, the name. <code>*</code> is an\
y number, and\n\
the first line that fits an object names it: <code>2 0 1 7 table</code>, <code>0 0 * * string</code>.</p>\n\
<p><label for=\"names\">Names</label></p>\n\
<textarea id=\"names\" rows=\"5\" spellcheck=\"false\" aria-describedby=\"naming-how naming-said\"></textarea>\n\
<p><label for=\"names-file\">Or a file of such lines</label> <input id=\"names-file\" type=\"file\"></p>\n\
<p id=\"naming-said\" role=\"status\"></p>\n\
</details>\n\
</section>\n\
<aside id=\"side\">\n\
<section id=\"curves\" aria-labelledby=\"curves-title\">\n\
<h2 id=\"curves-title\">Over the events</h2>\n\
<div id=\"plots\"></div>\n\
</section>\n\
<section id=\"record-view\" aria-labelledby=\"steps-title\">\n\
<h2 id=\"steps-title\">Steps</h2>\n\
<ol id=\"steps\" aria-label=\"The steps of the script with their replies\"></ol>\n\
</section>\n\
</aside>\n\
</main>\n\
<script type=\"text/plain\" id=\"record\">\n";
