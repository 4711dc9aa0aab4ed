//! The script `curves.js`.
//!
//! Made by `tools/embed_page` of the files of `page/`: change those.

/// The text.
pub const SCRIPT_CURVES: &str = "\
\"use strict\";\n\
// The curves over the events: one panel below another, all with the same events from left to right.\n\
\n\
const SVG = \"http://www.w3.org/2000/svg\";\n\
\n\
// An element of a drawing with its attributes.\n\
function shape(tag, attributes, parent) {\n\
\x20 const element = document.createElementNS(SVG, tag);\n\
\x20 for (const [name, value] of Object.entries(attributes)) {\n\
\x20   if (name === \"text\") element.textContent = value;\n\
\x20   else element.setAttribute(name, value);\n\
\x20 }\n\
\x20 if (parent) parent.append(element);\n\
\x20 return element;\n\
}\n\
\n\
// A number with commas between thousands.\n\
function grouped(number) {\n\
\x20 return String(number).replace(/\\B(?=(\\d{3})+$)/g, \",\");\n\
}\n\
\n\
const CURVES = [\n\
\x20 { field: \"handedOut\", label: \"words handed out\", style: \"\" },\n\
\x20 { field: \"live\", label: \"words live\", style: \"live\" },\n\
\x20 { field: \"free\", label: \"free regions\", style: \"free\" },\n\
\x20 { field: \"queued\", label: \"cards queued\", style: \"queued\" },\n\
\x20 { field: \"copied\", label: \"words copied by pauses\", style: \"copied\" },\n\
];\n\
// More ticks than these are short, so that they don't hide the curves.\n\
const MOST_TICKS = 20;\n\
// Heights of a curve and of the line of text above it, and what is free to the left and right.\n\
const PANEL = { height: 30, text: 17, gap: 6, side: 6, foot: 22 };\n\
\n\
// A curve's points: each value holds to the next moment.\n\
function stepPath(life, field, across, most, height) {\n\
\x20 const parts = [];\n\
\x20 life.moments.forEach((moment, place) => {\n\
\x20   const x = across(moment.event).toFixed(1);\n\
\x20   const y = (height - (moment[field] / most) * (height - 4) - 1).toFixed(1);\n\
\x20   parts.push(place === 0 ? `M${x} ${y}` : `H${x}V${y}`);\n\
\x20 });\n\
\x20 return parts.join(\"\");\n\
}\n\
\n\
// The stretches of events in which marking runs.\n\
function markingBands(life) {\n\
\x20 const bands = [];\n\
\x20 let from = null;\n\
\x20 for (const moment of life.moments) {\n\
\x20   if (moment.marking && from === null) from = moment.event;\n\
\x20   if (!moment.marking && from !== null) {\n\
\x20     bands.push([from, moment.event]);\n\
\x20     from = null;\n\
\x20   }\n\
\x20 }\n\
\x20 if (from !== null) bands.push([from, life.eventCount]);\n\
\x20 return bands;\n\
}\n\
\n\
// The events at which a pause ended.\n\
function pauseEvents(life) {\n\
\x20 const events = [];\n\
\x20 life.moments.forEach((moment, place) => {\n\
\x20   const step = collectorStepAt(life, place);\n\
\x20   if (step && movesObjects(step)) events.push(moment.event);\n\
\x20 });\n\
\x20 return events;\n\
}\n\
\n\
// Bands where marking runs, a tick for each pause, and where objects are told no more.\n\
function drawEvents(life, group, across) {\n\
\x20 for (const [from, to] of markingBands(life)) {\n\
\x20   shape(\"rect\", { class: \"band\", x: across(from), y: 0, width: Math.max(1, across(to) - across(from)), height: PANEL.heigh\
t }, group);\n\
\x20 }\n\
\x20 const line = (style, x, from = 0) => shape(\"line\", { class: style, x1: x, x2: x, y1: from, y2: PANEL.height }, group);\n\
\x20 const ticks = new Set(pauseEvents(life).map((event) => across(event).toFixed(0)));\n\
\x20 for (const x of ticks) line(\"pause-tick\", x, ticks.size > MOST_TICKS ? PANEL.height * 0.75 : 0);\n\
\x20 if (lastTold(life) === null) return;\n\
\x20 shape(\"title\", { text: \"Objects are told up to here\" }, line(\"told-end\", across(life.moments[lastTold(life)].event)));\n\
}\n\
\n\
// A curve with its name, its value and the most that it comes to; answers what shows a moment.\n\
function drawCurve(life, curve, svg, y, width, across) {\n\
\x20 const most = life.moments.reduce((so, moment) => Math.max(so, moment[curve.field]), 1);\n\
\x20 const panel = shape(\"g\", { transform: `translate(0 ${y})` }, svg);\n\
\x20 shape(\"text\", { x: PANEL.side, y: 13, text: curve.label }, panel);\n\
\x20 const value = shape(\"text\", { x: width - PANEL.side, y: 13, \"text-anchor\": \"end\" }, panel);\n\
\x20 const drawn = shape(\"g\", { transform: `translate(0 ${PANEL.text})` }, panel);\n\
\x20 drawEvents(life, drawn, across);\n\
\x20 shape(\"line\", { class: \"axis\", x1: PANEL.side, x2: width - PANEL.side, y1: PANEL.height, y2: PANEL.height }, drawn);\n\
\x20 shape(\"path\", { class: `curve ${curve.style}`, d: stepPath(life, curve.field, across, most, PANEL.height) }, drawn);\n\
\x20 const here = shape(\"line\", { class: \"here\", y1: -2, y2: PANEL.height + 2 }, drawn);\n\
\x20 return (found) => {\n\
\x20   value.textContent = `${grouped(found[curve.field])} (at most ${grouped(most)})`;\n\
\x20   here.setAttribute(\"x1\", across(found.event));\n\
\x20   here.setAttribute(\"x2\", across(found.event));\n\
\x20 };\n\
}\n\
\n\
// Draws the curves, and answers what moves the line of the present moment. A click leads to a moment, as the keys do that the p\
age has.\n\
function drawCurves(life, holder, choose) {\n\
\x20 const width = Math.max(240, holder.clientWidth);\n\
\x20 const step = PANEL.text + PANEL.height + PANEL.gap;\n\
\x20 const bottom = CURVES.length * step;\n\
\x20 const span = Math.max(1, life.eventCount);\n\
\x20 const room = width - 2 * PANEL.side;\n\
\x20 const across = (event) => PANEL.side + (event / span) * room;\n\
\x20 const svg = shape(\"svg\", {\n\
\x20   viewBox: `0 0 ${width} ${bottom + PANEL.foot}`, height: bottom + PANEL.foot, id: \"curve-slider\", role: \"slider\", tabinde\
x: 0,\n\
\x20   \"aria-label\": \"Curves over the events\", \"aria-valuemin\": 0, \"aria-valuemax\": life.eventCount,\n\
\x20 });\n\
\x20 const fill = CURVES.map((curve, place) => drawCurve(life, curve, svg, place * step, width, across));\n\
\x20 shape(\"text\", { class: \"soft small\", x: PANEL.side, y: bottom + 17, text: \"event 0\" }, svg);\n\
\x20 shape(\"text\", { class: \"soft small\", x: width / 2, y: bottom + 17, \"text-anchor\": \"middle\", text: \"band: marking, tic\
k: pause\" }, svg);\n\
\x20 shape(\"text\", { class: \"soft small\", x: width - PANEL.side, y: bottom + 17, \"text-anchor\": \"end\", text: grouped(life.e\
ventCount) }, svg);\n\
\x20 svg.addEventListener(\"click\", (click) => {\n\
\x20   const box = svg.getBoundingClientRect();\n\
\x20   choose((((click.clientX - box.left) / box.width) * width - PANEL.side) / room * span);\n\
\x20 });\n\
\x20 holder.replaceChildren(svg);\n\
\x20 return (moment) => {\n\
\x20   const found = life.moments[moment];\n\
\x20   svg.setAttribute(\"aria-valuenow\", found.event);\n\
\x20   svg.setAttribute(\"aria-valuetext\", `event ${found.event}, ${found.handedOut} words handed out, ${found.live} live`);\n\
\x20   for (const each of fill) each(found);\n\
\x20 };\n\
}\n";
