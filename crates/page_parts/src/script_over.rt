//! The script `over.js`.
//!
//! Made by `tools/embed_page` of the files of `page/`: change those.

/// The text.
pub const SCRIPT_OVER: &str = "\
\"use strict\";\n\
// What is drawn over the lanes: runs, open buffers, dirty cards, what a step of the collector did, and where pointers and card\
s lead.\n\
\n\
// How many arrows of a kind are drawn each by itself; more are bundled, one for each pair of regions.\n\
const MOST_ARROWS = 24;\n\
const MOST_BUNDLES = 60;\n\
\n\
// An arrow from one point to another, bent a little so that arrows both ways don't cover each other; with a count where it is \
a bundle.\n\
function drawArrow(over, from, to, style, count = 1) {\n\
\x20 const dx = to.x - from.x;\n\
\x20 const dy = to.y - from.y;\n\
\x20 const length = Math.hypot(dx, dy) || 1;\n\
\x20 const bend = Math.min(60, length / 4);\n\
\x20 const middle = { x: (from.x + to.x) / 2 - (dy / length) * bend, y: (from.y + to.y) / 2 + (dx / length) * bend };\n\
\x20 const arrow = shape(\"path\", { class: `arrow ${style}`, d: `M${from.x} ${from.y}Q${middle.x} ${middle.y} ${to.x} ${to.y}` }, \
over);\n\
\x20 if (count < 2) return;\n\
\x20 arrow.setAttribute(\"style\", `stroke-width:${Math.min(7, 1.8 + Math.log2(count) / 2).toFixed(1)}`);\n\
\x20 arrow.setAttribute(\"data-count\", count);\n\
\x20 const at = { x: (from.x + to.x) / 4 + middle.x / 2, y: (from.y + to.y) / 4 + middle.y / 2 + 4 };\n\
\x20 shape(\"text\", { class: \"bundle\", x: at.x, y: at.y, text: grouped(count) }, over);\n\
}\n\
\n\
// Draws arrows `{ from, to, pair, whole }`: each by itself where they are few, else one for each pair of regions, from `whole.f\
rom` to\n\
// `whole.to`, the largest ones. Answers how many aren't drawn.\n\
function drawArrows(over, arrows, style) {\n\
\x20 if (arrows.length <= MOST_ARROWS) {\n\
\x20   for (const { from, to } of arrows) drawArrow(over, from, to, style);\n\
\x20   return 0;\n\
\x20 }\n\
\x20 const bundles = new Map();\n\
\x20 for (const { pair, whole } of arrows) {\n\
\x20   const bundle = bundles.get(pair) || { ...whole, count: 0 };\n\
\x20   bundle.count += 1;\n\
\x20   bundles.set(pair, bundle);\n\
\x20 }\n\
\x20 const largest = [...bundles.values()].sort((a, b) => b.count - a.count);\n\
\x20 for (const { from, to, count } of largest.slice(0, MOST_BUNDLES)) drawArrow(over, from, to, style, count);\n\
\x20 return largest.slice(MOST_BUNDLES).reduce((sum, bundle) => sum + bundle.count, 0);\n\
}\n\
\n\
// Joins the lanes of each run by a line below them.\n\
function drawRuns(lanes, view) {\n\
\x20 const { life, layout } = lanes;\n\
\x20 for (let region = 0; region < life.sizes.regions; region += 1) {\n\
\x20   const row = rowAt(life, region, view.moment);\n\
\x20   if (row.kind !== \"t\") continue;\n\
\x20   const before = layout.place(region - 1);\n\
\x20   const here = layout.place(region);\n\
\x20   const y = layout.tall + 4;\n\
\x20   if (before.y === here.y) {\n\
\x20     const from = rowAt(life, region - 1, view.moment).kind === \"h\" ? before.x : before.x + layout.wide / 2;\n\
\x20     shape(\"path\", { class: \"run\", d: `M${from} ${before.y + y - 4}v4H${here.x + layout.wide}v-4` }, lanes.over);\n\
\x20   } else {\n\
\x20     shape(\"path\", { class: \"run\", d: `M${before.x} ${before.y + y}H${before.x + layout.wide + 8}` }, lanes.over);\n\
\x20     shape(\"path\", { class: \"run\", d: `M${here.x - 8} ${here.y + y}H${here.x + layout.wide}v-4` }, lanes.over);\n\
\x20   }\n\
\x20 }\n\
}\n\
\n\
function drawBuffers(lanes, view) {\n\
\x20 const { life, layout } = lanes;\n\
\x20 for (const buffer of life.moments[view.moment].buffers) {\n\
\x20   const region = Math.floor(buffer.at / life.sizes.words);\n\
\x20   const at = lanes.point(region, buffer.at - region * life.sizes.words, \"top\");\n\
\x20   const width = buffer.left * layout.perWord;\n\
\x20   shape(\"rect\", { class: \"buffer\", x: at.x + 1, y: at.y + 1, width: Math.max(1, width - 2), height: layout.tall - 2 }, lan\
es.over);\n\
\x20   if (width > 64 && layout.tall > 20) {\n\
\x20     const middle = { x: at.x + width / 2, y: at.y + layout.tall / 2 + 4 };\n\
\x20     shape(\"text\", { class: \"tile-name framed\", ...middle, text: `buffer ${buffer.mutator}` }, lanes.over);\n\
\x20   }\n\
\x20 }\n\
}\n\
\n\
// A dot at each dirty card: full where it is queued, empty where it is in a mutator's log.\n\
function drawDirty(lanes, view) {\n\
\x20 const { life } = lanes;\n\
\x20 const moment = life.moments[view.moment];\n\
\x20 const radius = lanes.layout.tall > 20 ? 5 : 3;\n\
\x20 const fresh = new Set(view.fresh || []);\n\
\x20 const dot = (card, style) => {\n\
\x20   const at = lanes.pointOfCard(card);\n\
\x20   const marks = `dirty ${style} ${fresh.has(card) ? \"fresh\" : \"\"}`;\n\
\x20   const circle = shape(\"circle\", { class: marks, cx: at.x, cy: at.y, r: radius, \"data-card\": card }, lanes.over);\n\
\x20   shape(\"title\", { text: `Card ${card} is dirty` }, circle);\n\
\x20 };\n\
\x20 moment.queue.forEach((card) => dot(card, \"queued\"));\n\
\x20 moment.logs.forEach((log) => log.cards.forEach((card) => dot(card, \"logged\")));\n\
}\n\
\n\
// The outline of a diamond around a point.\n\
function diamond(x, y, radius) {\n\
\x20 return `M${x - radius} ${y}L${x} ${y - radius}L${x + radius} ${y}L${x} ${y + radius}z`;\n\
}\n\
\n\
// A diamond at each object that is in a mutator's deletion log.\n\
function drawDeletions(lanes, view) {\n\
\x20 const { words } = lanes.life.sizes;\n\
\x20 const radius = lanes.layout.tall > 20 ? 6 : 4;\n\
\x20 const mutators = new Map();\n\
\x20 for (const { mutator, address } of deletionsAt(lanes.life, view.moment)) {\n\
\x20   mutators.set(address, (mutators.get(address) || new Set()).add(mutator));\n\
\x20 }\n\
\x20 for (const [address, own] of mutators) {\n\
\x20   const region = Math.floor(address / words);\n\
\x20   const at = lanes.point(region, address - region * words, \"middle\");\n\
\x20   const mark = shape(\"path\", { class: \"deleted\", d: diamond(at.x + radius + 2, at.y, radius), \"data-address\": address }\
, lanes.over);\n\
\x20   shape(\"title\", { text: `In the deletion log of mutator ${listOf([...own])}` }, mark);\n\
\x20 }\n\
}\n\
\n\
// What a region held a moment ago, pale.\n\
function drawGhost(lanes, view, region, style) {\n\
\x20 const { life, layout } = lanes;\n\
\x20 const { x, y } = layout.place(region);\n\
\x20 const ghost = shape(\"g\", { class: \"ghost\", transform: `translate(${x} ${y})` }, lanes.over);\n\
\x20 const row = rowAt(life, region, view.moment - 1);\n\
\x20 if (view.tiles && row.tiles && row.kind === \"o\") lanes.drawTiles(ghost, row);\n\
\x20 else {\n\
\x20   let at = 0;\n\
\x20   const shares = sharesAt(life, region, view.moment - 1);\n\
\x20   for (const part of PARTS) {\n\
\x20     const width = shares[part] * layout.perWord;\n\
\x20     if (width > 0) drawPart(ghost, part, at, width, layout.tall);\n\
\x20     at += width;\n\
\x20   }\n\
\x20 }\n\
\x20 shape(\"rect\", { class: style, x: x - 2, y: y - 2, width: layout.wide + 4, height: layout.tall + 4, rx: 4 }, lanes.over);\n\
}\n\
\n\
// The arrows of a pause's copies.\n\
function drawCopies(lanes, copies) {\n\
\x20 const middle = lanes.life.sizes.words / 2;\n\
\x20 drawArrows(lanes.over, copies.map(({ from, to }) => ({\n\
\x20   from: lanes.point(from.region, from.tile.offset + from.tile.size / 2, \"middle\"),\n\
\x20   to: lanes.point(to.region, to.tile.offset + to.tile.size / 2, \"top\"),\n\
\x20   pair: `${from.region} ${to.region}`,\n\
\x20   whole: { from: lanes.point(from.region, middle, \"middle\"), to: lanes.point(to.region, middle, \"middle\") },\n\
\x20 })), \"copy\");\n\
}\n\
\n\
// What the collector's step that led to the moment did.\n\
function drawStep(lanes, view) {\n\
\x20 const step = collectorStepAt(lanes.life, view.moment);\n\
\x20 if (!step) return;\n\
\x20 if (movesObjects(step)) {\n\
\x20   const pause = pauseAt(lanes.life, view.moment);\n\
\x20   pause.set.forEach((region) => drawGhost(lanes, view, region, \"evacuated\"));\n\
\x20   drawCopies(lanes, pause.copies);\n\
\x20 }\n\
\x20 if (step.verb === \"cleanup\") reclaimedAt(lanes.life, view.moment).forEach((region) => drawGhost(lanes, view, region, \"freed\
\"));\n\
}\n\
\n\
// The cards that the chosen region's set covers, as arrows into it.\n\
function drawSet(lanes, view) {\n\
\x20 if (view.region === null) return;\n\
\x20 const row = rowAt(lanes.life, view.region, view.moment);\n\
\x20 const { words, card } = lanes.life.sizes;\n\
\x20 const at = lanes.layout.place(view.region);\n\
\x20 const { wide, tall } = lanes.layout;\n\
\x20 const into = (from) => ({ x: at.x + Math.min(wide - 6, Math.max(6, from.x - at.x)), y: from.y > at.y + tall ? at.y + tall : at\
.y });\n\
\x20 const arrow = (from, region) => {\n\
\x20   const whole = lanes.point(region, words / 2, \"bottom\");\n\
\x20   return { from, to: into(from), pair: String(region), whole: { from: whole, to: into(whole) } };\n\
\x20 };\n\
\x20 const sources = new Set(row.sources);\n\
\x20 const cards = row.cards.map((each) => [each, Math.floor((each * card) / words)]).filter(([, region]) => !sources.has(region));\
\n\
\x20 drawArrows(lanes.over, [\n\
\x20   ...cards.map(([each, region]) => arrow(lanes.pointOfCard(each), region)),\n\
\x20   ...row.sources.map((region) => arrow(lanes.point(region, words / 2, \"bottom\"), region)),\n\
\x20 ], \"card\");\n\
}\n\
\n\
// Where the chosen object's pointers and weak slots lead.\n\
function drawPointers(lanes, view) {\n\
\x20 if (view.name === null) return;\n\
\x20 const places = placesAt(lanes.life, view.moment);\n\
\x20 const from = places.get(view.name);\n\
\x20 if (!from) return;\n\
\x20 const { words } = lanes.life.sizes;\n\
\x20 const middle = (place, where) => lanes.point(place.region, Math.min(words / 2, place.tile.size / 2) + place.tile.offset, where\
);\n\
\x20 const lead = (fields, style) => {\n\
\x20   for (const name of new Set(fields.told)) {\n\
\x20     const to = places.get(name);\n\
\x20     const count = fields.told.filter((each) => each === name).length;\n\
\x20     if (to && to !== from) drawArrow(lanes.over, middle(from, \"middle\"), middle(to, \"top\"), style, count);\n\
\x20   }\n\
\x20 };\n\
\x20 lead(from.tile.pointers, \"\");\n\
\x20 lead(from.tile.weaks, \"weak\");\n\
\x20 const at = lanes.point(from.region, from.tile.offset, \"top\");\n\
\x20 const width = Math.min(words, from.tile.size) * lanes.layout.perWord + 2;\n\
\x20 shape(\"rect\", { class: \"arrow\", style: \"marker-end:none\", x: at.x - 1, y: at.y - 1, width, height: lanes.layout.tall + \
2 }, lanes.over);\n\
}\n\
\n\
function drawOver(lanes, view) {\n\
\x20 drawRuns(lanes, view);\n\
\x20 drawBuffers(lanes, view);\n\
\x20 drawStep(lanes, view);\n\
\x20 drawDirty(lanes, view);\n\
\x20 drawDeletions(lanes, view);\n\
\x20 drawSet(lanes, view);\n\
\x20 drawPointers(lanes, view);\n\
}\n";
