//! The script `lanes.js`.
//!
//! Made by `tools/embed_page` of the files of `page/`: change those.

/// The text.
pub const SCRIPT_LANES: &str = "\
\"use strict\";\n\
// The regions as lanes in a grid. A lane is drawn anew only where its region has changed.\n\
\n\
const PARTS = [\"marked\", \"dead\", \"new\", \"filler\"];\n\
const PART_WORDS = {\n\
\x20 marked: \"live by the last marking\", dead: \"dead by the last marking\", new: \"not judged by the last marking\",\n\
\x20 filler: \"filler\", free: \"free\",\n\
};\n\
const NOT_REACHED = \"not reached now\";\n\
// The same where the file leaves something out, so that more may be reached.\n\
const NOT_SEEN = \"not seen to be reached\";\n\
\n\
// Where lanes lie, by the width that there is: how many columns, and how large a lane is.\n\
function layoutOf(life, width) {\n\
\x20 const { regions, words } = life.sizes;\n\
\x20 const sizes = [\n\
\x20   { most: 2, wide: 5000, tall: 54, head: 25, gapX: 26, gapY: 24 },\n\
\x20   { most: 12, wide: Math.max(360, Math.min(620, words * 18)), tall: 50, head: 25, gapX: 26, gapY: 19 },\n\
\x20   { most: 48, wide: 250, tall: 34, head: 23, gapX: 18, gapY: 13 },\n\
\x20   { most: 128, wide: 150, tall: 22, head: 20, gapX: 14, gapY: 8 },\n\
\x20   { most: 320, wide: 92, tall: 14, head: 0, gapX: 8, gapY: 7 },\n\
\x20   { most: 1024, wide: 44, tall: 10, head: 0, gapX: 5, gapY: 5 },\n\
\x20 ];\n\
\x20 const size = sizes.find((each) => regions <= each.most);\n\
\x20 const side = size.head ? 0 : 48;\n\
\x20 const columns = Math.max(1, Math.min(regions, Math.floor((width - side + size.gapX) / (size.wide + size.gapX)) || 1));\n\
\x20 const wide = (width - side - (columns - 1) * size.gapX) / columns;\n\
\x20 const step = size.head + size.tall + size.gapY;\n\
\x20 const rows = Math.ceil(regions / columns);\n\
\x20 const place = (region) => ({\n\
\x20   x: side + (region % columns) * (wide + size.gapX),\n\
\x20   y: size.head + Math.floor(region / columns) * step,\n\
\x20 });\n\
\x20 return { ...size, columns, wide, step, rows, place, side, height: rows * step + 8, perWord: wide / words };\n\
}\n\
\n\
// The patterns that tell parts apart without colours, and the heads of arrows.\n\
function drawDefinitions(svg) {\n\
\x20 const definitions = shape(\"defs\", {}, svg);\n\
\x20 const pattern = (id, size, paths) => {\n\
\x20   const each = shape(\"pattern\", { id, width: size, height: size, patternUnits: \"userSpaceOnUse\" }, definitions);\n\
\x20   for (const path of paths) shape(\"path\", { d: path, stroke: \"rgba(0,0,0,.42)\", \"stroke-width\": 1.3, fill: \"none\" }, e\
ach);\n\
\x20 };\n\
\x20 pattern(\"hatch\", 7, [\"M-1 1L1 -1M0 7L7 0M6 8L8 6\"]);\n\
\x20 pattern(\"dots\", 6, [\"M2.2 3h1.4\"]);\n\
\x20 pattern(\"bars\", 6, [\"M3 0v6\"]);\n\
\x20 for (const [id, colour] of [[\"head\", \"var(--ink)\"], [\"head-copy\", \"var(--pause)\"], [\"head-card\", \"var(--deep)\"]]) \
{\n\
\x20   const size = { markerUnits: \"userSpaceOnUse\", markerWidth: 13, markerHeight: 13, refX: 9, refY: 5 };\n\
\x20   const marker = shape(\"marker\", { id, viewBox: \"0 0 10 10\", ...size, orient: \"auto-start-reverse\" }, definitions);\n\
\x20   shape(\"path\", { d: \"M0 0L10 5L0 10z\", fill: colour }, marker);\n\
\x20 }\n\
}\n\
\n\
const PATTERN = { dead: \"url(#hatch)\", new: \"url(#dots)\", filler: \"url(#bars)\" };\n\
\n\
// A stretch of a lane that is one part: its colour, and its pattern over it.\n\
function drawPart(group, part, x, width, height, extra = \"\") {\n\
\x20 shape(\"rect\", { class: `part ${part} ${extra}`, x, y: 0, width: Math.max(0, width), height }, group);\n\
\x20 if (PATTERN[part] && height > 12) {\n\
\x20   shape(\"rect\", { class: `part ${extra}`, x, y: 0, width: Math.max(0, width), height, style: `fill:${PATTERN[part]}` }, grou\
p);\n\
\x20 }\n\
}\n\
\n\
class Lanes {\n\
\x20 constructor(life, holder, open) {\n\
\x20   this.life = life;\n\
\x20   this.holder = holder;\n\
\x20   this.open = open;\n\
\x20   this.lanes = [];\n\
\x20   this.drawn = [];\n\
\x20   this.focused = 0;\n\
\x20   this.build();\n\
\x20 }\n\
\n\
\x20 // Makes a group for each lane, with nothing in it yet.\n\
\x20 build() {\n\
\x20   const { life } = this;\n\
\x20   const width = Math.max(320, this.holder.clientWidth - 8);\n\
\x20   this.layout = layoutOf(life, width);\n\
\x20   const { height } = this.layout;\n\
\x20   this.svg = shape(\"svg\", { viewBox: `0 0 ${width} ${height}`, height, role: \"group\", \"aria-label\": \"Regions\" });\n\
\x20   drawDefinitions(this.svg);\n\
\x20   this.rowLabels();\n\
\x20   this.lanes = [];\n\
\x20   for (let region = 0; region < life.sizes.regions; region += 1) {\n\
\x20     const { x, y } = this.layout.place(region);\n\
\x20     const stop = { role: \"button\", tabindex: region === this.focused ? 0 : -1 };\n\
\x20     const lane = shape(\"g\", { class: \"lane\", transform: `translate(${x} ${y})`, \"data-region\": region, ...stop }, this.s\
vg);\n\
\x20     lane.addEventListener(\"click\", () => this.open(region));\n\
\x20     lane.addEventListener(\"focus\", () => this.focus(region, false));\n\
\x20     this.lanes.push(lane);\n\
\x20   }\n\
\x20   this.over = shape(\"g\", { class: \"over\" }, this.svg);\n\
\x20   this.drawn = [];\n\
\x20   this.holder.replaceChildren(this.svg);\n\
\x20 }\n\
\n\
\x20 // Where lanes have no labels of their own, each row has its first region's number.\n\
\x20 rowLabels() {\n\
\x20   if (this.layout.head) return;\n\
\x20   for (let row = 0; row < this.layout.rows; row += 1) {\n\
\x20     const region = row * this.layout.columns;\n\
\x20     const { y } = this.layout.place(region);\n\
\x20     const at = { x: this.layout.side - 8, y: y + this.layout.tall - 1 };\n\
\x20     shape(\"text\", { class: \"soft small\", ...at, \"text-anchor\": \"end\", text: region }, this.svg);\n\
\x20   }\n\
\x20 }\n\
\n\
\x20 focus(region, move) {\n\
\x20   this.lanes[this.focused].setAttribute(\"tabindex\", -1);\n\
\x20   this.focused = region;\n\
\x20   this.lanes[region].setAttribute(\"tabindex\", 0);\n\
\x20   if (move) this.lanes[region].focus();\n\
\x20 }\n\
\n\
\x20 // Moves the focus by a key, and answers whether the key did that.\n\
\x20 key(name) {\n\
\x20   const by = { ArrowLeft: -1, ArrowRight: 1, ArrowUp: -this.layout.columns, ArrowDown: this.layout.columns }[name];\n\
\x20   if (by === undefined) return false;\n\
\x20   const region = this.focused + by;\n\
\x20   if (region >= 0 && region < this.lanes.length) this.focus(region, true);\n\
\x20   return true;\n\
\x20 }\n\
\n\
\x20 // A point of the drawing: of a word of a region, at the lane's top, its middle or its bottom.\n\
\x20 point(region, word, where) {\n\
\x20   const { x, y } = this.layout.place(region);\n\
\x20   const down = { top: 0, middle: this.layout.tall / 2, bottom: this.layout.tall }[where];\n\
\x20   return { x: x + word * this.layout.perWord, y: y + down };\n\
\x20 }\n\
\n\
\x20 pointOfCard(card) {\n\
\x20   const address = card * this.life.sizes.card;\n\
\x20   const region = Math.floor(address / this.life.sizes.words);\n\
\x20   return this.point(region, address - region * this.life.sizes.words + this.life.sizes.card / 2, \"bottom\");\n\
\x20 }\n\
\n\
\x20 // Draws a moment.\n\
\x20 draw(view) {\n\
\x20   for (let region = 0; region < this.lanes.length; region += 1) {\n\
\x20     const key = this.laneKey(region, view);\n\
\x20     if (this.drawn[region] === key) continue;\n\
\x20     this.drawn[region] = key;\n\
\x20     this.drawLane(region, view);\n\
\x20   }\n\
\x20   this.over.replaceChildren();\n\
\x20   drawOver(this, view);\n\
\x20 }\n\
\n\
\x20 // What a lane's drawing depends on.\n\
\x20 laneKey(region, view) {\n\
\x20   const { life } = this;\n\
\x20   const row = rowAt(life, region, view.moment);\n\
\x20   const shares = sharesAt(life, region, view.moment);\n\
\x20   const moment = life.moments[view.moment];\n\
\x20   const lost = () => this.notReached(row, view.moment).map((tile) => tile.offset);\n\
\x20   const own = view.tiles && row.tiles ? [rowNumber(row), rulesGiven, ...lost()] : [];\n\
\x20   const numbers = [...Object.values(shares), row.top, row.next, row.grey, row.live];\n\
\x20   return [row.kind, ...numbers, moment.current === region, view.region === region, ...own].join(\" \");\n\
\x20 }\n\
\n\
\x20 // The tiles of a region that no root reaches.\n\
\x20 notReached(row, moment) {\n\
\x20   const { reached } = reachedAt(this.life, moment);\n\
\x20   return row.tiles.filter((tile) => tile.name !== undefined && !reached.has(tile.name));\n\
\x20 }\n\
\n\
\x20 drawLane(region, view) {\n\
\x20   const { life, layout } = this;\n\
\x20   const lane = this.lanes[region];\n\
\x20   const row = rowAt(life, region, view.moment);\n\
\x20   const shares = sharesAt(life, region, view.moment);\n\
\x20   const current = life.moments[view.moment].current === region;\n\
\x20   lane.replaceChildren();\n\
\x20   const marks = { used: row.kind !== \"f\", current, chosen: view.region === region };\n\
\x20   lane.setAttribute(\"class\", [\"lane\", ...Object.keys(marks).filter((mark) => marks[mark])].join(\" \"));\n\
\x20   lane.setAttribute(\"data-kind\", row.kind);\n\
\x20   for (const [part, words] of Object.entries(shares)) lane.setAttribute(`data-${part}`, words);\n\
\x20   lane.setAttribute(\"data-live\", row.live);\n\
\x20   lane.setAttribute(\"aria-label\", describeRegion(life, region, view.moment));\n\
\x20   shape(\"title\", { text: describeRegion(life, region, view.moment) }, lane);\n\
\x20   if (layout.head) this.drawLabel(lane, region, row, current);\n\
\x20   shape(\"rect\", { class: \"bed\", x: 0, y: 0, width: layout.wide, height: layout.tall, rx: layout.head ? 3 : 1 }, lane);\n\
\x20   if (view.tiles && row.tiles && row.kind === \"o\") this.drawTiles(lane, row, new Set(this.notReached(row, view.moment)));\n\
\x20   else this.drawShares(lane, region, row, shares, view);\n\
\x20   this.drawTops(lane, row);\n\
\x20   shape(\"rect\", { class: \"halo\", x: -4, y: -4, width: layout.wide + 8, height: layout.tall + 8, rx: 5 }, lane);\n\
\x20 }\n\
\n\
\x20 drawLabel(lane, region, row, current) {\n\
\x20   const kinds = { f: \"free\", o: \"\", h: \"humongous\", t: \"of the run\" };\n\
\x20   const parts = [String(region)];\n\
\x20   if (this.layout.wide > 140 && kinds[row.kind]) parts.push(kinds[row.kind]);\n\
\x20   if (current) parts.push(\"current\");\n\
\x20   const style = current ? \"font-weight:700\" : \"\";\n\
\x20   shape(\"text\", { class: row.kind === \"f\" ? \"soft tag\" : \"tag\", x: 0, y: -9, text: parts.join(\", \"), style }, lane);\
\n\
\x20   if (row.kind === \"o\" && this.layout.wide > 220) {\n\
\x20     const text = `${grouped(row.live)} live of ${grouped(row.used)}`;\n\
\x20     shape(\"text\", { class: \"soft tag\", x: this.layout.wide, y: -9, \"text-anchor\": \"end\", text }, lane);\n\
\x20   }\n\
\x20 }\n\
\n\
\x20 drawShares(lane, region, row, shares, view) {\n\
\x20   let x = 0;\n\
\x20   for (const part of PARTS) {\n\
\x20     const width = shares[part] * this.layout.perWord;\n\
\x20     if (width > 0) drawPart(lane, part, x, width, this.layout.tall);\n\
\x20     x += width;\n\
\x20   }\n\
\x20   if (row.kind === \"h\") this.nameOf(lane, row, view);\n\
\x20 }\n\
\n\
\x20 // The name of a humongous object, where it is told.\n\
\x20 nameOf(lane, row, view) {\n\
\x20   if (!view.tiles || !row.tiles || this.layout.tall < 22) return;\n\
\x20   const [text] = tileNames(row.tiles[0]);\n\
\x20   shape(\"text\", { class: \"tile-name\", x: this.layout.wide / 2, y: this.layout.tall / 2 + 4, text }, lane);\n\
\x20   if (this.notReached(row, view.moment).length) this.drawNotReached(lane, 0, row.used * this.layout.perWord);\n\
\x20 }\n\
\n\
\x20 // A line through what no root reaches.\n\
\x20 drawNotReached(lane, x, width) {\n\
\x20   const y = this.layout.tall * 0.8;\n\
\x20   shape(\"line\", { class: \"lost\", x1: x + Math.min(3, width / 4), x2: x + Math.max(width * 0.75, width - 3), y1: y, y2: y }\
, lane);\n\
\x20 }\n\
\n\
\x20 // The tiles of a region in the order of their addresses, those that no root reaches with a line.\n\
\x20 drawTiles(lane, row, lost = new Set()) {\n\
\x20   const { perWord, tall } = this.layout;\n\
\x20   for (const tile of row.tiles) {\n\
\x20     const x = tile.offset * perWord;\n\
\x20     const width = tile.size * perWord;\n\
\x20     drawPart(lane, tile.part, x, width, tall);\n\
\x20     const grey = tile.progress === \"grey\" ? \"grey\" : tile.progress === \"scanned\" ? \"scanned\" : \"\";\n\
\x20     const inner = grey ? 2 : 0;\n\
\x20     const frame = { x: x + inner, y: inner, width: Math.max(0, width - 2 * inner), height: tall - 2 * inner };\n\
\x20     shape(\"rect\", { class: `tile ${grey}`, fill: \"none\", ...frame }, lane);\n\
\x20     if (lost.has(tile)) this.drawNotReached(lane, x, width);\n\
\x20     if (tile.name === undefined || tall < 22) continue;\n\
\x20     const text = tileNames(tile).find((label) => width > label.length * 8 + 4);\n\
\x20     if (text) shape(\"text\", { class: \"tile-name\", x: x + width / 2, y: tall / 2 + 4, text }, lane);\n\
\x20   }\n\
\x20 }\n\
\n\
\x20 // Ticks at the region's tops at mark start, and how many objects are grey.\n\
\x20 drawTops(lane, row) {\n\
\x20   const { perWord, tall, wide } = this.layout;\n\
\x20   const tick = (words, next) => {\n\
\x20     const x = Math.min(wide - 1, Math.max(1, words * perWord));\n\
\x20     shape(\"line\", { class: `top ${next}`, x1: x, x2: x, y1: -3, y2: tall + 3 }, lane);\n\
\x20     const head = next ? `M${x - 5} ${tall + 8}h10l-5 -7z` : `M${x - 5} -7h10l-5 7z`;\n\
\x20     if (tall > 12) shape(\"path\", { class: `top-head ${next}`, d: head }, lane);\n\
\x20   };\n\
\x20   if (row.kind === \"f\" || row.kind === \"t\") return;\n\
\x20   if (row.top > 0) tick(row.top, \"\");\n\
\x20   if (row.next !== null && row.next > 0) tick(row.next, \"next\");\n\
\x20   if (row.grey > 0) {\n\
\x20     shape(\"circle\", { class: \"greys\", cx: wide - tall / 4 - 2, cy: tall / 2, r: Math.min(9, tall / 3) }, lane);\n\
\x20     if (tall > 20) shape(\"text\", { class: \"tile-name\", x: wide - tall / 4 - 2, y: tall / 2 + 4, text: row.grey }, lane);\n\
\x20   }\n\
\x20 }\n\
}\n\
\n\
// What a tile may be called, the longest first.\n\
function tileNames(tile) {\n\
\x20 const label = labelOf(tile);\n\
\x20 return [...(label === null ? [] : [`#${tile.name} ${label}`]), `#${tile.name}`];\n\
}\n\
\n\
// A number of its own for each row that was read, so that a lane sees whether its tiles changed.\n\
const ROW_NUMBERS = new WeakMap();\n\
let nextRowNumber = 1;\n\
function rowNumber(row) {\n\
\x20 if (!ROW_NUMBERS.has(row)) ROW_NUMBERS.set(row, nextRowNumber++);\n\
\x20 return ROW_NUMBERS.get(row);\n\
}\n\
\n\
// What a region is, in a sentence.\n\
function describeRegion(life, region, moment) {\n\
\x20 const row = rowAt(life, region, moment);\n\
\x20 const shares = sharesAt(life, region, moment);\n\
\x20 if (row.kind === \"f\") return `Region ${region}: free`;\n\
\x20 const parts = [...PARTS, \"free\"].filter((part) => shares[part]).map((part) => `${grouped(shares[part])} ${PART_WORDS[part]}`\
);\n\
\x20 const kind = { o: \"ordinary\", h: \"first of a run\", t: \"later region of a run\" }[row.kind];\n\
\x20 const current = life.moments[moment].current === region ? \", current\" : \"\";\n\
\x20 return `Region ${region}: ${kind}${current}; words: ${parts.join(\", \")}`;\n\
}\n";
