//! The script `fold.js`.
//!
//! Made by `tools/embed_page` of the files of `page/`: change those.

/// The text.
pub const SCRIPT_FOLD: &str = "\
\"use strict\";\n\
// Folds, in pages of the third format alone, since those of the first two stay as they were: where a heap has many regions, fre\
e ones side\n\
// by side are one box with their count, until it is opened.\n\
\n\
// Heaps of up to so many regions are shown whole.\n\
const MOST_UNFOLDED = 64;\n\
// For up to so many lanes `layoutOf` knows a size, and how large they are where there are more.\n\
const MOST_SIZED = 1024;\n\
const SMALLEST = { wide: 26, tall: 8, gapX: 4, gapY: 5 };\n\
\n\
// Whether boxes are folded, and which regions are shown by themselves all the same.\n\
const folding = { on: true, opened: new Set() };\n\
\n\
function isFold(box) {\n\
\x20 return box.from < box.to;\n\
}\n\
\n\
function foldText(box) {\n\
\x20 return `${grouped(box.to - box.from + 1)} free`;\n\
}\n\
\n\
// Whether a region is shown by itself: it is in use, or was at the moment before, it is chosen, or its fold was opened.\n\
function isShown(life, view, region) {\n\
\x20 const isUsed = (moment) => moment >= 0 && rowAt(life, region, moment).kind !== \"f\";\n\
\x20 return isUsed(view.moment) || isUsed(view.moment - 1) || view.region === region || folding.opened.has(region);\n\
}\n\
\n\
// The boxes of a moment by their first and last regions: a region by itself, or free ones side by side.\n\
function boxesAt(life, view) {\n\
\x20 const isFolded = folding.on && life.sizes.regions > MOST_UNFOLDED;\n\
\x20 const boxes = [];\n\
\x20 let fold = null;\n\
\x20 for (let region = 0; region < life.sizes.regions; region += 1) {\n\
\x20   const isOwn = !isFolded || isShown(life, view, region);\n\
\x20   if (isOwn || !fold) boxes.push({ from: region, to: region });\n\
\x20   else fold.to = region;\n\
\x20   fold = isOwn ? null : boxes[boxes.length - 1];\n\
\x20 }\n\
\x20 return boxes;\n\
}\n\
\n\
// Where boxes lie: in a grid as lanes do, but a fold is as many lanes wide as its text needs. A region's place is its box.\n\
function layoutOfBoxes(life, width, boxes) {\n\
\x20 const base = layoutOf({ sizes: { ...life.sizes, regions: Math.min(boxes.length, MOST_SIZED) } }, width);\n\
\x20 const size = boxes.length > MOST_SIZED ? { ...base, ...SMALLEST } : base;\n\
\x20 const cell = size.wide + size.gapX;\n\
\x20 const columns = boxes.length > MOST_SIZED ? Math.max(1, Math.floor((width - size.side + size.gapX) / cell)) : base.columns;\n\
\x20 const step = size.head + size.tall + size.gapY;\n\
\x20 const places = [];\n\
\x20 let row = 0;\n\
\x20 let column = 0;\n\
\x20 for (const box of boxes) {\n\
\x20   const span = isFold(box) ? Math.min(columns, Math.ceil((foldText(box).length * 7 + 12 + size.gapX) / cell)) : 1;\n\
\x20   if (column + span > columns) {\n\
\x20     row += 1;\n\
\x20     column = 0;\n\
\x20   }\n\
\x20   Object.assign(box, { x: size.side + column * cell, y: size.head + row * step, wide: span * cell - size.gapX, row });\n\
\x20   for (let region = box.from; region <= box.to; region += 1) places[region] = box;\n\
\x20   column += span;\n\
\x20 }\n\
\x20 const rows = row + 1;\n\
\x20 const place = (region) => places[region];\n\
\x20 return { ...size, columns, step, rows, place, height: rows * step + 8, perWord: size.wide / life.sizes.words };\n\
}\n\
\n\
// The lanes of boxes, which are made anew where the boxes are others. It has the name of what it stands for in these pages.\n\
Lanes = class extends Lanes {\n\
\x20 // Makes a group for each box, with nothing in it yet; none before a moment is drawn.\n\
\x20 build() {\n\
\x20   const { life } = this;\n\
\x20   const hasFocus = Boolean(this.svg) && this.svg.contains(document.activeElement);\n\
\x20   const width = Math.max(320, this.holder.clientWidth - 8);\n\
\x20   this.boxes = this.view ? boxesAt(life, this.view) : [];\n\
\x20   this.layout = layoutOfBoxes(life, width, this.boxes);\n\
\x20   if (this.boxes.length) this.focused = this.layout.place(this.focused).from;\n\
\x20   const { height } = this.layout;\n\
\x20   this.svg = shape(\"svg\", { viewBox: `0 0 ${width} ${height}`, height, role: \"group\", \"aria-label\": \"Regions\" });\n\
\x20   drawDefinitions(this.svg);\n\
\x20   this.rowLabels();\n\
\x20   this.lanes = [];\n\
\x20   for (const box of this.boxes) this.lanes[box.from] = this.group(box);\n\
\x20   this.over = shape(\"g\", { class: \"over\" }, this.svg);\n\
\x20   this.drawn = [];\n\
\x20   this.holder.replaceChildren(this.svg);\n\
\x20   this.button();\n\
\x20   if (hasFocus) this.focus(this.focused, true);\n\
\x20 }\n\
\n\
\x20 group(box) {\n\
\x20   const stop = { role: \"button\", tabindex: box.from === this.focused ? 0 : -1 };\n\
\x20   const lane = shape(\"g\", { class: \"lane\", transform: `translate(${box.x} ${box.y})`, \"data-region\": box.from, ...stop }\
, this.svg);\n\
\x20   lane.addEventListener(\"focus\", () => this.focus(box.from, false));\n\
\x20   if (!isFold(box)) {\n\
\x20     lane.addEventListener(\"click\", () => this.open(box.from));\n\
\x20     return lane;\n\
\x20   }\n\
\x20   lane.addEventListener(\"click\", () => this.unfold(box));\n\
\x20   lane.addEventListener(\"keydown\", (press) => {\n\
\x20     if (press.key !== \"Enter\" && press.key !== \" \") return;\n\
\x20     press.preventDefault();\n\
\x20     press.stopPropagation();\n\
\x20     this.unfold(box);\n\
\x20   });\n\
\x20   return lane;\n\
\x20 }\n\
\n\
\x20 // Each row has its first region's number.\n\
\x20 rowLabels() {\n\
\x20   if (this.layout.head) return;\n\
\x20   const { side, tall } = this.layout;\n\
\x20   this.boxes.forEach(({ from, y, row }, at) => {\n\
\x20     if (at && this.boxes[at - 1].row === row) return;\n\
\x20     shape(\"text\", { class: \"soft small\", x: side - 8, y: y + tall - 1, \"text-anchor\": \"end\", text: from }, this.svg);\
\n\
\x20   });\n\
\x20 }\n\
\n\
\x20 // The box of a row that is nearest to another one.\n\
\x20 nearest(here, row) {\n\
\x20   const apart = (box) => Math.abs(box.x - here.x);\n\
\x20   return this.boxes.filter((box) => box.row === row).sort((one, other) => apart(one) - apart(other))[0];\n\
\x20 }\n\
\n\
\x20 key(name) {\n\
\x20   const here = this.layout.place(this.focused);\n\
\x20   const at = this.boxes.indexOf(here);\n\
\x20   const found = {\n\
\x20     ArrowLeft: () => this.boxes[at - 1], ArrowRight: () => this.boxes[at + 1],\n\
\x20     ArrowUp: () => this.nearest(here, here.row - 1), ArrowDown: () => this.nearest(here, here.row + 1),\n\
\x20   }[name];\n\
\x20   if (!found) return false;\n\
\x20   const box = found();\n\
\x20   if (box) this.focus(box.from, true);\n\
\x20   return true;\n\
\x20 }\n\
\n\
\x20 draw(view) {\n\
\x20   this.view = view;\n\
\x20   const ends = (boxes) => boxes.map(({ from, to }) => `${from} ${to}`).join();\n\
\x20   if (ends(boxesAt(this.life, view)) !== ends(this.boxes)) this.build();\n\
\x20   for (const box of this.boxes) {\n\
\x20     const key = isFold(box) ? \"fold\" : this.laneKey(box.from, view);\n\
\x20     if (this.drawn[box.from] === key) continue;\n\
\x20     this.drawn[box.from] = key;\n\
\x20     if (isFold(box)) this.drawFold(box);\n\
\x20     else this.drawLane(box.from, view);\n\
\x20   }\n\
\x20   this.over.replaceChildren();\n\
\x20   drawOver(this, view);\n\
\x20 }\n\
\n\
\x20 drawFold(box) {\n\
\x20   const { head, tall } = this.layout;\n\
\x20   const lane = this.lanes[box.from];\n\
\x20   const said = `Regions ${box.from} to ${box.to}: free`;\n\
\x20   const marks = { class: \"lane fold\", \"data-kind\": \"f\", \"data-to\": box.to, \"aria-label\": `${said}; shows each` };\n\
\x20   for (const [name, value] of Object.entries(marks)) lane.setAttribute(name, value);\n\
\x20   shape(\"title\", { text: said }, lane);\n\
\x20   if (head) shape(\"text\", { class: \"soft tag\", x: 0, y: -9, text: `${box.from} to ${box.to}` }, lane);\n\
\x20   const dashes = \"stroke-dasharray:5 3\";\n\
\x20   shape(\"rect\", { class: \"bed\", x: 0, y: 0, width: box.wide, height: tall, rx: head ? 3 : 1, style: dashes }, lane);\n\
\x20   const middle = { x: box.wide / 2, y: tall / 2 + 4, \"text-anchor\": \"middle\" };\n\
\x20   shape(\"text\", { class: \"soft small\", ...middle, style: \"pointer-events:none\", text: foldText(box) }, lane);\n\
\x20   shape(\"rect\", { class: \"halo\", x: -4, y: -4, width: box.wide + 8, height: tall + 8, rx: 5 }, lane);\n\
\x20 }\n\
\n\
\x20 // Shows each region of a fold.\n\
\x20 unfold(box) {\n\
\x20   for (let region = box.from; region <= box.to; region += 1) folding.opened.add(region);\n\
\x20   this.draw(this.view);\n\
\x20 }\n\
\n\
\x20 // Shows all regions, or folds them again.\n\
\x20 foldAll() {\n\
\x20   folding.on = !folding.on || folding.opened.size > 0;\n\
\x20   folding.opened.clear();\n\
\x20   this.draw(this.view);\n\
\x20   this.button();\n\
\x20 }\n\
\n\
\x20 // The button for that, before the one for tiles.\n\
\x20 button() {\n\
\x20   const old = document.getElementById(\"fold\");\n\
\x20   if (this.life.sizes.regions <= MOST_UNFOLDED) return;\n\
\x20   const hasFocus = document.activeElement === old && old !== null;\n\
\x20   if (old) old.remove();\n\
\x20   const word = folding.on && !folding.opened.size ? \"Unfold\" : \"Fold\";\n\
\x20   const made = make(\"button\", { id: \"fold\", type: \"button\", title: \"Free regions side by side\", onclick: () => this.fo\
ldAll() }, word);\n\
\x20   document.getElementById(\"kind\").before(made);\n\
\x20   if (hasFocus) made.focus();\n\
\x20 }\n\
};\n";
