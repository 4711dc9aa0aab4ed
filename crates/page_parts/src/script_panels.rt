//! The script `panels.js`.
//!
//! Made by `tools/embed_page` of the files of `page/`: change those.

/// The text.
pub const SCRIPT_PANELS: &str = "\
\"use strict\";\n\
// The panels beside and below the lanes: the steps, what a step did, an open region, an object's life.\n\
\n\
// An element of the page.\n\
function make(tag, attributes = {}, ...children) {\n\
\x20 const element = document.createElement(tag);\n\
\x20 for (const [name, value] of Object.entries(attributes)) {\n\
\x20   if (name === \"onclick\") element.addEventListener(\"click\", value);\n\
\x20   else if (value !== null && value !== false) element.setAttribute(name, value);\n\
\x20 }\n\
\x20 element.append(...children.flat(Infinity).filter((child) => child !== null));\n\
\x20 return element;\n\
}\n\
\n\
function plural(count, one, many = `${one}s`) {\n\
\x20 return `${grouped(count)} ${count === 1 ? one : many}`;\n\
}\n\
\n\
// A list of numbers, the first ones where they are many.\n\
function listOf(numbers, most = 24) {\n\
\x20 const shown = numbers.slice(0, most).join(\", \");\n\
\x20 return numbers.length > most ? `${shown} and ${numbers.length - most} more` : shown;\n\
}\n\
\n\
// ---- the steps\n\
\n\
// The list of steps, each a button. Where there are many, only those near the present one are there. Tab reaches one of them, a\
nd arrows\n\
// the others.\n\
class Steps {\n\
\x20 constructor(life, list, choose) {\n\
\x20   this.life = life;\n\
\x20   this.list = list;\n\
\x20   this.choose = choose;\n\
\x20   this.counts = [...life.events.keys()].sort((a, b) => a - b);\n\
\x20   this.from = -1;\n\
\x20   this.to = -1;\n\
\x20 }\n\
\n\
\x20 // The place in the list of the last step up to an event.\n\
\x20 placeOf(event) {\n\
\x20   let low = 0;\n\
\x20   let high = this.counts.length;\n\
\x20   while (low < high) {\n\
\x20     const middle = (low + high) >> 1;\n\
\x20     if (this.counts[middle] <= event) low = middle + 1;\n\
\x20     else high = middle;\n\
\x20   }\n\
\x20   return low - 1;\n\
\x20 }\n\
\n\
\x20 line(count, before) {\n\
\x20   const items = [];\n\
\x20   if (before !== null && count > before + 1) {\n\
\x20     items.push(make(\"li\", { class: \"gap\" }, `${plural(count - before - 1, \"step\")} not in this file`));\n\
\x20   }\n\
\x20   const event = this.life.events.get(count);\n\
\x20   const button = make(\n\
\x20     \"button\",\n\
\x20     { type: \"button\", tabindex: -1, onclick: () => this.choose(count) },\n\
\x20     make(\"span\", { class: \"count\" }, String(count)),\n\
\x20     make(\"span\", { class: \"mono\" }, event.step),\n\
\x20     make(\"span\", { class: \"reply mono\" }, event.reply),\n\
\x20   );\n\
\x20   items.push(make(\"li\", { class: event.collector ? \"collector\" : \"\", \"data-count\": count }, button));\n\
\x20   return items;\n\
\x20 }\n\
\n\
\x20 // Fills the list around a place, unless what is needed is there.\n\
\x20 fill(place) {\n\
\x20   const near = 150;\n\
\x20   const whole = this.from === 0 && this.to === this.counts.length;\n\
\x20   const atStart = this.from === 0 && place < this.to - 20;\n\
\x20   if (whole || atStart || (place >= this.from + 20 && place < this.to - 20)) return;\n\
\x20   this.from = Math.max(0, place - near);\n\
\x20   this.to = Math.min(this.counts.length, place + near);\n\
\x20   const items = [];\n\
\x20   for (let at = this.from; at < this.to; at += 1) items.push(...this.line(this.counts[at], at > 0 ? this.counts[at - 1] : 0));\
\n\
\x20   this.list.replaceChildren(...items);\n\
\x20 }\n\
\n\
\x20 itemOf(event) {\n\
\x20   return this.list.querySelector(`[data-count=\"${event}\"]`);\n\
\x20 }\n\
\n\
\x20 // Makes a step's button the one that Tab reaches.\n\
\x20 stop(item) {\n\
\x20   for (const old of this.list.querySelectorAll('button[tabindex=\"0\"]')) old.setAttribute(\"tabindex\", -1);\n\
\x20   const button = item && item.querySelector(\"button\");\n\
\x20   if (button) button.setAttribute(\"tabindex\", 0);\n\
\x20   return button;\n\
\x20 }\n\
\n\
\x20 // Scrolls the list alone, so that an item is seen.\n\
\x20 see(item) {\n\
\x20   const wanted = item.offsetTop - this.list.offsetTop;\n\
\x20   if (wanted < this.list.scrollTop + 40 || wanted > this.list.scrollTop + this.list.clientHeight - 80) {\n\
\x20     this.list.scrollTop = wanted - this.list.clientHeight / 3;\n\
\x20   }\n\
\x20 }\n\
\n\
\x20 draw(event) {\n\
\x20   const focused = this.list.contains(document.activeElement);\n\
\x20   const place = this.placeOf(event);\n\
\x20   this.fill(place);\n\
\x20   for (const old of this.list.querySelectorAll(\"[aria-current], .next\")) {\n\
\x20     old.removeAttribute(\"aria-current\");\n\
\x20     old.classList.remove(\"next\");\n\
\x20   }\n\
\x20   const item = this.itemOf(event);\n\
\x20   const next = this.itemOf(event + 1);\n\
\x20   if (next) next.classList.add(\"next\");\n\
\x20   if (item) item.setAttribute(\"aria-current\", \"step\");\n\
\x20   const seen = item || next || this.itemOf(this.counts[Math.max(0, place)]);\n\
\x20   if (!seen) return;\n\
\x20   const button = this.stop(seen);\n\
\x20   this.see(seen);\n\
\x20   if (focused) button.focus({ preventScroll: true });\n\
\x20 }\n\
\n\
\x20 // Moves the focus in the list by a key, and answers whether the key did that.\n\
\x20 key(name) {\n\
\x20   const by = { ArrowUp: -1, ArrowDown: 1, PageUp: -10, PageDown: 10 }[name];\n\
\x20   const now = document.activeElement.closest(\"#steps li\");\n\
\x20   if (by === undefined || !now) return false;\n\
\x20   const old = this.placeOf(Number(now.dataset.count));\n\
\x20   const place = Math.max(0, Math.min(this.counts.length - 1, old + by));\n\
\x20   this.fill(place);\n\
\x20   const item = this.itemOf(this.counts[place]);\n\
\x20   this.stop(item).focus({ preventScroll: true });\n\
\x20   this.see(item);\n\
\x20   return true;\n\
\x20 }\n\
}\n\
\n\
// ---- what a step did\n\
\n\
// How many objects are grey in each region that has some.\n\
function greyRegions(life, moment) {\n\
\x20 const regions = [];\n\
\x20 for (let region = 0; region < life.sizes.regions; region += 1) {\n\
\x20   const { grey } = rowAt(life, region, moment);\n\
\x20   if (grey) regions.push(`${region}: ${grey}`);\n\
\x20 }\n\
\x20 return regions;\n\
}\n\
\n\
function regionsOf(regions) {\n\
\x20 return `${regions.length === 1 ? \"region\" : \"regions\"} ${listOf(regions)}`;\n\
}\n\
\n\
function aboutPause(life, moment) {\n\
\x20 const { set, into, copies } = pauseAt(life, moment);\n\
\x20 const dirty = dirtyAt(life, moment - 1);\n\
\x20 const covered = new Set(set.flatMap((region) => rowAt(life, region, moment - 1).cards));\n\
\x20 const whole = new Set(set.flatMap((region) => rowAt(life, region, moment - 1).sources));\n\
\x20 const after = dirtyAt(life, moment);\n\
\x20 const words = life.moments[moment].copied - life.moments[moment - 1].copied;\n\
\x20 const items = [\n\
\x20   set.length ? `Its set: ${regionsOf(set)}, now free.` : \"Its set is empty: nothing was reclaimed.\",\n\
\x20   into.length ? `Copied: ${plural(words, \"word\")} into ${regionsOf(into)}.` : \"Nothing was copied.\",\n\
\x20 ];\n\
\x20 const copied = copies.map((copy) => `#${copy.name} from ${copy.from.address} to ${copy.to.address}`);\n\
\x20 if (copies.length) items.push(`Objects: ${listOf(copied, 12)}.`);\n\
\x20 else if (words) items.push(\"Which object went where isn't in this file: arrows are drawn for small heaps alone.\");\n\
\x20 if (copies.length > MOST_ARROWS) items.push(\"An arrow leads from region to region, with the number of its objects.\");\n\
\x20 items.push(dirty.length ? `Dirty cards that it refined first: ${listOf(dirty)}.` : \"No card was dirty before.\");\n\
\x20 const all = whole.size ? `, and all of ${listOf([...whole])}` : \"\";\n\
\x20 if (covered.size) items.push(`Cards that the sets of these regions covered: ${listOf([...covered])}${all}.`);\n\
\x20 items.push(after.length ? `Dirty after it: ${listOf(after)}.` : \"No card is dirty after it.\");\n\
\x20 return { style: \"pause\", items };\n\
}\n\
\n\
function aboutMarking(life, moment, verb) {\n\
\x20 const found = life.moments[moment];\n\
\x20 const grey = greyRegions(life, moment);\n\
\x20 const scanned = found.scanned - (verb === \"begin\" ? 0 : life.moments[moment - 1].scanned);\n\
\x20 const items = [];\n\
\x20 if (verb === \"begin\") items.push(\"Marking begins: each region's next top at mark start is its top, and what roots name is g\
rey.\");\n\
\x20 if (verb === \"mark\") items.push(`Scanned: ${plural(scanned, \"object\")}, ${grouped(found.scanned)} since marking began.`);\
\n\
\x20 const since = `${grouped(found.scanned)} since it began`;\n\
\x20 if (verb === \"remark\") items.push(`Marking ends: ${plural(scanned, \"object\")} scanned by this step, ${since}.`);\n\
\x20 if (verb !== \"remark\") items.push(grey.length ? `Grey by region: ${listOf(grey)}.` : \"No object is grey.\");\n\
\x20 if (verb === \"remark\") items.push(`Live words: ${grouped(life.moments[moment - 1].live)} before, ${grouped(found.live)} now.\
`);\n\
\x20 return { style: \"marking\", items };\n\
}\n\
\n\
function aboutCleanup(life, moment) {\n\
\x20 const freed = reclaimedAt(life, moment);\n\
\x20 const said = freed.length ? `Freed: ${regionsOf(freed)}.` : \"Nothing was freed.\";\n\
\x20 return { style: \"cleanup\", items: [said] };\n\
}\n\
\n\
function aboutRefine(life, moment) {\n\
\x20 const gone = dirtyAt(life, moment - 1).filter((card) => !dirtyAt(life, moment).includes(card));\n\
\x20 const said = gone.length ? `Refined: ${gone.length === 1 ? \"card\" : \"cards\"} ${listOf(gone)}.` : \"No card was refined.\";\
\n\
\x20 return { style: \"\", items: [said] };\n\
}\n\
\n\
// The panel of the collector's step that led to a moment, none where there is none.\n\
function aboutStep(life, moment) {\n\
\x20 const step = collectorStepAt(life, moment);\n\
\x20 if (!step) return null;\n\
\x20 const about = movesObjects(step) ? aboutPause(life, moment)\n\
\x20   : step.verb === \"cleanup\" ? aboutCleanup(life, moment)\n\
\x20     : step.verb === \"refine\" ? aboutRefine(life, moment)\n\
\x20       : aboutMarking(life, moment, step.verb);\n\
\x20 if (step.reply.startsWith(\"refused\")) about.items = [`It was refused: ${step.reply}.`];\n\
\x20 const items = about.items.map((item) => make(\"li\", {}, item));\n\
\x20 return make(\"div\", { class: `card ${about.style}` }, make(\"h3\", {}, `${step.step} = ${step.reply}`), make(\"ul\", {}, item\
s));\n\
}\n\
\n\
// ---- a region\n\
\n\
function nameButton(name, choose) {\n\
\x20 if (name === null) return \"nil\";\n\
\x20 if (name === \"?\") return \"no object\";\n\
\x20 return make(\"button\", { class: \"name\", type: \"button\", \"data-name\": name, onclick: () => choose(name) }, `#${name}`);\
\n\
}\n\
\n\
function fieldsCell(fields, choose, names) {\n\
\x20 const parts = fields.told.flatMap((field) => [names ? nameButton(field, choose) : field, \" \"]);\n\
\x20 if (fields.more) parts.push(`and ${fields.more} more`);\n\
\x20 return make(\"td\", {}, parts);\n\
}\n\
\n\
// What is said of an object's state, in words.\n\
function stateOf(life, moment, tile) {\n\
\x20 const progress = tile.progress && tile.progress !== \"new\" ? tile.progress : null;\n\
\x20 const { reached, why } = reachedAt(life, moment);\n\
\x20 const lost = reached.has(tile.name) ? null : why.length ? NOT_SEEN : NOT_REACHED;\n\
\x20 return [PART_WORDS[tile.part], progress, lost].filter((word) => word).join(\", \");\n\
}\n\
\n\
function tileLine(tile, region, life, view, choose) {\n\
\x20 const at = make(\"td\", {}, String(region * life.sizes.words + tile.offset));\n\
\x20 if (tile.name === undefined) {\n\
\x20   const filler = make(\"td\", {}, make(\"span\", { class: \"swatch filler\" }), plural(tile.size, \"word\"));\n\
\x20   return make(\"tr\", {}, at, make(\"td\", {}, \"filler\"), filler, make(\"td\"), make(\"td\"), make(\"td\"));\n\
\x20 }\n\
\x20 return make(\n\
\x20   \"tr\",\n\
\x20   { class: view.name === tile.name ? \"chosen\" : \"\", \"data-tile\": tile.name },\n\
\x20   at,\n\
\x20   make(\"td\", {}, nameButton(tile.name, choose), labelOf(tile) === null ? null : make(\"span\", { class: \"label\" }, ` ${lab\
elOf(tile)}`)),\n\
\x20   make(\"td\", {}, make(\"span\", { class: `swatch ${tile.part}` }), stateOf(life, view.moment, tile)),\n\
\x20   fieldsCell(tile.pointers, choose, true),\n\
\x20   fieldsCell(tile.weaks, choose, true),\n\
\x20   fieldsCell(tile.values, choose, false),\n\
\x20 );\n\
}\n\
\n\
// Why the objects of a region aren't there at a moment.\n\
function whyUntold(life, moment) {\n\
\x20 const last = lastTold(life);\n\
\x20 const small = \"Its objects aren't in this file: they are told of small heaps, and of regions with at most 400 tiles.\";\n\
\x20 if (last === null || moment <= last) return small;\n\
\x20 return `Its objects aren't in this file, which tells objects up to event ${grouped(life.moments[last].event)}.`;\n\
}\n\
\n\
function tilesTable(life, region, row, view, choose) {\n\
\x20 if (!row.tiles) return row.kind === \"f\" || row.kind === \"t\" ? null : make(\"p\", {}, whyUntold(life, view.moment));\n\
\x20 const heads = [\"address\", \"object\", \"state\", \"pointers\", \"weak slots\", \"data\"].map((head) => make(\"th\", { scope\
: \"col\" }, head));\n\
\x20 const lines = row.tiles.map((tile) => tileLine(tile, region, life, view, choose));\n\
\x20 const table = make(\"table\", {}, make(\"thead\", {}, make(\"tr\", {}, heads)), make(\"tbody\", {}, lines));\n\
\x20 return make(\"div\", { class: \"scroll\", tabindex: 0, role: \"region\", \"aria-label\": `Objects of region ${region}` }, tabl\
e);\n\
}\n\
\n\
// What is said of a region's tops, and of its remembered set.\n\
function topsOf(row) {\n\
\x20 if (row.kind !== \"o\" && row.kind !== \"h\") return null;\n\
\x20 const next = row.next === null ? \"\" : `; of the marking that runs: ${row.next}, grey objects: ${row.grey}`;\n\
\x20 return `Top at mark start: ${row.top} words above its bottom${next}. Live words: ${grouped(row.live)}.`;\n\
}\n\
\n\
function setOf(row) {\n\
\x20 if (!row.cards.length) return row.kind === \"f\" ? null : \"Its remembered set is empty.\";\n\
\x20 const sources = row.sources.length ? `, and all cards of region ${listOf(row.sources)}` : \"\";\n\
\x20 return `Its remembered set: ${row.cards.length === 1 ? \"card\" : \"cards\"} ${listOf(row.cards)}${sources}.`;\n\
}\n\
\n\
// A panel that can be closed. Its head takes the focus when it opens.\n\
function openPanel(what, head, close, ...children) {\n\
\x20 return make(\n\
\x20   \"div\",\n\
\x20   { class: \"card\" },\n\
\x20   make(\"button\", { class: \"close\", type: \"button\", \"aria-label\": `Close the ${what}`, onclick: close }, \"Close\"),\n\
\x20   make(\"h3\", { tabindex: -1 }, head),\n\
\x20   ...children,\n\
\x20 );\n\
}\n\
\n\
// The panel of an open region.\n\
function aboutRegion(life, view, choose, close) {\n\
\x20 const region = view.region;\n\
\x20 const row = rowAt(life, region, view.moment);\n\
\x20 const shares = sharesAt(life, region, view.moment);\n\
\x20 const swatch = (part) => make(\"span\", { class: `swatch ${part}` });\n\
\x20 const share = (part) => make(\"span\", { class: \"share\" }, swatch(part), `${grouped(shares[part])} ${PART_WORDS[part]}`);\n\
\x20 const paragraphs = [topsOf(row), setOf(row)].filter((said) => said).map((said) => make(\"p\", {}, said));\n\
\x20 const head = describeRegion(life, region, view.moment).split(\";\")[0];\n\
\x20 const tiles = tilesTable(life, region, row, view, choose);\n\
\x20 return openPanel(\"region\", head, close, make(\"p\", {}, [...PARTS, \"free\"].map(share)), paragraphs, tiles);\n\
}\n\
\n\
// ---- an object\n\
\n\
// Names as buttons, the first ones where they are many.\n\
function namesLine(names, choose, most = 24) {\n\
\x20 const shown = names.slice(0, most).flatMap((name, place) => [place ? \", \" : \"\", nameButton(name, choose)]);\n\
\x20 return names.length > most ? [...shown, ` and ${names.length - most} more`] : shown;\n\
}\n\
\n\
// By what an object is held at a moment: the roots that name it, the way from a root, the objects that name it.\n\
function holdersOf(life, view, choose) {\n\
\x20 const { moment, name } = view;\n\
\x20 const roots = rootsAt(life, moment).filter((root) => root.name === name).map((root) => rootName(life, root.place));\n\
\x20 const path = pathTo(life, moment, name);\n\
\x20 const by = namedBy(life, moment, name);\n\
\x20 const lines = [];\n\
\x20 if (roots.length) lines.push(make(\"p\", {}, `Roots that name it now: ${roots.join(\", \")}.`));\n\
\x20 else if (path) {\n\
\x20   const way = path.names.slice(0, -1).flatMap((each) => [\", \", nameButton(each, choose)]);\n\
\x20   lines.push(make(\"p\", {}, `A root that holds it now: ${rootName(life, path.root)}, by way of `, way.slice(1)));\n\
\x20 } else lines.push(make(\"p\", {}, `No root reaches it now${reachedAt(life, moment).why.length ? \", so far as this file tells\
\" : \"\"}.`));\n\
\x20 const strong = by.filter((each) => !each.weak).map((each) => each.name);\n\
\x20 const weak = by.filter((each) => each.weak).map((each) => each.name);\n\
\x20 if (strong.length) lines.push(make(\"p\", {}, \"Objects whose pointers name it: \", namesLine(strong, choose)));\n\
\x20 if (weak.length) lines.push(make(\"p\", {}, \"Objects whose weak slots name it: \", namesLine(weak, choose)));\n\
\x20 return lines;\n\
}\n\
\n\
// What an object is at a moment: its shape, its place, its fields.\n\
function aboutPlace(life, view, choose) {\n\
\x20 const place = placesAt(life, view.moment).get(view.name);\n\
\x20 if (!place) return [make(\"p\", {}, \"It isn't told at this moment.\")];\n\
\x20 const { tile, region, address } = place;\n\
\x20 const kinds = [[\"Pointers\", tile.pointers, true], [\"Weak slots\", tile.weaks, true], [\"Data words\", tile.values, false]];\
\n\
\x20 const fields = kinds.filter(([, of]) => of.count).map(([kind, of, names]) => make(\n\
\x20   \"p\",\n\
\x20   {},\n\
\x20   `${kind}: `,\n\
\x20   of.told.flatMap((field, at) => [at ? \", \" : \"\", names ? nameButton(field, choose) : field]),\n\
\x20   of.more ? ` and ${of.more} more` : \"\",\n\
\x20 ));\n\
\x20 const said = `Region ${region}, at ${address}: ${plural(tile.size, \"word\")}; ${stateOf(life, view.moment, tile)}.`;\n\
\x20 return [make(\"p\", {}, make(\"span\", { class: `swatch ${tile.part}` }), said), ...holdersOf(life, view, choose), ...fields];\
\n\
}\n\
\n\
// The panel of an object's life.\n\
function aboutObject(life, view, show, close, choose) {\n\
\x20 const place = placesAt(life, view.moment).get(view.name);\n\
\x20 const label = place ? labelOf(place.tile) : null;\n\
\x20 const lines = lifeOfName(life, view.name).map((note) => make(\n\
\x20   \"li\",\n\
\x20   {},\n\
\x20   make(\"button\", { class: \"name\", type: \"button\", onclick: () => show(note.moment) }, `event ${life.moments[note.moment]\
.event}`),\n\
\x20   ` ${note.text}`,\n\
\x20 ));\n\
\x20 const coarse = life.moments.length <= life.eventCount;\n\
\x20 return openPanel(\n\
\x20   \"object\",\n\
\x20   `The life of #${view.name}${label === null ? \"\" : `, ${label}`}`,\n\
\x20   close,\n\
\x20   aboutPlace(life, view, choose),\n\
\x20   make(\"ul\", {}, lines.length ? lines : make(\"li\", {}, \"It is told at none of the moments in this file.\")),\n\
\x20   coarse ? make(\"p\", {}, \"Each event is that of the first moment in this file at which it is seen.\") : null,\n\
\x20 );\n\
}\n";
