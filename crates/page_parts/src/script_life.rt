//! The script `life.js`.
//!
//! Made by `tools/embed_page` of the files of `page/`: change those.

/// The text.
pub const SCRIPT_LIFE: &str = "\
\"use strict\";\n\
// The texts of the page, read. A moment is found by its place in the list of moments, a region's row by the moment. Names and d\
ata words\n\
// have 64 bits, more than a number of this language holds, so they stay texts; all other numbers are small.\n\
\n\
// The lines of a text, without the empty one at its end.\n\
function linesOf(text) {\n\
\x20 const lines = text.split(\"\\n\");\n\
\x20 while (lines.length && lines[lines.length - 1] === \"\") lines.pop();\n\
\x20 while (lines.length && lines[0] === \"\") lines.shift();\n\
\x20 return lines;\n\
}\n\
\n\
// The heap line's sizes.\n\
function readSizes(line) {\n\
\x20 const [format, regions, words, buffer, mutators, firstName, card = \"8\"] = line.split(\" \");\n\
\x20 const heap = { regions: Number(regions), words: Number(words), card: Number(card) };\n\
\x20 return { line, format, firstName, ...heap, buffer: Number(buffer), mutators: Number(mutators) };\n\
}\n\
\n\
// An event of a record's line: `COUNT ACTOR STEP = REPLY`.\n\
function readEvent(line) {\n\
\x20 const equals = line.indexOf(\" = \");\n\
\x20 const words = line.slice(0, equals).split(\" \");\n\
\x20 const step = words.slice(1).join(\" \");\n\
\x20 const collector = !/^\\d+$/.test(words[1]);\n\
\x20 return { count: Number(words[0]), actor: words[1], verb: words[2], step, reply: line.slice(equals + 3), collector };\n\
}\n\
\n\
// The name of the script's file, or of the record's: each byte of it but letters, digits and some signs is % and two digits to \
the base 16.\n\
function readFileName(word) {\n\
\x20 return word === \"-\" ? \"standard input\" : decodeURIComponent(word);\n\
}\n\
\n\
// Names for shapes, told byte by byte as a file's name is. They may be any bytes: what isn't UTF-8 becomes the sign for that.\n\
function readTold(word) {\n\
\x20 const letters = word.replace(/%(..)/g, (_, digits) => String.fromCharCode(parseInt(digits, 16)));\n\
\x20 return new TextDecoder().decode(Uint8Array.from(letters, (letter) => letter.charCodeAt(0)));\n\
}\n\
\n\
const MOMENT = [\"event\", \"handedOut\", \"live\", \"free\", \"queued\", \"dirty\", \"copied\", \"marking\", \"scanned\"];\n\
\n\
// A moment's numbers.\n\
function readMoment(words) {\n\
\x20 const moment = { nextName: words[10], current: null, buffers: [], queue: [], logs: [], deletions: [], roots: [] };\n\
\x20 MOMENT.forEach((field, place) => { moment[field] = Number(words[place + 1]); });\n\
\x20 if (words[11] !== \"-\") moment.current = Number(words[11]);\n\
\x20 return moment;\n\
}\n\
\n\
// Adds to a moment what one of its lines says.\n\
function readOfMoment(moment, words) {\n\
\x20 const numbers = words.slice(1).map(Number);\n\
\x20 if (words[0] === \"b\") moment.buffers.push({ mutator: numbers[0], at: numbers[1], left: numbers[2] });\n\
\x20 if (words[0] === \"q\") moment.queue = numbers;\n\
\x20 if (words[0] === \"l\") moment.logs.push({ mutator: numbers[0], cards: numbers.slice(1) });\n\
\x20 if (words[0] === \"d\") moment.deletions.push({ mutator: numbers[0], addresses: numbers.slice(1) });\n\
\x20 if (words[0] === \"n\") {\n\
\x20   for (let at = 0; at + 1 < numbers.length; at += 2) moment.roots.push({ place: numbers[at], address: numbers[at + 1] });\n\
\x20 }\n\
}\n\
\n\
// The fields of one kind: names or data words, null for nil, \"?\" for no object; and how many aren't told.\n\
function readFields(words) {\n\
\x20 const fields = { told: [], more: 0 };\n\
\x20 for (const word of words) {\n\
\x20   if (word.startsWith(\"+\")) fields.more = Number(word.slice(1));\n\
\x20   else fields.told.push(word === \"-\" ? null : word);\n\
\x20 }\n\
\x20 fields.count = fields.told.length + fields.more;\n\
\x20 return fields;\n\
}\n\
\n\
const PART = { m: \"marked\", d: \"dead\", n: \"new\" };\n\
const PROGRESS = { n: \"new\", u: \"unmarked\", g: \"grey\", s: \"scanned\" };\n\
\n\
function readTile(words) {\n\
\x20 if (words[0] === \"x\") return { offset: Number(words[1]), size: Number(words[2]), part: \"filler\" };\n\
\x20 const parts = words.slice(4).join(\" \").split(\";\").map((part) => readFields(part.split(\" \").filter((word) => word)));\n\
\x20 const [pointers, weaks, values] = parts;\n\
\x20 return {\n\
\x20   offset: Number(words[1]), name: words[2], part: PART[words[3][0]], progress: PROGRESS[words[3][1]] || null,\n\
\x20   pointers, weaks, values, size: 2 + pointers.count + weaks.count + values.count,\n\
\x20 };\n\
}\n\
\n\
// A region's lines.\n\
function readRow(lines) {\n\
\x20 const words = lines[0].split(\" \");\n\
\x20 const row = {\n\
\x20   kind: words[2], used: 0, marked: 0, dead: 0, new: 0, filler: 0, live: 0, top: 0, next: null, grey: 0,\n\
\x20   cards: [], sources: [], tiles: null,\n\
\x20 };\n\
\x20 const numbers = words.slice(3).map(Number);\n\
\x20 if (row.kind === \"t\") row.used = numbers[0];\n\
\x20 if (row.kind === \"o\" || row.kind === \"h\") {\n\
\x20   [row.used, row.marked, row.dead, row.new, row.filler, row.live, row.top] = numbers;\n\
\x20   if (numbers.length > 7) [row.next, row.grey] = numbers.slice(7);\n\
\x20 }\n\
\x20 for (const line of lines.slice(1)) {\n\
\x20   const of = line.split(\" \");\n\
\x20   if (of[0] === \"s\") {\n\
\x20     const [cards, sources] = line.slice(2).split(\";\").map((part) => part.split(\" \").filter((word) => word).map(Number));\n\
\x20     row.cards = cards;\n\
\x20     row.sources = sources;\n\
\x20   } else if (of[0] === \"y\") row.tiles = null;\n\
\x20   else (row.tiles = row.tiles || []).push(readTile(of));\n\
\x20 }\n\
\x20 return row;\n\
}\n\
\n\
const FREE = readRow([\"r 0 f\"]);\n\
\n\
// The life that the page's texts tell.\n\
function readLife(recordText, lifeText) {\n\
\x20 const record = linesOf(recordText);\n\
\x20 const life = {\n\
\x20   file: \"\", names: \"\", sizes: readSizes(record[0]), events: new Map(), moments: [], rows: [], pace: null, eventCount: 0,\n\
\x20   tilesEnd: null, tells: false,\n\
\x20 };\n\
\x20 for (const line of record.slice(1)) {\n\
\x20   const event = readEvent(line);\n\
\x20   life.events.set(event.count, event);\n\
\x20 }\n\
\x20 for (let k = 0; k < life.sizes.regions; k += 1) life.rows.push([]);\n\
\x20 let lines = null;\n\
\x20 for (const line of linesOf(lifeText)) {\n\
\x20   const words = line.split(\" \");\n\
\x20   const moment = life.moments[life.moments.length - 1];\n\
\x20   if (words[0] === \"file\") life.file = readFileName(words[1]);\n\
\x20   else if (words[0] === \"names\") life.names = readTold(words[1]);\n\
\x20   else if (words[0] === \"card\") life.sizes.card = Number(words[1]);\n\
\x20   else if (words[0] === \"roots\") [life.sizes.globals, life.sizes.registers] = words.slice(1).map(Number);\n\
\x20   else if (words[0] === \"pace\") life.pace = { every: Number(words[1]), stride: Number(words[2]), small: words[3] === \"1\" }\
;\n\
\x20   else if (words[0] === \"events\") life.eventCount = Number(words[1]);\n\
\x20   else if (words[0] === \"m\") life.moments.push(readMoment(words));\n\
\x20   else if (words[0] === \"r\") {\n\
\x20     lines = [line];\n\
\x20     life.rows[Number(words[1])].push({ moment: life.moments.length - 1, lines, row: null });\n\
\x20   } else if (\"soxy\".includes(words[0])) {\n\
\x20     lines.push(line);\n\
\x20     life.tells = life.tells || words[0] === \"o\";\n\
\x20   } else if (words[0] === \"z\") life.tilesEnd = life.moments.length - 1;\n\
\x20   else readOfMoment(moment, words);\n\
\x20 }\n\
\x20 return life;\n\
}\n\
\n\
// A region at a moment.\n\
function rowAt(life, region, moment) {\n\
\x20 const rows = life.rows[region] || [];\n\
\x20 let low = 0;\n\
\x20 let high = rows.length;\n\
\x20 while (low < high) {\n\
\x20   const middle = (low + high) >> 1;\n\
\x20   if (rows[middle].moment <= moment) low = middle + 1;\n\
\x20   else high = middle;\n\
\x20 }\n\
\x20 if (low === 0) return FREE;\n\
\x20 const found = rows[low - 1];\n\
\x20 if (!found.row) found.row = readRow(found.lines);\n\
\x20 return found.row;\n\
}\n\
\n\
// The region in which the run of a region begins.\n\
function headOf(life, region, moment) {\n\
\x20 let head = region;\n\
\x20 while (head > 0 && rowAt(life, head, moment).kind === \"t\") head -= 1;\n\
\x20 return head;\n\
}\n\
\n\
// What the words of one region are: of a run each region has its part of the object.\n\
function sharesAt(life, region, moment) {\n\
\x20 const row = rowAt(life, region, moment);\n\
\x20 const words = life.sizes.words;\n\
\x20 if (row.kind === \"o\") return { marked: row.marked, dead: row.dead, new: row.new, filler: row.filler, free: words - row.used \
};\n\
\x20 const shares = { marked: 0, dead: 0, new: 0, filler: 0, free: words - row.used };\n\
\x20 if (row.kind === \"f\") return shares;\n\
\x20 const head = rowAt(life, headOf(life, region, moment), moment);\n\
\x20 const part = head.marked ? \"marked\" : head.dead ? \"dead\" : \"new\";\n\
\x20 shares[part] = row.used;\n\
\x20 return shares;\n\
}\n\
\n\
// What was worked out for a few keys, moments or names, the last ones that were asked for.\n\
class Kept {\n\
\x20 constructor(work, most = 12) {\n\
\x20   this.work = work;\n\
\x20   this.most = most;\n\
\x20   this.found = new Map();\n\
\x20 }\n\
\n\
\x20 at(life, key) {\n\
\x20   if (!this.found.has(key)) {\n\
\x20     if (this.found.size >= this.most) this.found.delete(this.found.keys().next().value);\n\
\x20     this.found.set(key, this.work(life, key));\n\
\x20   }\n\
\x20   return this.found.get(key);\n\
\x20 }\n\
}\n\
\n\
const PLACES = new Kept((life, moment) => {\n\
\x20 const places = new Map();\n\
\x20 for (let region = 0; region < life.sizes.regions; region += 1) {\n\
\x20   for (const tile of rowAt(life, region, moment).tiles || []) {\n\
\x20     if (tile.name !== undefined) places.set(tile.name, { tile, region, address: region * life.sizes.words + tile.offset });\n\
\x20   }\n\
\x20 }\n\
\x20 return places;\n\
});\n\
\n\
// Where each object is at a moment, by name.\n\
function placesAt(life, moment) {\n\
\x20 return PLACES.at(life, moment);\n\
}\n\
\n\
// The last moment at which objects are told, where they aren't told to the end.\n\
function lastTold(life) {\n\
\x20 return life.tilesEnd === null ? null : Math.max(0, life.tilesEnd - 1);\n\
}\n\
\n\
// Whether a region's objects are told at a moment, where it has some.\n\
function tellsObjects(life, region, moment) {\n\
\x20 const row = rowAt(life, region, moment);\n\
\x20 return row.kind === \"f\" || row.kind === \"t\" || row.tiles !== null;\n\
}\n\
\n\
// The fullest moment: of those at which most words are handed out, the last.\n\
function fullestMoment(life) {\n\
\x20 let fullest = 0;\n\
\x20 life.moments.forEach((moment, place) => {\n\
\x20   if (moment.handedOut >= life.moments[fullest].handedOut) fullest = place;\n\
\x20 });\n\
\x20 return fullest;\n\
}\n\
\n\
// The event that led to a moment, where the file has it.\n\
function eventOf(life, moment) {\n\
\x20 return life.events.get(life.moments[moment].event) || null;\n\
}\n\
\n\
// Whether a moment is one event after the one before it.\n\
function isOneStep(life, moment) {\n\
\x20 return moment > 0 && life.moments[moment].event === life.moments[moment - 1].event + 1;\n\
}\n\
\n\
// The collector's step between the moment before and this one, none where there are other steps between them.\n\
function collectorStepAt(life, moment) {\n\
\x20 if (!isOneStep(life, moment)) return null;\n\
\x20 const event = eventOf(life, moment);\n\
\x20 return event && event.collector ? event : null;\n\
}\n\
\n\
// The regions that were in use a moment before and are free now.\n\
function reclaimedAt(life, moment) {\n\
\x20 const regions = [];\n\
\x20 for (let region = 0; region < life.sizes.regions; region += 1) {\n\
\x20   if (rowAt(life, region, moment - 1).kind !== \"f\" && rowAt(life, region, moment).kind === \"f\") regions.push(region);\n\
\x20 }\n\
\x20 return regions;\n\
}\n\
\n\
// Whether a step of the collector moves objects.\n\
function movesObjects(step) {\n\
\x20 return [\"pause\", \"compact\", \"pausewithin\", \"young\"].includes(step.verb);\n\
}\n\
\n\
// What a pause or a compaction did: the regions that it emptied, the regions that it copied into, and the copies where the fil\
e tells tiles.\n\
function pauseAt(life, moment) {\n\
\x20 const set = reclaimedAt(life, moment);\n\
\x20 const into = [];\n\
\x20 for (let region = 0; region < life.sizes.regions; region += 1) {\n\
\x20   if (rowAt(life, region, moment - 1).kind === \"f\" && rowAt(life, region, moment).kind === \"o\") into.push(region);\n\
\x20 }\n\
\x20 const copies = [];\n\
\x20 const before = placesAt(life, moment - 1);\n\
\x20 for (const [name, to] of placesAt(life, moment)) {\n\
\x20   const from = before.get(name);\n\
\x20   if (from && from.address !== to.address) copies.push({ name, from, to, words: to.tile.size });\n\
\x20 }\n\
\x20 return { set, into, copies };\n\
}\n\
\n\
// The cards that are dirty at a moment.\n\
function dirtyAt(life, moment) {\n\
\x20 const found = life.moments[moment];\n\
\x20 return [...found.queue, ...found.logs.flatMap((log) => log.cards)];\n\
}\n\
\n\
// How a root's place is called.\n\
function rootName(life, place) {\n\
\x20 const { globals, registers, mutators } = life.sizes;\n\
\x20 if (place < globals) return `g${place}`;\n\
\x20 const mutator = Math.floor((place - globals) / registers);\n\
\x20 const register = `r${(place - globals) % registers}`;\n\
\x20 return mutators > 1 ? `${register} of mutator ${mutator}` : register;\n\
}\n\
\n\
// Where an object is from which moment on, in the order of the moments; null where it is nowhere. The regions' lines are read f\
or that, and\n\
// no more of them than have the name; what was found of a few names is kept.\n\
function stretchesOf(life, name) {\n\
\x20 return STRETCHES.at(life, name);\n\
}\n\
\n\
const STRETCHES = new Kept((life, name) => {\n\
\x20 const wanted = new RegExp(`^o \\\\d+ ${name} `);\n\
\x20 const changes = [];\n\
\x20 life.rows.forEach((rows, region) => {\n\
\x20   let was = false;\n\
\x20   for (const { moment, lines } of rows) {\n\
\x20     const line = lines.find((each) => each.startsWith(\"o\") && wanted.test(each)) || null;\n\
\x20     if (line || was) changes.push({ moment, region, line });\n\
\x20     was = line !== null;\n\
\x20   }\n\
\x20 });\n\
\x20 changes.sort((a, b) => a.moment - b.moment);\n\
\x20 const lines = new Map();\n\
\x20 const stretches = [];\n\
\x20 changes.forEach(({ moment, region, line }, number) => {\n\
\x20   if (line) lines.set(region, line);\n\
\x20   else lines.delete(region);\n\
\x20   if (number + 1 < changes.length && changes[number + 1].moment === moment) return;\n\
\x20   const [found] = lines;\n\
\x20   if (!found) {\n\
\x20     stretches.push({ moment, place: null });\n\
\x20     return;\n\
\x20   }\n\
\x20   const tile = readTile(found[1].split(\" \"));\n\
\x20   stretches.push({ moment, place: { region: found[0], tile, address: found[0] * life.sizes.words + tile.offset } });\n\
\x20 });\n\
\x20 return stretches;\n\
});\n\
\n\
// Why an object that was in a region is at no place that is told.\n\
function whyGone(life, region, moment) {\n\
\x20 if (!tellsObjects(life, region, moment)) return `told no more: the objects of region ${region} aren't in this file from here o\
n`;\n\
\x20 for (let other = 0; other < life.sizes.regions; other += 1) {\n\
\x20   if (!tellsObjects(life, other, moment)) return `gone from region ${region}, or moved to where objects aren't told`;\n\
\x20 }\n\
\x20 return `gone: region ${region} was reclaimed`;\n\
}\n\
\n\
// The life of an object: what happened to it, and at which moment.\n\
function lifeOfName(life, name) {\n\
\x20 const notes = [];\n\
\x20 let last = null;\n\
\x20 for (const { moment, place } of stretchesOf(life, name)) {\n\
\x20   const note = (text) => notes.push({ moment, text });\n\
\x20   const became = (key, value) => place.tile[key] === value && last.tile[key] !== value;\n\
\x20   const how = notes.length ? \"told again\" : \"made\";\n\
\x20   if (place && !last) note(`${how} in region ${place.region}, at ${place.address}, ${place.tile.size} words`);\n\
\x20   if (place && last) {\n\
\x20     if (place.address !== last.address) note(`moved from ${last.address} to ${place.address}, in region ${place.region}`);\n\
\x20     if (became(\"progress\", \"grey\")) note(\"found by marking: grey\");\n\
\x20     if (became(\"progress\", \"scanned\")) note(\"scanned\");\n\
\x20     if (became(\"part\", \"marked\")) note(\"marked when marking ended: live\");\n\
\x20     if (became(\"part\", \"dead\")) note(\"not marked when marking ended: dead\");\n\
\x20   }\n\
\x20   if (!place && last) note(whyGone(life, last.region, moment));\n\
\x20   last = place;\n\
\x20 }\n\
\x20 return notes;\n\
}\n\
\n\
// The moment nearest to one at which an object is told, or null where there is none.\n\
function nearestWith(life, name, moment) {\n\
\x20 let nearest = null;\n\
\x20 const stretches = stretchesOf(life, name);\n\
\x20 stretches.forEach(({ moment: from, place }, number) => {\n\
\x20   if (!place) return;\n\
\x20   const to = number + 1 < stretches.length ? stretches[number + 1].moment - 1 : life.moments.length - 1;\n\
\x20   const near = Math.max(from, Math.min(to, moment));\n\
\x20   if (nearest === null || Math.abs(near - moment) < Math.abs(nearest - moment)) nearest = near;\n\
\x20 });\n\
\x20 return nearest;\n\
}\n";
