//! The script `reach.js`.
//!
//! Made by `tools/embed_page` of the files of `page/`: change those.

/// The text.
pub const SCRIPT_REACH: &str = "\
\"use strict\";\n\
// What roots reach at a moment, how objects count by shape, and the names that are given to shapes. All of it is worked out her\
e, of\n\
// the objects that the file tells; where the file leaves something out, that is said.\n\
\n\
const MOST_ROOTS = 64;\n\
\n\
// Places with the name of the object at each one's address, null where none is told there.\n\
function withNames(life, moment, places) {\n\
\x20 const names = new Map();\n\
\x20 for (const [name, { address }] of placesAt(life, moment)) names.set(address, name);\n\
\x20 return places.map((place) => ({ ...place, name: names.has(place.address) ? names.get(place.address) : null }));\n\
}\n\
\n\
// The objects that roots name: `[{ place, address, name }]`, the name null where no object is told at the address.\n\
function rootsAt(life, moment) {\n\
\x20 return withNames(life, moment, life.moments[moment].roots);\n\
}\n\
\n\
// The objects in the deletion logs, each as often as it is there: `[{ mutator, address, name }]`.\n\
function deletionsAt(life, moment) {\n\
\x20 const logged = life.moments[moment].deletions.flatMap(({ mutator, addresses }) => addresses.map((address) => ({ mutator, addre\
ss })));\n\
\x20 return withNames(life, moment, logged);\n\
}\n\
\n\
// How many regions have objects that aren't told at a moment.\n\
function untoldAt(life, moment) {\n\
\x20 let untold = 0;\n\
\x20 for (let region = 0; region < life.sizes.regions; region += 1) untold += tellsObjects(life, region, moment) ? 0 : 1;\n\
\x20 return untold;\n\
}\n\
\n\
// What keeps the file from telling all that is reached, in words, or nothing.\n\
function unsureAt(life, moment, reached) {\n\
\x20 const why = [];\n\
\x20 const places = placesAt(life, moment);\n\
\x20 if (life.moments[moment].roots.length >= MOST_ROOTS) why.push(`of the roots the first ${MOST_ROOTS} are in the file`);\n\
\x20 const long = [...reached.keys()].filter((name) => places.get(name).tile.pointers.more).length;\n\
\x20 if (long) why.push(`${plural(long, \"reached object has\", \"reached objects have\")} pointers that aren't in the file`);\n\
\x20 const untold = untoldAt(life, moment);\n\
\x20 if (untold) why.push(`the objects of ${plural(untold, \"region\")} aren't in the file`);\n\
\x20 return why;\n\
}\n\
\n\
const REACHED = new Kept((life, moment) => {\n\
\x20 const places = placesAt(life, moment);\n\
\x20 const reached = new Map();\n\
\x20 const order = [];\n\
\x20 const find = (name, by) => {\n\
\x20   if (!places.has(name) || reached.has(name)) return;\n\
\x20   reached.set(name, by);\n\
\x20   order.push(name);\n\
\x20 };\n\
\x20 for (const { place, name } of rootsAt(life, moment)) if (name !== null) find(name, { root: place });\n\
\x20 for (let at = 0; at < order.length; at += 1) {\n\
\x20   for (const field of places.get(order[at]).tile.pointers.told) find(field, { name: order[at] });\n\
\x20 }\n\
\x20 return { reached, why: unsureAt(life, moment, reached) };\n\
});\n\
\n\
// What is reached from the roots by pointers, weak slots left out: `reached` leads from each name to what names it, a root or a\
n object\n\
// that is reached in fewer steps; `why` says what the file leaves out, so that more may be reached than is seen.\n\
function reachedAt(life, moment) {\n\
\x20 return REACHED.at(life, moment);\n\
}\n\
\n\
// How an object is reached: a root's place, then names, the object's own last; or null where it isn't.\n\
function pathTo(life, moment, name) {\n\
\x20 const { reached } = reachedAt(life, moment);\n\
\x20 if (!reached.has(name)) return null;\n\
\x20 const names = [name];\n\
\x20 let by = reached.get(name);\n\
\x20 while (by.name !== undefined) {\n\
\x20   names.unshift(by.name);\n\
\x20   by = reached.get(by.name);\n\
\x20 }\n\
\x20 return { root: by.root, names };\n\
}\n\
\n\
// The objects whose fields name an object at a moment: `[{ name, weak }]`.\n\
function namedBy(life, moment, name) {\n\
\x20 const found = [];\n\
\x20 for (const [other, { tile }] of placesAt(life, moment)) {\n\
\x20   if (tile.pointers.told.includes(name)) found.push({ name: other, weak: false });\n\
\x20   else if (tile.weaks.told.includes(name)) found.push({ name: other, weak: true });\n\
\x20 }\n\
\x20 return found;\n\
}\n\
\n\
// ---- names for shapes\n\
\n\
// The rules that the page or its reader has given, in their order: `{ shape: [pointers, weak slots, data words], word, label }`\
, null where any fits.\n\
let rules = [];\n\
// How often rules were given, so that a lane sees whether names changed.\n\
let rulesGiven = 0;\n\
\n\
// Reads rules, one a line: pointers, weak slots, data words, the first data word, the name. `*` is any; what follows # is a com\
ment.\n\
function readNames(text) {\n\
\x20 const read = [];\n\
\x20 const faults = [];\n\
\x20 text.split(\"\\n\").forEach((line, number) => {\n\
\x20   const words = line.replace(/#.*/, \"\").trim().split(/\\s+/).filter((word) => word);\n\
\x20   if (!words.length) return;\n\
\x20   const numbers = words.slice(0, 4);\n\
\x20   if (words.length < 5 || !numbers.every((word) => word === \"*\" || /^\\d+$/.test(word))) {\n\
\x20     faults.push(number + 1);\n\
\x20     return;\n\
\x20   }\n\
\x20   const told = numbers.map((word) => (word === \"*\" ? null : word.replace(/^0+(?=\\d)/, \"\")));\n\
\x20   read.push({ shape: told.slice(0, 3), word: told[3], label: words.slice(4).join(\" \") });\n\
\x20 });\n\
\x20 return { rules: read, faults };\n\
}\n\
\n\
function setNames(read) {\n\
\x20 rules = read;\n\
\x20 rulesGiven += 1;\n\
}\n\
\n\
// How many fields of each kind an object has, as texts.\n\
function shapeOf(tile) {\n\
\x20 return [tile.pointers.count, tile.weaks.count, tile.values.count].map(String);\n\
}\n\
\n\
// The name that the first rule that fits gives to an object, or null.\n\
function labelOf(tile) {\n\
\x20 if (!rules.length || tile.name === undefined) return null;\n\
\x20 const shape = shapeOf(tile);\n\
\x20 const fits = (rule) => rule.shape.every((count, kind) => count === null || count === shape[kind])\n\
\x20   && (rule.word === null || rule.word === tile.values.told[0]);\n\
\x20 const rule = rules.find(fits);\n\
\x20 return rule ? rule.label : null;\n\
}\n\
\n\
// ---- objects by shape\n\
\n\
const NO_COUNT = { objects: 0, words: 0 };\n\
\n\
function count(counts, key, words) {\n\
\x20 const found = counts[key] || NO_COUNT;\n\
\x20 counts[key] = { objects: found.objects + 1, words: found.words + words };\n\
}\n\
\n\
// Objects and words of each shape, or of each name that a rule gives, most words first: all, not reached now, dead by the last \
marking.\n\
function shapesAt(life, moment) {\n\
\x20 const { reached } = reachedAt(life, moment);\n\
\x20 const lines = new Map();\n\
\x20 const total = { all: NO_COUNT, lost: NO_COUNT, dead: NO_COUNT };\n\
\x20 for (const [name, { tile }] of placesAt(life, moment)) {\n\
\x20   const label = labelOf(tile);\n\
\x20   const key = label === null ? shapeOf(tile).join(\" \") : `=${label}`;\n\
\x20   if (!lines.has(key)) lines.set(key, { label, shape: shapeOf(tile), all: NO_COUNT, lost: NO_COUNT, dead: NO_COUNT });\n\
\x20   for (const counts of [lines.get(key), total]) {\n\
\x20     count(counts, \"all\", tile.size);\n\
\x20     if (!reached.has(name)) count(counts, \"lost\", tile.size);\n\
\x20     if (tile.part === \"dead\") count(counts, \"dead\", tile.size);\n\
\x20   }\n\
\x20 }\n\
\x20 return { lines: [...lines.values()].sort((a, b) => b.all.words - a.all.words), total };\n\
}\n";
