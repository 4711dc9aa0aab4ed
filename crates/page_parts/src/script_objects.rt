//! The script `objects.js`.
//!
//! Made by `tools/embed_page` of the files of `page/`: change those.

/// The text.
pub const SCRIPT_OBJECTS: &str = "\
\"use strict\";\n\
// The panels that are there at each moment: where objects are told no more, the roots, what is reached, objects by shape.\n\
\n\
// Says that objects are told no more at a moment, and leads to the last one at which they are; nothing where they are told.\n\
function aboutTold(life, view, show) {\n\
\x20 const last = lastTold(life);\n\
\x20 if (last === null || view.moment <= last) return null;\n\
\x20 const said = `Objects are told up to event ${grouped(life.moments[last].event)}: from there on this file has regions alone. `;\
\n\
\x20 const button = make(\"button\", { type: \"button\", onclick: () => show(last) }, \"To the last moment with objects\");\n\
\x20 return make(\"p\", { class: \"note\" }, said, button);\n\
}\n\
\n\
// A button that leads to the object of a place `{ address, name }`, or to its region where the object isn't told. `called` is h\
ow the place\n\
// is called, `word` the same in short.\n\
function leadButton(life, view, place, { word, called, ...attributes }, choose, open) {\n\
\x20 const region = Math.floor(place.address / life.sizes.words);\n\
\x20 const tile = place.name === null ? null : placesAt(life, view.moment).get(place.name).tile;\n\
\x20 const label = tile === null || labelOf(tile) === null ? \"\" : ` ${labelOf(tile)}`;\n\
\x20 const leads = tile === null ? `${place.address}, region ${region}` : `#${place.name}${label}`;\n\
\x20 return make(\n\
\x20   \"button\",\n\
\x20   {\n\
\x20     class: `root ${tile !== null && view.name === place.name ? \"chosen\" : \"\"}`,\n\
\x20     type: \"button\",\n\
\x20     \"aria-label\": `${called} ${leads}`,\n\
\x20     onclick: () => (tile === null ? open(region) : choose(place.name)),\n\
\x20     ...attributes,\n\
\x20   },\n\
\x20   word === \"\" ? null : make(\"b\", {}, word),\n\
\x20   word === \"\" ? leads : ` ${leads}`,\n\
\x20 );\n\
}\n\
\n\
// A root as a button.\n\
function rootButton(life, view, root, choose, open) {\n\
\x20 const { sizes } = life;\n\
\x20 const at = root.place - sizes.globals;\n\
\x20 const word = at < 0 ? `g${root.place}` : `r${at % sizes.registers}`;\n\
\x20 const called = `${rootName(life, root.place)} leads to`;\n\
\x20 return leadButton(life, view, root, { word, called, \"data-place\": root.place, \"data-stop\": `root ${root.place}` }, choose\
, open);\n\
}\n\
\n\
// Lines of buttons, one for each mutator that has some, with its head.\n\
function linesOfMutators(buttons, head) {\n\
\x20 return [...buttons].map(([mutator, own]) => make(\"div\", { class: \"roots\" }, make(\"span\", { class: \"whose\" }, head(muta\
tor)), own));\n\
}\n\
\n\
// The panel of globals and of each mutator's registers.\n\
function aboutRoots(life, view, choose, open) {\n\
\x20 const { globals, registers, mutators } = life.sizes;\n\
\x20 const groups = new Map();\n\
\x20 const roots = rootsAt(life, view.moment);\n\
\x20 for (const root of roots) {\n\
\x20   const mutator = root.place < globals ? -1 : Math.floor((root.place - globals) / registers);\n\
\x20   if (!groups.has(mutator)) groups.set(mutator, []);\n\
\x20   groups.get(mutator).push(rootButton(life, view, root, choose, open));\n\
\x20 }\n\
\x20 const lines = linesOfMutators(groups, (mutator) => (mutator < 0 ? \"Globals\" : mutators > 1 ? `Mutator ${mutator}` : \"Regist\
ers\"));\n\
\x20 const all = globals + mutators * registers;\n\
\x20 const rest = roots.length >= MOST_ROOTS ? `The first ${MOST_ROOTS} that aren't nil; the file has no more.`\n\
\x20   : roots.length ? `The other ${grouped(all - roots.length)} are nil.` : `All ${grouped(all)} are nil.`;\n\
\x20 return make(\"div\", { class: \"card\" }, make(\"h3\", {}, \"Registers and globals\"), lines, make(\"p\", { class: \"rest\" }\
, rest));\n\
}\n\
\n\
// The panel of the deletion logs; nothing where no marking runs.\n\
function aboutDeletions(life, view, choose, open) {\n\
\x20 if (!life.moments[view.moment].marking) return null;\n\
\x20 const groups = new Map();\n\
\x20 for (const logged of deletionsAt(life, view.moment)) {\n\
\x20   const { mutator } = logged;\n\
\x20   if (!groups.has(mutator)) groups.set(mutator, []);\n\
\x20   const own = groups.get(mutator);\n\
\x20   const called = `The deletion log of mutator ${mutator} has`;\n\
\x20   const stop = `deletion ${mutator} ${own.length}`;\n\
\x20   own.push(leadButton(life, view, logged, { word: \"\", called, \"data-log\": mutator, \"data-stop\": stop }, choose, open));\
\n\
\x20 }\n\
\x20 const lines = linesOfMutators(groups, (mutator) => `Mutator ${mutator}`);\n\
\x20 const taken = \"Marking takes a log once it is full, and all of them at its end.\";\n\
\x20 const rest = groups.size ? `What was overwritten, or read from a weak slot. ${taken}` : `Each is empty. ${taken}`;\n\
\x20 return make(\"div\", { class: \"card marking\" }, make(\"h3\", {}, \"Deletion logs\"), lines, make(\"p\", { class: \"rest\" }\
, rest));\n\
}\n\
\n\
// A count with its words.\n\
function countCells(of) {\n\
\x20 return [make(\"td\", { class: \"number\" }, grouped(of.objects)), make(\"td\", { class: \"number\" }, grouped(of.words))];\n\
}\n\
\n\
function shapeLine(line) {\n\
\x20 const [pointers, weaks, values] = line.shape;\n\
\x20 const shape = `${pointers} / ${weaks} / ${values}`;\n\
\x20 const lost = line.lost.objects ? grouped(line.lost.words) : \"\";\n\
\x20 const dead = line.dead.objects ? grouped(line.dead.words) : \"\";\n\
\x20 return make(\n\
\x20   \"tr\",\n\
\x20   { \"data-shape\": line.label === null ? line.shape.join(\" \") : line.label },\n\
\x20   make(\"th\", { scope: \"row\" }, line.label === null ? shape : line.label),\n\
\x20   countCells(line.all),\n\
\x20   make(\"td\", { class: \"number\" }, lost),\n\
\x20   make(\"td\", { class: \"number\" }, dead),\n\
\x20 );\n\
}\n\
\n\
// What no root reaches now, beside what the last marking found dead.\n\
function aboutReached(life, moment, total) {\n\
\x20 const { why } = reachedAt(life, moment);\n\
\x20 const so = why.length ? \"at most \" : \"\";\n\
\x20 const lost = `Not reached from the roots now: ${so}${plural(total.lost.objects, \"object\")}, ${plural(total.lost.words, \"wor\
d\")}.`;\n\
\x20 const dead = `Dead by the last marking: ${plural(total.dead.objects, \"object\")}, ${plural(total.dead.words, \"word\")}.`;\n\
\x20 const lines = [make(\"p\", { id: \"lost\", \"data-objects\": total.lost.objects, \"data-words\": total.lost.words }, lost), ma\
ke(\"p\", {}, dead)];\n\
\x20 if (why.length) lines.push(make(\"p\", { class: \"rest\" }, `More may be reached: ${why.join(\"; \")}.`));\n\
\x20 return lines;\n\
}\n\
\n\
// The panel of the objects of a moment, by shape; nothing where none is told.\n\
function aboutObjects(life, view) {\n\
\x20 const last = lastTold(life);\n\
\x20 if (!life.tells || (last !== null && view.moment > last)) return null;\n\
\x20 const { lines, total } = shapesAt(life, view.moment);\n\
\x20 const told = untoldAt(life, view.moment) ? \"Of the objects that are told: \" : \"\";\n\
\x20 const head = (word, at) => make(\"th\", { scope: \"col\", class: at ? \"number\" : \"\" }, word);\n\
\x20 const heads = [\"shape\", \"objects\", \"words\", \"not reached\", \"dead\"].map(head);\n\
\x20 const table = make(\n\
\x20   \"table\",\n\
\x20   {},\n\
\x20   make(\"thead\", {}, make(\"tr\", {}, heads)),\n\
\x20   make(\"tbody\", {}, lines.map(shapeLine)),\n\
\x20 );\n\
\x20 return make(\n\
\x20   \"div\",\n\
\x20   { class: \"card\" },\n\
\x20   make(\"h3\", {}, `${told}${plural(total.all.objects, \"object\")}, ${plural(total.all.words, \"word\")}`),\n\
\x20   aboutReached(life, view.moment, total),\n\
\x20   lines.length ? make(\"div\", { class: \"scroll\", tabindex: 0, role: \"region\", \"aria-label\": \"Objects by shape\" }, tab\
le) : null,\n\
\x20   lines.length ? make(\"p\", { class: \"rest\" }, \"A shape: pointers / weak slots / data words. The last two columns are word\
s.\") : null,\n\
\x20 );\n\
}\n";
