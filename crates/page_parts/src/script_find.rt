//! The script `find.js`.
//!
//! Made by `tools/embed_page` of the files of `page/`: change those.

/// The text.
pub const SCRIPT_FIND: &str = "\
\"use strict\";\n\
// What leads to a moment or an object by words: the page's address, and the field.\n\
\n\
// The event that the address names, or null.\n\
function eventOfAddress() {\n\
\x20 const found = /^#(\\d{1,15})$/.exec(window.location.hash);\n\
\x20 return found ? Number(found[1]) : null;\n\
}\n\
\n\
// Puts the moment's event into the address a while after the last move: browsers refuse many changes in a row.\n\
let addressTimer = null;\n\
function putAddress(event) {\n\
\x20 clearTimeout(addressTimer);\n\
\x20 addressTimer = setTimeout(() => {\n\
\x20   if (eventOfAddress() === event) return;\n\
\x20   try {\n\
\x20     window.history.replaceState(null, \"\", `#${event}`);\n\
\x20   } catch (refused) {\n\
\x20     window.location.hash = event;\n\
\x20   }\n\
\x20 }, 200);\n\
}\n\
\n\
// The last moment that isn't after an event.\n\
function momentOfEvent(life, event) {\n\
\x20 let low = 0;\n\
\x20 let high = life.moments.length;\n\
\x20 while (low < high) {\n\
\x20   const middle = (low + high) >> 1;\n\
\x20   if (life.moments[middle].event <= event) low = middle + 1;\n\
\x20   else high = middle;\n\
\x20 }\n\
\x20 return Math.max(0, low - 1);\n\
}\n\
\n\
// The place of a root by its words, `g3`, `r0`, or `1 r0` of a mutator, or null where there is no such root.\n\
function rootOfWords(life, words) {\n\
\x20 const { globals, registers, mutators } = life.sizes;\n\
\x20 const found = /^(?:(\\d+)\\s+)?([gr])(\\d+)$/.exec(words);\n\
\x20 if (!found) return null;\n\
\x20 const [, mutator, kind, number] = [...found.slice(0, 3), Number(found[3])];\n\
\x20 if (kind === \"g\") return mutator === undefined && number < globals ? number : null;\n\
\x20 const whose = Number(mutator || 0);\n\
\x20 return whose < mutators && number < registers ? globals + whose * registers + number : null;\n\
}\n\
\n\
// What a reader asks for: `{ moment, name, said }`, the moment and the name null where they stay; `{ said }` where there is no \
such thing.\n\
function findWords(life, words, moment) {\n\
\x20 const wanted = words.trim().toLowerCase();\n\
\x20 const name = /^#\\s*(\\d+)$/.exec(wanted);\n\
\x20 if (name) return findName(life, name[1].replace(/^0+(?=\\d)/, \"\"), moment);\n\
\x20 const event = /^(?:event\\s+)?(\\d{1,15})$/.exec(wanted);\n\
\x20 if (event) return findEvent(life, Number(event[1]));\n\
\x20 const place = rootOfWords(life, wanted);\n\
\x20 if (place === null) return { said: `\"${words.trim()}\" is no event (12), no name (#12) and no root (r0, g0).` };\n\
\x20 const root = rootsAt(life, moment).find((each) => each.place === place);\n\
\x20 if (!root) return { said: `${rootName(life, place)} is nil at this moment.` };\n\
\x20 if (root.name === null) return { said: `${rootName(life, place)} leads to ${root.address}; its object isn't in this file.` };\
\n\
\x20 return { moment: null, name: root.name, said: `${rootName(life, place)} leads to #${root.name}.` };\n\
}\n\
\n\
function findEvent(life, event) {\n\
\x20 const moment = momentOfEvent(life, event);\n\
\x20 const found = life.moments[moment].event;\n\
\x20 const said = event > life.eventCount ? `There are ${plural(life.eventCount, \"event\")}: this is the last moment.`\n\
\x20   : found === event ? `After event ${grouped(event)}.`\n\
\x20     : `No moment is told after event ${grouped(event)}: this is the one after event ${grouped(found)}.`;\n\
\x20 return { moment, name: null, said };\n\
}\n\
\n\
function findName(life, name, moment) {\n\
\x20 if (placesAt(life, moment).has(name)) return { moment: null, name, said: `#${name} is open below.` };\n\
\x20 if (!life.tells) return { said: \"Objects aren't told one by one in this file.\" };\n\
\x20 const nearest = nearestWith(life, name, moment);\n\
\x20 if (nearest === null) return { said: `#${name} is at none of the moments in this file.` };\n\
\x20 return { moment: nearest, name, said: `#${name} isn't there at that moment: this is the nearest one that has it.` };\n\
}\n";
