//! The script `runs.js`.
//!
//! Made by `tools/embed_page` of the files of `page/`: change those.

/// The text.
pub const SCRIPT_RUNS: &str = "\
\"use strict\";\n\
// Runs that move, in pages of the third format alone, since those of the first two stay as they were: a compaction that evacuat\
es no region\n\
// moves the object of a run down. That is shown as one object, at its old place and at its new one.\n\
\n\
// The run that a compaction moved: the regions that it began and begins with, how many it has, its words, its object's name whe\
re that is\n\
// told. No other step makes a run begin where a region was free.\n\
const MOVED_RUN = new Kept((life, moment) => {\n\
\x20 const step = collectorStepAt(life, moment);\n\
\x20 if (!step || step.verb !== \"compact\") return null;\n\
\x20 const kindOf = (region, at) => rowAt(life, region, at).kind;\n\
\x20 const first = life.rows.findIndex((_, region) => kindOf(region, moment) === \"h\" && kindOf(region, moment - 1) === \"f\");\n\
\x20 if (first < 0) return null;\n\
\x20 let from = first;\n\
\x20 while (kindOf(from, moment - 1) === \"f\") from += 1;\n\
\x20 const { tiles } = rowAt(life, first, moment);\n\
\x20 const [count, words] = step.reply.split(\" \").slice(1).map(Number);\n\
\x20 return { from, to: first, count, words, name: tiles ? tiles[0].name : null };\n\
});\n\
\n\
// Frames the regions of a run so far outside, as one where they are in one row.\n\
function frameRun(lanes, first, count, outside, style) {\n\
\x20 const { layout } = lanes;\n\
\x20 const rows = new Map();\n\
\x20 for (let region = first; region < first + count; region += 1) {\n\
\x20   const { x, y } = layout.place(region);\n\
\x20   rows.set(y, { from: rows.has(y) ? rows.get(y).from : x, to: x + layout.wide });\n\
\x20 }\n\
\x20 for (const [y, { from, to }] of rows) {\n\
\x20   const size = { width: to - from + 2 * outside, height: layout.tall + 2 * outside };\n\
\x20   shape(\"rect\", { class: \"evacuated\", style, x: from - outside, y: y - outside, ...size, rx: 4 }, lanes.over);\n\
\x20 }\n\
}\n\
\n\
// What a region that a run left had of it, pale.\n\
function drawLeft(lanes, view, region) {\n\
\x20 const { life, layout } = lanes;\n\
\x20 const { x, y } = layout.place(region);\n\
\x20 const ghost = shape(\"g\", { class: \"ghost\", transform: `translate(${x} ${y})` }, lanes.over);\n\
\x20 const shares = sharesAt(life, region, view.moment - 1);\n\
\x20 for (const part of PARTS) {\n\
\x20   if (shares[part]) drawPart(ghost, part, 0, shares[part] * layout.perWord, layout.tall);\n\
\x20 }\n\
}\n\
\n\
// The old place of a run in a broken frame, pale where it is free now, the new one in a whole frame, and an arrow between them.\
\n\
function drawMovedRun(lanes, view, run) {\n\
\x20 const { from, to, count } = run;\n\
\x20 for (let region = Math.max(from, to + count); region < from + count; region += 1) drawLeft(lanes, view, region);\n\
\x20 frameRun(lanes, from, count, lanes.layout.head ? 5 : 3, \"\");\n\
\x20 frameRun(lanes, to, count, 1, \"stroke-dasharray:none\");\n\
\x20 const word = lanes.life.sizes.words / 4;\n\
\x20 drawArrow(lanes.over, lanes.point(from, word, \"middle\"), lanes.point(to, word, \"middle\"), \"copy\");\n\
}\n\
\n\
const drawOtherStep = drawStep;\n\
drawStep = (lanes, view) => {\n\
\x20 const run = MOVED_RUN.at(lanes.life, view.moment);\n\
\x20 if (run) drawMovedRun(lanes, view, run);\n\
\x20 else drawOtherStep(lanes, view);\n\
};\n\
\n\
// What a compaction that moved a run did.\n\
function aboutMovedRun(life, moment, run) {\n\
\x20 const { from, to, count, words, name } = run;\n\
\x20 const place = (first) => (count === 1 ? `region ${first}` : `regions ${first} to ${first + count - 1}`);\n\
\x20 const own = name === null ? \"The object of a run\" : `#${name}, the object of a run,`;\n\
\x20 const freed = reclaimedAt(life, moment);\n\
\x20 const [before, after] = [dirtyAt(life, moment - 1), dirtyAt(life, moment)];\n\
\x20 const { cards, sources } = rowAt(life, from, moment - 1);\n\
\x20 const all = sources.length ? `, and all of ${listOf(sources)}` : \"\";\n\
\x20 const items = [\n\
\x20   `${own} moved as one: ${plural(words, \"word\")} from ${place(from)} to ${place(to)}.`,\n\
\x20   `Free now: ${regionsOf(freed)}.`,\n\
\x20   before.length ? `Dirty cards that it refined first: ${listOf(before)}.` : \"No card was dirty before.\",\n\
\x20 ];\n\
\x20 if (cards.length) items.push(`Cards that its first region's set covered: ${listOf(cards)}${all}.`);\n\
\x20 items.push(after.length ? `Dirty after it: ${listOf(after)}.` : \"No card is dirty after it.\");\n\
\x20 return { style: \"pause\", items };\n\
}\n\
\n\
const aboutOtherPause = aboutPause;\n\
aboutPause = (life, moment) => {\n\
\x20 const run = MOVED_RUN.at(life, moment);\n\
\x20 return run ? aboutMovedRun(life, moment, run) : aboutOtherPause(life, moment);\n\
};\n\
\n\
const otherMarks = markItems;\n\
markItems = () => {\n\
\x20 const frame = { class: \"evacuated\", style: \"stroke-dasharray:none\", x: 2, y: 2, width: 22, height: 14 };\n\
\x20 return [...otherMarks(), legendItem((svg) => shape(\"rect\", frame, svg), \"where a compaction moved a run; it was in a broke\
n frame\")];\n\
};\n";
