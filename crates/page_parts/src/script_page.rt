//! The script `page.js`.
//!
//! Made by `tools/embed_page` of the files of `page/`: change those.

/// The text.
pub const SCRIPT_PAGE: &str = "\
\"use strict\";\n\
// The page: what is shown, and the keys and buttons that change it.\n\
\n\
const life = readLife(document.getElementById(\"record\").textContent, document.getElementById(\"life\").textContent);\n\
const at = (id) => document.getElementById(id);\n\
const view = { moment: 0, region: null, name: null, tiles: false, fresh: [] };\n\
const SPEEDS = [1600, 900, 500, 250, 120, 50];\n\
let speed = 2;\n\
let timer = null;\n\
\n\
// ---- the lists of moments\n\
\n\
// The moments that a collector's step led to.\n\
const collectorMoments = life.moments.map((_, moment) => moment).filter((moment) => collectorStepAt(life, moment));\n\
const fullest = fullestMoment(life);\n\
\n\
// ---- drawing\n\
\n\
let lanes;\n\
let steps;\n\
let moveCurves;\n\
\n\
// What Tab reaches in the panels that are made anew for each moment.\n\
const PANELS = \"#told, #what, #object, #region, #roots, #objects\";\n\
const STOPS = \"button, [tabindex]\";\n\
\n\
// Where the focus is: an element, or of a panel the key of a stop and its place among the stops.\n\
function stopOf(element) {\n\
\x20 const panel = element.closest(PANELS);\n\
\x20 if (!panel) return { element };\n\
\x20 return { panel, place: [...panel.querySelectorAll(STOPS)].indexOf(element), key: element.dataset.stop };\n\
}\n\
\n\
function focusStop(stop) {\n\
\x20 let { element } = stop;\n\
\x20 if (stop.panel) {\n\
\x20   const stops = [...stop.panel.querySelectorAll(STOPS)];\n\
\x20   const same = stops.find((each) => stop.key !== undefined && each.dataset.stop === stop.key);\n\
\x20   element = same || stops[Math.min(stop.place, stops.length - 1)];\n\
\x20 }\n\
\x20 if (element && element.isConnected) element.focus({ preventScroll: true });\n\
}\n\
\n\
// Draws by a function, and gives the focus back to what is where it was.\n\
function keepFocus(drawIt) {\n\
\x20 const stop = stopOf(document.activeElement || document.body);\n\
\x20 drawIt();\n\
\x20 if (stop.panel && document.activeElement === document.body) focusStop(stop);\n\
}\n\
\n\
function describeMoment() {\n\
\x20 const found = life.moments[view.moment];\n\
\x20 const event = eventOf(life, view.moment);\n\
\x20 const now = at(\"now\");\n\
\x20 const link = make(\"a\", { id: \"link\", href: `#${found.event}`, title: \"The address of this moment\" }, `event ${grouped(fo\
und.event)}`);\n\
\x20 const rest = [` of ${grouped(life.eventCount)}`];\n\
\x20 if (view.moment === fullest) rest.push(\", the fullest moment\");\n\
\x20 if (found.marking) rest.push(\", marking runs\");\n\
\x20 const focused = document.activeElement && document.activeElement.id === \"link\";\n\
\x20 now.replaceChildren(\"After \", link, rest.join(\"\"), event ? \": \" : \".\");\n\
\x20 if (event) now.append(make(\"code\", {}, `${event.step} = ${event.reply}`));\n\
\x20 if (focused) link.focus({ preventScroll: true });\n\
}\n\
\n\
// Tells the style how high the head is, so that the curves and the steps fill the rest of the window.\n\
function fitSide() {\n\
\x20 document.documentElement.style.setProperty(\"--head\", `${at(\"side\").parentElement.offsetTop}px`);\n\
}\n\
\n\
function fill(id, ...panels) {\n\
\x20 at(id).replaceChildren(...panels.filter((panel) => panel !== null));\n\
}\n\
\n\
function drawPanels() {\n\
\x20 fill(\"told\", aboutTold(life, view, show));\n\
\x20 fill(\"what\", aboutStep(life, view.moment));\n\
\x20 fill(\"object\", view.name === null ? null : aboutObject(life, view, show, () => chooseName(null), chooseName));\n\
\x20 fill(\"region\", view.region === null ? null : aboutRegion(life, view, chooseName, () => openRegion(null)));\n\
\x20 fill(\"roots\", aboutRoots(life, view, chooseName, openRegion), aboutDeletions(life, view, chooseName, openRegion));\n\
\x20 fill(\"objects\", aboutObjects(life, view));\n\
}\n\
\n\
function draw() {\n\
\x20 const step = collectorStepAt(life, view.moment);\n\
\x20 view.fresh = step && movesObjects(step) ? dirtyAt(life, view.moment) : [];\n\
\x20 lanes.draw(view);\n\
\x20 moveCurves(view.moment);\n\
\x20 describeMoment();\n\
\x20 fitSide();\n\
\x20 steps.draw(life.moments[view.moment].event);\n\
\x20 keepFocus(drawPanels);\n\
\x20 at(\"slider\").value = view.moment;\n\
\x20 at(\"slider\").setAttribute(\"aria-valuetext\", `after event ${life.moments[view.moment].event}`);\n\
\x20 document.body.setAttribute(\"data-moment\", view.moment);\n\
\x20 document.body.setAttribute(\"data-event\", life.moments[view.moment].event);\n\
\x20 putAddress(life.moments[view.moment].event);\n\
}\n\
\n\
function show(moment) {\n\
\x20 view.moment = Math.max(0, Math.min(life.moments.length - 1, moment));\n\
\x20 draw();\n\
}\n\
\n\
// ---- opening and closing\n\
\n\
// Where the focus was before an object's panel took it.\n\
let opener = null;\n\
\n\
function openRegion(region) {\n\
\x20 view.region = view.region === region ? null : region;\n\
\x20 draw();\n\
}\n\
\n\
// Opens an object's panel, whose head takes the focus, or closes it, and gives the focus back.\n\
function chooseName(name) {\n\
\x20 const opened = name !== null && view.name !== name;\n\
\x20 const active = document.activeElement || document.body;\n\
\x20 if (opened && !active.closest(\"#object\")) opener = stopOf(active);\n\
\x20 view.name = opened ? name : null;\n\
\x20 const place = opened ? placesAt(life, view.moment).get(name) : null;\n\
\x20 if (place) view.region = place.region;\n\
\x20 draw();\n\
\x20 if (opened) {\n\
\x20   at(\"object\").scrollIntoView({ block: \"nearest\" });\n\
\x20   at(\"object\").querySelector(\"h3\").focus({ preventScroll: true });\n\
\x20 } else if (opener) {\n\
\x20   focusStop(opener);\n\
\x20   opener = null;\n\
\x20 }\n\
}\n\
\n\
// Does what the field asks for, and says what came of it.\n\
function find(words) {\n\
\x20 const found = findWords(life, words, view.moment);\n\
\x20 if (found.moment !== undefined && found.moment !== null) show(found.moment);\n\
\x20 if (found.name && view.name !== found.name) chooseName(found.name);\n\
\x20 else if (found.name) at(\"object\").querySelector(\"h3\").focus();\n\
\x20 at(\"answer\").textContent = found.said;\n\
\x20 if (document.activeElement === at(\"wanted\")) at(\"wanted\").select();\n\
}\n\
\n\
// ---- moving\n\
\n\
function toCollector(by) {\n\
\x20 const found = by > 0\n\
\x20   ? collectorMoments.find((moment) => moment > view.moment)\n\
\x20   : collectorMoments.findLast((moment) => moment < view.moment);\n\
\x20 show(found === undefined ? (by > 0 ? life.moments.length - 1 : 0) : found);\n\
}\n\
\n\
// What the button that plays says and shows.\n\
function drawPlay(label, path) {\n\
\x20 at(\"play\").setAttribute(\"aria-label\", label);\n\
\x20 at(\"play\").setAttribute(\"title\", `${label} (Space)`);\n\
\x20 at(\"play\").querySelector(\"path\").setAttribute(\"d\", path);\n\
}\n\
\n\
function pausePlay() {\n\
\x20 clearInterval(timer);\n\
\x20 timer = null;\n\
\x20 drawPlay(\"Play\", \"M6 4l14 8-14 8z\");\n\
}\n\
\n\
function startPlay() {\n\
\x20 if (view.moment === life.moments.length - 1) show(0);\n\
\x20 timer = setInterval(() => {\n\
\x20   if (view.moment === life.moments.length - 1) pausePlay();\n\
\x20   else show(view.moment + 1);\n\
\x20 }, SPEEDS[speed]);\n\
\x20 drawPlay(\"Pause\", \"M7 4v16M17 4v16\");\n\
}\n\
\n\
function togglePlay() {\n\
\x20 if (timer === null) startPlay();\n\
\x20 else pausePlay();\n\
}\n\
\n\
function changeSpeed(by) {\n\
\x20 speed = Math.max(0, Math.min(SPEEDS.length - 1, speed + by));\n\
\x20 if (timer === null) return;\n\
\x20 pausePlay();\n\
\x20 startPlay();\n\
}\n\
\n\
// ---- tiles, theme, keys\n\
\n\
function setTiles(tiles) {\n\
\x20 view.tiles = tiles && life.tells;\n\
\x20 at(\"kind\").textContent = view.tiles ? \"Shares\" : \"Tiles\";\n\
\x20 at(\"kind\").hidden = !life.tells;\n\
\x20 draw();\n\
}\n\
\n\
function setTheme(dark) {\n\
\x20 document.documentElement.setAttribute(\"data-theme\", dark ? \"dark\" : \"light\");\n\
\x20 at(\"theme\").textContent = dark ? \"Light\" : \"Dark\";\n\
}\n\
\n\
function toggleTheme() {\n\
\x20 setTheme(document.documentElement.getAttribute(\"data-theme\") !== \"dark\");\n\
}\n\
\n\
function toggleHelp() {\n\
\x20 const hidden = !at(\"keys\").hidden;\n\
\x20 at(\"keys\").hidden = hidden;\n\
\x20 at(\"help\").setAttribute(\"aria-expanded\", String(!hidden));\n\
}\n\
\n\
function closeAll() {\n\
\x20 view.region = null;\n\
\x20 at(\"keys\").hidden = true;\n\
\x20 at(\"help\").setAttribute(\"aria-expanded\", \"false\");\n\
\x20 at(\"answer\").textContent = \"\";\n\
\x20 chooseName(null);\n\
}\n\
\n\
// Moves by a share of the events.\n\
function showShare(share) {\n\
\x20 const event = life.moments[view.moment].event + Math.trunc(Math.max(1, Math.abs(share) * life.eventCount)) * Math.sign(share);\
\n\
\x20 show(momentOfEvent(life, Math.max(0, event)));\n\
}\n\
\n\
const KEYS = {\n\
\x20 ArrowLeft: (shift) => (shift ? toCollector(-1) : show(view.moment - 1)),\n\
\x20 ArrowRight: (shift) => (shift ? toCollector(1) : show(view.moment + 1)),\n\
\x20 PageUp: () => showShare(-0.05),\n\
\x20 PageDown: () => showShare(0.05),\n\
\x20 Home: () => show(0),\n\
\x20 End: () => show(life.moments.length - 1),\n\
\x20 f: () => show(fullest),\n\
\x20 \"/\": () => at(\"wanted\").select(),\n\
\x20 \" \": togglePlay,\n\
\x20 \"+\": () => changeSpeed(1),\n\
\x20 \"-\": () => changeSpeed(-1),\n\
\x20 t: () => setTiles(!view.tiles),\n\
\x20 d: toggleTheme,\n\
\x20 \"?\": toggleHelp,\n\
\x20 Escape: closeAll,\n\
};\n\
\n\
// Whether keys write into an element, or are its own otherwise.\n\
function ownsKey(target, key) {\n\
\x20 if (target.matches(\"#wanted, textarea\")) return key !== \"Escape\";\n\
\x20 const isPressed = key === \" \" || key === \"Enter\";\n\
\x20 if (target.matches(\"a\")) return key === \"Enter\";\n\
\x20 if (target.matches(\"button, summary, #names-file\")) return isPressed;\n\
\x20 return target.matches(\".scroll\") && [\"ArrowUp\", \"ArrowDown\", \"PageUp\", \"PageDown\"].includes(key);\n\
}\n\
\n\
// A key in a list whose parts arrows reach: the lanes, the steps. Answers whether it did something.\n\
function keyInList(press) {\n\
\x20 const lane = press.target.closest(\".lane\");\n\
\x20 if (lane && !press.shiftKey && lanes.key(press.key)) return true;\n\
\x20 if (lane && (press.key === \"Enter\" || press.key === \" \")) {\n\
\x20   openRegion(Number(lane.dataset.region));\n\
\x20   return true;\n\
\x20 }\n\
\x20 return steps.key(press.key);\n\
}\n\
\n\
function onKey(press) {\n\
\x20 if (press.ctrlKey || press.altKey || press.metaKey) return;\n\
\x20 if (ownsKey(press.target, press.key)) return;\n\
\x20 const act = KEYS[press.key];\n\
\x20 if (press.target.matches(\"#wanted, textarea\")) press.target.blur();\n\
\x20 const done = keyInList(press);\n\
\x20 if (done || act) press.preventDefault();\n\
\x20 if (!done && act) act(press.shiftKey);\n\
}\n\
\n\
// ---- the head of the page, and the legend\n\
\n\
function describeSizes() {\n\
\x20 const { regions, words, mutators, buffer, card } = life.sizes;\n\
\x20 const heap = `${plural(regions, \"region\")} of ${plural(words, \"word\")}, cards of ${card}, buffers of ${buffer}`;\n\
\x20 const run = `${plural(life.eventCount, \"event\")}, ${plural(life.moments.length, \"moment\")}`;\n\
\x20 at(\"sizes\").textContent = `${heap}, ${plural(mutators, \"mutator\")}; ${run}`;\n\
\x20 const { every, stride, small } = life.pace;\n\
\x20 const said = [];\n\
\x20 const which = `${stride > 1 ? `one of ${grouped(stride)} of` : \"each of\"} the collector's steps${small ? \"\" : \" but mark \
and refine\"}`;\n\
\x20 const each = every > 1 ? `a moment each ${grouped(every)} events` : \"a moment after each event\";\n\
\x20 if (!small || stride > 1 || every > 1) said.push(`${each}, and before and after ${which}`);\n\
\x20 const all = grouped(life.eventCount);\n\
\x20 if (life.events.size < life.eventCount) said.push(`${grouped(life.events.size)} of the ${all} steps are in this file`);\n\
\x20 if (!life.tells) said.push(\"objects aren't told one by one\");\n\
\x20 if (lastTold(life) !== null) said.push(`objects are told up to event ${grouped(life.moments[lastTold(life)].event)}`);\n\
\x20 at(\"thinned\").hidden = !said.length;\n\
\x20 at(\"thinned\").textContent = said.length ? `Thinned: ${said.join(\"; \")}.` : \"\";\n\
}\n\
\n\
// The script's file names the life: its path in the heading, the last part of it in the title.\n\
function describeFile() {\n\
\x20 document.title = `${life.file.split(\"/\").pop()}: the life of a heap`;\n\
\x20 at(\"title\").replaceChildren(\"The life of a heap: \", make(\"bdi\", { class: \"file\" }, life.file));\n\
}\n\
\n\
function legendItem(drawIt, text) {\n\
\x20 const svg = shape(\"svg\", { width: 26, height: 18, viewBox: \"0 0 26 18\", \"aria-hidden\": \"true\" });\n\
\x20 drawIt(svg);\n\
\x20 return make(\"li\", {}, svg, text);\n\
}\n\
\n\
// What the regions' drawing is made of.\n\
function partItems() {\n\
\x20 const part = (name) => (svg) => {\n\
\x20   const group = shape(\"g\", { transform: \"translate(1 1)\" }, svg);\n\
\x20   drawPart(group, name, 0, 24, 16);\n\
\x20   shape(\"rect\", { fill: \"none\", stroke: \"var(--edge)\", width: 24, height: 16 }, group);\n\
\x20 };\n\
\x20 const bed = { x: 1, y: 1, width: 24, height: 16, fill: \"var(--sheet)\", stroke: \"var(--line)\" };\n\
\x20 const line = { class: \"lost\", x1: 2, x2: 24, y1: 13, y2: 13 };\n\
\x20 const lost = (svg) => { part(\"new\")(svg); shape(\"line\", line, svg); };\n\
\x20 return [\n\
\x20   ...PARTS.map((name) => legendItem(part(name), PART_WORDS[name])),\n\
\x20   legendItem((svg) => shape(\"rect\", bed, svg), \"free\"),\n\
\x20   ...(life.tells ? [legendItem(lost, NOT_REACHED)] : []),\n\
\x20 ];\n\
}\n\
\n\
// What is drawn over it.\n\
function markItems() {\n\
\x20 const frame = { x: 2, y: 2, width: 22, height: 14 };\n\
\x20 const current = { ...frame, fill: \"none\", stroke: \"var(--ink)\", \"stroke-width\": 2.5 };\n\
\x20 const top = (svg) => {\n\
\x20   shape(\"line\", { class: \"top\", x1: 13, x2: 13, y1: 3, y2: 18 }, svg);\n\
\x20   shape(\"path\", { class: \"top-head\", d: \"M8 0h10l-5 7z\" }, svg);\n\
\x20 };\n\
\x20 const next = (svg) => {\n\
\x20   shape(\"line\", { class: \"top next\", x1: 13, x2: 13, y1: 0, y2: 14 }, svg);\n\
\x20   shape(\"path\", { class: \"top-head next\", d: \"M8 17h10l-5 -7z\" }, svg);\n\
\x20 };\n\
\x20 const dot = (style) => (svg) => shape(\"circle\", { class: `dirty ${style}`, cx: 13, cy: 9, r: 5 }, svg);\n\
\x20 return [\n\
\x20   legendItem((svg) => shape(\"rect\", current, svg), \"current region\"),\n\
\x20   legendItem((svg) => shape(\"rect\", { ...frame, class: \"buffer\" }, svg), \"open buffer\"),\n\
\x20   legendItem(top, \"top at mark start\"),\n\
\x20   legendItem(next, \"the same of the marking that runs\"),\n\
\x20   legendItem((svg) => shape(\"circle\", { class: \"greys\", cx: 13, cy: 9, r: 7 }, svg), \"grey objects\"),\n\
\x20   legendItem(dot(\"queued\"), \"dirty card, queued\"),\n\
\x20   legendItem(dot(\"logged\"), \"in a log\"),\n\
\x20   legendItem(dot(\"fresh\"), \"made dirty by the pause\"),\n\
\x20   legendItem((svg) => shape(\"path\", { class: \"deleted\", d: diamond(13, 9, 6) }, svg), \"object in a deletion log\"),\n\
\x20   legendItem((svg) => shape(\"path\", { class: \"run\", d: \"M2 8v5h22v-5\" }, svg), \"run of one humongous object\"),\n\
\x20   legendItem((svg) => shape(\"rect\", { ...frame, class: \"evacuated\" }, svg), \"evacuated by the pause\"),\n\
\x20   legendItem((svg) => shape(\"rect\", { ...frame, class: \"freed\" }, svg), \"freed by cleanup\"),\n\
\x20 ];\n\
}\n\
\n\
// ---- names for shapes\n\
\n\
// Takes the lines of a text, and answers how many aren't read.\n\
function takeNames(text) {\n\
\x20 const { rules: read, faults } = readNames(text);\n\
\x20 setNames(read);\n\
\x20 const wrong = faults.length ? ` Not read: ${faults.length === 1 ? \"line\" : \"lines\"} ${listOf(faults)}.` : \"\";\n\
\x20 at(\"naming-said\").textContent = read.length || faults.length ? `${plural(read.length, \"line\")} read.${wrong}` : \"\";\n\
\x20 draw();\n\
\x20 return faults.length;\n\
}\n\
\n\
// The names that the page tells are taken as if they were written into the box, which is open where a line isn't read.\n\
function takeTold() {\n\
\x20 if (!life.names) return;\n\
\x20 at(\"names\").value = life.names;\n\
\x20 at(\"naming\").open = takeNames(at(\"names\").value) > 0;\n\
}\n\
\n\
function takeFile() {\n\
\x20 const [file] = at(\"names-file\").files;\n\
\x20 if (!file) return;\n\
\x20 file.text().then((text) => {\n\
\x20   at(\"names\").value = text;\n\
\x20   takeNames(text);\n\
\x20 });\n\
}\n\
\n\
// ---- start\n\
\n\
function build() {\n\
\x20 lanes = new Lanes(life, at(\"lanes\"), openRegion);\n\
\x20 moveCurves = drawCurves(life, at(\"plots\"), (event) => show(momentOfEvent(life, event)));\n\
\x20 if (steps) draw();\n\
}\n\
\n\
// The moment on which the page opens: the one of the address, or the fullest one.\n\
function firstMoment() {\n\
\x20 const event = eventOfAddress();\n\
\x20 return event === null ? fullest : momentOfEvent(life, event);\n\
}\n\
\n\
function listen() {\n\
\x20 at(\"slider\").addEventListener(\"input\", () => show(Number(at(\"slider\").value)));\n\
\x20 const clicks = {\n\
\x20   first: () => show(0), back: () => toCollector(-1), play: togglePlay, on: () => toCollector(1),\n\
\x20   last: () => show(life.moments.length - 1), fullest: () => show(fullest),\n\
\x20   kind: () => setTiles(!view.tiles), theme: toggleTheme, help: toggleHelp,\n\
\x20 };\n\
\x20 for (const [id, act] of Object.entries(clicks)) at(id).addEventListener(\"click\", act);\n\
\x20 document.addEventListener(\"keydown\", onKey);\n\
\x20 at(\"find\").addEventListener(\"submit\", (submit) => {\n\
\x20   submit.preventDefault();\n\
\x20   find(at(\"wanted\").value);\n\
\x20 });\n\
\x20 at(\"names\").addEventListener(\"input\", () => takeNames(at(\"names\").value));\n\
\x20 at(\"names-file\").addEventListener(\"change\", takeFile);\n\
\x20 window.addEventListener(\"hashchange\", () => {\n\
\x20   if (eventOfAddress() !== null) show(momentOfEvent(life, eventOfAddress()));\n\
\x20 });\n\
\x20 let waiting = null;\n\
\x20 let width = window.innerWidth;\n\
\x20 window.addEventListener(\"resize\", () => {\n\
\x20   if (window.innerWidth === width) return;\n\
\x20   width = window.innerWidth;\n\
\x20   clearTimeout(waiting);\n\
\x20   waiting = setTimeout(build, 120);\n\
\x20 });\n\
}\n\
\n\
function start() {\n\
\x20 setTheme(window.matchMedia(\"(prefers-color-scheme: dark)\").matches);\n\
\x20 describeFile();\n\
\x20 describeSizes();\n\
\x20 at(\"slider\").max = life.moments.length - 1;\n\
\x20 at(\"parts\").replaceChildren(...partItems());\n\
\x20 at(\"marks\").replaceChildren(...markItems());\n\
\x20 at(\"legend\").open = window.matchMedia(\"(min-width: 1400px) and (min-height: 900px)\").matches;\n\
\x20 at(\"naming\").hidden = !life.tells;\n\
\x20 view.moment = firstMoment();\n\
\x20 build();\n\
\x20 steps = new Steps(life, at(\"steps\"), (event) => show(momentOfEvent(life, event)));\n\
\x20 listen();\n\
\x20 setTiles(life.sizes.words * life.sizes.regions <= 4096);\n\
\x20 takeTold();\n\
}\n\
\n\
// What a test asks of the page.\n\
window.heapLife = { life, view, show, openRegion, chooseName, setTiles, setTheme };\n\
start();\n";
