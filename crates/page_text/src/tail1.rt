//! A part of the page's constant texts. Made from page/page.html by page/make_text.

/// The part.
pub(crate) const TEXT: &[u8] =
    br#"const button = (textContent, onclick) => element('button', { type: 'button', textContent, onclick });
const link = (text, span) => Object.assign(button(text, () => go(span)), { className: 'link' });
const spanLink = (span) => link(spanName(span), span);
function fillTable(table, caption, columns, rows) {
const head = columns.map((textContent) => element('th', { scope: 'col', textContent })); table.replaceChildren(
words('caption', caption), element('thead', {}, element('tr', {}, ...head)), element('tbody', {}, ...rows)); }
const LINE = 18; const TALLEST = 8e6; const PRINTED = 80;
class Pane { constructor(side, places) { this.side = side; this.places = places;
const box = byId(side === 'in' ? 'inputs' : 'outputs'); this.view = box.querySelector('.pane');
this.map = box.querySelector('canvas'); this.heading = box.querySelector('h2 span');
this.sizer = element('div', { className: 'sizer' }); this.lines = element('div', { className: 'lines' });
this.made = new Map(); this.view.append(this.sizer, this.lines); this.listen(); }
listen() { const { view, map } = this; view.onscroll = () => this.draw();
view.onpointermove = (event) => this.pointed(event); view.onpointerleave = () => point(null);
view.onpointerdown = (event) => this.pressed(event); view.ondblclick = (event) => {
const byte = this.byteUnder(event); if (byte) choose(joinedSpan(byte.place, byte.from), byte.from); };
view.onkeydown = (event) => this.key(event); view.oncopy = (event) => {
event.clipboardData.setData('text/plain', reportLines()); event.preventDefault(); };
map.onpointerdown = (event) => {
view.scrollTop = (event.offsetY / map.clientHeight) * view.scrollHeight - view.clientHeight / 2; };
new ResizeObserver(() => this.layOut()).observe(view); }
fitting(hex, beside) { const probe = element('span', { textContent: '0'.repeat(100) });
this.lines.append(probe);
const columns = this.view.clientWidth / (probe.getBoundingClientRect().width / 100) - beside; probe.remove();
return [128, 112, 96, 80, 64, 56, 48, 40, 32, 24, 16, 8].find((n) => n * (hex ? 4 : 1) <= columns) ?? 4; }
layOut() { const hex = byId('hex').checked;
const longest = (nameOf) => Math.max(0, ...this.places.map((where) => nameOf(where).length)) + 1;
const record = longest((where) => `#${where.records.length}`);
const offset = longest((where) => byteName(where, where.bytes.length));
const width = Number(byId('width').value) || this.fitting(hex, record + offset + 4);
const broken = byId('broken').checked;
const layout = `${width} ${hex} ${broken} ${this.places.map((where) => where.recordIs)}`;
if (layout !== this.layout) { const top = this.topByte(); this.layout = layout; this.cut(width, broken);
this.made.clear(); this.lines.replaceChildren();
for (const [name, columns] of Object.entries({ width, record, offset })) {
this.lines.style.setProperty(`--${name}`, columns); }
this.sizer.style.height = `${Math.min(this.count * LINE, TALLEST)}px`;
if (top) this.scrollTo(top.place, top.from, true); } this.draw(); }
cut(width, broken) { this.count = 0; for (const where of this.places) { where.firstLine = this.count;
where.starts = []; const bounds = broken ? where.records : [0]; bounds.forEach((bound, k) => {
for (let at = bound; at < (bounds[k + 1] ?? where.bytes.length); at += width) where.starts.push(at); });
this.count += where.starts.length + 1; } }
lineAt(line) { const where = this.places.findLast((p) => p.firstLine <= line);
return { where, at: line - where.firstLine - 1 }; }
get scale() { const room = Math.max(1, this.sizer.offsetHeight - this.view.clientHeight);
return Math.max(1, (this.count * LINE - this.view.clientHeight) / room); }
topByte() { if (!this.count) return null;
const { where, at } = this.lineAt(Math.min(this.count - 1, Math.floor((this.view.scrollTop * this.scale) / LINE)));
return byteSpan(where, where.starts[Math.max(0, at)] ?? 0); }
draw(forPrint = false) { if (!this.count) return; const here = this.topByte();
const shift = this.view.scrollTop * this.scale; const from = Math.max(0, Math.floor(shift / LINE) - 2);
const past = Math.min(this.count, from + (forPrint ? PRINTED : Math.ceil(this.view.clientHeight / LINE) + 5));
const kept = new Map(); let same = past - from === this.made.size; for (let line = from; line < past; line++) {
const known = this.made.get(line); const made = known ?? this.makeLine(line); same &&= known !== undefined;
this.paint(made); kept.set(line, made); } this.made = kept;
if (!same) this.lines.replaceChildren(...kept.values());
this.lines.style.transform = `translateY(${from * LINE - shift + this.view.scrollTop}px)`;
const heading = `channel ${here.place.number}, from byte ${decimal(here.from)}`;
if (this.heading.textContent !== heading) this.heading.textContent = heading; }
makeLine(line) { const { where, at } = this.lineAt(line); if (at < 0) {
const side = where.kind === 'in' ? 'received' : 'written';
return words('div', `channel ${where.number}: ${many(where.bytes.length, 'byte')} ${side}`, 'line title'); }
const from = where.starts[at]; const past = where.starts[at + 1] ?? where.bytes.length;
const record = recordAt(where, from); const bytes = Array.from(where.bytes.subarray(from, past));
const made = element('div', { className: 'line' },
words('span', where.records[record] === from ? `#${record}` : '', 'record'),
words('span', byteName(where, from), 'offset'));
const cells = (className, texts) => element('span', { className }, ...texts.map((text) => words('span', text)));
if (byId('hex').checked) made.append(cells('hex', bytes.map((b) => b.toString(16).padStart(2, '0'))));
made.append(cells('text', [...shown(bytes)])); made.span = { place: where, from, past }; return made; }
paint(made) { if (!made.span) return; const { place: where, from } = made.span;
for (const group of made.querySelectorAll('.hex, .text')) { let at = from; for (const cell of group.children) {
const look = LOOKS[where.marks[at++]]; if (cell.className !== look) cell.className = look; } } }
drawMap() { const { map } = this; map.width = map.clientWidth; map.height = map.clientHeight;
const pen = map.getContext('2d'); const style = getComputedStyle(map);
const strip = (spans, color, left, width) => { pen.fillStyle = style.getPropertyValue(color); let bottom = -1;
for (const { place: where, from, past } of spans) { if (!this.places.includes(where)) continue;
const top = Math.max(bottom, Math.floor((this.lineOf(where, from) / this.count) * map.height));
bottom = Math.max(top + 2, Math.ceil(((this.lineOf(where, past - 1) + 1) / this.count) * map.height));
pen.fillRect(left, top, width, bottom - top); bottom -= 1; } }; strip(mixed[this.side], '--foreign', 9, 5);
strip(linked, '--lit', 0, 9); strip(chosen ? [chosen] : [], '--accent', 0, 9); }
lineOf(where, offset) { return where.firstLine + 1 + lastUpTo(offset, where.starts); }
scrollTo(where, offset, toTop = false) { const { view } = this;
const top = (this.lineOf(where, offset) * LINE) / this.scale;
const seen = view.scrollTop + LINE <= top && top + 2 * LINE <= view.scrollTop + view.clientHeight;
if (toTop || !seen) view.scrollTop = toTop ? top : top - view.clientHeight / 3; }
byteUnder(event) { const cell = event.target.closest?.('.hex > span, .text > span');
const line = cell?.closest('.line');
return line ? byteSpan(line.span.place, line.span.from + [...cell.parentNode.children].indexOf(cell)) : null; }
pointed(event) { const byte = this.byteUnder(event);
if (event.buttons === 1 && byte && byte.place === chosen?.place) extend(byte.from); else point(byte); }
pressed(event) { if (event.button !== 0) return; const byte = this.byteUnder(event);
const line = event.target.closest('.line')?.span;
if (line && event.target.className === 'record') choose(recordSpan(line.place, recordAt(line.place, line.from)));
else if (byte && event.shiftKey && byte.place === chosen?.place) extend(byte.from); else if (byte) choose(byte);
}
key(event) {
if (event.altKey || event.metaKey || (event.ctrlKey && !['Home', 'End'].includes(event.key))) return;
const where = this.places.includes(chosen?.place) ? chosen.place : this.places[0]; if (!where) return;
const at = where === chosen?.place ? cursor : -1; const moved = this.moved(event, where, at);
if (moved !== undefined) this.moveTo(where, moved, event.shiftKey);
else if (event.key === 'Enter' && linked.length > 0) reveal(linked[0]);
else if (event.key === 'a' && at >= 0) choose(joinedSpan(where, at), at);
else if (event.key === 'r' && at >= 0) choose(recordSpan(where, recordAt(where, at)), at);
else if (event.key === 'n') step(1, this.side); else if (event.key === 'p') step(-1, this.side);
else if (event.key === '/') byId('wanted').focus(); else if (event.key === 'Escape') choose(null); else return;
event.preventDefault(); }
moved(event, where, at) { const { starts, bytes } = where; const line = Math.max(0, lastUpTo(at, starts));
const end = (k) => (starts[k + 1] ?? bytes.length) - 1; const down = (n) => {
const next = at < 0 ? 0 : line + n; if (next < 0) return -1;
return next < starts.length ? Math.min(starts[next] + Math.max(0, at - starts[line]), end(next)) : bytes.length;
}; const page = Math.max(1, Math.floor(this.view.clientHeight / LINE) - 2); const targets = {
ArrowRight: at + 1, ArrowLeft: at - 1, ArrowDown: down(1), ArrowUp: down(-1), PageDown: down(page),
PageUp: down(-page), Home: event.ctrlKey ? 0 : starts[line], End: event.ctrlKey ? bytes.length - 1 : end(line),
}; return targets[event.key]; }
moveTo(where, offset, selects) { const next = this.places[this.places.indexOf(where) + (offset < 0 ? -1 : 1)];
if (!selects && next && (offset < 0 || offset >= where.bytes.length)) {
this.moveTo(next, offset < 0 ? next.bytes.length - 1 : 0, false); return; }
const inside = Math.min(where.bytes.length - 1, Math.max(0, offset));
if (selects && where === chosen?.place) extend(inside); else choose(byteSpan(where, inside));
this.scrollTo(where, inside); } }
let data; let panes = []; let mixed = { in: [], out: [] }; let chosen = null; let anchor = 0; let cursor = 0;
let pointedAt = null; let linked = [];
function light() { const span = pointedAt ?? chosen; linked = moveMark(LIT, linked, span ? linkedTo(span) : []);
tell(span); for (const pane of panes) { pane.draw(); pane.drawMap(); } }
let waiting = 0; function lightSoon() { waiting ||= requestAnimationFrame(() => { waiting = 0; light(); }); }
function point(byte) { if (byte?.place === pointedAt?.place && byte?.from === pointedAt?.from) return;
pointedAt = byte; lightSoon(); }
function choose(span, at = span?.from) { if (chosen) remark(chosen, CHOSEN | CURSOR, 0); chosen = span;
pointedAt = null; if (span) { anchor = cursor = at; remark(span, 0, CHOSEN);
remark(byteSpan(span.place, at), 0, CURSOR); } lightSoon(); }
function extend(offset) { if (offset === cursor) return; const from = anchor;
choose({ place: chosen.place, from: Math.min(from, offset), past: Math.max(from, offset) + 1 }, offset);
anchor = from; }
function reveal(span) { panes.find((pane) => pane.places.includes(span.place))?.scrollTo(span.place, span.from);
}
function go(span) { choose(span); light(); reveal(span); if (linked.length > 0) reveal(linked[0]);
byId('bytes').scrollIntoView({ block: 'nearest' }); }
function step(by, side) { const spans = mixed[side]; if (spans.length === 0) return;
const onSide = chosen && (chosen.place.kind === 'in') === (side === 'in');
const from = onSide ? chosen : { place: spans[0].place, from: -1 };
const next = by > 0 ? spans.find((s) => inOrder(s, from) > 0) : spans.findLast((s) => inOrder(s, from) < 0);
go(next ?? spans.at(by > 0 ? 0 : -1)); }
function describe(span) { const { place: where, from, past } = span; const parts = [many(past - from, 'byte')];
if (where.bytes.length > 0) { const record = recordAt(where, from);
parts.push(past > recordEnd(where, record) ? `records ${record} to ${recordAt(where, past - 1)}`
: `${past - from === 1 ? 'byte' : 'bytes'} ${numbersInRecord(span)} of record ${record}`);
parts.push(`${where.kind === 'in' ? 'read' : 'written'} at step ${decimal(timeOf(where, from))}`); }
return parts.join(', '); }
function timeOf(where, offset) { return where.calls[lastUpTo(offset, where.calls, (call) => call.first)].time; }
function queryLine({ place: where, from }) {
if (where.kind === 'memory') return `sink mem ${from} 1 at ${where.time}`;
if (where.kind === 'register') return `sink reg ${where.number} at ${where.time}`;
return `${where.kind === 'in' ? 'source' : 'sink'} ${where.number} ${from} ${from + 1}`; }
function firstBeside(spans, others) { for (const { place: where, from, past } of spans) { let at = from;
for (const other of others) if (other.place === where && other.from <= at) at = Math.max(at, other.past);
if (at < past) return byteSpan(where, at); } return undefined; }
function pathCommand(span) { const { place: where, from } = span;
const others = span.past === from + 1 ? linked : linkedTo(byteSpan(where, from));
const other = firstBeside(others, where.kind === 'register' ? sourcesOf({ place: where, from: 0, past: from }) : []);
"#;
