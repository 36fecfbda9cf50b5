//! A part of the page's constant texts. Made from page/page.html by page/make_text.

/// The part.
pub(crate) const TEXT: &[u8] = br#"</script> <script> 'use strict';
const byId = (id) => document.getElementById(id);
function place(kind, number, time) {
return { kind, number, time, bytes: new Uint8Array(0), calls: [], runs: [], records: [0], recordIs: '', own: [] };
}
function decoded(base64) { const text = atob(base64); const bytes = new Uint8Array(text.length);
for (let i = 0; i < bytes.length; i++) bytes[i] = text.charCodeAt(i); return bytes; }
class RowReader { constructor(inputs, outputs) { this.inputs = inputs; this.outputs = outputs;
this.points = new Map(); this.rows = 0; }
read(text) { for (const [, sign, name, spans] of text.matchAll(/([=+])|([^ \n]+)([^\n]*)\n/g)) {
if (sign) this.join(sign === '+'); else this.begin(...this.sink(name), this.spans(spans)); this.rows++; } }
spans(text) { return Array.from(text.matchAll(/ (\d+):(\d+)-(\d+)/g),
([, number, from, past]) => ({ place: this.inputs[number], from: Number(from), past: Number(past) })); }
sink(name) { const parts = name.split(/[:.@]/);
if (parts[0] === 'm') return [this.point('memory', 0, parts[2]), Number(parts[1])];
if (parts[0] === 'r') return [this.point('register', parts[1], parts[3]), Number(parts[2])];
return [this.outputs[parts[0]], Number(parts[1])]; }
point(kind, number, time) { const key = `${kind} ${number} ${time}`;
if (!this.points.has(key)) this.points.set(key, place(kind, Number(number), Number(time)));
return this.points.get(key); }
begin(where, first, spans) { this.last = { place: where, first, count: 1, moves: false, spans };
where.runs.push(this.last); }
join(moves) { const { last } = this; if (last.count === 1) last.moves = moves; if (last.moves === moves) {
last.count++; } else { const by = (last.moves ? last.count - 1 : 0) + (moves ? 1 : 0);
const spans = last.spans.map((s) => ({ place: s.place, from: s.from + by, past: s.past + by }));
this.begin(last.place, last.first + last.count, spans); } } }
function read(text) {
const channels = (kind) => Array.from({ length: 16 }, (none, number) => place(kind, number, 0));
const ways = { in: channels('in'), out: channels('out') }; const reader = new RowReader(ways.in, ways.out);
const begin = 'jet page 1\nrows\n';
if (!text.startsWith(begin)) throw new Error('the data is of no version that this page reads');
const end = text.indexOf('p', begin.length); reader.read(text.slice(begin.length, end));
const lines = text.slice(end).split('\n').slice(0, -1);
if (lines.pop() !== `end ${reader.rows}`) throw new Error('rows are missing'); const facts = {}; let sources;
for (const line of lines) { const [word, number, ...rest] = line.split(' ');
if (word === 'sources') sources = reader.spans(line);
else if (word === 'in' || word === 'out') ways[word][number].bytes = decoded(rest[0]);
else if (word === 'r' || word === 'w') { const { calls } = ways[word === 'r' ? 'in' : 'out'][number];
const first = calls.at(-1)?.past ?? 0;
calls.push({ first, past: first + Number(rest[0]), time: Number(rest[1]) });
} else facts[word] = line.slice(word.length + 1); }
return arranged({ ...ways, points: [...reader.points.values()], sources, facts }); }
function arranged({ in: received, out: written, points, sources, facts }) {
const moved = (places) => places.filter((where) => where.bytes.length > 0);
const [inputs, outputs] = [moved(received), moved(written)]; const sinks = [...outputs, ...points];
[...inputs, ...sinks].forEach((where, order) => { where.order = order;
where.marks = new Uint8Array(where.bytes.length); });
return { inputs, outputs, points, runs: sinks.flatMap((where) => where.runs), sources, facts }; }
const decimal = new Intl.NumberFormat('en').format;
const many = (n, what) => `${decimal(n)} ${what}${n === 1 ? '' : 's'}`;
function byteName(where, offset) { if (where.kind === 'memory') return `m:${offset}@${where.time}`;
if (where.kind === 'register') return `r:${where.number}.${offset}@${where.time}`;
return `${where.number}:${offset}`; }
function spanName({ place: where, from, past }) { if (past - from === 1) return byteName(where, from);
if (where.kind === 'in' || where.kind === 'out') return `${where.number}:${from}-${past}`;
return `${byteName(where, from)} to ${byteName(where, past - 1)}`; }
const sideName = (where) => ({ in: 'Input', out: 'Output' }[where.kind] ?? 'Point');
const isPrintable = (b) => b >= 0x20 && b <= 0x7e;
function shown(bytes) {
return Array.from(bytes, (b) => (isPrintable(b) ? String.fromCharCode(b) : '\u00b7')).join(''); }
function areText(places) {
const inText = Uint8Array.from({ length: 256 }, (none, b) => isPrintable(b) || [9, 10, 13].includes(b));
const count = (where) => where.bytes.reduce((sum, b) => sum + inText[b], 0);
return total(places, count) * 20 >= total(places, (where) => where.bytes.length) * 19; }
function preview({ place: where, from, past }) {
const text = shown(where.bytes.subarray(from, Math.min(past, from + 48)));
return past - from > 48 ? `${text}\u2026` : text; }
const byteSpan = (where, offset) => ({ place: where, from: offset, past: offset + 1 });
const wholeSpan = (where) => ({ place: where, from: 0, past: where.bytes.length });
const runSpan = (run) => ({ place: run.place, from: run.first, past: run.first + run.count });
function sourceSpan(run, span, from, past) { if (!run.moves) return span;
return { place: span.place, from: span.from + from - run.first, past: span.past + past - 1 - run.first }; }
function sinkSpan(run, span, from, past) { const begin = run.moves ? Math.max(0, from - span.past + 1) : 0;
const end = run.moves ? Math.min(run.count, past - span.from) : run.count;
return { place: run.place, from: run.first + begin, past: run.first + end }; }
const inOrder = (a, b) => a.place.order - b.place.order || a.from - b.from;
function merged(spans) { spans.sort(inOrder); const out = []; for (const span of spans) {
const top = out.at(-1);
if (top && top.place === span.place && span.from <= top.past) top.past = Math.max(top.past, span.past);
else out.push({ ...span }); } return out; }
function lastUpTo(n, items, numberOf = (item) => item) { let low = 0; let high = items.length;
while (low < high) { const middle = (low + high) >> 1; if (numberOf(items[middle]) <= n) low = middle + 1;
else high = middle; } return low - 1; }
function* runsWithin(where, from, past) { const { runs } = where;
const start = Math.max(0, lastUpTo(from, runs, (run) => run.first));
for (let i = start; i < runs.length && runs[i].first < past; i++) { const begin = Math.max(from, runs[i].first);
const end = Math.min(past, runs[i].first + runs[i].count);
if (begin < end) yield { run: runs[i], from: begin, past: end }; } }
function joinedSpan(where, offset) {
for (const { run } of runsWithin(where, offset, offset + 1)) return runSpan(run);
return byteSpan(where, offset); }
function sourcesOf({ place: where, from, past }) { const spans = [];
for (const part of runsWithin(where, from, past)) {
for (const span of part.run.spans) spans.push(sourceSpan(part.run, span, part.from, part.past)); }
return merged(spans); }
function reachOf({ place: where, from, past }) { const spans = []; for (const run of data.runs) {
const moved = run.moves ? run.count - 1 : 0; for (const span of run.spans) {
const reaches = span.place === where && span.from < past && from < span.past + moved;
if (reaches) spans.push(sinkSpan(run, span, from, past)); } } return merged(spans); }
const linkedTo = (span) => (span.place.kind === 'in' ? reachOf(span) : sourcesOf(span));
const encoded = (text) => [...new TextEncoder().encode(text)];
const standsAt = (where, at, wanted) => wanted.every((b, i) => where.bytes[at + i] === b);
const recordWords = (where) => ({ line: 'each line', call: where.kind === 'in' ? 'each read' : 'each write',
size: 'so many bytes:', text: 'each begins with:', });
function recordStarts(where, how, size, text) {
if (how === 'call') return where.calls.map((call) => call.first); const starts = [0];
const wanted = how === 'text' ? encoded(text) : [];
const next = (at) => (how === 'size' ? at + size : where.bytes.indexOf(10, at) + 1) || Infinity;
for (let at = next(0); at < where.bytes.length; at = next(at)) {
if (standsAt(where, at, wanted)) starts.push(at); } return starts; }
function setRecords(where, how, size, text) { where.records = recordStarts(where, how, size, text);
const told = { size: `each piece of ${many(size, 'byte')}`, text: `each part that begins with "${text}"` };
where.recordIs = { ...recordWords(where), ...told }[how === 'text' && text === '' ? 'line' : how]; }
function usualRecords(where) { const lines = recordStarts(where, 'line').length;
return lines >= where.calls.length && lines > where.bytes.length / 100 ? 'line' : 'call'; }
const recordAt = (where, offset) => lastUpTo(offset, where.records);
const recordEnd = (where, k) => where.records[k + 1] ?? where.bytes.length;
const recordSpan = (where, k) => ({ place: where, from: where.records[k], past: recordEnd(where, k) });
function* partsOf(where) { for (const run of where.runs) {
const end = run.spans.length > 0 ? run.first + run.count : run.first;
for (let from = run.first, past; from < end; from = past) { const record = recordAt(where, from);
past = Math.min(end, recordEnd(where, record)); if (run.moves) {
const source = sourceSpan(run, run.spans[0], from, from + 1);
past = Math.min(past, from + recordEnd(source.place, recordAt(source.place, source.from)) - source.from); }
const sources = run.spans.map((span) => sourceSpan(run, span, from, past));
yield { span: { place: where, from, past }, record, moves: run.moves, sources }; } } }
function newestRecords(where) { const newest = where.records.map(() => new Map());
for (const { record, sources } of partsOf(where)) { for (const source of sources) {
const last = recordAt(source.place, source.past - 1);
if (last > (newest[record].get(source.place) ?? -1)) newest[record].set(source.place, last); } } return newest;
}
function recordsBack(where, record, source) { if (source.place.records.length === 1) return 0;
return (where.own[record]?.get(source.place) ?? record) - recordAt(source.place, source.from); }
const numbers = (from, past) => (past - from === 1 ? `${from}` : `${from}-${past}`);
function numbersInRecord({ place: where, from, past }) { const begin = where.records[recordAt(where, from)];
return numbers(from - begin, past - begin); }
function sourceText(source) {
const count = recordAt(source.place, source.past - 1) - recordAt(source.place, source.from) + 1;
return `${source.place.number}: ${count > 1 ? `in ${count} records` : numbersInRecord(source)}`; }
const MOST_PATTERNS = 5000;
function analyse() { const patterns = new Map(); let others = 0; const joined = new Set();
const mixed = { in: [], out: [] }; for (const where of data.outputs) { where.own = newestRecords(where);
for (const { span, record, moves, sources } of partsOf(where)) {
const back = sources.map((source) => recordsBack(where, record, source));
const foreign = sources.filter((source, i) => back[i] !== 0);
for (const { place: channel } of [span, ...sources]) joined.add(channel);
if (foreign.length > 0) mixed.out.push(span); for (const source of foreign) mixed.in.push(source);
const at = numbersInRecord(span); const cameFrom = sources.slice(0, 5).map(sourceText);
const key = `${where.order} ${at} ${cameFrom} ${back}`; const known = patterns.get(key);
if (known) known.count++; else if (patterns.size === MOST_PATTERNS) others++;
else patterns.set(key, { span, at, moves, cameFrom, back, isForeign: foreign.length > 0, count: 1 }); } }
return { patterns: [...patterns.values()], others, joined, mixed: { in: merged(mixed.in), out: merged(mixed.out) } };
}
const MARKS = ['silent', 'outside', 'starts', 'foreign', 'found', 'lit', 'chosen', 'cursor'];
const [SILENT, OUTSIDE, STARTS, FOREIGN, FOUND, LIT, CHOSEN, CURSOR] = MARKS.map((name, i) => 1 << i);
const LOOKS = Array.from({ length: 256 }, (none, bits) => MARKS.filter((name, i) => bits & (1 << i)).join(' '));
function remark({ place: where, from, past }, taken, added) { const { marks } = where;
for (let i = from; i < past && i < marks.length; i++) marks[i] = (marks[i] & ~taken) | added; }
function moveMark(bit, before, after) { for (const span of before) remark(span, bit, 0);
for (const span of after) remark(span, 0, bit); return after; }
function markRows() {
for (const where of [...data.inputs, ...data.outputs]) remark(wholeSpan(where), 0, OUTSIDE);
for (const span of data.sources) remark(span, OUTSIDE, SILENT); for (const run of data.runs) {
const sinks = runSpan(run); remark(sinks, OUTSIDE, run.spans.length === 0 ? SILENT : 0);
remark(byteSpan(run.place, run.first), 0, STARTS);
for (const span of run.spans) remark(sourceSpan(run, span, sinks.from, sinks.past), SILENT, 0); } }
function element(name, properties = {}, ...children) {
const made = Object.assign(document.createElement(name), properties); made.append(...children); return made; }
const words = (name, textContent, className = '') => element(name, { textContent, className });
"#;
