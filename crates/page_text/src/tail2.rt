//! A part of the page's constant texts. Made from page/page.html by page/make_text.

/// The part.
pub(crate) const TEXT: &[u8] =
    br#"if (!other) return ''; const lines = [`rule ${data.facts.rule}`, queryLine(span), queryLine(other)];
return `printf '${lines.join('\\n')}\\n' >path.query; jet path PROG LOG path.query`; }

const NO_PATH = 'No query asks for the path of this byte alone: a query asks for a register whole, and bytes of it '
+ 'before this one have the same sources, so their path would be told.';
function pathLine(span) { const command = pathCommand(span);
if (command === '') return span.place.kind === 'register' && linked.length > 0 ? words('div', NO_PATH) : '';
return element('div', {}, 'The path of its first byte: ', words('code', command), ' ',
button('Copy', () => navigator.clipboard.writeText(command))); }

const HINT = 'Point at a byte, or choose one or several: what it came from, or came to, lights up on the other side '
+ 'and is listed here.'; const MOST_TOLD = 40;
function isForeign(source, sink) {
return sink.place.kind === 'out' && recordsBack(sink.place, recordAt(sink.place, sink.from), source) !== 0; }
function tell(span) { if (!span) { byId('told').replaceChildren(words('span', HINT, 'faint')); return; }
const isSource = span.place.kind === 'in'; const size = linked.reduce((sum, s) => sum + s.past - s.from, 0);
const foreign = new Map(linked.map((other) => [other, isSource ? isForeign(span, other) : isForeign(other, span)]));
const told = [...linked].sort((a, b) => foreign.get(b) - foreign.get(a)).slice(0, MOST_TOLD);
const list = told.map((other) => element('li', {},
spanLink(other), ' ', words('code', preview(other)), ` ${describe(other)}`,
foreign.get(other) ? words('span', ' foreign', 'alarm') : '')); byId('told').replaceChildren(
element('div', {}, `${sideName(span.place)} `, words('strong', spanName(span), 'mono'), ' ',
words('code', preview(span)), ` ${describe(span)}`),
words('div', `came ${isSource ? 'to' : 'from'} ${size === 0 ? 'nothing that is listed'
: `${many(size, 'byte')} in ${many(linked.length, 'range')}:`}`), element('ul', {}, ...list),
linked.length > MOST_TOLD ? `and ${many(linked.length - MOST_TOLD, 'more range')}` : '', pathLine(span)); }
function reportLines() { if (!chosen) return ''; const lines = [];
for (let offset = chosen.from; offset < chosen.past && lines.length < 10000; offset++) {
const names = [byteName(chosen.place, offset)]; for (const span of linkedTo(byteSpan(chosen.place, offset))) {
for (let o = span.from; o < span.past; o++) names.push(byteName(span.place, o)); }
lines.push(`${names.join(' ')}\n`); } return lines.join(''); }
const MOST_FOUND = 100000;
let found = []; let searched = ''; let nextFound = 0;
function findBytes(wanted) { const spans = []; if (wanted.length === 0) return spans;
for (const where of [...data.inputs, ...data.outputs]) {
const next = (from) => where.bytes.indexOf(wanted[0], from);
for (let at = next(0); at >= 0 && spans.length < MOST_FOUND; at = next(at + 1)) {
if (standsAt(where, at, wanted)) spans.push({ place: where, from: at, past: at + wanted.length }); } }
return spans; }
function findNamed(places, name) { const [, ...parts] = /^\s*(\d+):(\d+)(?:-(\d+))?\s*$/.exec(name) ?? [];
const [number, from, past = from + 1] = parts.filter((part) => part !== undefined).map(Number);
const where = places.find((p) => p.number === number);
return where && from < past && past <= where.bytes.length ? [{ place: where, from, past }] : []; }
function wantedSpans(what, text) { if (what === 'text') return findBytes(encoded(text));
if (what !== 'hex') return findNamed(what === 'in' ? data.inputs : data.outputs, text);
const isHex = /^(\s*[0-9a-f]{2})*\s*$/i.test(text);
return findBytes(isHex ? Array.from(text.matchAll(/[0-9a-f]{2}/gi), ([pair]) => parseInt(pair, 16)) : []); }
function findNext(event) { event.preventDefault(); const what = byId('what').value;
const text = byId('wanted').value; if (`${what} ${text}` !== searched) {
found = moveMark(FOUND, found, wantedSpans(what, text)); searched = `${what} ${text}`; nextFound = 0; }
byId('matches').textContent = text === '' ? '' : matchesText(); if (found.length > 0) go(found[nextFound]);
else light(); nextFound = found.length > 0 ? (nextFound + 1) % found.length : 0; }
function matchesText() { if (found.length === 0) return 'not found';
const inputs = found.filter((s) => s.place.kind === 'in').length;
const sides = `${many(inputs, 'input')}, ${many(found.length - inputs, 'output')}`;
return `${decimal(nextFound + 1)} of ${decimal(found.length)}: ${sides}`; }
const RULES = { copy: 'only where it is moved',
keep: 'where it is moved, also by masks and shifts that keep a byte whole',
compute: 'into all that is computed from it', index: 'into all that is computed from it, and through addresses',
};
const TRAPS = { 0: 'a jump to an address that is no multiple of 4', 1: 'no instruction in the window at the pc',
2: 'an illegal instruction', 3: 'a breakpoint', 5: 'a load outside the window', 7: 'a store outside the window',
};
function endText() { const [kind, code, pc] = data.facts.end.split(' ');
if (kind === 'exit') return `ended by an exit with code ${code}`;
const place = `0x${Number(pc).toString(16).padStart(8, '0')}`;
if (kind === 'trap') return `ended by trap ${code}, ${TRAPS[code]}, at pc ${place}`;
return 'was cut off at its limit of steps'; }
const total = (list, size) => list.reduce((sum, each) => sum + size(each), 0);
function countWithout(where, bits) { let count = 0;
for (const marks of where.marks) count += (marks & bits) === 0; return count; }
function showFacts() { const { facts } = data;
const pairs = total(data.runs, (run) => run.count * total(run.spans, (s) => s.past - s.from));
const asked = (places) => decimal(total(places, (where) => countWithout(where, OUTSIDE)));
const counted = (name, what) => many(Number(facts[name]), what); byId('facts').replaceChildren(
'By ', words('strong', `rule ${facts.rule}`), ` a byte is followed ${RULES[facts.rule]}. `,
`${asked(data.inputs)} of ${counted('read', 'byte')} received count as sources, and `,
`${asked(data.outputs)} of ${counted('written', 'byte')} written are asked for: `,
`${many(pairs, 'pair')} of an output byte or a point and a source. `,
`The run took ${counted('steps', 'step')} and ${counted('calls', 'call')}, and ${endText()}. Program SHA-256 `,
words('code', facts.program)); }
function recordChoice(where) {
const how = element('select', { ariaLabel: `Records of ${sideName(where)} ${where.number}` },
...Object.entries(recordWords(where)).map(([value, textContent]) => element('option', { value, textContent })));
const size = element('input', { type: 'number', min: 1, value: 16, ariaLabel: 'Bytes in a record' });
const text = element('input', { ariaLabel: 'What the first line of a record begins with', spellcheck: false });
const count = element('span'); const set = () => { size.hidden = how.value !== 'size';
text.hidden = how.value !== 'text';
setRecords(where, how.value, Math.max(1, Math.floor(Number(size.value)) || 1), text.value);
count.textContent = `${decimal(where.records.length)}: `; }; how.value = usualRecords(where); set();
how.onchange = size.onchange = text.onchange = () => { set(); showRecords(); };
return element('td', {}, count, how, ' ', size, text); }
function showChannels() { const rows = [...data.inputs, ...data.outputs].map((where) => element('tr', {},
element('td', {}, link(`${where.kind} ${where.number}`, wholeSpan(where))),
words('td', decimal(where.bytes.length), 'number'),
words('td', decimal(countWithout(where, SILENT | OUTSIDE)), 'number'), recordChoice(where)));
fillTable(byId('channels'), '', ['Channel', 'Bytes', 'With flow', 'Records'], rows); }
function showRecords() { const flows = analyse();
moveMark(FOREIGN, [...mixed.in, ...mixed.out], [...flows.mixed.in, ...flows.mixed.out]); mixed = flows.mixed;
showAlarm(flows.joined); showPatterns(flows); for (const pane of panes) pane.layOut(); light(); }
function countRecords(where, spans) { const records = new Set();
for (const { from, past } of spans.filter((span) => span.place === where)) {
for (let k = recordAt(where, from); k <= recordAt(where, past - 1); k++) records.add(k); } return records.size;
}
function premise(joined) {
const channels = [...data.inputs, ...data.outputs].filter((where) => joined.has(where));
const alike = Map.groupBy(channels, (where) => where.recordIs);
const names = (places) => places.map((where) => `${sideName(where).toLowerCase()} ${where.number}`).join(' and ');
const parts = Array.from(alike, ([is, places]) => (alike.size === 1 ? is : `${is} of ${names(places)}`));
return `If ${parts.join(' and ')} is a record: `; }
function showAlarm(joined) {
const counted = (places, spans, text) => places.map((where) => [countRecords(where, spans), where])
.filter(([n]) => n > 0).map(([n, where]) => text(n, where)).join(' and ');
const written = counted(data.outputs, mixed.out,
(n, where) => `${decimal(n)} of ${many(where.records.length, 'record')} of output ${where.number}`);
const received = counted(data.inputs, mixed.in, (n, where) => `${many(n, 'record')} of input ${where.number}`);
byId('alarm').className = written ? 'alarm' : ''; const headline = written
? `${written} hold bytes that came from another input record than their own: from ${received}.`
: 'no written record has bytes that came from another input record than its own.';
byId('alarm').textContent = joined.size > 0 ? premise(joined) + headline
: 'No written byte that is asked for has a source byte.';
for (const id of ['before', 'after']) byId(id).disabled = !written; }
const PATTERNS_SHOWN = 200;
function recordName(back) { if (back === 0) return 'own';
return back > 0 ? `${decimal(back)} before` : `${decimal(-back)} after`; }
function showPatterns({ patterns, others }) {
patterns.sort((a, b) => b.isForeign - a.isForeign || inOrder(a.span, b.span));
const sourcesText = ({ cameFrom, moves }) => cameFrom.slice(0, 4).join(', ')
+ (cameFrom.length > 4 ? ', \u2026' : moves ? ' one by one' : '');
const rows = patterns.slice(0, PATTERNS_SHOWN).map((p) => element('tr', { className: p.isForeign ? 'foreign' : '' },
words('td', p.span.place.number), element('td', {}, link(p.at, p.span)), words('td', sourcesText(p), 'mono'),
words('td', [...new Set(p.back.map(recordName))].slice(0, 4).join(', ')),
words('td', decimal(p.count), 'number')));
const caption = [`${many(patterns.length, 'pattern')} of flow from record to record`, others > 0 ? ' and more' : '',
', those from foreign records first', patterns.length > PATTERNS_SHOWN ? `; ${PATTERNS_SHOWN} are shown` : ''];
fillTable(byId('patterns'), caption.join(''), ['Out', 'bytes', 'came from', 'of the record', 'times'], rows); }
const MOST_POINTS = 1000;
function showPoints() { const runs = data.points.flatMap((where) => where.runs);
byId('points').hidden = Number(data.facts.points) === 0;
const sourcesText = (run) => sourcesOf(runSpan(run)).slice(0, 20).map(spanName).join(' ')
+ (run.moves ? ' one by one' : '') || 'nothing that is listed';
const rows = runs.slice(0, MOST_POINTS).map((run) => element('tr', {},
element('td', {}, spanLink(runSpan(run))), words('td', sourcesText(run), 'mono')));
const late = Number(data.facts.points) - total(runs, (run) => run.count);
const caption = [runs.length > MOST_POINTS ? `The first ${MOST_POINTS} of ${decimal(runs.length)}.` : '',
late > 0 ? `${many(late, 'point')} lie after the run's end.` : ''];
fillTable(byId('points').querySelector('table'), caption.join(' '), ['Point', 'came from'], rows); }
function start() { data = read(byId('data').textContent); document.querySelector('main').hidden = false;
markRows(); showFacts(); showChannels(); byId('hex').checked = !areText([...data.inputs, ...data.outputs]);
panes = [new Pane('in', data.inputs), new Pane('out', data.outputs)]; showPoints(); setTimeout(showRecords);
byId('before').onclick = () => step(-1, 'out'); byId('after').onclick = () => step(1, 'out');
byId('tools').onsubmit = findNext;
for (const id of ['width', 'hex', 'broken']) byId(id).onchange = () => panes.forEach((pane) => pane.layOut());
addEventListener('beforeprint', () => panes.forEach((pane) => pane.draw(true)));
addEventListener('afterprint', () => panes.forEach((pane) => pane.draw())); }
try { start(); } catch (error) { byId('facts').textContent = `This page can't be shown: ${error.message}.`;
throw error; } </script> </body> </html>
"#;
