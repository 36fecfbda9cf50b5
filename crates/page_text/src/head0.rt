//! A part of the page's constant texts. Made from page/page.html by page/make_text.

/// The part.
pub(crate) const TEXT: &[u8] = br#"<!--jet page-->
<!DOCTYPE html> <html lang="en"> <head> <meta charset="utf-8">
<meta name="viewport" content="width=device-width, initial-scale=1">
<meta http-equiv="Content-Security-Policy" content="default-src 'none'; style-src 'sha256-gTxU8PPbUBbluw5IbELzxnpncTHDATKs+eWa8PENnaU='; script-src 'sha256-PZygSVu28gy6q/rlk5718vSHAJsX7vCljc83DNqxWDI='; base-uri 'none'; form-action 'none'">
<title>jet: where each output byte came from</title> <style>
@property --lit { syntax: "<color>"; inherits: true; initial-value: orange; }
@property --foreign { syntax: "<color>"; inherits: true; initial-value: red; }
@property --accent { syntax: "<color>"; inherits: true; initial-value: blue; }
:root { color-scheme: light dark; --paper: light-dark(#ffffff, #16181c); --raised: light-dark(#f4f5f7, #202329);
--edge: light-dark(#c9cdd4, #414753); --ink: light-dark(#16181c, #e8eaee);
--faint: light-dark(#5f6673, #9aa2b1); --chosen: light-dark(#c4dcff, #17407c);
--lit: light-dark(#ffdf7a, #5a4300); --found: light-dark(#c9efc9, #15481f);
--foreign: light-dark(#a80019, #ffaeae); --accent: light-dark(#0b57d0, #8ab4f8);
--bytes: ui-monospace, "SF Mono", Menlo, Consolas, "DejaVu Sans Mono", monospace; }
* { box-sizing: border-box; }
body { margin: 0; background: var(--paper); color: var(--ink); font: 14px/1.45 system-ui, sans-serif; }
header, main > section { padding: 0.6rem 1.25rem; }
header { background: var(--raised); border-bottom: 1px solid var(--edge); }
h1 { margin: 0; font-size: 1.15rem; } h2 { margin: 0 0 0.5rem; font-size: 1rem; }
p { margin: 0.2rem 0; max-width: 90rem; }
code, .mono { font-family: var(--bytes); font-size: 0.93em; overflow-wrap: anywhere; }
.faint { color: var(--faint); } .alarm { color: var(--foreign); font-weight: 600; }
table { border-collapse: collapse; } caption { text-align: left; padding: 0.25rem 0; color: var(--faint); }
th, td { padding: 0.15rem 0.6rem 0.15rem 0; text-align: left; vertical-align: baseline; }
th { font-weight: 600; border-bottom: 1px solid var(--edge); } #channels select { max-width: 6.5rem; }
#channels input:not([type]) { width: 8.5rem; } @supports (field-sizing: content) {
#channels select { field-sizing: content; max-width: 11rem; } }
td.number, th.number { text-align: right; font-variant-numeric: tabular-nums; }
tr.foreign td { color: var(--foreign); }
button, select, input { font: inherit; color: inherit; background: var(--paper); padding: 0.1rem 0.4rem; }
button, select, input, #told, .frame { border: 1px solid var(--edge); border-radius: 4px; }
button { cursor: pointer; }
button.link { border: 0; padding: 0; background: none; color: var(--accent); text-decoration: underline; }
button.link { font-family: var(--bytes); font-size: 0.93em; text-align: left; }
input[type="number"] { width: 4.5rem; }
:focus-visible { outline: 2px solid var(--accent); outline-offset: 1px; }
body { display: grid; grid-template-rows: auto minmax(0, 1fr); height: 100vh; min-height: 34rem; }
main:not([hidden]) { display: grid; grid-template-columns: minmax(0, 4fr) minmax(0, 9fr); min-height: 0; }
#summary { overflow: auto; scrollbar-width: thin; border-right: 1px solid var(--edge); }
#summary section { margin-bottom: 0.75rem; }
.scroll { max-height: 14rem; overflow: auto; scrollbar-width: thin; }
.scroll th { position: sticky; top: 0; background: var(--paper); }
#bytes { display: grid; gap: 0.5rem 1rem; min-height: 0; }
#bytes { grid-template: auto auto minmax(0, 1fr) / minmax(0, 1fr) minmax(0, 1fr); }
#tools, #told { grid-column: 1 / -1; }
#tools { display: flex; flex-wrap: wrap; gap: 0.25rem 1.25rem; align-items: center; margin: 0; }
#tools input[type="search"] { min-width: 0; max-width: 100%; }
#told { height: 7.5rem; overflow: auto; background: var(--raised); padding: 0.4rem 0.75rem; }
#told ul { margin: 0; padding: 0; list-style: none; }
.side { display: grid; grid-template-rows: auto minmax(0, 1fr); min-width: 0; min-height: 0; }
.side h2 { display: flex; flex-wrap: wrap; gap: 0 0.75rem; align-items: baseline; }
.frame { display: flex; min-height: 0; }
.frame canvas { flex: none; width: 14px; height: 100%; cursor: pointer; }
.frame canvas { background: var(--raised); border-left: 1px solid var(--edge); }

.pane { flex: 1; overflow: auto; position: relative; font: 12px/18px var(--bytes); cursor: default; user-select: none; }
.lines { position: absolute; top: 0; left: 0; min-width: 100%; }
.line { display: flex; height: 18px; white-space: pre; }
.line .record, .line .offset { flex: none; color: var(--faint); text-align: right; padding-right: 1ch; }
.line .record { width: calc(var(--record) * 1ch); } .line .offset { width: calc(var(--offset) * 1ch); }
.line .hex, .line .text { flex: none; padding-left: 1ch; }
.line .hex { min-width: calc(var(--width) * 3ch + 1ch); } .hex span { padding: 0 0.5ch; }
.title { color: var(--faint); font-weight: 600; padding-left: 1ch; background: var(--raised); }
.frame, .pane, #told { contain: size layout; }
.line span span { border-block: 1px solid transparent; } .silent { color: var(--faint); }
.outside { color: var(--faint); font-style: italic; } .starts { box-shadow: inset 1px 0 var(--edge); }
.found { background: var(--found); color: var(--ink); }
.lit { background: var(--lit); color: var(--ink); border-color: currentcolor !important; }
.chosen { background: var(--chosen); color: var(--ink); }
.line .foreign { color: var(--foreign); text-decoration: underline dotted; }
.cursor { outline: 2px solid var(--accent); outline-offset: -1px; }
@media (max-width: 60rem) { body { height: auto; }
main:not([hidden]) { grid-template: minmax(0, 34vh) auto / minmax(0, 1fr); }
#summary { border-right: 0; border-bottom: 1px solid var(--edge); }
#bytes { grid-template: auto auto 24rem 24rem / minmax(0, 1fr); }
header, main > section { padding: 0.5rem 0.6rem; } }
@media print { :root { color-scheme: light; }
#tools, .frame canvas, main button:not(.link), main label { display: none; }
body, main:not([hidden]), #bytes { display: block; height: auto; }
#summary, #told, .scroll, .frame, .pane { height: auto; max-height: none; overflow: visible; contain: none; }
.lines { position: static; transform: none !important; } .sizer { display: none; }
.line, tr { break-inside: avoid; } body { print-color-adjust: exact; } } </style> </head> <body> <header>
<h1>Where each output byte came from</h1>
<p id="facts">This page is not whole, or scripts are off. Without a script it shows nothing;
<code>jet query</code> writes the same as text.</p> </header> <main hidden>
<section id="summary" aria-label="Summary" tabindex="0"> <section> <h2>Records</h2>
<p id="alarm">Being counted.</p>
<p><button type="button" id="before">Previous</button> <button type="button" id="after">Next</button></p>
<div class="scroll" tabindex="0" role="region" aria-label="Patterns of flow between records">
<table id="patterns"></table> </div> </section> <section> <h2>Channels</h2> <table id="channels"></table>
<p class="faint">With flow: input bytes that came to something listed, output bytes that have a source.</p>
</section> <section id="points" hidden> <h2>Points inside the run</h2>
<p class="faint">Registers and memory, each after so many steps, and what they came from.</p>
<div class="scroll" tabindex="0" role="region" aria-label="Points inside the run"><table></table></div>
</section> </section>
<section id="bytes" aria-label="Bytes"> <form id="tools"> <label>Bytes a line <select id="width">
<option>auto</option><option>4</option><option>8</option><option>16</option>
<option>24</option><option>32</option><option>48</option><option>64</option> </select></label>
<label><input type="checkbox" id="hex"> hex</label>
<label><input type="checkbox" id="broken" checked> a line for each record</label> <label>Find <select id="what">
<option value="text">text</option><option value="hex">hex digits</option>
<option value="in">input bytes</option><option value="out">output bytes</option> </select></label>
<input id="wanted" type="search" aria-label="What to find" size="22" spellcheck="false" autocomplete="off">
<button>Find next</button> <output id="matches" aria-label="Matches"></output> <details>
<summary>Keys and marks</summary>
<p>Bytes are named <code>channel:offset</code>, and ranges <code>channel:from-past</code>; the byte at <code>past</code>
isn't one of them.</p>
<p>Yellow and ruled: what the chosen or pointed byte came from or came to. Blue: chosen. Green: found. Grey: without a
listed source, or came to nothing listed; grey and slanted: not asked for. Red and dotted: from a record other than the
own one, or came to such a one. A written record's own record of an input is the newest that reached it. A thin line
stands where joined bytes begin.</p>
<p>Arrows, Page Up and Down, Home and End move the cursor in a pane; with Shift they select. Enter goes to the first lit
byte on the other side. <kbd>a</kbd> selects the bytes that are joined with this one, <kbd>r</kbd> its record,
<kbd>n</kbd> and <kbd>p</kbd> go to the next and the last of a foreign record, <kbd>/</kbd> to the search, Escape clears.
Copying in a pane takes the report's lines of what is selected. A double click selects joined bytes, a click on
<code>#</code> a record.</p>
<p>Where records begin with a text, each goes on up to the next line that begins with it.</p> </details> </form>
<div id="told" role="status" aria-label="The chosen bytes"></div> <div class="side" id="inputs">
<h2>Inputs <span class="faint"></span></h2> <div class="frame">
<div class="pane" tabindex="0" role="application" aria-label="Input bytes" aria-describedby="told"></div>
<canvas aria-hidden="true"></canvas> </div> </div> <div class="side" id="outputs">
<h2>Outputs <span class="faint"></span></h2> <div class="frame">
<div class="pane" tabindex="0" role="application" aria-label="Output bytes" aria-describedby="told"></div>
<canvas aria-hidden="true"></canvas> </div> </div> </section> </main>
<script type="text/plain" id="data">"#;
