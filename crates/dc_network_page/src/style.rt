//! The head and the foot of the page, and its looks.

/// All before the verdict.
pub const HEAD: &str = "<!DOCTYPE html>
<html lang='en'><head><meta charset='utf-8'/><meta name='viewport' content='width=device-width, initial-scale=1'/>
<title>dc429 network report</title><style>
:root{color-scheme:light dark;--ink:#1b1f24;--soft:#59636e;--line:#d0d7de;--back:#fff;--card:#f6f8fa;
--come:#d27700;--take:#0a3a8a;--good:#08783e}
@media (prefers-color-scheme:dark){:root{--ink:#e6edf3;--soft:#9aa7b4;--line:#3a434d;--back:#0d1117;--card:#161b22;
--come:#ffd08a;--take:#3378d4;--good:#57d38c}}
*{box-sizing:border-box}
body{margin:0 auto;padding:16px;max-width:1100px;background:var(--back);color:var(--ink);font:16px/1.5 system-ui,sans-serif}
body{overflow-wrap:break-word}code{overflow-wrap:anywhere}
h1{font-size:1.6em;margin:.2em 0}h2{margin:1.6em 0 .4em;border-bottom:1px solid var(--line)}h3{margin:0 0 .2em}
p{margin:.3em 0}small,.s{color:var(--soft);font-size:.875em}
.verdict{padding:8px 16px;border-left:8px solid var(--good);background:var(--card)}
.card{margin:12px 0;padding:12px 16px;background:var(--card);border:1px solid var(--line);border-radius:6px;overflow-x:auto}
table{border-collapse:collapse;width:100%;font-size:.9em}
th,td{text-align:left;vertical-align:top;padding:3px 8px 3px 0;border-top:1px solid var(--line)}
th{font-weight:600;color:var(--soft);border:0}tr{break-inside:avoid}
.k{display:inline-block;width:0;height:0;border:6px solid;border-width:6px 11px;margin-right:6px;vertical-align:middle}
.k.t{color:var(--take)}.k.l{color:var(--come)}
svg{display:block;overflow:visible;font:11px system-ui,sans-serif}svg text{fill:var(--ink)}
.net,.wide{overflow-x:auto}.net text{font-size:10.5px;paint-order:stroke;stroke:var(--back);stroke-width:3px}
.net .name{font-size:13px;font-weight:600}.box{fill:var(--card);fill-opacity:.85;stroke:var(--ink);stroke-width:1.5}
.l{fill:none;stroke:var(--come);stroke-width:.8}.few .l{stroke-width:1.5}.net .l:hover{stroke:var(--take);stroke-width:4}
.bar{margin:.6em 0;break-inside:avoid}.bar svg{width:100%;height:14px}.in,.on{fill:none;stroke:var(--take);stroke-width:14}
.on{stroke:var(--come)}
@media (max-width:560px){.card{padding:10px}}
@media print{body{max-width:none;font-size:11pt;padding:0}.card{background:none}.net svg{width:100%;height:auto}}
</style></head><body>
<h1>Report on a network</h1>
";

/// All after the last section.
pub const FOOT: &str =
    "<p class='s'>Made by dc429. That an accepted network keeps its claims is proved; that this page shows the right numbers is tested.</p>
</body></html>";
