//! The head and the foot of the page, and its looks.

/// All before the first heading.
pub const HEAD: &str = "<!DOCTYPE html>
<html lang='en'><head><meta charset='utf-8'/><meta name='viewport' content='width=device-width, initial-scale=1'/><title>dc429 report</title><style>
:root{color-scheme:light dark;--ink:#1b1f24;--soft:#59636e;--line:#d0d7de;--back:#fff;--card:#f6f8fa;--come:#d27700;--take:#0a3a8a;--link:#0a62c4;--wait:#8a3ffc;--late:#08783e;--bad:#c3232b;--good:#08783e;--band:#3f8f5f}
@media (prefers-color-scheme:dark){:root{--ink:#e6edf3;--soft:#9aa7b4;--line:#3a434d;--back:#0d1117;--card:#161b22;--come:#ffd08a;--take:#3378d4;--link:#6cb6ff;--wait:#c9a2ff;--late:#57d38c;--bad:#ff7b72;--good:#57d38c;--band:#57d38c}}
*{box-sizing:border-box}
body{margin:0 auto;padding:16px;max-width:1100px;background:var(--back);color:var(--ink);font:16px/1.5 system-ui,sans-serif;overflow-wrap:break-word}
h1{font-size:1.6em;margin:.2em 0}h2{margin:1.6em 0 .4em;border-bottom:1px solid var(--line)}h3{margin:0 0 .2em}h4{margin:.9em 0 .2em}
p{margin:.3em 0}small,.s{color:var(--soft);font-size:.875em}.s small,.g small{font-size:1em}.n small{white-space:nowrap}
.verdict{padding:8px 16px;border-left:8px solid var(--good);background:var(--card)}.verdict.no{border-color:var(--bad)}
.card{margin:12px 0;padding:12px 16px;background:var(--card);border:1px solid var(--line);border-radius:6px}
.two{display:flex;flex-wrap:wrap;gap:8px 24px}.two>*{flex:1 1 320px;min-width:0}
.l{border-top:1px solid var(--line);break-inside:avoid}.rows td{white-space:nowrap}.sum td:last-child{color:var(--soft)}.g{display:grid;grid-template-columns:repeat(auto-fit,minmax(220px,1fr));gap:4px 24px;font-size:.875em}
svg{display:block;width:100%;max-width:520px;height:auto;overflow:visible;font:11px system-ui,sans-serif}svg text{fill:var(--ink);paint-order:stroke;stroke:var(--card);stroke-width:3px;stroke-linejoin:round}a{color:var(--link)}
table{border-collapse:collapse;width:100%;font-size:.9em}th,td{text-align:left;vertical-align:top;padding:3px 8px 3px 0;border-top:1px solid var(--line)}th{font-weight:600;color:var(--soft);border:0}
.n{white-space:nowrap}.no td,b.no,.todo{color:var(--bad)}.no td{font-weight:600}.todo ul{margin:0 0 .6em}
.k{display:inline-block;width:22px;height:0;border-top:3px solid;margin-right:6px;vertical-align:middle}.k.a{color:var(--come)}.k.s{color:var(--take);border-top-style:dashed}.k.q{color:var(--take)}.k.w{color:var(--wait)}.k.t{color:var(--late)}.k.g{border-width:12px;color:var(--band)}.k.r{color:var(--bad)}.k.m{color:var(--ink)}
path{fill:none;stroke:var(--ink);stroke-width:2}.x{stroke:var(--soft);stroke-width:1}.y{stroke:var(--line);stroke-width:1}.z{stroke-width:1;stroke-dasharray:5 4}
.a,.d{stroke:var(--come)}.s,.e,.q{stroke:var(--take)}.w{stroke:var(--wait)}.t{stroke:var(--late)}.r{stroke:var(--bad)}
.a,path.s{stroke-width:2.5}path.s{stroke-dasharray:7 3}.f{stroke:var(--back);stroke-width:4}.g svg,.h svg{border-bottom:1px solid var(--soft)}.b{stroke:var(--band);stroke-width:8}.d{stroke-width:6}.q{stroke-width:10}.o{stroke:var(--come);stroke-width:10}
@media (max-width:560px){.n{white-space:normal}.card{padding:10px}}
@page{margin:14mm;@bottom-right{content:counter(page) ' / ' counter(pages)}}
@media print{body{max-width:none;font-size:10pt;padding:0}.card{background:none;break-inside:avoid;max-height:118mm}.n,.n small{white-space:normal}.two svg{max-width:420px}h2,h3,h4,h2+.s{break-after:avoid}thead{display:table-header-group}tr{break-inside:avoid}a{color:inherit;text-decoration:none}}
</style></head><body>
<h1>Certification report</h1>
";

/// All after the last section.
pub const FOOT: &str =
    "<p class='s'>Made by dc429. That an accepted certificate keeps its claims is proved; that this page shows the right numbers is tested.</p>
</body></html>";
