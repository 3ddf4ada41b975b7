//! How a page looks.

/// The page's style: two palettes, and no state that is told by its colour alone.
pub(crate) const STYLE: &str = "
:root{color-scheme:light dark;--ink:#1d232b;--soft:#55606e;--paper:#fff;--panel:#f4f6f8;--line:#cfd6de;
--good:#0b6b3a;--bad:#a5221b;--wait:#8a5200;--mark:#1857a4}
@media(prefers-color-scheme:dark){:root{--ink:#e4e8ed;--soft:#a3adb9;--paper:#14181d;--panel:#1d232a;
--line:#3a444f;--good:#6fd39b;--bad:#ff9087;--wait:#f2bf6a;--mark:#8fbcff}}
*{box-sizing:border-box}
body{margin:0;background:var(--paper);color:var(--ink);font:16px/1.5 system-ui,sans-serif}
header,main{max-width:72rem;margin:0 auto;padding:0 1.25rem}
header{padding-top:1.5rem}
main{padding-bottom:3rem}
h1{font-size:1.5rem;line-height:1.25;margin:0 0 .25rem;overflow-wrap:anywhere}
h2{font-size:1.15rem;margin:2.25rem 0 .6rem;border-bottom:1px solid var(--line);padding-bottom:.25rem}
h2::first-letter{text-transform:uppercase}
h3{font-size:1.02rem;margin:0 0 .6rem;overflow-wrap:anywhere}
p{margin:.4rem 0}
.soft{color:var(--soft)}
article{border:1px solid var(--line);border-left:.35rem solid var(--mark);border-radius:.3rem;
background:var(--panel);padding:.9rem 1.1rem;margin:0 0 1rem}
article.chosen{border-left-color:var(--good)}
article.bad{border-left-color:var(--bad)}
article.open{border-left-color:var(--wait)}
dl{display:grid;grid-template-columns:max-content minmax(0,1fr);gap:.3rem 1rem;margin:0}
dt{color:var(--soft);font-weight:600;grid-column:1}
dd{margin:0;grid-column:2}
dd,li{overflow-wrap:anywhere}
ul,ol{margin:.2rem 0;padding-left:1.25rem}
pre,code,svg text,td{font:13px/1.5 ui-monospace,\"DejaVu Sans Mono\",monospace}
pre{overflow-x:auto;background:var(--paper);border:1px solid var(--line);border-radius:.3rem;
padding:.6rem .8rem;margin:.4rem 0}
summary{cursor:pointer;color:var(--mark)}
:focus-visible{outline:2px solid var(--mark);outline-offset:2px}
.scroll{overflow-x:auto;border:1px solid var(--line);border-radius:.3rem}
table{border-collapse:collapse;width:100%}
th,td{text-align:left;vertical-align:top;padding:.22rem .7rem;border-bottom:1px solid var(--line);white-space:nowrap}
th{font-weight:600;background:var(--panel)}
td.n{color:var(--soft);text-align:right;width:1%}
tr.bad td{color:var(--bad)}
tr.chosen td{color:var(--good)}
tr.open td{color:var(--wait)}
tr.event td{background:var(--panel);font-weight:600;white-space:normal}
svg{display:block;margin:.5rem}
svg text{fill:var(--ink)}svg .soft{fill:var(--soft)}svg .name{font-weight:700}
svg path{fill:none;stroke:var(--line);stroke-width:2}svg .late{stroke-dasharray:3 4}
svg .way{stroke:var(--good);stroke-width:3}
svg .shape{fill:var(--paper);stroke:var(--soft);stroke-width:2}
svg .chosen{fill:var(--good);stroke:var(--good)}svg .open{fill:var(--wait);stroke:var(--wait)}
svg .bad{fill:var(--bad);stroke:var(--bad)}
svg .token{fill:var(--paper);stroke-dasharray:3 2}
svg text.chosen{stroke:none;fill:var(--good)}svg text.open{stroke:none;fill:var(--wait)}
svg text.bad{stroke:none;fill:var(--bad)}
";
