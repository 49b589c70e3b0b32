//! What stands before and behind the content of a page: its head with the rules of its look, for screens from 400 pixels on, in light and
//! dark, and for print.
/// Before the content.
pub(crate) static BEGIN: &[u8] = b"<!DOCTYPE html>\n\
<html lang=\"en\">\n\
<head>\n\
<meta charset=\"utf-8\"/>\n\
<meta name=\"viewport\" content=\"width=device-width, initial-scale=1\"/>\n\
<meta http-equiv=\"Content-Security-Policy\" content=\"default-src 'none'; style-src 'unsafe-inline'\"/>\n\
<title>Minimal cut sets</title>\n\
<style>\n\
:root{color-scheme:light dark;--ink:#1b1f24;--soft:#57606a;--edge:#c4ccd4;--back:#fff;--panel:#f3f5f8;--level:#0b5cad;--under:#d9e9fa;\
--box:#e9edf2;--fault:#b3261e;--struck:#fff}\n\
@media (prefers-color-scheme:dark){:root{--ink:#e6edf3;--soft:#a5b0bc;--edge:#3d444d;--back:#0d1117;--panel:#161b22;--level:#79b8ff;\
--under:#12355b;--box:#262d36;--fault:#ff9a8f;--struck:#2a0705}}\n\
*{box-sizing:border-box}\n\
body{margin:0 auto;max-width:80rem;padding:1.5rem;background:var(--back);color:var(--ink);font:1rem/1.5 system-ui,sans-serif}\n\
h1{font-size:1.75rem;margin:0 0 1rem}\n\
h2{font-size:1.25rem;margin:2.5rem 0 .75rem;overflow-wrap:anywhere}\n\
code,svg{font-family:ui-monospace,monospace}\n\
code{font-size:.9em}\n\
code{margin-right:.25em}\n\
td code,th code{white-space:nowrap}\n\
dl{display:flex;flex-wrap:wrap;gap:.75rem;margin:0 0 1.5rem}\n\
dl div{background:var(--panel);border:1px solid var(--edge);border-radius:.5rem;padding:.5rem 1rem}\n\
dt{color:var(--soft);font-size:.875rem}\n\
dd{margin:0;font-weight:600}\n\
.wide{overflow-x:auto;margin:0 0 1rem}\n\
.wide:focus-visible{outline:2px solid var(--level);outline-offset:2px}\n\
table{border-collapse:collapse}\n\
caption{text-align:left;color:var(--soft);padding:0 0 .25rem}\n\
th,td{padding:.25rem .75rem;text-align:left;vertical-align:top;border-bottom:1px solid var(--edge)}\n\
th{font-weight:600}\n\
tbody th{font-weight:400}\n\
thead th{border-bottom:2px solid var(--ink)}\n\
section tbody td,section tbody th{border-bottom:0}\n\
section tbody .first td,section tbody .first th{border-top:1px solid var(--edge)}\n\
.strikes{color:var(--fault);font-weight:600}\n\
svg{display:block}\n\
svg text{fill:var(--ink);font-size:12px}\n\
svg .name{font-size:13px}\n\
svg .moment{fill:var(--soft);text-anchor:middle}\n\
svg .struck{fill:var(--struck);font-weight:600}\n\
.grid{stroke:var(--edge);stroke-dasharray:2 3;fill:none}\n\
.level{stroke:var(--level);stroke-width:2;fill:none}\n\
.under{fill:var(--under)}\n\
.symbol{fill:var(--box);stroke:var(--edge)}\n\
.fault{fill:var(--fault);stroke:var(--fault)}\n\
@media (max-width:40rem){body{padding:1rem}th,td{padding:.25rem .5rem}}\n\
@media print{:root{color-scheme:light;--ink:#000;--soft:#444;--edge:#999;--back:#fff;--panel:#fff;--level:#0b5cad;--under:#d9e9fa;\
--box:#eee;--fault:#b3261e;--struck:#fff}body{max-width:none;padding:0;font-size:10pt}.wide{overflow:visible}svg{max-width:100%;\
height:auto}tr,svg,dl div{break-inside:avoid}h2{break-after:avoid}}\n\
</style>\n\
</head>\n\
<body>\n\
<main>\n\
<h1>Minimal cut sets</h1>\n\
";

/// Behind the content.
pub(crate) static END: &[u8] = b"</main>\n\
</body>\n\
</html>\n\
";
