//! How a page with tables looks, beside its drawings.

/// Its tables, in the light and in the dark. What is wrong is told in words too.
pub const RESULTS_STYLE: &str = "table{border-collapse:collapse;margin:.5rem 0 1rem}\
th,td{border:1px solid #888;padding:.2rem .6rem;text-align:left;vertical-align:top;overflow-wrap:anywhere}\
th{background:#eee}\
thead th{overflow-wrap:normal}\
td.count{text-align:right}\
td.line{font-family:\"Liberation Mono\",\"DejaVu Sans Mono\",Consolas,Menlo,monospace}\
code{font-family:\"Liberation Mono\",\"DejaVu Sans Mono\",Consolas,Menlo,monospace;font-size:.75em;overflow-wrap:anywhere}\
#messages td{overflow-wrap:normal}\
#messages td:nth-child(8),#messages td:nth-child(11){overflow-wrap:anywhere}\
#messages tbody tr{cursor:pointer}\
#choice label{margin-right:1rem}\
.number:target{font-weight:bold;text-decoration:underline}\
h3{font-size:1rem;overflow-wrap:anywhere}\
.differs{color:#b02a37;font-weight:bold}\
@media screen and (prefers-color-scheme:dark){th,td{border-color:#777}th{background:#2b2f36}.differs{color:#f1aeb5}}\
@media print{#choice{display:none}tr,h2,h3{break-inside:avoid}h2,h3{break-after:avoid}thead{display:table-header-group}}";
