//! How drawings and pages look, in the light and in the dark.

/// The shapes of a drawing, in the light.
pub const LIGHT_STYLE: &str =
    "text{font:12px Arial,Helvetica,\"Liberation Sans\",\"DejaVu Sans\",sans-serif;fill:#222;text-anchor:middle}\
.digits{font-family:\"Liberation Mono\",\"DejaVu Sans Mono\",Consolas,Menlo,monospace}\
.name{text-anchor:start;fill:#555}\
.number{fill:#666}\
.lane{stroke:#888}\
.edge{stroke:#888}\
.fold{stroke-dasharray:1 4}\
.gap{stroke:#777;stroke-width:2;stroke-dasharray:3 3}\
.silence{fill:#777}\
.area{fill:none;stroke:none;pointer-events:all}\
.paper{fill:#fff;stroke:none}\
.box{stroke:#555;rx:4px}\
.command{fill:#cfe2ff}\
.status{fill:#fff3cd}\
.data{fill:#e9ecef}\
.wrong{fill:#f8d7da;stroke:#b02a37;stroke-dasharray:4 2}\
.sent{fill:#ffe08a;stroke-width:2}\
.given{fill:#e2d9f3}\
.handed{fill:#d1e7dd}\
.error{fill:#ff8f8f;stroke:#9b1c1c}\
.busy{fill:#ffb066;stroke:#8a4b00}\
.flagged{fill:#74dfcf;stroke:#0b5f55}\
.differing{stroke:#b02a37;stroke-width:4}\
.expected{fill:#fff;stroke:#b02a37;stroke-width:2;stroke-dasharray:6 3}";

/// What has another colour on a page in the dark; on paper it is always light.
pub const DARK_STYLE: &str = "@media screen and (prefers-color-scheme:dark){\
text{fill:#eee}\
.name{fill:#bbb}\
.number{fill:#aaa}\
.lane{stroke:#888}\
.edge{stroke:#888}\
.gap{stroke:#aaa}\
.silence{fill:#aaa}\
.paper{fill:#1b1d21}\
.box{stroke:#999}\
.command{fill:#1f3d6b}\
.status{fill:#4a3f1a}\
.data{fill:#343a40}\
.wrong{fill:#5a1f27;stroke:#f1aeb5}\
.sent{fill:#6b5200}\
.given{fill:#3d2f5e}\
.handed{fill:#1c4a35}\
.error{fill:#9b1c1c;stroke:#ff8f8f}\
.busy{fill:#a45200;stroke:#ffb066}\
.flagged{fill:#0b5f55;stroke:#74dfcf}\
.differing{stroke:#f1aeb5}\
.expected{fill:#1b1d21;stroke:#f1aeb5}\
}";

/// What stands around the drawings of a page. On paper, all messages are shown, each as wide as the paper at most.
pub const PAGE_STYLE: &str = ":root{color-scheme:light dark}\
body{font:16px/1.4 Arial,Helvetica,\"Liberation Sans\",\"DejaVu Sans\",sans-serif;margin:1rem;background:#fff;color:#222}\
h1{font-size:1.4rem;overflow-wrap:anywhere}\
h2{font-size:1.1rem}\
summary{cursor:pointer;padding:.2rem 0}\
details details{margin-left:1rem}\
.run{overflow-x:auto}\
.key{vertical-align:-2px;margin-right:.4rem}\
.keys{display:flex;flex-wrap:wrap;gap:.2rem 1.2rem;list-style:none;padding:0}\
pre{overflow-x:auto}\
@media screen and (prefers-color-scheme:dark){body{background:#1b1d21;color:#eee}}\
@page{size:landscape;margin:14mm 10mm}\
@media print{\
body{margin:0;font-size:11px}\
.run{overflow:visible}\
.run svg{max-width:100%;height:auto}\
.run,summary,.keys,pre{break-inside:avoid}\
summary{break-after:avoid}\
details::details-content{content-visibility:visible;block-size:auto}\
pre{white-space:pre-wrap;overflow-wrap:anywhere}\
}";
