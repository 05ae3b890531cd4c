//! The commands of `rt1553-tool` that read profiles and tables of documents: `explain`, `differ`, `lint`, `import`, `export` and `toml`.
#![tactic(auto)]

mod differ;
mod explain;
mod export;
mod import;
mod lint;
mod profile_toml;

pub use differ::differ_profiles;
pub use explain::explain_profile;
pub use export::export_file;
pub use import::{check_import, import_file};
pub use lint::lint_files;
pub use profile_toml::write_toml;
