//! The files of the commands for CSV files: a schema, a dictionary and the tables' files, read and written anew.
#![tactic(auto)]

mod drafts;
mod files;
mod keeping;
mod source_files;
mod writing;

pub use drafts::{DiskDrafts, Draft, Drafts};
pub use files::{
    dictionary_of, encoding_dictionary, is_input_twice, needs_dictionary, paths_of, read_file,
    schema_of,
};
pub use keeping::{begin_dictionary, grown_text, keep_dictionary, write_with};
pub use source_files::SourceFiles;
pub use table_faults::{Detail, Fault, WordFault, table_fault};
pub use writing::write_text;
