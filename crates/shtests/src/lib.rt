//! The tests of the reader, and of what is asked of the trees that it reads, over their public calls. The
//! tests of what stands below the reader are the crate `shtreetests`, whose refused growths and tables are
//! used here; those of what stands above it are the crates `shprinttests`, `shlivetests` and
//! `shrefusedtests`.
//!
//! Start with the module of what is tested: `grammar_bytes` has the tests of `shgrammar`, `reader_..` are
//! those of `shread` and `shpass`, `tree_append` and `tree_nodes` those of `shtree`; `reader_refused` refuses
//! each growth of memory in turn. `rows_of_..` are the tables of scripts and their trees, which
//! `reader_trees` and others go over. `dump` writes trees as short texts, and [`joined_lines`] joins the
//! lists of lines. `tree_size` is for `tests/bench`.
#![tactic(auto)]

#[cfg(test)]
mod dump;
#[cfg(test)]
mod grammar_bytes;
pub mod joined_lines;
#[cfg(test)]
mod reader_beginnings;
#[cfg(test)]
mod reader_buffers;
#[cfg(test)]
mod reader_bytes;
#[cfg(test)]
mod reader_depths;
#[cfg(test)]
mod reader_editions;
#[cfg(test)]
mod reader_lines;
#[cfg(test)]
mod reader_nodes;
#[cfg(test)]
mod reader_refused;
#[cfg(test)]
mod reader_sources;
#[cfg(test)]
mod reader_spare;
#[cfg(test)]
mod reader_trees;
#[cfg(test)]
mod rows_of_compounds;
#[cfg(test)]
mod rows_of_lines;
#[cfg(test)]
mod rows_of_lists;
#[cfg(test)]
mod rows_of_redirections;
#[cfg(test)]
mod rows_of_scripts;
#[cfg(test)]
mod rows_of_words;
#[cfg(test)]
mod tree_append;
#[cfg(test)]
mod tree_nodes;
#[cfg(test)]
mod tree_size;
