//! The tools of the program `shform` that need no open script: a check and a print over readers and writers.
//! Here too are the words of the command line, and what is told where a run is given up.
//!
//! Start with [`settings`], which reads the words: the `plain_words` of most runs by itself, all others by
//! `clap`. [`check_engine`] and [`print_engine`] read the script piece by piece into a `sink`, which is a
//! `partial_script`, for a print with its text a `printed_part`; they have the first fault or the text from
//! the reader and the printer, and tell the one by `report`, or write the other. [`read_whole`] reads it into
//! a vector, and [`give_up`] tells why there is no answer. [`Gathering`] stands before a device, which takes
//! by one write what is written up to a flush. The ends, which remember how their devices fared, are those of
//! `shtext`.
#![tactic(auto)]

mod asked;
mod drop_front;
mod engine;
mod gathering;
mod partial_script;
mod passing;
mod plain_words;
mod printed_part;
mod report;
mod sink;
mod usage;
mod words;

pub use asked::{Settings, Tool};
pub use engine::{check_engine, print_engine, read_whole};
pub use gathering::Gathering;
pub use report::{RunError, give_up};
pub use usage::Usage;
pub use words::settings;
