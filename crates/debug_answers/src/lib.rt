//! What a debugger is answered that only looks: registers, memory, threads, processes, pipes,
//! descriptors and sleepers of one moment, read from the kernel's state and put behind a text.
#![tactic(auto)]

mod description;
mod features;
mod files;
mod lines;
mod memory;
mod names;
mod one_page;
mod others;
mod pages;
mod parts;
mod processes;
mod registers;
mod stops;
mod stretches;
mod tables;
mod texts;
mod thread_list;
mod threads;
mod waits;

pub use description::description_text;
pub use features::{put_command_forms, put_features, put_goal_form, put_goal_line, put_page_form};
pub use files::{put_exec_file, put_file_opened, put_file_piece, put_file_status, put_name_told};
pub use memory::put_memory;
pub use one_page::page_lines;
pub use parts::put_part;
pub use processes::{process_lines, process_numbered};
pub use registers::{put_register, put_registers};
pub use stops::{fault_signal, put_console, put_stop, put_stopped};
pub use stretches::pages_lines;
pub use tables::{end_lines, pipe_lines, sleeper_lines, thread_lines};
pub use texts::{put_text, put_words};
pub use thread_list::put_thread_list;
pub use threads::{is_listed, put_current, put_threads};
