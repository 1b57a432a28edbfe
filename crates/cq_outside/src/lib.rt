//! The outside of the program: sources, sinks, a desk of files and a gate. Each is a trait with the promises of its calls. They have forms
//! in memory, and a thin edge over the real system.
#![tactic(auto)]

mod arguments;
pub mod calls;
pub mod desk;
pub mod edge;
pub mod gate;
pub mod mem_desk;
pub mod mem_sink;
pub mod mem_source;
mod name_map;
pub mod read_write;
pub mod sink;
pub mod source;
pub mod sure_desk;
pub mod sure_sink;
pub mod sure_source;
pub mod system;

pub use arguments::command_words;
pub use calls::Calls;
pub use cq_common::{Bytes, Failed, NoMemory, OpenFault, Refusal};
pub use desk::Desk;
pub use edge::{FileDesk, StdSink};
pub use gate::{Gate, OpenGate};
pub use mem_desk::MemDesk;
pub use mem_sink::MemSink;
pub use mem_source::MemSource;
pub use read_write::{read_piece, read_up_to, write_all_of};
pub use sink::Sink;
pub use source::Source;
pub use sure_desk::SureDesk;
pub use sure_sink::SureSink;
pub use sure_source::SureSource;
