// Makes the lines that the programs print.
// listing.rt makes the lines of a listing, slipping.rt those of the slips, speaking.rt that of a decoded frame, telling.rt what goes to standard error.
// What each line says is defined in crate `lines_rules`; those of a journal's records are made in `lines_records`. Crate `texts` puts text into a line,
// `texts_printing` prints it.

#![tactic(auto)]

mod listing;
mod slipping;
mod speaking;
mod telling;

pub use listing::{end_line, frame_line, frame_words, gap_line, refused_line};
pub use slipping::{slip_line, slip_of, slips_end_line};
pub use speaking::{refused_frame_line, speech_line};
pub use telling::{left_out_line, refusal_line};
pub use texts::Line;
