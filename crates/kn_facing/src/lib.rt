//! Two ends of one HTTP/2 connection that face each other: what an end writes, the other takes.
//! It has no code that runs: its functions are laws.
#![tactic(auto)]

mod laws;

pub use laws::{
    answer_keeps_faces, begin_keeps_faces, calls_keep_faces, ends_keep_faces, faces_begin,
    faces_have_one_stream, faces_turn, facing_goes_on, few_are_read, followed_stays,
    frames_are_taken_in_turn, frames_keep_faces, frames_keep_followed, frames_move_windows,
    halves_stay_open, heads_are_taken, more_are_taken, moves_keep_faces, other_frames_are_taken,
    own_steps_move_windows, own_steps_take, pieces_are_read, reading_keeps_faces, steps_keep_faces,
    text_is_taken, unended_streams_are_heard, wires_carry_frames,
};
