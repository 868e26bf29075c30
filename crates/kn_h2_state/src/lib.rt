// What an HTTP/2 connection holds (RFC 9113), how frames change it, and when it fails: its state, the
// queues in it, the definitions of each step, and the writing of frames.
#![tactic(auto)]

mod block_rules;
mod byte_queue;
mod codes;
mod event;
mod events;
mod failing;
mod frame_rules;
mod head_decoder;
mod judgement;
mod laws;
mod limits;
mod moves;
mod opening;
mod outgoing;
mod payload;
mod refusal;
mod role;
mod run;
mod settings;
mod state;
mod stream;
mod stream_rules;
mod streams;
#[cfg(test)]
mod tests;
mod verdict;
mod window_rules;
mod window_tests;
mod writing;

pub use block_rules::{block_ends, is_of_block};
pub use byte_queue::ByteQueue;
pub use codes::{errors, flags, kinds, setting_numbers};
pub use event::H2Event;
pub use events::Events;
pub use failing::{fail, reply, reply_frame, reply_reset};
pub use head_decoder::{HeadDecoder, HeadError};
pub use judgement::Judgement;
pub use laws::{
    all_data_splits, answered_is_kept, any_pieces, closed_text_stays, ends_are_told, fails_first,
    frames_are_answered, frames_are_heard, heads_are_written, more_is_heard, moves_are_written,
    next_block_is_read, nothing_waits_for_its_answer, opened_is_above, others_are_left,
    own_blocks_are_short, own_facts_stay, own_half_stays, own_steps_are_heard, settings_at_once,
    text_comes_with_its_event, text_grows, text_is_told, wire_splits, written_is_read,
};
pub use limits::{
    BLOCK_LIMIT, CONNECTION_WINDOW, DEFAULT_WINDOW, FRAME_LIMIT, FULL_OUT, GRANT_SIZE,
    HIGHEST_STREAM, LARGEST_WINDOW, QUEUE_LIMIT, REPLY_LIMIT, STREAM_LIMIT, STREAM_WINDOW,
};
pub use moves::Move;
pub use outgoing::Outgoing;
pub use payload::{content, has, increment, number_at};
pub use refusal::{BeginRefusal, QueueRefusal};
pub use role::Role;
pub use settings::{first_setting, last_of};
pub use state::{Block, State};
pub use stream::Stream;
pub use streams::{Streams, is_kept, is_open};
pub use verdict::judge;
pub use writing::{write_frame, write_grant};
