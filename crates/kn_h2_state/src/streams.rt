ghost use Rattle.std.specs.Prelude.{◌≡◌, ◌<◌, ◌≤◌, [], ◌∷◌, ◌++◌, length, slice_get, slice_set, option_copied, OnOk, OnErr, if◌then◌else◌};
ghost use Rattle.std.specs.Option.{option_copied_mut};
ghost use Rattle.std.specs.Borrow.{sem};
ghost use Rattle.kn_h2_state.specs.Streams.{stream_at, with_stream, is_open, is_kept, tidied, open_count};
ghost use Rattle.kn_h2_state.specs.Lending.{LendsStream, LendsPlace};
ghost use Rattle.kn_h2_state.specs.declared.stream.Stream.{Stream};

use crate::stream::Stream;
use kn_io::NoMemory;
use std::alloc::Global;
use std::marker::Model;

/// The streams of a connection in the order of their numbers. Contracts see the list.
#[derive(Drop)]
pub struct Streams {
    items: Vec<Stream>,
}

impl Model for Streams {
    ghost use Rattle.std.specs.Prelude.{List};
    ghost use Rattle.kn_h2_state.specs.declared.stream.Stream.{Stream};

    ghost Value = { List Stream };

    ghost view = { λ s. s.items.items };
}

/// The place of the stream of this number, or the length where there is none.
fn place_of(items: &[Stream], number: u32) -> usize
    ensures bound { result ≤ length items.now }
    ensures found { slice_get items.now result ≡ stream_at items.now number }
    ensures writes { (w : Stream) → result < length items.now → slice_set items.now result w ≡ with_stream items.now number w }
{
    let mut place = 0;
    while place < items.len() {
        if items[place].number == number {
            return place;
        }
        place += 1;
    }
    place
}

fn one_if_open(stream: &Stream) -> usize
    ensures value { result ≡ (if is_open stream.now then 1 else 0) }
    ensures bound { result ≤ 1 }
{
    if is_open(stream) { 1 } else { 0 }
}

fn count_open(items: &[Stream]) -> usize
    ensures { result ≡ open_count items.now }
{
    let mut count = 0;
    let mut place = 0;
    while place < items.len() {
        count += one_if_open(&items[place]);
        place += 1;
    }
    count
}

impl Streams {
    /// No stream. Takes no memory.
    pub fn new(alloc: Global) -> Streams
        ensures { result ≡ [] }
    {
        Streams {
            items: Vec::new(alloc),
        }
    }

    pub fn len(&self) -> usize
        ensures { result ≡ length self.now }
    {
        self.items.len()
    }

    pub fn as_slice(&self) -> &[Stream]
        ensures { result.now ≡ self.now }
    {
        self.items.as_slice()
    }

    /// The stream of this number, where the connection still has it.
    pub fn get(&self, number: u32) -> Option<&Stream>
        ensures { option_copied result ≡ stream_at self.now number }
    {
        let place = place_of(&self.items, number);
        self.items.get(place)
    }

    /// The stream of this number to be changed. Its number must stay.
    pub fn get_mut(&mut self, number: u32) -> Option<&mut Stream>
        ensures* writes_back { sem 𝓛 (LendsStream self.entry number result) }
        ensures value { option_copied_mut result ≡ stream_at self.old number }
    {
        let place = place_of(&self.items, number);
        self.items.get_mut(place)
    }

    /// The stream at a place to be changed. Its number must stay.
    pub fn at_mut(&mut self, place: usize) -> Option<&mut Stream>
        ensures* writes_back { sem 𝓛 (LendsPlace self.entry place result) }
        ensures value { option_copied_mut result ≡ slice_get self.old place }
    {
        self.items.get_mut(place)
    }

    /// Puts a stream behind the others. An `Err` changes nothing.
    pub fn push(&mut self, stream: Stream) -> Result<(), NoMemory>
        ensures ok { OnOk result (self.new ≡ self.old ++ stream ∷ []) }
        ensures err { OnErr result (self.new ≡ self.old) }
    {
        self.items.push(stream)?;
        Ok(())
    }

    /// Drops the streams of which nothing is left.
    pub fn tidy(&mut self)
        ensures { self.new ≡ tidied self.old }
    {
        self.items.retain(|stream| is_kept(stream));
    }

    /// How many streams are open.
    pub fn open_count(&self) -> usize
        ensures { result ≡ open_count self.now }
    {
        count_open(&self.items)
    }

    /// Drops all streams.
    pub fn clear(&mut self)
        ensures { self.new ≡ [] }
    {
        self.items.clear();
    }
}

/// One of the stream's halves is open.
pub fn is_open(stream: &Stream) -> bool
    ensures { result ≡ is_open stream.now }
{
    stream.peer_open || stream.own_open
}

/// The stream is open, or has text that nobody took.
pub fn is_kept(stream: &Stream) -> bool
    ensures { result ≡ is_kept stream.now }
{
    stream.peer_open || stream.own_open || !stream.text.is_empty()
}
