ghost use Rattle.std.specs.Prelude.{◌≡◌, ◌≤◌, ◌&&◌, true, [], ◌∷◌, ◌++◌, length, slice_get, option_copied, IfOk, OnOk, OnErr};
ghost use Rattle.kn_rising.specs.Members.{place_in, AreRising};
ghost use Rattle.kn_ends.specs.Numbers.{at, without};
ghost use Rattle.kn_ends.specs.Inlets.{numbers_of, change_place, ends_below, without_number, AreKept};
ghost use Rattle.kn_ends.specs.Carriers.{inlet_at, change_inlet, read_by, read_count, with_read, with_popped, with_end, with_reset};

use crate::inlet::Inlet;
use kn_grpc::{MessageError, Messages};
use kn_io::NoMemory;
use std::alloc::Global;
use std::marker::Model;

/// The inlets of a connection, in the order in which they came. Contracts see the list. As long as the numbers of
/// their streams rise, one is found by halves.
#[derive(Drop)]
pub struct Inlets {
    /// The numbers of their streams.
    streams: Vec<u64>,
    items: Vec<Inlet>,
    /// The numbers rise.
    rising: bool,
}

impl Model for Inlets {
    ghost use Rattle.std.specs.Prelude.{List};
    ghost use Rattle.kn_ends.specs.declared.inlet.Inlet.{Inlet};

    ghost Value = { List Inlet };

    ghost use Rattle.kn_ends.specs.Inlets.{AreKept};

    ghost view = { λ s. s.items.items };

    ghost invariant = { λ s. AreKept s.streams.items s.items.items s.rising };
}

/// The place of a number, or the length where it is not there, by going over all.
fn scan(streams: &[u64], number: u64) -> usize
    ensures { result ≡ place_in streams.now number }
{
    let mut place = 0;
    while place < streams.len() {
        if streams[place] == number {
            return place;
        }
        place += 1;
    }
    place
}

/// The place of a number, or the length where it is not there.
fn place_of(streams: &[u64], rising: bool, stream: u32) -> usize
    requires { rising ≡ true → AreRising streams.now }
    ensures { result ≡ place_in streams.now stream }
{
    let number = u64::from(stream);
    if rising {
        kn_rising::place_of(streams, number)
    } else {
        scan(streams, number)
    }
}

/// The last number is below this one, or there is none.
fn ends_below(streams: &[u64], number: u64) -> bool
    ensures { result ≡ ends_below number streams.now }
{
    match streams.last() {
        Some(last) => *last < number,
        None => true,
    }
}

fn both(a: bool, b: bool) -> bool
    ensures { result ≡ (a && b) }
{
    a && b
}

fn item_at(items: &[Inlet], place: usize) -> Option<&Inlet>
    ensures { option_copied result ≡ slice_get items.now place }
{
    items.get(place)
}

/// Text goes to the message under way, as far as it reaches; where no message begins so, all of it is dropped.
fn read_one(inlet: &mut Inlet, text: &[u8]) -> Result<usize, NoMemory>
    ensures count { IfOk result (λ n. n ≡ read_by inlet.old.messages text.now) }
    ensures within { IfOk result (λ n. n ≤ length text.now) }
    ensures inlet { OnOk result (inlet.new ≡ with_read text.now inlet.old) }
    ensures same { inlet.new.stream ≡ inlet.old.stream }
{
    match inlet.messages.feed(text) {
        Ok(count) => Ok(count),
        Err(MessageError::Fault(_fault)) => Ok(text.len()),
        Err(MessageError::NoMemory) => Err(NoMemory),
    }
}

fn read_in(items: &mut Vec<Inlet>, place: usize, text: &[u8]) -> Result<usize, NoMemory>
    ensures count { IfOk result (λ n. n ≡ read_count (slice_get items.old.items place) text.now) }
    ensures within { IfOk result (λ n. n ≤ length text.now) }
    ensures items { OnOk result (items.new.items ≡ change_place items.old.items place (with_read text.now)) }
    ensures same { numbers_of items.new.items ≡ numbers_of items.old.items }
{
    match items.get_mut(place) {
        Some(inlet) => read_one(inlet, text),
        None => Ok(text.len()),
    }
}

fn pop_one(inlet: &mut Inlet, alloc: Global)
    ensures { inlet.new ≡ with_popped inlet.old }
{
    inlet.messages.pop(alloc);
}

fn pop_in(items: &mut Vec<Inlet>, alloc: Global, place: usize)
    ensures items { items.new.items ≡ change_place items.old.items place with_popped }
    ensures same { numbers_of items.new.items ≡ numbers_of items.old.items }
{
    if let Some(inlet) = items.get_mut(place) {
        pop_one(inlet, alloc);
    }
}

fn end_one(inlet: &mut Inlet)
    ensures { inlet.new ≡ with_end inlet.old }
{
    inlet.ended = true;
}

fn end_in(items: &mut Vec<Inlet>, place: usize)
    ensures items { items.new.items ≡ change_place items.old.items place with_end }
    ensures same { numbers_of items.new.items ≡ numbers_of items.old.items }
{
    if let Some(inlet) = items.get_mut(place) {
        end_one(inlet);
    }
}

fn reset_one(inlet: &mut Inlet, alloc: Global)
    ensures { inlet.new ≡ with_reset inlet.old }
{
    inlet.messages = Messages::new(alloc);
    inlet.ended = true;
}

fn reset_in(items: &mut Vec<Inlet>, alloc: Global, place: usize)
    ensures items { items.new.items ≡ change_place items.old.items place with_reset }
    ensures same { numbers_of items.new.items ≡ numbers_of items.old.items }
{
    if let Some(inlet) = items.get_mut(place) {
        reset_one(inlet, alloc);
    }
}

fn keep_others(items: &mut Vec<Inlet>, stream: u32)
    ensures { items.new.items ≡ without (λ x. x.stream) items.old.items stream }
{
    items.retain(|one| one.stream != stream);
}

fn keep_other_numbers(streams: &mut Vec<u64>, number: u64)
    ensures { streams.new.items ≡ without_number streams.old.items number }
{
    streams.retain(|one| *one != number);
}

impl Inlets {
    /// None. Takes no memory.
    pub fn new(alloc: Global) -> Inlets
        ensures { result ≡ [] }
    {
        Inlets {
            streams: Vec::new(alloc),
            items: Vec::new(alloc),
            rising: true,
        }
    }

    pub fn as_slice(&self) -> &[Inlet]
        ensures { result.now ≡ self.now }
    {
        self.items.as_slice()
    }

    /// The one of this stream.
    pub fn get(&self, stream: u32) -> Option<&Inlet>
        ensures { option_copied result ≡ at (λ x. x.stream) self.now stream }
    {
        let place = place_of(&self.streams, self.rising, stream);
        item_at(&self.items, place)
    }

    /// Puts one behind the others. An `Err` changes nothing.
    pub fn push(&mut self, item: Inlet) -> Result<(), NoMemory>
        ensures ok { OnOk result (self.new ≡ self.old ++ item ∷ []) }
        ensures err { OnErr result (self.new ≡ self.old) }
    {
        let number = u64::from(item.stream);
        let above = ends_below(&self.streams, number);
        self.streams.reserve(1)?;
        self.items.push(item)?;
        self.streams.push_reserved(number);
        self.rising = both(self.rising, above);
        Ok(())
    }

    /// Takes the one of this stream out, if there is one.
    pub fn remove(&mut self, stream: u32)
        ensures { self.new ≡ without (λ x. x.stream) self.old stream }
    {
        keep_others(&mut self.items, stream);
        keep_other_numbers(&mut self.streams, u64::from(stream));
    }

    /// Text goes to the one of this stream, and it is told how much of it was taken. Without one all is.
    #[tactic(auto, using(crate::proofs::InletLemmas::at_place, crate::proofs::InletLemmas::changes))]
    pub(crate) fn read(&mut self, stream: u32, text: &[u8]) -> Result<usize, NoMemory>
        ensures count { IfOk result (λ n. n ≡ read_count (inlet_at self.old stream) text.now) }
        ensures within { IfOk result (λ n. n ≤ length text.now) }
        ensures inlets { OnOk result (self.new ≡ change_inlet self.old stream (with_read text.now)) }
    {
        let place = place_of(&self.streams, self.rising, stream);
        read_in(&mut self.items, place, text)
    }

    /// The message that is whole is taken from the one of this stream.
    #[tactic(auto, using(crate::proofs::InletLemmas::changes))]
    pub(crate) fn pop(&mut self, alloc: Global, stream: u32)
        ensures { self.new ≡ change_inlet self.old stream with_popped }
    {
        let place = place_of(&self.streams, self.rising, stream);
        pop_in(&mut self.items, alloc, place);
    }

    /// The peer's half of this stream ended.
    #[tactic(auto, using(crate::proofs::InletLemmas::changes))]
    pub(crate) fn note_end(&mut self, stream: u32)
        ensures { self.new ≡ change_inlet self.old stream with_end }
    {
        let place = place_of(&self.streams, self.rising, stream);
        end_in(&mut self.items, place);
    }

    /// The peer reset this stream: what was under way is dropped.
    #[tactic(auto, using(crate::proofs::InletLemmas::changes))]
    pub(crate) fn note_reset(&mut self, alloc: Global, stream: u32)
        ensures { self.new ≡ change_inlet self.old stream with_reset }
    {
        let place = place_of(&self.streams, self.rising, stream);
        reset_in(&mut self.items, alloc, place);
    }
}
