ghost use Rattle.std.specs.Prelude.{◌≡◌, ◌+◌, ◌^◌, ◌<◌, ◌∷◌, length, string_bytes, IfOk, MatchResult};
ghost use Rattle.std.specs.Result.{result_ok};
ghost use Rattle.kn_route.specs.Identifiers.{identifiers_in};
ghost use Rattle.kn_route.specs.Listing as spec;
ghost use Rattle.kn_route.specs.Cuts.{IsStripped};
ghost use Rattle.kn_route.specs.LinkLists.{no_links};
ghost use Rattle.kn_route.specs.Steps.{steps};

use crate::cut::first_part;
use crate::identifiers::{IdFault, Identifiers};
use crate::links::Links;
use crate::strategy::Strategy;
use kn_io::{NoMemory, Text};
use std::alloc::{AllocError, Global};

/// Why a listing of agents has no links. Lines are counted from 1.
#[derive(Clone, Copy, Debug, PartialEq, Eq)]
pub enum ListingFault {
    NoMemory,
    /// This line is the first that is no line of identifiers.
    Line(u64),
}

impl From<NoMemory> for ListingFault {
    ghost use Rattle.std.specs.Prelude.{◌≡◌};
    ghost use Rattle.kn_route.specs.declared.listing.ListingFault.TheVariants as Fault;

    ghost from_gives = { λ _ fault. fault ≡ Fault.NoMemory };

    fn from(_error: NoMemory) -> ListingFault {
        ListingFault::NoMemory
    }
}

fn identifiers_of(alloc: Global, text: &str) -> Result<Option<Identifiers>, NoMemory>
    ensures { IfOk result (λ identifiers. identifiers ≡ result_ok (identifiers_in text.now)) }
{
    match Identifiers::read(alloc, text) {
        Ok(identifiers) => Ok(Some(identifiers)),
        Err(IdFault::NoMemory) => Err(NoMemory),
        Err(IdFault::TooLong) => Ok(None),
        Err(IdFault::Kind { pair: _ }) => Ok(None),
    }
}

fn line_identifiers(alloc: Global, text: &[u8]) -> Result<Option<Identifiers>, NoMemory>
    ensures { IfOk result (λ identifiers. identifiers ≡ spec.line_identifiers text.now) }
{
    match str::from_utf8(text) {
        Ok(text) => identifiers_of(alloc, text),
        Err(_) => Ok(None),
    }
}

// What follows a leading `!`, if it is there.
fn strip_mark(line: &[u8]) -> Option<&[u8]>
    ensures { IsStripped 33 line.now result }
{
    match line {
        [b'!', rest @ ..] => Some(rest),
        _ => None,
    }
}

fn add_link(
    links: &mut Links,
    draining: bool,
    identifiers: Option<Identifiers>,
) -> Result<(), ListingFault>
    requires { links.old.top + 1 < 2 ^ 64 }
    ensures { MatchResult result
        (λ _. spec.with_next links.old draining identifiers ≡ Ok links.new)
        (spec.IsFaultOf (spec.with_next links.old draining identifiers)) }
{
    let number = links.top() + 1;
    match identifiers {
        None => Err(ListingFault::Line(number)),
        Some(identifiers) => {
            links.up(number, identifiers)?;
            if draining {
                links.drain(number);
            }
            Ok(())
        }
    }
}

fn add_line(links: &mut Links, alloc: Global, line: &[u8]) -> Result<(), ListingFault>
    requires { links.old.top + 1 < 2 ^ 64 }
    ensures { MatchResult result
        (λ _. spec.with_line links.old line.now ≡ Ok links.new)
        (spec.IsFaultOf (spec.with_line links.old line.now)) }
{
    match strip_mark(line) {
        Some(rest) => {
            let identifiers = line_identifiers(alloc, rest)?;
            add_link(links, true, identifiers)
        }
        None => {
            let identifiers = line_identifiers(alloc, line)?;
            add_link(links, false, identifiers)
        }
    }
}

fn first_line(bytes: &[u8]) -> (&[u8], &[u8])
    requires { 0 < length bytes.now }
    ensures lines { spec.lines_of bytes.now ≡ result.0.now ∷ spec.lines_of result.1.now }
    ensures shorter { length result.1.now < length bytes.now }
{
    let (line, after) = first_part(bytes, b'\n');
    match after {
        Some(rest) => (line, rest),
        None => (line, &[]),
    }
}

fn read_lines(alloc: Global, bytes: &[u8]) -> Result<Links, ListingFault>
    ensures { spec.IsListingAnswer (steps spec.with_line no_links (spec.lines_of bytes.now)) result }
{
    let mut links = Links::new(alloc);
    let mut rest = bytes;
    while !rest.is_empty() {
        let (line, after) = first_line(rest);
        add_line(&mut links, alloc, line)?;
        rest = after;
    }
    Ok(links)
}

/// Reads a listing: each line has the identifiers of one link, a leading `!` marks a draining link, and links
/// are numbered from 1 in the order of the lines. A line ends with a line feed, which the last may lack.
#[tactic(auto, unfolding(crate::specs::Listing::links_in))]
pub fn read_links(alloc: Global, bytes: &[u8]) -> Result<Links, ListingFault>
    ensures { spec.IsListingAnswer (spec.links_in bytes.now) result }
{
    read_lines(alloc, bytes)
}

fn pick_line(alloc: Global, strategy: &Strategy, link: u64) -> Result<String, AllocError>
    ensures { IfOk result (λ line. string_bytes line ≡ spec.printed_pick strategy.now link) }
{
    let name = strategy.name();
    format!(in alloc; "{name} {link}\n")
}

/// The line that is printed of a choice: the strategy's name and the link's number, or `none`.
#[tactic(auto, unfolding(crate::specs::Listing::printed_choice))]
pub fn show_choice(alloc: Global, choice: &Option<(Strategy, u64)>) -> Result<Text, NoMemory>
    ensures { IfOk result (λ line. line ≡ spec.printed_choice choice.now) }
{
    match choice {
        None => Text::of(alloc, "none\n"),
        Some((strategy, link)) => {
            let line = pick_line(alloc, strategy, *link)?;
            Text::of(alloc, line.as_str())
        }
    }
}
