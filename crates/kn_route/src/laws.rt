ghost use Rattle.std.specs.Prelude.{◌≡◌, ◌<◌, ◌++◌, ◌∷◌, [], length, List, ℕ, Some, None, Ok, All, IsTrue};
ghost use Rattle.kn_route.specs.declared.address.Address.{Address};
ghost use Rattle.kn_route.specs.declared.address.Range.{Range};
ghost use Rattle.kn_route.specs.declared.id_kind.IdKind.{IdKind};
ghost use Rattle.kn_route.specs.declared.strategy.Strategy.{Strategy};
ghost use Rattle.kn_route.specs.declared.link.Link.{Link};
ghost use Rattle.kn_route.specs.Addresses.{IsAddress, address_in};
ghost use Rattle.kn_route.specs.Ranges.{IsRange, range_in};
ghost use Rattle.kn_route.specs.Hosts.{host_in};
ghost use Rattle.kn_route.specs.HostTexts.{IsHost};
ghost use Rattle.kn_route.specs.Identifiers.{identifiers_in};
ghost use Rattle.kn_route.specs.Lists.{AreIdentifiers, IsStrategyList};
ghost use Rattle.kn_route.specs.Strategies.{strategies_in};
ghost use Rattle.kn_route.specs.LinkLists.{LinkList};
ghost use Rattle.kn_route.specs.Listing.{links_in, lines_of};
ghost use Rattle.kn_route.specs.Listings.{IsListing, AreLines};
ghost use Rattle.kn_route.specs.Meanings.{fits};
ghost use Rattle.kn_route.specs.Choice.{is_of, pick};
ghost use Rattle.kn_route.specs.Picks.{IsPick, HasNone};
ghost use Rattle.kn_route.specs.Fitting.{Speaks, IsOf};

/// The address that is read of a text is the one that the text spells, by the grammar alone.
pub fn addresses_as_spelled()
    ensures address { (text : List ℕ) (a : Address) → address_in text ≡ Some a → IsAddress text a }
    ensures only_address { (text : List ℕ) (a : Address) → IsAddress text a → address_in text ≡ Some a }
{}

/// The range that is read of a text is the one that the text spells, by the grammar alone.
pub fn ranges_as_spelled()
    ensures range { (text : List ℕ) (r : Range) → range_in text ≡ Some r → IsRange text r }
    ensures only_range { (text : List ℕ) (r : Range) → IsRange text r → range_in text ≡ Some r }
{}

/// The host that is read of a dial's address is the one that the address spells: `HOST:PORT` or
/// `[HOST]:PORT`.
pub fn hosts_as_spelled()
    ensures host { (address host : List ℕ) → host_in address ≡ Ok host → IsHost address host }
    ensures only_host { (address host : List ℕ) → IsHost address host → host_in address ≡ Ok host }
{}

/// The identifiers that are read of a text are the pairs of its form, of at most 10,240 bytes, each with the
/// kind of its name.
pub fn identifiers_as_spelled()
    ensures pairs { (text : List ℕ) (pairs : List (IdKind × List ℕ)) → identifiers_in text ≡ Ok pairs → AreIdentifiers text pairs }
    ensures only_pairs { (text : List ℕ) (pairs : List (IdKind × List ℕ)) → AreIdentifiers text pairs → identifiers_in text ≡ Ok pairs }
{}

/// The strategies that are read of a text are those whose names it has, with commas between them: one at
/// least, and none twice.
pub fn strategies_as_spelled()
    ensures strategies { (text : List ℕ) (strategies : List Strategy) → strategies_in text ≡ Ok strategies → IsStrategyList text strategies }
    ensures only_strategies { (text : List ℕ) (strategies : List Strategy) → IsStrategyList text strategies → strategies_in text ≡ Ok strategies }
{}

/// The links that are read of a listing are those of its lines, one for each, in their order. Each line ends
/// with a line feed, which the last may lack.
pub fn listings_by_lines()
    // All bytes are lines, each with its line feed, and what follows the last line feed, which is a line
    // where it is not empty.
    ensures lines { (bytes : List ℕ) → (lines : List (List ℕ)) × (rest : List ℕ) × AreLines bytes lines rest }
    ensures whole { (bytes : List ℕ) (lines : List (List ℕ)) → AreLines bytes lines [] → lines_of bytes ≡ lines }
    ensures unended { (bytes : List ℕ) (lines : List (List ℕ)) (rest : List ℕ) → AreLines bytes lines rest → 0 < length rest → lines_of bytes ≡ lines ++ rest ∷ [] }

    ensures listing { (bytes : List ℕ) (list : LinkList) → links_in bytes ≡ Ok list → IsListing bytes list }
    ensures only_listing { (bytes : List ℕ) (list : LinkList) → IsListing bytes list → links_in bytes ≡ Ok list }
{}

/// A pair of identifiers fits a host exactly where the table says so, and a link is one of a strategy for a
/// host exactly where one of its pairs is.
pub fn fits_by_table()
    ensures fits { (host value : List ℕ) (kind : IdKind) → IsTrue (fits host (kind, value)) → Speaks kind value host }
    ensures only_fits { (host value : List ℕ) (kind : IdKind) → Speaks kind value host → IsTrue (fits host (kind, value)) }
    ensures link { (strategy : Strategy) (host : List ℕ) (link : Link) → IsTrue (is_of strategy host link) → IsOf strategy host link }
    ensures only_link { (strategy : Strategy) (host : List ℕ) (link : Link) → IsOf strategy host link → IsTrue (is_of strategy host link) }
{}

/// What is picked is the number of a link of the first strategy that has one for the host, and it drains only
/// where all links of that strategy for the host do. Nothing is picked where no strategy has a link.
pub fn picks_by_strategy()
    ensures picked { (strategies : List Strategy) (links : List Link) (host : List ℕ) (dial : ℕ) (strategy : Strategy) (number : ℕ) →
        pick strategies links host dial ≡ Some (strategy, number) → IsPick strategies links host strategy number }
    ensures none { (strategies : List Strategy) (links : List Link) (host : List ℕ) (dial : ℕ) → pick strategies links host dial ≡ None → All (HasNone links host) strategies }
{}
