ghost use Rattle.std.specs.Prelude.{ℕ, ◌≡◌, ◌<◌, ◌+◌, ◌*◌, slice_range, slice_get, Some, IfSome, ◌&&◌};
ghost use Rattle.kn_hpack.specs.Fields.{pair};
ghost use Rattle.kn_hpack.specs.StaticTable.{static_table, place_in, same};
ghost use Rattle.kn_hpack.specs.StaticText.{static_text, end_at};

// The texts of the fields joined, each name before its value, and where each ends. Written by tables.py.
#[rattlefmt::skip]
static TEXT: [u8; 684] = *b":authority:methodGET:methodPOST:path/:path/index.html:schemehttp:schemehttps:status200:status204:status206:status304:status400:status404:status500accept-charsetaccept-encodinggzip, deflateaccept-languageaccept-rangesacceptaccess-control-allow-originageallowauthorizationcache-controlcontent-dispositioncontent-encodingcontent-languagecontent-lengthcontent-locationcontent-rangecontent-typecookiedateetagexpectexpiresfromhostif-matchif-modified-sinceif-none-matchif-rangeif-unmodified-sincelast-modifiedlinklocationmax-forwardsproxy-authenticateproxy-authorizationrangerefererrefreshretry-afterserverset-cookiestrict-transport-securitytransfer-encodinguser-agentvaryviawww-authenticate";

#[rattlefmt::skip]
static ENDS: [u16; 123] = [
    0, 10, 10, 17, 20, 27, 31, 36, 37, 42, 53, 60, 64, 71, 76, 83, 86, 93, 96, 103, 106, 113, 116,
    123, 126, 133, 136, 143, 146, 160, 160, 175, 188, 203, 203, 216, 216, 222, 222, 249, 249, 252,
    252, 257, 257, 270, 270, 283, 283, 302, 302, 318, 318, 334, 334, 348, 348, 364, 364, 377, 377,
    389, 389, 395, 395, 399, 399, 403, 403, 409, 409, 416, 416, 420, 420, 424, 424, 432, 432, 449,
    449, 462, 462, 470, 470, 489, 489, 502, 502, 506, 506, 514, 514, 526, 526, 544, 544, 563, 563,
    568, 568, 575, 575, 582, 582, 593, 593, 599, 599, 609, 609, 634, 634, 651, 651, 661, 661, 665,
    665, 668, 668, 684, 684,
];

#[tactic(auto, unfolding(crate::specs::StaticText::static_text))]
fn text() -> &'static [u8]
    ensures { result.now ≡ static_text }
{
    &TEXT
}

#[tactic(auto, unfolding(crate::specs::StaticText::end_at))]
fn end_at(at: usize) -> usize
    requires { at < 123 }
    ensures { result ≡ end_at at }
{
    usize::from(ENDS[at])
}

/// The text between two ends.
#[tactic(auto, using(crate::proofs::StaticFacts::ends_rise, crate::proofs::StaticFacts::ends_fit))]
fn part(at: usize) -> &'static [u8]
    requires { at < 122 }
    ensures { result.now ≡ slice_range static_text (end_at at) (end_at (at + 1)) }
{
    let start = end_at(at);
    let end = end_at(at + 1);
    let text = text();
    &text[start..end]
}

/// A field of the static table, from 0 (RFC 7541, appendix A).
pub fn static_field(place: usize) -> (&'static [u8], &'static [u8])
    requires { place < 61 }
    ensures { slice_get static_table place ≡ Some (pair result.0.now result.1.now) }
{
    (part(2 * place), part(2 * place + 1))
}

fn is_same(some_name: &[u8], some_value: &[u8], name: &[u8], value: &[u8]) -> bool
    ensures { result ≡ (same some_name.now name.now && same some_value.now value.now) }
{
    some_name == name && some_value == value
}

/// Where a field stands in the static table, from 0.
#[tactic(auto, using(crate::proofs::IndexFacts::place_none))]
pub fn static_place(name: &[u8], value: &[u8]) -> Option<u8>
    ensures place { result ≡ place_in static_table 0 (pair name.now value.now) }
    ensures bound { IfSome result (λ i. i < 61) }
{
    for place in 0..61u8 {
        let (some_name, some_value) = static_field(usize::from(place));
        if is_same(some_name, some_value, name, value) {
            return Some(place);
        }
    }
    None
}
