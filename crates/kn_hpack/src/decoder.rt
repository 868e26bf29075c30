ghost use Rattle.std.specs.Prelude.{◌≡◌, []};
ghost use Rattle.kn_hpack.specs.Fields.{table_of};
ghost use Rattle.kn_hpack.specs.Blocks.{BlockGives, read_block, progress};
ghost use Rattle.kn_hpack.specs.Decoding.{Answers, Decodes, decoding};
ghost use Rattle.kn_hpack.specs.declared.standing.Standing.TheVariants.{Reading};

use crate::dynamic_table::Dynamic;
use crate::fault::{BlockError, HpackError, HpackFault, TextError};
use crate::gathered::Gathered;
use crate::headers::Headers;
use crate::representation::step;
use crate::standing::Standing;
use std::alloc::Global;
use std::marker::Model;

/// Reads the header blocks of one side of a connection, in their order. Contracts see it as its dynamic
/// table and whether it still reads.
#[derive(Drop)]
pub struct Decoder {
    table: Dynamic,
    standing: Standing,
}

impl Model for Decoder {
    ghost use Rattle.kn_hpack.specs.Decoding.{Decoding, decoding};

    ghost Value = { Decoding };

    ghost view = { λ d. decoding d.table d.standing };
}

/// The fields that a block stands for, or its first fault.
#[tactic(auto, unfolding(crate::specs::Blocks::read_block))]
fn read(alloc: Global, table: &mut Dynamic, block: &[u8]) -> Result<Headers, BlockError>
    ensures { BlockGives (λ fields. progress table.new fields) result (read_block table.old block.now) }
{
    let mut fields = Gathered::new(alloc);
    let mut rest = block;
    for _ in 0..block.len() {
        if rest.is_empty() {
            return Ok(fields.into_headers());
        }
        match step(alloc, table, &mut fields, rest) {
            Ok(after) => rest = after,
            Err(TextError::NoMemory) => return Err(BlockError::NoMemory),
            Err(TextError::Fault(reason)) => {
                let place = block.len().saturating_sub(rest.len());
                return Err(BlockError::Fault(HpackFault { place, reason }));
            }
        }
    }
    Ok(fields.into_headers())
}

impl Decoder {
    /// A decoder with an empty dynamic table and the limit 4,096. Takes no memory.
    pub fn new(alloc: Global) -> Decoder
        ensures { result ≡ decoding (table_of 4096 []) Reading }
    {
        Decoder {
            table: Dynamic::new(alloc),
            standing: Standing::Reading,
        }
    }

    /// The list that a whole block stands for, where `Err` is its first fault. Once a block had a fault
    /// every call answers `Failed` with it; once memory ran out every call answers `NoMemory`.
    ///
    /// Takes time linear in the block and in the fields that it stands for. A list counts at most 16,384.
    pub fn block(&mut self, alloc: Global, block: &[u8]) -> Result<Headers, HpackError>
        ensures { Decodes self.old block.now result self.new }
    {
        match self.standing {
            Standing::Reading => self.read_block(alloc, block),
            Standing::Failed(fault) => Err(HpackError::Failed(fault)),
            Standing::OutOfMemory => Err(HpackError::NoMemory),
        }
    }

    fn read_block(&mut self, alloc: Global, block: &[u8]) -> Result<Headers, HpackError>
        requires { self.old.standing ≡ Reading }
        ensures { Answers self.old.table block.now result self.new }
    {
        match read(alloc, &mut self.table, block) {
            Ok(headers) => Ok(headers),
            Err(BlockError::NoMemory) => {
                self.standing = Standing::OutOfMemory;
                Err(HpackError::NoMemory)
            }
            Err(BlockError::Fault(fault)) => {
                self.standing = Standing::Failed(fault);
                Err(HpackError::Fault(fault))
            }
        }
    }
}

#[cfg(test)]
mod tests {
    use super::*;
    use crate::fault::HpackReason;
    use std::alloc::AllocError;
    use std::process::Abort;
    use std::test::Fail;

    fn lines(alloc: Global, headers: &Headers) -> Result<Vec<u8>, AllocError> {
        let mut text = Vec::new(alloc);
        for index in 0..headers.len() {
            text.extend_from_slice(headers.name(index))?;
            text.extend_from_slice(b": ")?;
            text.extend_from_slice(headers.value(index))?;
            text.push(b'\n')?;
        }
        Ok(text)
    }

    // the blocks in turn, each with the list that it stands for
    fn reads(
        rt: &impl Abort,
        alloc: Global,
        decoder: &mut Decoder,
        blocks: &[(&[u8], &[u8])],
    ) -> Result<(), Fail> {
        for (block, list) in blocks {
            let headers = decoder.block(alloc, block)?;
            assert_eq!(rt; lines(alloc, &headers)?.as_slice(), *list);
        }
        Ok(())
    }

    fn error_of(alloc: Global, decoder: &mut Decoder, block: &[u8]) -> Option<HpackError> {
        match decoder.block(alloc, block) {
            Ok(_) => None,
            Err(error) => Some(error),
        }
    }

    // RFC 7541, appendices C.2.1, C.3 and C.4
    #[test]
    fn examples_of_the_standard(rt: HostRuntime) -> Result<(), Fail> {
        let alloc = rt.alloc();
        let literal = [(
            b"\x40\x0acustom-key\x0dcustom-header".as_slice(),
            b"custom-key: custom-header\n".as_slice(),
        )];
        reads(&rt, alloc, &mut Decoder::new(alloc), &literal)?;
        let first =
            b":method: GET\n:scheme: http\n:path: /\n:authority: www.example.com\n".as_slice();
        let second =
            b":method: GET\n:scheme: http\n:path: /\n:authority: www.example.com\ncache-control: no-cache\n".as_slice();
        let third =
            b":method: GET\n:scheme: https\n:path: /index.html\n:authority: www.example.com\ncustom-key: custom-value\n".as_slice();
        let plain = [
            (b"\x82\x86\x84\x41\x0fwww.example.com".as_slice(), first),
            (b"\x82\x86\x84\xbe\x58\x08no-cache".as_slice(), second),
            (
                b"\x82\x87\x85\xbf\x40\x0acustom-key\x0ccustom-value".as_slice(),
                third,
            ),
        ];
        reads(&rt, alloc, &mut Decoder::new(alloc), &plain)?;
        let coded = [
            (
                b"\x82\x86\x84\x41\x8c\xf1\xe3\xc2\xe5\xf2\x3a\x6b\xa0\xab\x90\xf4\xff".as_slice(),
                first,
            ),
            (
                b"\x82\x86\x84\xbe\x58\x86\xa8\xeb\x10\x64\x9c\xbf".as_slice(),
                second,
            ),
            (
                b"\x82\x87\x85\xbf\x40\x88\x25\xa8\x49\xe9\x5b\xa9\x7d\x7f\x89\x25\xa8\x49\xe9\x5b\xb8\xe8\xb4\xbf".as_slice(),
                third,
            ),
        ];
        reads(&rt, alloc, &mut Decoder::new(alloc), &coded)
    }

    #[test]
    fn blocks_at_the_edge(rt: HostRuntime) -> Result<(), Fail> {
        let alloc = rt.alloc();
        let mut decoder = Decoder::new(alloc);
        let blocks = [
            (b"".as_slice(), b"".as_slice()),
            // a limit of 4,096, and two limits before the first field
            (b"\x3f\xe1\x1f".as_slice(), b"".as_slice()),
            (b"\x20\x3f\x21\x82".as_slice(), b":method: GET\n".as_slice()),
            // 34 of the 64 that are the limit now
            (b"\x40\x01a\x01b".as_slice(), b"a: b\n".as_slice()),
            (b"\xbe".as_slice(), b"a: b\n".as_slice()),
            // never indexed, and without indexing: the table stays
            (
                b"\x10\x01c\x01d\x00\x01e\x01f\xbe".as_slice(),
                b"c: d\ne: f\na: b\n".as_slice(),
            ),
            // 34 more do not fit beside it
            (b"\x40\x01g\x01h\xbe".as_slice(), b"g: h\ng: h\n".as_slice()),
            // over the limit
            (
                b"\x40\x01i\x20jjjjjjjjjjjjjjjjjjjjjjjjjjjjjjjj".as_slice(),
                b"i: jjjjjjjjjjjjjjjjjjjjjjjjjjjjjjjj\n".as_slice(),
            ),
        ];
        reads(&rt, alloc, &mut decoder, &blocks)?;
        let fault = HpackFault {
            place: 1,
            reason: HpackReason::Index,
        };
        assert_eq!(rt;
            error_of(alloc, &mut decoder, b"\x82\xbe"),
            Some(HpackError::Fault(fault))
        );
        assert_eq!(rt;
            error_of(alloc, &mut decoder, b"\x82"),
            Some(HpackError::Failed(fault))
        );
        assert_eq!(rt;
            error_of(alloc, &mut decoder, b"\xff"),
            Some(HpackError::Failed(fault))
        );
        Ok(())
    }

    #[test]
    fn faults_with_their_places(rt: HostRuntime) -> Result<(), Fail> {
        let alloc = rt.alloc();
        let many = [0x82; 391];
        let cases = [
            (b"\x3f\xe2\x1f".as_slice(), 0, HpackReason::TableSize),
            (b"\x82\x20".as_slice(), 1, HpackReason::TableSize),
            (b"\x80".as_slice(), 0, HpackReason::Index),
            (b"\xbe".as_slice(), 0, HpackReason::Index),
            (b"\x82\x7e\x01a".as_slice(), 1, HpackReason::Index),
            // the last byte of the text ends in a zero bit
            (
                b"\x82\x86\x84\x41\x8c\xf1\xe3\xc2\xe5\xf2\x3a\x6b\xa0\xab\x90\xf4\xfe".as_slice(),
                3,
                HpackReason::Padding,
            ),
            (b"\x00\x01a\x81\x1e".as_slice(), 0, HpackReason::Padding),
            // one bits, but eight of them
            (b"\x00\x01a\x82\xf8\xff".as_slice(), 0, HpackReason::Padding),
            (
                b"\x00\x01a\x84\xff\xff\xff\xff".as_slice(),
                0,
                HpackReason::Eos,
            ),
            // five continuation bytes, six, and five of a block that ends there
            (
                b"\xff\x80\x80\x80\x80\x00".as_slice(),
                0,
                HpackReason::Index,
            ),
            (
                b"\xff\x80\x80\x80\x80\x80\x00".as_slice(),
                0,
                HpackReason::Integer,
            ),
            (b"\xff\x80\x80\x80\x80\x80".as_slice(), 0, HpackReason::Cut),
            (
                b"\xff\xff\xff\xff\xff\x0f".as_slice(),
                0,
                HpackReason::Integer,
            ),
            (b"\x82\x41\x05a".as_slice(), 1, HpackReason::Cut),
            (b"\x41".as_slice(), 0, HpackReason::Cut),
            // 390 fields of 42 are 16,380
            (many.as_slice(), 390, HpackReason::TooLarge),
        ];
        for (block, place, reason) in &cases {
            let fault = HpackFault {
                place: *place,
                reason: *reason,
            };
            assert_eq!(rt;
                error_of(alloc, &mut Decoder::new(alloc), block),
                Some(HpackError::Fault(fault))
            );
        }
        Ok(())
    }
}
