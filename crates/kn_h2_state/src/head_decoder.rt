ghost use Rattle.std.specs.Prelude.{◌≡◌, [], Ok, Err};
ghost use Rattle.kn_hpack.specs.Fields.{table_of};
ghost use Rattle.kn_h2_state.specs.Decoded.{ReadsBlock, first_table};

use kn_hpack::{Decoder, Headers, HpackError, HpackFault};
use std::alloc::Global;
use std::marker::Model;

/// Why a header block gave no fields.
#[derive(Clone, Copy, Debug, PartialEq, Eq)]
pub enum HeadError {
    NoMemory,
    /// The block's first fault.
    Fault(HpackFault),
}

/// Reads the header blocks of the peer in their order. Contracts see it as its dynamic table. After an
/// error it is as new: the connection has failed, and reads no more blocks.
#[derive(Drop)]
pub struct HeadDecoder {
    decoder: Decoder,
}

impl Model for HeadDecoder {
    ghost use Rattle.std.specs.Prelude.{◌≡◌};
    ghost use Rattle.kn_hpack.specs.Fields.{Table};
    ghost use Rattle.kn_hpack.specs.declared.standing.Standing.TheVariants.{Reading};

    ghost Value = { Table };

    ghost view = { λ d. d.decoder.table };

    ghost invariant = { λ d. d.decoder.standing ≡ Reading };
}

impl HeadDecoder {
    /// A decoder with an empty dynamic table and the limit 4,096. Takes no memory.
    pub fn new(alloc: Global) -> HeadDecoder
        ensures { result ≡ first_table }
    {
        HeadDecoder {
            decoder: Decoder::new(alloc),
        }
    }

    /// The fields that a whole block stands for, or its first fault.
    pub fn block(&mut self, alloc: Global, block: &[u8]) -> Result<Headers, HeadError>
        ensures { ReadsBlock self.old block.now result self.new }
    {
        match self.decoder.block(alloc, block) {
            Ok(headers) => Ok(headers),
            Err(HpackError::Fault(fault)) => {
                self.decoder = Decoder::new(alloc);
                Err(HeadError::Fault(fault))
            }
            Err(HpackError::Failed(fault)) => {
                self.decoder = Decoder::new(alloc);
                Err(HeadError::Fault(fault))
            }
            Err(HpackError::NoMemory) => {
                self.decoder = Decoder::new(alloc);
                Err(HeadError::NoMemory)
            }
        }
    }
}
