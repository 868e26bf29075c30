// What the definitions mean, for all bits, blocks and lists. A call gives its caller the facts, and does
// nothing.

ghost use Rattle.kn_hpack.specs.HuffmanLaws.{NoCodeBeginsAnother, TextIsHuff, HuffIsRead, EosIsThere, EosIsTold, PaddingIsBad, BadPaddingIsTold};
ghost use Rattle.kn_hpack.specs.Representations.{BlockIsRead, ReadIsBlock, FaultIsNoBlock, BlockIsOne};
ghost use Rattle.kn_hpack.specs.FirstFaults.{FaultIsThere, FaultIsTold};
ghost use Rattle.kn_hpack.specs.RoundTrip.{EncodedIsBlock, DecoderGivesBack};

/// The Huffman code (RFC 7541, section 5.2): no code begins another; a text is read exactly where the bits
/// are the join of its codes and at most seven one bits; and when each fault of a coded text is told.
pub fn huffman_laws()
    ensures no_code_begins_another { NoCodeBeginsAnother }
    ensures text_is_huff { TextIsHuff }
    ensures huff_is_read { HuffIsRead }
    ensures eos_is_there { EosIsThere }
    ensures eos_is_told { EosIsTold }
    ensures padding_is_bad { PaddingIsBad }
    ensures bad_padding_is_told { BadPaddingIsTold }
{}

/// A list is read of a block exactly where the block stands for it, one representation after the other
/// (RFC 7541, section 6); it then leaves the table that reading leaves. A block with a fault stands for
/// nothing, and no block stands for two lists.
pub fn block_laws()
    ensures block_is_read { BlockIsRead }
    ensures read_is_block { ReadIsBlock }
    ensures fault_is_no_block { FaultIsNoBlock }
    ensures block_is_one { BlockIsOne }
{}

/// The fault that is told of a block is its first in reading order: before its place stand representations
/// of fields, and there one that has it. Where there is such a fault it is told.
pub fn fault_laws()
    ensures fault_is_there { FaultIsThere }
    ensures fault_is_told { FaultIsTold }
{}

/// A block of the encoder stands for the list that it was made of, and a decoder that read all earlier
/// blocks of the encoder gives back the list, where the list counts at most 16,384.
pub fn round_trip_laws()
    ensures encoded_is_block { EncodedIsBlock }
    ensures decoder_gives_back { DecoderGivesBack }
{}
