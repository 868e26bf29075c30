use super::*;
use std::test::Fail;

/// The line of the packet that the bytes read as, or the place and the text of their fault.
fn shown(rt: &HostRuntime, bytes: &[u8]) -> Result<String, Fail> {
    match view(bytes) {
        Ok(packet) => Ok(String::from_str(rt.alloc(), show(rt.alloc(), &packet)?.as_str())?),
        Err(fault) => {
            let place = fault.place;
            let reason = fault.reason;
            Ok(format!(in rt.alloc(); "offset {place}: {reason}")?)
        }
    }
}

#[test]
fn packets_and_faults(rt: HostRuntime) -> Result<(), Fail> {
    let cases = [
        (b"".as_slice(), "DIAL_REQ protocol= address= random=0"),
        (
            b"\x12\x14\x0a\x03\x74\x63\x70\x12\x0b\x31\x30\x2e\x30\x2e\x30\x2e\x31\x3a\x38\x30\x18\x05".as_slice(),
            "DIAL_REQ protocol=tcp address=10.0.0.1:80 random=5",
        ),
        (
            b"\x12\x14\x0a\x03\x74\x63\x70\x12\x0b\x31\x30\x2e\x30\x2e\x30\x2e\x31\x3a\x38\x30\x18".as_slice(),
            "offset 0: cut",
        ),
        (
            b"\x12\x0b\x18\xff\xff\xff\xff\xff\xff\xff\xff\xff\x01".as_slice(),
            "DIAL_REQ protocol= address= random=-1",
        ),
        (
            b"\x12\x0b\x18\xff\xff\xff\xff\xff\xff\xff\xff\xff\x02".as_slice(),
            "offset 2: bad varint",
        ),
        (
            b"\x08\x04\x22\x06\x08\x01\x1a\x02\x61\x62\x2a\x02\x08\x07\x22\x04\x1a\x02\x63\x64".as_slice(),
            "DATA connectID=0 error= data=6364",
        ),
        (
            b"\x08\x04\x22\x06\x08\x01\x1a\x02\x61\x62\x22\x04\x1a\x02\x63\x64".as_slice(),
            "DATA connectID=1 error= data=6364",
        ),
        (b"\x08\x09".as_slice(), "OTHER type=9"),
        (
            b"\x08\x04\x12\x02\x18\x05".as_slice(),
            "DATA connectID=0 error= data=",
        ),
        (b"\x22\x03\x08\x01\x1a".as_slice(), "offset 4: bad length"),
    ];
    for (bytes, line) in cases {
        assert_eq!(rt; shown(&rt, bytes)?.as_str(), line);
    }
    Ok(())
}

#[test]
fn fields_that_are_odd(rt: HostRuntime) -> Result<(), Fail> {
    let cases = [
        (b"\x83".as_slice(), "offset 0: cut"),
        (
            b"\x08\x02\x2a\x0b\x08\xfe\xff\xff\xff\xff\xff\xff\xff\xff\x01".as_slice(),
            "CLOSE_REQ connectID=-2",
        ),
        (
            b"\x08\x80\x80\x80\x80\x80\x80\x80\x80\x80\x80\x00".as_slice(),
            "offset 0: bad varint",
        ),
        (
            b"\x00\x80\x80\x80\x80\x80\x80\x80\x80\x80\x80\x00".as_slice(),
            "offset 0: bad varint",
        ),
        (b"\x00\x80".as_slice(), "offset 0: field zero"),
        (b"\x07".as_slice(), "offset 0: bad wire type"),
        (
            b"\x08\x05\x3a\x02\x08\x01\x2a\x00\x3a\x00\x2a\x00\x3a\x02\x08\x03".as_slice(),
            "DIAL_CLS random=3",
        ),
        (
            b"\x08\x02\x2a\x02\x08\x07\x2d\x01\x02\x03\x04\x29\x01\x02\x03\x04\x05\x06\x07\x08".as_slice(),
            "CLOSE_REQ connectID=7",
        ),
        (
            b"\x12\x03\x0a\x01\xff\x2a\x00".as_slice(),
            "offset 2: not utf-8",
        ),
        (
            b"\x08\x03\x32\x04\x0a\x02\x0a\x5c".as_slice(),
            "CLOSE_RSP error=\\x0a\\x5c connectID=0",
        ),
        (b"\x08\x06".as_slice(), "DRAIN"),
    ];
    for (bytes, line) in cases {
        assert_eq!(rt; shown(&rt, bytes)?.as_str(), line);
    }
    Ok(())
}

#[test]
fn packets_of_others(rt: HostRuntime) -> Result<(), Fail> {
    let cases = [
        (
            b"\x10\xff\xff\xff\xff\xff\xff\xff\xff\x7f\x08\x05\xc2\x80\x80\x00\x08\x0a\x00\xda\x80\x00\x02\xd6\x93\x42\x00\x42\x06\x5a\x04\x8a\x8c\xac\x9f\x1a\x16\x8a\x80\x80\x80\x80\x80\x00\x03\x61\x3a\x31\x10\x01\x80\x80\x80\x80\x80\x80\x80\x80\x01".as_slice(),
            "offset 50: bad length",
        ),
        (
            b"\x88\x80\x80\x80\x80\x80\x00\x04\x22\x17\x12\x04\xf0\x9f\x98\x80\x08\x80\x80\x80\x80\x80\x80\x80\x80\x80\x01\x1a\x04\x74\x63\x70\xc3".as_slice(),
            "DATA connectID=-9223372036854775808 error=\\xf0\\x9f\\x98\\x80 data=746370c3",
        ),
        (
            b"\x1a\x1a\x18\xfe\xff\xff\xff\xff\xff\xff\xff\xff\x01\x90\x80\x80\x80\x80\x80\x80\x00\x02\x10\xff\xff\xff\xff\x07\x1a\x00\x88\x00\x01".as_slice(),
            "DIAL_RSP error= connectID=2147483647 random=-2",
        ),
        (
            b"\x21\x0e\xe9\xd1\xa4\x20\x45\x37\x40\x08\x07\x2a\x02\x08\x05\x88\x80\x80\x80\x80\x80\x00\x02".as_slice(),
            "CLOSE_REQ connectID=5",
        ),
        (
            b"\xba\x80\x00\x12\x08\xfe\xff\xff\xff\xff\xff\xff\x7f\x08\xff\xff\xff\xff\x07\x08\x00\x08\xff\xff\xff\xff\x0f".as_slice(),
            "offset 21: bad length",
        ),
        (
            b"\x08\xff\xff\xff\xff\xff\xff\xff\xff\xff\x01\x08\x84\x80\x80\x80\x10".as_slice(),
            "DATA connectID=0 error= data=",
        ),
        (
            b"\x08\x83\x80\x80\x80\x80\x80\x01\x2a\x16\x88\x80\x80\x80\x80\x80\x00\xac\x82\x80\x00\x88\x80\x80\x00\x80\x80\x80\x80\x10\x08\x7f\x2a\x05\x08\xac\x02\x08\x7f\x2a\x03\x08\xac\x02\xb2\x80\x00\x0a\x10\xff\xff\xff\xff\xff\xff\xff\xff\x7f\x2a\x19\xa2\x80\x80\x80\x80\x00\x01\x81\x08\x80\x80\x80\x80\x10\x08\xff\xff\xff\xff\xff\xff\xff\xff\xff\x01\x2a\x0f\x08\x02\x08\xff\x01\x08\xff\xff\xff\xff\xff\xff\xff\xff\x7f".as_slice(),
            "CLOSE_RSP error= connectID=0",
        ),
    ];
    for (bytes, line) in cases {
        assert_eq!(rt; shown(&rt, bytes)?.as_str(), line);
    }
    Ok(())
}

#[test]
fn a_packet_that_is_owned_is_encoded(rt: HostRuntime) -> Result<(), Fail> {
    let bytes =
        b"\x12\x14\x0a\x03\x74\x63\x70\x12\x0b\x31\x30\x2e\x30\x2e\x30\x2e\x31\x3a\x38\x30\x18\x05";
    let packet = view(bytes).ok().ok_or("the bytes are a packet")?;
    let owned = own(rt.alloc(), packet)?;
    assert!(rt; is_encodable(&owned));
    assert_eq!(rt; encoded_len(&owned), 22);
    let mut room = [0; 22];
    encode_into(&owned, &mut room);
    assert_eq!(rt; room.as_slice(), bytes.as_slice());
    has_a_reading(bytes);
    has_one_reading();
    spelling_reads();
    Ok(())
}

#[test]
fn reasons_have_the_texts_that_they_display(rt: HostRuntime) -> Result<(), Fail> {
    let reasons = [
        PacketReason::Cut,
        PacketReason::Varint,
        PacketReason::Wire,
        PacketReason::FieldZero,
        PacketReason::Length,
        PacketReason::NotUtf8,
    ];
    for reason in reasons {
        assert_eq!(rt; reason.to_string(rt.alloc())?.as_str(), reason.as_str());
    }
    Ok(())
}
