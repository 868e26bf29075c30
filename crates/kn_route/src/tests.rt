use super::*;
use std::test::Fail;

#[test]
fn reads_addresses(rt: HostRuntime) {
    let table = [
        ("1.2.3.4", Some(Address::V4(0x0102_0304))),
        ("255.255.255.255", Some(Address::V4(0xffff_ffff))),
        ("256.1.1.1", None),
        ("01.2.3.4", None),
        ("1.2.3.4.5", None),
        ("1.2.3", None),
        ("", None),
        ("::", Some(Address::V6(0))),
        (
            "1:2:3:4:5:6:7::",
            Some(Address::V6(0x0001_0002_0003_0004_0005_0006_0007_0000)),
        ),
        (
            "2001:DB8::1",
            Some(Address::V6(0x2001_0db8_0000_0000_0000_0000_0000_0001)),
        ),
        ("::ffff:10.0.0.1", Some(Address::V6(0xffff_0a00_0001))),
        (
            "1:2:3:4:5:6:1.2.3.4",
            Some(Address::V6(0x0001_0002_0003_0004_0005_0006_0102_0304)),
        ),
        ("1:2:3:4:5:6:7:1.2.3.4", None),
        ("1.2.3.4::", None),
        ("1::2::3", None),
        ("12345::", None),
        (":::", None),
        ("fe80::1%eth0", None),
    ];
    for (text, address) in table {
        assert_eq!(rt; address_of(text), address, "at {text}");
    }
}

#[test]
fn reads_ranges(rt: HostRuntime) {
    let table = [
        ("10.0.0.0/24", "10.0.0.9", true),
        ("10.0.0.0/24", "10.0.1.9", false),
        ("10.0.0.9/24", "10.0.0.1", true),
        ("0.0.0.0/0", "255.0.0.1", true),
        ("0.0.0.0/0", "::1", false),
        ("10.0.0.9/32", "10.0.0.8", false),
        ("::/0", "ffff::", true),
        ("8000::/1", "ffff::", true),
        ("8000::/1", "7fff::", false),
        ("::1/128", "::1", true),
        ("10.0.0.9/33", "10.0.0.9", false),
        ("::1/129", "::1", false),
        ("::1/00", "::1", false),
        ("::1/+1", "::1", false),
        ("::1/", "::1", false),
        ("::1", "::1", false),
        ("10.0.0.9/8/8", "10.0.0.9", false),
    ];
    for (text, address, holds) in table {
        let held = match (range_of(text), address_of(address)) {
            (Some(range), Some(address)) => range.holds(&address),
            _ => false,
        };
        assert_eq!(rt; held, holds, "{text} and {address}");
    }
}

#[test]
fn finds_hosts(rt: HostRuntime) {
    let table = [
        ("10.0.0.1:80", Ok("10.0.0.1")),
        ("[::1]:443", Ok("::1")),
        ("[a]b]:1", Err(HostFault::NoPort)),
        ("db:00080", Ok("db")),
        ("::1:443", Err(HostFault::Bracket)),
        ("[::1:443", Err(HostFault::Bracket)),
        ("db", Err(HostFault::NoPort)),
        ("[::1]443", Err(HostFault::NoPort)),
        (":80", Err(HostFault::Empty)),
        ("[]:80", Err(HostFault::Empty)),
        (":x", Err(HostFault::Empty)),
        ("db:", Err(HostFault::PortNumber)),
        ("db:0", Err(HostFault::PortNumber)),
        ("db:65536", Err(HostFault::PortNumber)),
        ("db:000080", Err(HostFault::PortNumber)),
        ("db:+80", Err(HostFault::PortNumber)),
    ];
    for (address, host) in table {
        assert!(rt; host_of(address) == host, "at {address}");
    }
}

#[test]
fn limits_addresses(rt: HostRuntime) -> Result<(), Fail> {
    let mut address = String::new(rt.alloc());
    for _ in 0..296 {
        address.push('a')?;
    }
    address.push_str("b:80")?;
    assert_eq!(rt; address.len(), 300);
    assert!(rt; host_of(&address).is_ok());
    address.push('0')?;
    assert!(rt; host_of(&address) == Err(HostFault::TooLong));
    Ok(())
}

#[test]
fn reads_identifiers(rt: HostRuntime) -> Result<(), Fail> {
    let text = "host=db&ipv4=10.0.0.1&&default-route=true&host=a+b%2C&uid=";
    let pairs = [
        (IdKind::Host, "db"),
        (IdKind::Ipv4, "10.0.0.1"),
        (IdKind::DefaultRoute, "true"),
        (IdKind::Host, "a b,"),
        (IdKind::Uid, ""),
    ];
    let identifiers = Identifiers::read(rt.alloc(), text).ok().ok_or("read")?;
    assert_eq!(rt; identifiers.len(), pairs.len());
    for (index, (kind, value)) in pairs.into_iter().enumerate() {
        assert!(rt; index < identifiers.len());
        assert_eq!(rt; identifiers.kind(index), kind, "at {index}");
        assert_eq!(rt; identifiers.value(index), value, "at {index}");
    }
    let empty = Identifiers::read(rt.alloc(), "").ok().ok_or("empty")?;
    assert_eq!(rt; empty.len(), 0);
    for (text, pair) in [("color=red", 1), ("host=a&&Host=b&x", 2), ("=", 1)] {
        let fault = Identifiers::read(rt.alloc(), text).err().ok_or("refused")?;
        assert_eq!(rt; fault, IdFault::Kind { pair }, "at {text}");
    }
    Ok(())
}

#[test]
fn limits_identifiers(rt: HostRuntime) -> Result<(), Fail> {
    let mut text = String::from_str(rt.alloc(), "host=")?;
    for _ in 0..10_235 {
        text.push('a')?;
    }
    assert_eq!(rt; text.len(), IDENTIFIERS_LIMIT);
    assert!(rt; Identifiers::read(rt.alloc(), &text).is_ok());
    text.push('a')?;
    let fault = Identifiers::read(rt.alloc(), &text).err().ok_or("refused")?;
    assert_eq!(rt; fault, IdFault::TooLong);
    assert!(rt; Identifiers::read_long(rt.alloc(), &text).is_ok());
    Ok(())
}

#[test]
fn reads_strategies(rt: HostRuntime) -> Result<(), Fail> {
    let list = Strategies::read(rt.alloc(), "defaultRoute,destHost,default");
    let list = list.ok().ok_or("read")?;
    assert_eq!(rt; list.len(), 3);
    assert_eq!(rt; list.at(0), Strategy::DefaultRoute);
    assert_eq!(rt; list.at(1).name(), "destHost");
    assert_eq!(rt; list.at(2), Strategy::Default);
    let table = [
        ("", StrategyFault::Empty),
        ("x", StrategyFault::Unknown { place: 1 }),
        ("default,", StrategyFault::Unknown { place: 2 }),
        ("x,default,default", StrategyFault::Unknown { place: 1 }),
        ("default,default,x", StrategyFault::Repeat { place: 2 }),
        ("default,x,default", StrategyFault::Unknown { place: 2 }),
        ("destHost, default", StrategyFault::Unknown { place: 2 }),
    ];
    for (text, expected) in table {
        let fault = Strategies::read(rt.alloc(), text).err().ok_or("refused")?;
        assert_eq!(rt; fault, expected, "at {text}");
    }
    Ok(())
}

#[test]
fn keeps_links(rt: HostRuntime) -> Result<(), Fail> {
    let alloc = rt.alloc();
    let mut links = Links::new(alloc);
    assert!(rt; links.top() == 0);
    links.up(3, Identifiers::new(alloc)).ok().ok_or("up")?;
    links.up(5, Identifiers::new(alloc)).ok().ok_or("up")?;
    links.up(8, Identifiers::new(alloc)).ok().ok_or("up")?;
    links.drain(5);
    links.drain(4);
    links.down(8);
    links.down(1);
    assert!(rt; links.has(5) && !links.has(8));
    assert_eq!(rt; links.top(), 8);
    let marks = links.marks(alloc).ok().ok_or("marks")?;
    assert_eq!(rt; marks.len(), 2);
    assert!(rt; marks.at(0) == (3, false));
    assert!(rt; marks.at(1) == (5, true));
    assert_eq!(rt; links.len(), 2);
    Ok(())
}

// What is printed for a dial, or the number of the first bad line.
fn routed(
    rt: &HostRuntime,
    list: &str,
    address: &str,
    dial: u64,
    listing: &[u8],
) -> Result<Result<String, u64>, Fail> {
    let alloc = rt.alloc();
    let strategies = Strategies::read(alloc, list).ok().ok_or("strategies")?;
    let host = host_of(address).ok().ok_or("host")?;
    match read_links(alloc, listing) {
        Ok(links) => {
            let line = show_choice(alloc, &links.pick(&strategies, host, dial));
            let line = line.ok().ok_or("memory")?;
            Ok(Ok(String::from_str(alloc, line.as_str())?))
        }
        Err(ListingFault::Line(line)) => Ok(Err(line)),
        Err(ListingFault::NoMemory) => Err("memory")?,
    }
}

#[test]
fn routes(rt: HostRuntime) -> Result<(), Fail> {
    let table = [
        (
            "destHost,default",
            "db:80",
            1,
            b"!host=db\n\n".as_slice(),
            Ok("destHost 1\n"),
        ),
        (
            "destHost,default",
            "db:80",
            1,
            b"!host=db\nhost=db".as_slice(),
            Ok("destHost 2\n"),
        ),
        ("destHost,default", "db:80", 1, b"".as_slice(), Ok("none\n")),
        (
            "destHost,default",
            "db:80",
            1,
            b"color=red".as_slice(),
            Err(1),
        ),
        (
            "destHost",
            "10.0.0.9:80",
            1,
            b"cidr=10.0.0.0/24".as_slice(),
            Ok("destHost 1\n"),
        ),
        (
            "destHost",
            "10.0.1.9:80",
            1,
            b"cidr=10.0.0.0/24".as_slice(),
            Ok("none\n"),
        ),
        (
            "destHost",
            "[0:0:0:0:0:0:0:1]:443",
            1,
            b"ipv6=::1".as_slice(),
            Ok("destHost 1\n"),
        ),
        (
            "destHost",
            "10.0.0.1:80",
            1,
            b"ipv4=010.0.0.1".as_slice(),
            Ok("none\n"),
        ),
        (
            "destHost",
            "db:80",
            1,
            b"host=DB".as_slice(),
            Ok("destHost 1\n"),
        ),
        (
            "destHost",
            "10.0.0.9:80",
            1,
            b"cidr=0.0.0.0/0".as_slice(),
            Ok("destHost 1\n"),
        ),
        (
            "destHost",
            "10.0.0.9:80",
            1,
            b"cidr=10.0.0.9/33".as_slice(),
            Ok("none\n"),
        ),
        (
            "destHost",
            "[::ffff:10.0.0.1]:80",
            1,
            b"ipv4=10.0.0.1".as_slice(),
            Ok("none\n"),
        ),
        ("default", "db:80", 1, b"\n\xff\nx".as_slice(), Err(2)),
        ("default", "db:80", 1, b"!\xc3\xa9=1".as_slice(), Err(1)),
        (
            "default",
            "db:80",
            7,
            b"\n!\n\n\n".as_slice(),
            Ok("default 3\n"),
        ),
        (
            "destHost,defaultRoute,default",
            "[:::]:80",
            2,
            b"!cidr=10.0.%30%2E9/3%32\ncidr=10.0.0.8/29&host=1:%32:3:4:5:6:1.2%2E3.4&cidr=800%30::/1\n\nhos%74=%32001:db8::1&uid=0:0:0:0:0:0%3a%30:1\n!cidr=10.0.0.9/32\n".as_slice(),
            Ok("default 4\n"),
        ),
        (
            "defaultRoute,destHost,default",
            "[1::2::3]:80",
            3,
            b"default-route=true\nipv6=a%20b\n!host=::1%2e%32.3.4&&uid=1%2E2.3.4\n".as_slice(),
            Ok("defaultRoute 1\n"),
        ),
        (
            "destHost,defaultRoute,default",
            "[::2:3:4:5:6:7:8]:80",
            2,
            b"!default-route=true&ipv6=::1&host=0.0.0.0\n".as_slice(),
            Ok("defaultRoute 1\n"),
        ),
        (
            "destHost,defaultRoute,default",
            "[2001:db8::0:1]:80",
            9223372036854775806,
            b"!cidr=%2F0\nipv6=::000%301&&default-route=TRUE&&default-route=true\n!\n\n".as_slice(),
            Ok("defaultRoute 2\n"),
        ),
        (
            "destHost,default",
            "0.0.0.0:80",
            5,
            b"default-route=true%20&&color=red&&host=2001:DB8:0:0:0:%30:%30:1\n!host=%3a:1.2.3.4\n!host=0.0.0%2e0&&uid=db\n".as_slice(),
            Err(1),
        ),
        (
            "default,destHost,defaultRoute",
            "É:80",
            4,
            b"!default-route=true&default-route=%74rue%20&ipv4=fe80::1%25eth0\ndefault-route=fal%73e\nhost=:1:2:3:4:5:6:7&&host=%c3%a9\ndefault-route=tr%75e&host=1:2:3:4:5:6:1.2.3.4\n".as_slice(),
            Ok("default 3\n"),
        ),
    ];
    for (list, address, dial, listing, expected) in table {
        match (routed(&rt, list, address, dial, listing)?, expected) {
            (Ok(line), Ok(expected)) => assert_eq!(rt; line.as_str(), expected, "at {address}"),
            (Err(line), Err(expected)) => assert_eq!(rt; line, expected, "at {address}"),
            _ => assert!(rt; false, "at {address}"),
        }
    }
    Ok(())
}
