// Texts that are read and written, and texts that are refused.
use flow_text::read_flow;
use numerals::read_number;
use std::test::Fail;
use text::Spelled;

// A text and the number that it writes, if it is that of one.
struct Numeral {
    text: &'static [u8],
    number: Option<u64>,
}

const NUMERALS: [Numeral; 9] = [
    Numeral {
        text: b"0",
        number: Some(0),
    },
    Numeral {
        text: b"407",
        number: Some(407),
    },
    Numeral {
        text: b"999999999999999999",
        number: Some(999_999_999_999_999_999),
    },
    Numeral {
        text: b"1000000000000000000",
        number: None,
    },
    Numeral {
        text: b"00",
        number: None,
    },
    Numeral {
        text: b"007",
        number: None,
    },
    Numeral {
        text: b"",
        number: None,
    },
    Numeral {
        text: b"+1",
        number: None,
    },
    Numeral {
        text: b"1a",
        number: None,
    },
];

#[test]
fn numbers(rt: HostRuntime) {
    for numeral in NUMERALS.iter() {
        assert_eq!(rt; read_number(numeral.text), numeral.number);
    }
}

// Texts that are those of no flow.
const NO_FLOW: [&[u8]; 9] = [
    b"10.0.0.256:80>10.0.0.2:81/6",
    b"10.0.0.1:65536>10.0.0.2:81/6",
    b"10.0.0.1:80>10.0.0.2:81/256",
    b"01.0.0.1:80>10.0.0.2:81/6",
    b"10.0.0:80>10.0.0.2:81/6",
    b"10.0.0.1:80>10.0.0.2:81",
    b"10.0.0.1:80>10.0.0.2:81/6 ",
    b"10.0.0.1.1:80>10.0.0.2:81/6",
    b"",
];

#[test]
fn no_flow(rt: HostRuntime) {
    for text in NO_FLOW.iter() {
        assert!(rt; read_flow(text).is_none());
    }
}

// Texts of flows at their limits.
const FLOWS: [&[u8]; 3] = [
    b"10.0.0.1:80>10.0.0.2:81/6",
    b"0.0.0.0:0>0.0.0.0:0/0",
    b"255.255.255.255:65535>255.255.255.255:65535/255",
];

#[test]
fn flows_written_as_read(rt: HostRuntime) -> Result<(), Fail> {
    let heap = rt.alloc();
    for text in FLOWS.iter() {
        let flow = read_flow(text).ok_or("not read")?;
        let mut out = Vec::new(heap);
        flow.write(&mut out)?;
        assert!(rt; out.as_slice() == *text);
    }
    Ok(())
}
