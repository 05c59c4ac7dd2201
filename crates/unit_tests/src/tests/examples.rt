// Keys and places on examples.
use crate::by_bytes::ByBytes;
use flows::Flow;
use keys::Kind;
use names::{Name, NameRecord};
use places::{Choices, Rule, fnv1a};
use rules::{Builtin, RuleName};
use std::test::Fail;

// A seed, a text and its word. With seed 0 the words are the published FNV-1a vectors; that of the
// empty text is left out, since no key is empty.
const WORDS: [(u32, &[u8], u32); 13] = [
    (0, b"a", 0xe40c_292c),
    (0, b"b", 0xe70c_2de5),
    (0, b"c", 0xe60c_2c52),
    (0, b"d", 0xe10c_2473),
    (0, b"e", 0xe00c_22e0),
    (0, b"f", 0xe30c_2799),
    (0, b"fo", 0x6222_e842),
    (0, b"foo", 0xa9f3_7ed7),
    (0, b"foob", 0x3f50_76ef),
    (0, b"fooba", 0x39aa_a18a),
    (0, b"foobar", 0xbf9c_f968),
    (1, b"a", 0xe50c_2abf),
    (0xffff_ffff, b"foobar", 0x6ff7_12cb),
];

fn named(text: &[u8]) -> Result<Name, Fail> {
    Ok(Name::new(text)?)
}

#[test]
fn words(rt: HostRuntime) -> Result<(), Fail> {
    for (seed, text, word) in WORDS {
        assert_eq!(rt; fnv1a(seed, &named(text)?), word);
    }
    Ok(())
}

// A rule, a number of buckets, and whether the rule is made with it.
const EDGES: [(RuleName, usize, bool); 18] = [
    (RuleName::Two, 0, false),
    (RuleName::Two, 2, true),
    (RuleName::Two, 3, false),
    (RuleName::Two, 512, true),
    (RuleName::Two, 514, false),
    (RuleName::Dig2, 0, false),
    (RuleName::Dig2, 1, true),
    (RuleName::Dig2, 512, true),
    (RuleName::Dig2, 513, false),
    (RuleName::Dig3, 0, false),
    (RuleName::Dig3, 1, true),
    (RuleName::Dig3, 512, true),
    (RuleName::Dig3, 513, false),
    (RuleName::Xor, 0, false),
    (RuleName::Xor, 1, true),
    (RuleName::Xor, 6, false),
    (RuleName::Xor, 512, true),
    (RuleName::Xor, 1024, false),
];

#[test]
fn sizes_at_their_edges(rt: HostRuntime) {
    for (name, buckets, made) in EDGES {
        assert!(rt; Builtin::new(name, buckets, 0).is_ok() == made);
    }
}

// A rule, its number of buckets, a name, and the choices of the name with seed 0.
const CHOSEN: [(RuleName, usize, &[u8], &[usize]); 6] = [
    (RuleName::Dig2, 4, b"a", &[0, 3]),
    (RuleName::Dig2, 4, b"b", &[1, 1]),
    (RuleName::Dig2, 3, b"a", &[1, 2]),
    (RuleName::Dig3, 4, b"a", &[0, 3, 2]),
    (RuleName::Two, 4, b"a", &[0, 2]),
    (RuleName::Xor, 4, b"b", &[1, 3]),
];

#[test]
fn choices_of_each_rule(rt: HostRuntime) -> Result<(), Fail> {
    for (name, n, text, buckets) in CHOSEN {
        let rule = Builtin::new(name, n, 0)?;
        assert!(rt; rule.choices(&named(text)?).as_slice() == buckets);
    }
    Ok(())
}

#[test]
fn lengths_of_names(rt: HostRuntime) {
    let text = b"0123456789abcdef";
    for n in 0..17usize {
        assert!(rt; Name::new(&text[0..n]).is_ok() == (1 <= n && n <= 15));
    }
}

#[test]
fn bytes_of_a_name(rt: HostRuntime) -> Result<(), Fail> {
    let name = named(&[0, 255, 10])?;
    assert!(rt; name.len() == 3 && name.byte(1) == 255 && name.byte(3) == 0);
    assert!(rt; name.same(&named(&[0, 255, 10])?));
    assert!(rt; !name.same(&named(&[0, 255])?));
    Ok(())
}

#[test]
fn records_of_names(rt: HostRuntime) -> Result<(), Fail> {
    let mut record = named(b"ab")?.record();
    assert!(rt; <Name as Kind>::restore(record).is_some());
    record.text[14] = 1;
    assert!(rt; <Name as Kind>::restore(record).is_none());
    let text = [0; 15];
    for len in 0..17usize {
        assert!(rt;
            <Name as Kind>::restore(NameRecord { text, len }).is_some() == (1 <= len && len <= 15)
        );
    }
    Ok(())
}

#[test]
fn bytes_of_a_flow(rt: HostRuntime) -> Result<(), Fail> {
    let flow = Flow {
        source: 0x0a00_0001,
        destination: 0x0a00_0002,
        source_port: 0x0150,
        destination_port: 81,
        protocol: 6,
    };
    let bytes = [10, 0, 0, 1, 10, 0, 0, 2, 1, 0x50, 0, 81, 6];
    for (i, b) in bytes.iter().enumerate() {
        assert_eq!(rt; flow.byte(i), *b);
    }
    assert_eq!(rt; <[u8; 13]>::from(flow), bytes);
    assert_eq!(rt; flow.byte(13), 0);
    assert_eq!(rt; flow.len(), 13);
    assert!(rt;
        <Flow as Kind>::restore(flow.record())
            .ok_or("no flow")?
            .same(&flow)
    );
    Ok(())
}

#[test]
fn rule_of_a_customer(rt: HostRuntime) -> Result<(), Fail> {
    let rule = ByBytes::new(100)?;
    let name = named(&[7, 213, 9])?;
    let choices = rule.choices(&name);
    assert_eq!(rt; choices, Choices::Two([7, 13]));
    assert!(rt; choices.len() == 2 && choices.at(1) == 13 && choices.at(2) == 0);
    let short = named(&[7])?;
    assert_eq!(rt; rule.choices(&short), Choices::Two([7, 0]));
    assert!(rt; ByBytes::new(0).is_err() && ByBytes::new(513).is_err());
    Ok(())
}
